// SVCODE0's building blocks (document 002, 1.2.1). A variable of a formula and the id of a stream are two numberings: each has a
// type of its own, and only an environment maps one to the other.

// The name of a value in a formula.
#[derive(Clone, Copy, Debug, PartialEq, Eq)]
pub struct Variable(pub u8);

// The name of a stream: its position among all streams of a run, inputs first.
#[derive(Clone, Copy, Debug, PartialEq, Eq)]
pub struct StreamId(pub usize);

// What a scalar is (001: int and bool).
#[derive(Clone, Copy, Debug, PartialEq, Eq)]
pub enum Base {
    Int,
    Bool,
}

// What the elements of a stream are. Bools are data, as ints are; flags only say where segments end.
#[derive(Clone, Copy, Debug, PartialEq, Eq)]
pub enum Kind {
    Ints,
    Bools,
    Flags,
    Units,
}

// A scalar operation on two ints.
#[derive(Clone, Copy, Debug, PartialEq, Eq)]
pub enum Operation {
    Plus,
    LessEqual,
    Equal,
}

// A transducer (002's Xducer) with its own operands: stream ids, and the constant where it has one.
#[derive(Clone, Copy, Debug, PartialEq, Eq)]
pub enum Transducer {
    Const(i32),
    ConstBool(bool),
    ToFlags(StreamId),
    B2u(StreamId),
    Usum(StreamId),
    MapTwo(Operation, StreamId, StreamId),
    MapOneNot(StreamId),
    ScanPlus(i32, StreamId, StreamId),
    Distr(StreamId, StreamId),
    SumPlus(StreamId, StreamId),
    Pack(StreamId, StreamId),
    UPack(StreamId, StreamId),
}

// One line of stream code. What a WithCtrl takes in and puts out are lists and stand beside it: an enum can hold no array.
#[derive(Clone, Copy, Debug, PartialEq, Eq)]
pub enum Instruction {
    Define(StreamId, Transducer),
    WithCtrl(StreamId),
    Close,
}
