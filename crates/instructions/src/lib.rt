// The line of an instruction, from its value.
#![tactic(auto)]

ghost use Rattle.std.specs.Prelude.{[], ◌∷◌, ◌++◌};
ghost use Rattle.snesl.specs.Transducers.{operands, operation_name, bool_name};
ghost use Rattle.snesl.specs.Text.{show_int};
ghost use Rattle.snesl.specs.Ascii.{ascii};
ghost use Rattle.snesl.specs.Listing.{id_text, ids_text, name_text, define_line};
ghost use Rattle.decimals.specs.Writing.{Writes};
ghost use Rattle.lines.specs.Counting.{Countable};
ghost use Rattle.lines.specs.Pieces.{control_text};
ghost use Rattle.instructions.specs.Instructions.{instruction_text};

use decimals::numbers;
use lines::pieces::{put_bytes, put_id};
use snesl::code::{Instruction, Operation, StreamId, Transducer};

// A transducer's name, with its constant where it has one.
fn put_name(text: &mut [u8], at: usize, t: Transducer) -> usize
    requires { Countable at (name_text t) }
    ensures { Writes text.old text.new at (name_text t) result }
{
    match t {
        Transducer::Const(z) => put_constant(text, at, b"Const_", z),
        Transducer::ConstBool(c) => put_bool_name(text, at, c),
        Transducer::ToFlags(_) => put_bytes(text, at, b"ToFlags"),
        Transducer::B2u(_) => put_bytes(text, at, b"B2u"),
        Transducer::Usum(_) => put_bytes(text, at, b"Usum"),
        Transducer::MapTwo(o, _, _) => put_operation_name(text, at, o),
        Transducer::MapOneNot(_) => put_bytes(text, at, b"MapOneNot"),
        Transducer::ScanPlus(z, _, _) => put_constant(text, at, b"ScanPlus_", z),
        Transducer::Distr(_, _) => put_bytes(text, at, b"Distr"),
        Transducer::SumPlus(_, _) => put_bytes(text, at, b"SumPlus"),
        Transducer::Pack(_, _) => put_bytes(text, at, b"Pack"),
        Transducer::UPack(_, _) => put_bytes(text, at, b"UPack"),
    }
}

// A name and the constant behind it.
fn put_constant(text: &mut [u8], at: usize, name: &[u8], z: i32) -> usize
    requires { Countable at (name.now ++ show_int z) }
    ensures { Writes text.old text.new at (name.now ++ show_int z) result }
{
    let p = put_bytes(text, at, name);
    numbers::write_int(text, p, z)
}

// The name of a constant bool's transducer.
fn put_bool_name(text: &mut [u8], at: usize, c: bool) -> usize
    requires { Countable at (bool_name c) }
    ensures { Writes text.old text.new at (bool_name c) result }
{
    if c {
        put_bytes(text, at, b"Const_T")
    } else {
        put_bytes(text, at, b"Const_F")
    }
}

// The name of a scalar operation's transducer.
fn put_operation_name(text: &mut [u8], at: usize, o: Operation) -> usize
    requires { Countable at (operation_name o) }
    ensures { Writes text.old text.new at (operation_name o) result }
{
    match o {
        Operation::Plus => put_bytes(text, at, b"MapTwo+"),
        Operation::LessEqual => put_bytes(text, at, b"MapTwo<="),
        Operation::Equal => put_bytes(text, at, b"MapTwo=="),
    }
}

// The ids of a transducer's operands, joined by a comma.
#[tactic(auto, using(decimals::proofs::Stores::writes_nothing), unfolding(snesl::specs::Text::joined))]
fn put_operands(text: &mut [u8], at: usize, t: Transducer) -> usize
    requires { Countable at (ids_text (operands t)) }
    ensures { Writes text.old text.new at (ids_text (operands t)) result }
{
    match t {
        Transducer::Const(_) | Transducer::ConstBool(_) => at,
        Transducer::ToFlags(a)
        | Transducer::B2u(a)
        | Transducer::Usum(a)
        | Transducer::MapOneNot(a) => put_id(text, at, a),
        Transducer::MapTwo(_, a, b)
        | Transducer::ScanPlus(_, a, b)
        | Transducer::Distr(a, b)
        | Transducer::SumPlus(a, b)
        | Transducer::Pack(a, b)
        | Transducer::UPack(a, b) => put_pair(text, at, a, b),
    }
}

// Two ids, joined by a comma.
#[tactic(auto, unfolding(snesl::specs::Text::joined))]
fn put_pair(text: &mut [u8], at: usize, a: StreamId, b: StreamId) -> usize
    requires { Countable at (ids_text (a.0 ∷ b.0 ∷ [])) }
    ensures { Writes text.old text.new at (ids_text (a.0 ∷ b.0 ∷ [])) result }
{
    let p = put_id(text, at, a);
    let q = numbers::put(text, p, b',');
    put_id(text, q, b)
}

// The definition of a stream: its id, the transducer, and the ids of its operands.
fn put_define(text: &mut [u8], at: usize, s: StreamId, t: Transducer) -> usize
    requires { Countable at (define_line s.0 t) }
    ensures { Writes text.old text.new at (define_line s.0 t) result }
{
    let a = put_id(text, at, s);
    let b = put_bytes(text, a, b" := ");
    let c = put_name(text, b, t);
    let d = put_bytes(text, c, b"(");
    let e = put_operands(text, d, t);
    put_bytes(text, e, b")\n")
}

// An instruction's own text: a definition's line; of a WithCtrl what stands between the ids that it puts out and those that it takes in; the line that closes a
// body.
pub fn put_instruction(text: &mut [u8], at: usize, i: Instruction) -> usize
    requires { Countable at (instruction_text i) }
    ensures { Writes text.old text.new at (instruction_text i) result }
{
    match i {
        Instruction::Define(s, t) => put_define(text, at, s, t),
        Instruction::WithCtrl(c) => put_control(text, at, c),
        Instruction::Close => put_bytes(text, at, b"}\n"),
    }
}

// The control stream of a WithCtrl, between its two lists.
fn put_control(text: &mut [u8], at: usize, c: StreamId) -> usize
    requires { Countable at (control_text c.0) }
    ensures { Writes text.old text.new at (control_text c.0) result }
{
    let a = put_bytes(text, at, b"] := WithCtrl(");
    let b = put_id(text, a, c);
    put_bytes(text, b, b",[")
}
