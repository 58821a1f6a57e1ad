// The type of a variable, as the scope of a check holds it.
use snesl::code::Base;

// So many braces round a base.
#[derive(Clone, Copy, Debug, PartialEq, Eq)]
pub struct ValueType {
    pub base: Base,
    pub depth: u8,
}

impl ValueType {
    pub const INT: ValueType = ValueType {
        base: Base::Int,
        depth: 0,
    };

    pub const BOOL: ValueType = ValueType {
        base: Base::Bool,
        depth: 0,
    };

    pub const INTS: ValueType = ValueType {
        base: Base::Int,
        depth: 1,
    };
}
