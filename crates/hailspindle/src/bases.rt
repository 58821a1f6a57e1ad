// A base as a byte, as a caller of the linked library hands it in and reads it: 0 is int, and 1 is bool.
ghost use Rattle.std.specs.Prelude.{◌≡◌};
ghost use Rattle.hailspindle.specs.Bases.{byte_of, base_from};

use snesl::code::Base;

pub fn base_byte(base: Base) -> u64
    ensures { result ≡ byte_of base }
{
    match base {
        Base::Int => 0,
        Base::Bool => 1,
    }
}

pub fn base_from(byte: u8) -> Option<Base>
    ensures { result ≡ base_from byte }
{
    match byte {
        0 => Some(Base::Int),
        1 => Some(Base::Bool),
        _ => None,
    }
}
