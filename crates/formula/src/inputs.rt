// The input records of a formula that was read, IN and IB. Whoever wants one asks here: nothing else knows where they stand.
ghost use Rattle.std.specs.Prelude.{◌≡◌, ◌+◌, ◌≤◌, length, unwrap_or};
ghost use Rattle.snesl.specs.Records.{input_at, input_base};
ghost use Rattle.formula.specs.Declarations.{input_place, is_input, base_option, base_of_mark, base_at, declaration_of};

use records::head::mark_at;
use records::marks::Mark;
use snesl::code::{Base, Variable};

// An input record's place, and what it says: so many braces round its base.
#[derive(Clone, Copy, Debug, PartialEq, Eq)]
pub struct Declaration {
    pub place: usize,
    pub name: Variable,
    pub base: Base,
    pub depth: u8,
}

// The base that a mark declares, if it is an input's.
pub fn declared_base(mark: u16) -> Option<Base>
    ensures declared { result ≡ base_option (input_base mark) }
    ensures base { unwrap_or result Base.Int ≡ base_of_mark mark }
{
    match Mark::try_from(mark) {
        Ok(Mark::Input(base)) => Some(base),
        // An arm each: of one arm for several patterns the proof learns none of them.
        Ok(Mark::Text) => None,
        Ok(Mark::Expression(_)) => None,
        Err(_) => None,
    }
}

// The base that an input's mark declares; int where the mark is none.
pub fn base_of(mark: u16) -> Base
    ensures { result ≡ base_of_mark mark }
{
    declared_base(mark).unwrap_or(Base::Int)
}

// Does the mark start an input record?
pub fn is_input(mark: u16) -> bool
    ensures { result ≡ is_input mark }
{
    declared_base(mark).is_some()
}

// Input number i, counted from 0: the records stand first, four bytes each.
pub fn declared(bytes: &[u8], i: usize) -> Declaration
    requires { input_place i + 4 ≤ length bytes.now }
    ensures { result ≡ declaration_of (input_at bytes.now (input_place i) (base_at bytes.now (input_place i))) }
{
    let place = 4 * i;
    Declaration {
        place,
        name: Variable(bytes[place + 2]),
        base: base_of(mark_at(bytes, place)),
        depth: bytes[place + 3],
    }
}
