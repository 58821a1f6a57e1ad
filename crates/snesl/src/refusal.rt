// Why a call has no answer, and where (document 01, "Refusal numbers"). specs/Refusals.antt gives each its number and its place.
ghost use Rattle.std.specs.Prelude.{◌≡◌};
ghost use Rattle.snesl.specs.Refusals.{number, place};

use std::error::Error;
use std::fmt;

#[derive(Clone, Copy, Debug, PartialEq, Eq)]
pub enum Refusal {
    // 1: over the byte limit.
    TooLong,
    // 2: a record that is unknown, misplaced, cut or missing, or bytes left over.
    NoRecord(usize),
    // 3: a variable, a depth or a using count over its limit.
    OverLimit(usize),
    // 4: one input, one expression record or one nesting too many.
    TooMany(usize),
    // 5: an unbound variable, an input declared twice, a using list that repeats a name or holds x.
    Unbound(usize),
    // 6: a wrong type.
    WrongType(usize),
    // 7: value text that is no value of its input's depth.
    NoValueText(usize),
    // 8: iota of a negative, or a result out of range.
    NoValue(usize),
    // 9: the stream buffer is too short.
    NoRoom(usize),
    // 10: the answer's text is longer than its buffer.
    NoAnswerRoom(usize),
    // 11: streams that represent no value.
    NoRepresentation(usize),
}

impl Refusal {
    pub fn number(self) -> u64
        ensures { result ≡ number self }
    {
        match self {
            Refusal::TooLong => 1,
            Refusal::NoRecord(_) => 2,
            Refusal::OverLimit(_) => 3,
            Refusal::TooMany(_) => 4,
            Refusal::Unbound(_) => 5,
            Refusal::WrongType(_) => 6,
            Refusal::NoValueText(_) => 7,
            Refusal::NoValue(_) => 8,
            Refusal::NoRoom(_) => 9,
            Refusal::NoAnswerRoom(_) => 10,
            Refusal::NoRepresentation(_) => 11,
        }
    }

    // A formula or a job that is too long is refused at 0.
    pub fn place(self) -> usize
        ensures { result ≡ place self }
    {
        match self {
            Refusal::TooLong => 0,
            Refusal::NoRecord(place)
            | Refusal::OverLimit(place)
            | Refusal::TooMany(place)
            | Refusal::Unbound(place)
            | Refusal::WrongType(place)
            | Refusal::NoValueText(place)
            | Refusal::NoValue(place)
            | Refusal::NoRoom(place)
            | Refusal::NoAnswerRoom(place)
            | Refusal::NoRepresentation(place) => place,
        }
    }
}

impl fmt::Display for Refusal {
    fn fmt<W: fmt::Write>(&self, f: &mut fmt::Formatter<W>) -> fmt::Result {
        write!(f, "refused {} at {}", self.number(), self.place())
    }
}

impl Error for Refusal {}
