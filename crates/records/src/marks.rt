// The two-byte mark that starts each record (document 01, "The formula and the job"), as one number: its first letter times 256 plus its second.
// specs/Marks says what each stands for by snesl's marks, so a wrong number here is refused.
ghost use Rattle.records.specs.Marks.{Marks};

use snesl::code::{Base, Operation};

const IN: u16 = 18_766;

const IB: u16 = 18_754;

const VA: u16 = 22_081;

const VR: u16 = 22_098;

const LT: u16 = 19_540;

const KN: u16 = 19_278;

const KB: u16 = 19_266;

const IO: u16 = 18_767;

const PL: u16 = 20_556;

const LE: u16 = 19_525;

const EQ: u16 = 17_745;

const NO: u16 = 20_047;

const SM: u16 = 21_325;

const EA: u16 = 17_729;

const GU: u16 = 18_261;

// Which expression a record is.
#[derive(Clone, Copy, Debug, PartialEq, Eq)]
pub enum Form {
    Var,
    Let,
    Const,
    Truth,
    Iota,
    Operation(Operation),
    Negation,
    Sum,
    Each,
    Guard,
}

// Which record a mark starts: an input of so many braces round a base, an input's text, or an expression.
#[derive(Clone, Copy, Debug, PartialEq, Eq)]
pub enum Mark {
    Input(Base),
    Text,
    Expression(Form),
}

// A number that is no record's mark.
#[derive(Clone, Copy, Debug, PartialEq, Eq)]
pub struct UnknownMark(pub u16);

impl TryFrom<u16> for Mark {
    type Error = UnknownMark;

    ghost try_from_gives = { Marks };

    fn try_from(mark: u16) -> Result<Mark, UnknownMark> {
        let form = match mark {
            IN => return Ok(Mark::Input(Base::Int)),
            IB => return Ok(Mark::Input(Base::Bool)),
            VA => return Ok(Mark::Text),
            VR => Form::Var,
            LT => Form::Let,
            KN => Form::Const,
            KB => Form::Truth,
            IO => Form::Iota,
            PL => Form::Operation(Operation::Plus),
            LE => Form::Operation(Operation::LessEqual),
            EQ => Form::Operation(Operation::Equal),
            NO => Form::Negation,
            SM => Form::Sum,
            EA => Form::Each,
            GU => Form::Guard,
            _ => return Err(UnknownMark(mark)),
        };
        Ok(Mark::Expression(form))
    }
}
