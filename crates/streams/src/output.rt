// Why a transducer makes nothing, and at which element. NoRoom comes last: it is answered only where the streams fit and every element has a value.
#[derive(Clone, Copy, Debug, PartialEq, Eq)]
pub enum Failure {
    Unfit(usize),
    Negative(usize),
    Outside(usize),
    NoRoom,
}
