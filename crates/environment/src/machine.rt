// What a machine counts while a formula is walked: the streams that it has made, which is the next one's id too, the elements that they take of the stream
// buffer, and the work and the steps spent on them.
#[derive(Clone, Copy, Debug, PartialEq, Eq)]
pub struct Machine {
    pub streams: usize,
    pub room: usize,
    pub work: usize,
    pub steps: usize,
}
