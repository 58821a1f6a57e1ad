// Running a job (document 01): read, checked, its inputs loaded, its formula walked, its answer shown.
#![tactic(auto)]

mod admission;
mod execution;
mod result;
mod running;

pub use running::run;

// What a run that has a value answers: the bytes of its text, and what it cost.
#[derive(Clone, Copy, Debug, PartialEq, Eq)]
pub struct Counts {
    pub text: usize,
    pub work: usize,
    pub steps: usize,
    pub room: usize,
}
