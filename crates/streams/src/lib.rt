// The transducers of SVCODE0 work over one lent buffer: the used part of the stream buffer, so its length is the room there is. Its flags are read and written by crate flags;
// a unit stream is only a length. An operand is the part of the buffer where it stands; the output is written to what is free of the buffer, from
// its start on. What each answers and leaves behind is said in specs/Answers.antt, by the definitions of snesl.
// This crate has what all of them share, and the two that read no items, Const and Usum; the others stand in itemwise and segmentwise.
#![tactic(auto)]

pub mod buffer;
mod constants;
pub mod fit;
pub mod output;
mod units;

pub use buffer::clear;
pub use constants::constant;
pub use output::Failure;
pub use units::usum;
