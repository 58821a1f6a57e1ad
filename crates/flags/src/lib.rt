// The flags of the stream buffer. How a flag is stored is known here alone: F is 0 and T is 1, an element each. A stream is read a segment at a
// time, some F's and a T: how many segments there are, and where the next one ends.
#![tactic(auto)]

pub mod reading;
mod writing;

pub use reading::{flag_at, next_end, next_segment, segments};
pub use writing::put_segment;
