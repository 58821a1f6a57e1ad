// A job's inputs: are their texts values (refusal 7) and how long are their streams, and the streams and bindings at the start of a run (refusal 9).
#![tactic(auto)]

pub mod loading;
pub mod places;
pub mod texts;
