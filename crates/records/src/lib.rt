// The records of a formula, each by itself (document 01, "The formula and the job"): its mark, and what stands at a position.
#![tactic(auto)]

pub mod head;
pub mod marks;
