// Value text to streams (document 01, "The formula and the job" and "Representation by itself").
#![tactic(auto)]

pub mod reading;
pub mod storing;
