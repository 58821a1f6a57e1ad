// The variables in scope at a record of a formula that is checked (document 01, refusals 5 and 6; document 002, 1.1.2).
#![tactic(auto)]

pub mod listed;
pub mod scope;
pub mod types;
