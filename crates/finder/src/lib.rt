// The finder (document 01, "The formula and the job").
#![tactic(auto)]

pub mod find;
