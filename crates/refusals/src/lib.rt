// Refusals as the programs print them (document 01, "Refusal numbers" and "Two programs, one job").
#![tactic(auto)]

pub mod line;
