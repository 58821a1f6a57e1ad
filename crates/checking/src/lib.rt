// Checking a formula that was read (document 01, refusals 5 and 6; document 002, 1.1.2).
#![tactic(auto)]

pub mod check;
