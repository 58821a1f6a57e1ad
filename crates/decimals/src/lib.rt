// Whole numbers as text.
#![tactic(auto)]

pub mod numbers;
