// The listing of a formula (document 01, "Two programs, one job"), and what the listing program prints.
#![tactic(auto)]

mod inputs;
pub mod list;
pub mod report;
