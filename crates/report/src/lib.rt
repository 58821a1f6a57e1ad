// What the run program prints (document 01, "Two programs, one job"), as one proved function.
#![tactic(auto)]

pub mod printing;
