// Reading a formula and a job (document 01, "The formula and the job", refusals 1 to 4), and where its input records stand.
#![tactic(auto)]

pub mod inputs;
pub mod read;
