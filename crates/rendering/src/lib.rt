// Streams to value text (document 01, "Representation by itself").
#![tactic(auto)]

pub mod fitting;
pub mod showing;
pub mod writing;
