// The streams of a value level by level: how long each is and where it starts (document 01, "Representation by itself").
#![tactic(auto)]

pub mod counts;
