// What knows nothing of this product: leaf functions on single numbers. Laws on lists, parts of a buffer and whole numbers stand in proofs/.
#![tactic(auto)]

pub mod range;
