// The types that every layer shares. What they mean stands in specs/: each definition there names the document and section
// that it comes from.
#![tactic(auto)]

pub mod code;
pub mod limits;
pub mod refusal;
