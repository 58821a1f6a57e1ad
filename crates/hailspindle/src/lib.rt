// The library as other languages link it (crate hailspindle_c exports it): each entry over numbers and slices alone. A call answers 0 or its refusal's
// number; what else it has to tell are figures, which go into the last slice lent as far as that goes, so that a caller who asks for none lends an empty one.
#![tactic(auto)]

mod bases;
pub mod conversions;
mod figures;
pub mod formulas;
pub mod runs;
