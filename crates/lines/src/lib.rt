// Lines of a listing (document 01, "Two programs, one job"), each written from an instruction's value at a position of a lent slice, as far as the slice goes;
// the position behind is always counted, so that lent an empty slice these functions measure.
#![tactic(auto)]

pub mod pieces;
