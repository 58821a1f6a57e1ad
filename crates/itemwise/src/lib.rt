// The transducers that go item by item, one for each unit of the control stream: MapTwo, MapOneNot, Pack and ToFlags, which is B2u too. Their answers are
// those of crate streams. A bool is an item: F is 0, and all else is read as T.
#![tactic(auto)]

mod negations;
mod operations;
mod packs;
mod pluses;
mod unary;

pub use negations::map_one_not;
pub use operations::map_two;
pub use packs::pack;
pub use unary::to_flags;
