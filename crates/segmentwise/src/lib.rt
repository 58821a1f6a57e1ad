// The transducers that go segment by segment, each some F's and a T: ScanPlus, Distr, SumPlus and UPack. Their answers are those of crate streams.
#![tactic(auto)]

mod packs;
mod scans;
mod spread;
mod sums;

pub use packs::upack;
pub use scans::scan_plus;
pub use spread::distr;
pub use sums::sum_plus;
