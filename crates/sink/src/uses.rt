// The streams that a transducer uses: at most two. An enum of its own, since two Options would leave open a second without a first.
ghost use Rattle.sink.specs.Uses.{Operates};

use snesl::code::{StreamId, Transducer};

#[derive(Clone, Copy, Debug, PartialEq, Eq)]
pub enum Used {
    Nothing,
    One(StreamId),
    Two(StreamId, StreamId),
}

// A transducer's operands.
pub fn operands_of(t: Transducer) -> Used
    ensures { Operates t result }
{
    match t {
        Transducer::Const(_) => Used::Nothing,
        Transducer::ConstBool(_) => Used::Nothing,
        Transducer::ToFlags(a) => Used::One(a),
        Transducer::B2u(a) => Used::One(a),
        Transducer::Usum(a) => Used::One(a),
        Transducer::MapTwo(_, a, b) => Used::Two(a, b),
        Transducer::MapOneNot(a) => Used::One(a),
        Transducer::ScanPlus(_, a, b) => Used::Two(a, b),
        Transducer::Distr(a, b) => Used::Two(a, b),
        Transducer::SumPlus(a, b) => Used::Two(a, b),
        Transducer::Pack(a, b) => Used::Two(a, b),
        Transducer::UPack(a, b) => Used::Two(a, b),
    }
}
