// What a walk keeps beside its stack and its buffers: the machine's counters, and its sink.
ghost use Rattle.std.specs.Prelude.{ℕ, List, ◌≡◌, ◌≤◌, length};
ghost use Rattle.sink.specs.Sunk.{Sunk, starting};

use environment::machine::Machine;

// No line begins past this position.
pub const FAR: usize = 1_073_741_824;

// What is done with an instruction besides executing it.
#[derive(Clone, Copy, Debug, PartialEq, Eq)]
pub enum Mode {
    Running,
    Listing,
    Surveying,
}

// The ids that a survey keeps: ascending, each once, in the first `count` places that are lent for them. Where no place is left, one more is not kept.
#[derive(Drop)]
pub struct Kept<'a> {
    pub count: usize,
    pub ids: &'a mut [usize],
}

// Where a listing comes next in its text, and the first id of the body that is surveyed.
#[derive(Drop)]
pub struct Sink<'a> {
    pub mode: Mode,
    pub at: usize,
    pub own: usize,
    pub kept: Kept<'a>,
}

#[derive(Drop)]
pub struct Walk<'a> {
    pub machine: Machine,
    pub sink: Sink<'a>,
}

impl<'a> Walk<'a> {
    // Where no walk has begun: nothing is counted, and nothing told. A survey keeps at most as many ids as places are lent here.
    pub fn new(mode: Mode, ids: &'a mut [usize]) -> Walk<'a>
        ensures machine { result.machine ≡ record { streams = 0; room = 0; work = 0; steps = 0 } }
        ensures sink { length ids.old ≤ 65536 → (text : List ℕ) → Sunk (starting (length ids.old) mode text) text result.sink }
    {
        Walk {
            machine: Machine {
                streams: 0,
                room: 0,
                work: 0,
                steps: 0,
            },
            sink: Sink {
                mode,
                at: 0,
                own: 0,
                kept: Kept { count: 0, ids },
            },
        }
    }
}
