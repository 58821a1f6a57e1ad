// How many words the stack of a walk takes, and the three sizes in which one is lent.
use snesl::limits::Formula;

// The most words that an input's binding takes.
pub const INPUT_WORDS: usize = 29;

// The most words that a nesting of the walk takes, and those that the innermost guard takes while it packs.
const NESTING_WORDS: usize = 235;

const PACKING_WORDS: usize = 24;

pub const SMALL: usize = 512;

pub const MIDDLE: usize = 4096;

// Enough for the deepest walk over the most inputs.
pub const LARGEST: usize = NESTING_WORDS * (Formula::NESTING + 1)
    + PACKING_WORDS
    + INPUT_WORDS * Formula::INPUTS;
