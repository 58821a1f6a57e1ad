// The limits of document 01, each a constant of the thing it bounds, beside that thing's empty state.
// specs/Limits.antt has the definitions' constants; the functions here prove the two equal.
ghost use Rattle.std.specs.Prelude.{◌≡◌};
ghost use Rattle.snesl.specs.Limits.{most_bytes, most_inputs, most_records, most_nesting, most_listed, most_depth, last_variable, most_elements, formula_limits, no_formula, no_job, no_streams};

// What reading finds of a formula: how many inputs it declares, where its expression starts, and where it ends.
#[derive(Clone, Copy)]
pub struct Formula {
    pub inputs: usize,
    pub expression: usize,
    pub end: usize,
}

// The limits of a formula, as numbers.
#[derive(Clone, Copy)]
pub struct FormulaLimits {
    pub bytes: usize,
    pub inputs: usize,
    pub records: usize,
    pub nesting: usize,
    pub listed: usize,
    pub depth: u8,
    pub variable: u8,
}

impl Formula {
    pub const BYTES: usize = 65_536;

    pub const INPUTS: usize = 16;

    pub const RECORDS: usize = 256;

    pub const NESTING: usize = 64;

    pub const LISTED: usize = 8;

    pub const DEPTH: u8 = 8;

    pub const VARIABLE: u8 = 63;

    // Nothing read yet.
    pub fn empty() -> Formula
        ensures { result ≡ no_formula }
    {
        Formula {
            inputs: 0,
            expression: 0,
            end: 0,
        }
    }

    pub fn limits() -> FormulaLimits
        ensures { result ≡ formula_limits }
    {
        FormulaLimits {
            bytes: Formula::BYTES,
            inputs: Formula::INPUTS,
            records: Formula::RECORDS,
            nesting: Formula::NESTING,
            listed: Formula::LISTED,
            depth: Formula::DEPTH,
            variable: Formula::VARIABLE,
        }
    }
}

// What reading finds of a job: its formula, and where its inputs' texts end.
#[derive(Clone, Copy)]
pub struct Job {
    pub formula: Formula,
    pub end: usize,
}

impl Job {
    pub const BYTES: usize = 65_536;

    // Nothing read yet.
    pub fn empty() -> Job
        ensures { result ≡ no_job }
    {
        Job {
            formula: Formula::empty(),
            end: 0,
        }
    }

    pub fn most_bytes() -> usize
        ensures { result ≡ most_bytes }
    {
        Job::BYTES
    }
}

// How far a stream buffer is filled: how many streams stand in it, and their room.
#[derive(Clone, Copy)]
pub struct Buffer {
    pub streams: usize,
    pub room: usize,
}

impl Buffer {
    pub const ELEMENTS: usize = 16_384;

    // No stream yet.
    pub fn empty() -> Buffer
        ensures { result ≡ no_streams }
    {
        Buffer {
            streams: 0,
            room: 0,
        }
    }

    pub fn most_elements() -> usize
        ensures { result ≡ most_elements }
    {
        Buffer::ELEMENTS
    }
}
