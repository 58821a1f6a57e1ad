// The finder (document 01, "The formula and the job"): the part of the job's own bytes that holds an input's text, and where it stands.
ghost use Rattle.std.specs.Prelude.{◌≡◌, unwrap_or};
ghost use Rattle.snesl.specs.Finder as finder;
ghost use Rattle.finder.specs.Parts.{Held, part_from, nowhere, located, start_of};

use formula::read::{read_job, text_at};

// So many bytes of the job from a start on. It is no range of std's: C is told the two numbers, and a range is not copied.
#[derive(Clone, Copy, Debug, PartialEq, Eq)]
pub struct Part {
    pub start: usize,
    pub bytes: usize,
}

// Where the text of the i-th VA record from a position on stands, where there are more than i.
fn part_from(bytes: &[u8], i: usize, from: usize) -> Option<Part>
    requires { Held bytes.now i from }
    ensures { result ≡ Some (part_from i bytes.now from) }
{
    let mut k = from;
    for _ in 0..i {
        k = text_at(bytes, k)?;
    }
    let end = text_at(bytes, k)?;
    let start = k + 4;
    Some(Part {
        start,
        bytes: end - start,
    })
}

// Where the text of input number i stands, if the job is read and has such an input.
fn sought(bytes: &[u8], i: usize) -> Option<Part>
    ensures { unwrap_or result nowhere ≡ located i bytes.now }
{
    let job = read_job(bytes).ok()?;
    if job.formula.inputs <= i {
        return None;
    }
    part_from(bytes, i, job.formula.end)
}

// Where the text of input number i stands, from 0 on; nothing from 0 on where there is no such input or the job is refused by 1 to 4.
pub fn locate(bytes: &[u8], i: usize) -> Part
    ensures { result ≡ located i bytes.now }
{
    sought(bytes, i).unwrap_or(Part { start: 0, bytes: 0 })
}

// The text of input number i, where it stands in the job; an empty part at the job's start where there is none.
pub fn find(bytes: &[u8], i: usize) -> &[u8]
    ensures result_value { result.now ≡ finder.find i bytes.now }
    ensures ref_ptr_value { result.ref_ptr ≡ start_of bytes.entry.ref_ptr (located i bytes.now) }
{
    let part = locate(bytes, i);
    let start = part.start;
    let end = start + part.bytes;
    &bytes[start..end]
}
