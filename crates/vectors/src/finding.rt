// `find I JOB | START END`
use crate::fields::{BYTES, field, named, number};
use console::digits::decode;
use finder::find::find;

// Whether a part is the one between two offsets of the job; an empty one is named 0 and 0.
fn is_part(job: &[u8], part: &[u8], start: usize, end: usize) -> bool {
    if part.is_empty() {
        return start == 0 && end == 0;
    }
    job.get(start..end).is_some_and(|named| part == named)
}

pub(crate) fn find_case(line: &[u8]) -> bool {
    let mut job = [0u8; BYTES];
    let i = number(field(line, 1));
    let n = decode(field(line, 2), &mut job);
    let output = named(line);
    let start = number(field(output, 0));
    let end = number(field(output, 1));
    is_part(&job[..n], find(&job[..n], i), start, end)
}
