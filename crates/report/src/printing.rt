// The run program's lines: the value and the three counts, or the one line of the refusal.
ghost use Rattle.std.specs.Prelude.{◌+◌, ◌≤◌, length};
ghost use Rattle.decimals.specs.Writing.{Writes};
ghost use Rattle.report.specs.Printing.{most_answer, count_line, value_lines, Prints};

use decimals::numbers::{put, write_number};
use lines::pieces::put_bytes;
use refusals::line::refusal_line;
use sheet::{Counts, run};

// What the programs lend for an answer. A longer buffer's rest is not used, so that every position of the lines is a small number.
pub const ANSWER: usize = 65_536;

// The most bytes of the lines beyond those of the answer.
pub const BESIDE: usize = 86;

// A count behind its name, and a line feed.
fn put_count(text: &mut [u8], at: usize, name: &[u8], count: usize) -> usize
    requires { (at ≤ 131072) × (length name.now ≤ 6) }
    ensures { Writes text.old text.new at (count_line name.now count) result × (result ≤ at + (length name.now + 21)) }
{
    let a = put_bytes(text, at, name);
    let b = write_number(text, a, count as u64);
    put(text, b, b'\n')
}

// The lines of a value's text and its counts.
fn value_lines(value: &[u8], counts: Counts, text: &mut [u8]) -> usize
    requires { length value.now ≤ most_answer }
    ensures { Writes text.old text.new 0 (value_lines value.now counts.work counts.steps counts.room) result × (result ≤ length value.now + 86) }
{
    let a = put_bytes(text, 0, b"value ");
    let b = put_bytes(text, a, value);
    let c = put(text, b, b'\n');
    let d = put_count(text, c, b"work ", counts.work);
    let e = put_count(text, d, b"steps ", counts.steps);
    put_count(text, e, b"room ", counts.room)
}

// Runs a job and writes the lines of its outcome at the start of the text, as far as it goes; their whole length.
pub fn run_lines(job: &[u8], streams: &mut [i32], answer: &mut [u8], text: &mut [u8]) -> usize
    ensures { Prints job.now streams.old streams.new answer.old answer.new text.old text.new result }
{
    let lent = answer.len().min(ANSWER);
    match run(job, streams, &mut answer[..lent]) {
        Err(refusal) => refusal_line(refusal, text),
        Ok(counts) => {
            let length = counts.text;
            value_lines(&answer[..length], counts, text)
        }
    }
}
