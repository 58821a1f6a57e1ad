// The run program (document 01, "Two programs, one job"): a job from standard input, and the lines of its outcome to standard output.
#![tactic(auto)]

use console::read_full;
use report::printing::{ANSWER, BESIDE, run_lines};
use snesl::limits::{Buffer, Formula};
use std::io;
use std::io::Write;

// One byte more than a job may have, so that 1 can be told.
const READ: usize = Formula::BYTES + 1;

fn main(rt: HostRuntime) -> io::Result<()> {
    let mut job = [0u8; READ];
    let n = read_full(&mut rt.stdin(), &mut job)?;
    let mut streams = [0i32; Buffer::ELEMENTS];
    let mut answer = [0u8; ANSWER];
    let mut text = [0u8; ANSWER + BESIDE];
    let length = run_lines(&job[..n], &mut streams, &mut answer, &mut text);
    rt.stdout().write_all(&text[..length])
}
