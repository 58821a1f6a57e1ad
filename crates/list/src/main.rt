// The listing program (document 01, "Two programs, one job"): a formula from standard input, and its listing or the line of its refusal to standard output.
#![tactic(auto)]

use console::read_full;
use lister::report::list_lines;
use snesl::limits::Formula;
use std::io;
use std::io::Write;

// One byte more than a formula may have, so that 1 can be told.
const READ: usize = Formula::BYTES + 1;

// What is lent for a listing.
const LENT: usize = 65_536;

fn main(rt: HostRuntime) -> io::Result<()> {
    let mut bytes = [0u8; READ];
    let n = read_full(&mut rt.stdin(), &mut bytes)?;
    let mut text = [0u8; LENT];
    let length = list_lines(&bytes[..n], &mut text);
    rt.stdout().write_all(&text[..length])
}
