// Runs the vectors for document 01, a case a line of standard input, through the library, and compares what comes out with what the line names. Prints the number
// of each line that differs, and last how many of each kind came out as named.
#![tactic(auto)]

mod checks;
mod fields;
mod finding;
mod holding;
mod listing;
mod naming;
mod running;
mod showing;
mod storing;
mod tally;
mod writing;

use checks::check_case;
use console::read_full;
use finding::find_case;
use holding::streams_case;
use listing::list_case;
use running::run_case;
use showing::show_case;
use std::io;
use storing::store_case;
use tally::{Kind, count, kind_of, print_counts};

// More than the vectors have bytes.
const VECTORS: usize = 131_072;

fn agrees(line: &[u8], kind: Kind) -> bool {
    match kind {
        Kind::Run => run_case(line),
        Kind::Streams => streams_case(line),
        Kind::List => list_case(line),
        Kind::Check => check_case(line),
        Kind::Find => find_case(line),
        Kind::ToStreams => store_case(line),
        Kind::ToText => show_case(line),
        Kind::Unknown => false,
    }
}

fn print_difference(rt: &impl Print, number: u64) -> io::Result<()> {
    println!(rt; "line {number} differs")
}

fn run_line(rt: &impl Print, line: &[u8], number: u64, counts: &mut [u64]) -> io::Result<()> {
    let kind = kind_of(line);
    if agrees(line, kind) {
        count(counts, kind);
        Ok(())
    } else {
        print_difference(rt, number)
    }
}

fn run_lines(rt: &impl Print, text: &[u8], counts: &mut [u64]) -> io::Result<()> {
    let mut number: u64 = 0;
    for line in text.split_inclusive(|byte| *byte == b'\n') {
        number = number.wrapping_add(1);
        run_line(rt, line.strip_suffix(b"\n").unwrap_or(line), number, counts)?;
    }
    Ok(())
}

// Of a longer input the rest is not read, and so not run.
fn print_cut(rt: &impl Print, read: usize) -> io::Result<()> {
    if read == VECTORS {
        println!(rt; "the input is longer than what is read of it")?;
    }
    Ok(())
}

fn main(rt: HostRuntime) -> io::Result<()> {
    let mut text = [0u8; VECTORS];
    let mut counts = [0u64; 7];
    let n = read_full(&mut rt.stdin(), &mut text)?;
    print_cut(&rt, n)?;
    run_lines(&rt, &text[..n], &mut counts)?;
    print_counts(&rt, &counts)
}
