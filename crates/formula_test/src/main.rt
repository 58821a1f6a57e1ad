// Runs cases through reading, checking and finding, and prints what came out, a line each. A case is a line of standard input: `check HEX` or `find I HEX`,
// with I one digit, as in the vectors for document 01 (`-` for no bytes); a part is printed as its bytes.
#![tactic(auto)]

use checking::check::check;
use console::digits::{decode, digit};
use console::read_full;
use finder::find::find;
use snesl::code::Base;
use std::io;

// A base is told where it is bool.
fn print_base(rt: &impl Print, base: Base) -> io::Result<()> {
    match base {
        Base::Int => Ok(()),
        Base::Bool => print!(rt; "bool "),
    }
}

fn print_part(rt: &impl Print, part: &[u8]) -> io::Result<()> {
    print!(rt; "part ")?;
    if part.is_empty() {
        print!(rt; "-")?;
    }
    print_bytes(rt, part)
}

fn print_bytes(rt: &impl Print, part: &[u8]) -> io::Result<()> {
    for byte in part {
        print!(rt; "{byte:02x}")?;
    }
    Ok(())
}

// `check HEX`
fn run_check(rt: &impl Print, digits: &[u8], bytes: &mut [u8]) -> io::Result<()> {
    let n = decode(digits, bytes);
    match check(&bytes[..n]) {
        Ok(found) => {
            print_base(rt, found.base)?;
            println!(rt; "depth {}", found.depth)
        }
        Err(refusal) => println!(rt; "{refusal}"),
    }
}

// `find I HEX`
fn run_find(rt: &impl Print, input: u8, digits: &[u8], bytes: &mut [u8]) -> io::Result<()> {
    let n = decode(digits, bytes);
    print_part(rt, find(&bytes[..n], usize::from(digit(input))))?;
    println!(rt; "")
}

// A line that is too short for either case prints nothing.
fn run_case(rt: &impl Print, line: &[u8], bytes: &mut [u8]) -> io::Result<()> {
    if line.len() < 7 {
        return Ok(());
    }
    if line[0] == b'c' {
        run_check(rt, &line[6..], bytes)
    } else {
        run_find(rt, line[5], &line[7..], bytes)
    }
}

fn run_cases(rt: &impl Print, text: &[u8], bytes: &mut [u8]) -> io::Result<()> {
    for line in text.split(|byte| *byte == b'\n') {
        run_case(rt, line, bytes)?;
    }
    Ok(())
}

fn main(rt: HostRuntime) -> io::Result<()> {
    let mut text = [0u8; 131072];
    let n = read_full(&mut rt.stdin(), &mut text)?;
    let mut bytes = [0u8; 2048];
    run_cases(&rt, &text[..n], &mut bytes)
}
