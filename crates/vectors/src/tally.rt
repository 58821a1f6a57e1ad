// The kinds of lines, and how many of each came out as named.
use decimals::numbers::byte_at;
use std::io;

// In the order of the counts; a line of none of them is of the last.
#[derive(Clone, Copy)]
pub enum Kind {
    Run,
    Streams,
    List,
    Check,
    Find,
    ToStreams,
    ToText,
    Unknown,
}

// What the program calls each kind that it counts.
const NAMES: [&str; 7] = ["run", "streams", "list", "check", "find", "t2s", "s2t"];

pub(crate) fn kind_of(line: &[u8]) -> Kind {
    match byte_at(line, 0) {
        b'r' => Kind::Run,
        b'l' => Kind::List,
        b'c' => Kind::Check,
        b'f' => Kind::Find,
        b't' => Kind::ToStreams,
        b's' => match byte_at(line, 1) {
            b't' => Kind::Streams,
            _ => Kind::ToText,
        },
        _ => Kind::Unknown,
    }
}

pub(crate) fn count(counts: &mut [u64], kind: Kind) {
    if let Some(count) = counts.get_mut(kind as usize) {
        *count = count.wrapping_add(1);
    }
}

pub(crate) fn print_counts(rt: &impl Print, counts: &[u64]) -> io::Result<()> {
    for (name, count) in NAMES.iter().zip(counts) {
        println!(rt; "{name} {count}")?;
    }
    Ok(())
}
