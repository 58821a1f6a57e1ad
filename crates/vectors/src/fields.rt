// A line of the vectors: its fields, apart by one blank each, what they stand for, and what the line names behind its bar.
use decimals::numbers::{byte_at, read_int};
use snesl::code::Base;

// The bytes that a line's longest field stands for, and its longest named output, both with room to spare.
pub const BYTES: usize = 4096;

// The most lengths that a line is read or lent: more than a value of any depth has streams.
pub const LENGTHS: usize = 16;

// The field of this number, from 0 on; nothing where there is none.
pub(crate) fn field(line: &[u8], number: usize) -> &[u8] {
    line.split(|byte| *byte == b' ').nth(number).unwrap_or(&[])
}

// What the line names.
pub(crate) fn named(line: &[u8]) -> &[u8] {
    match line.iter().position(|byte| *byte == b'|') {
        Some(bar) => line.get(bar + 2..).unwrap_or(&[]),
        None => &[],
    }
}

// The number that a field's digits make.
pub(crate) fn number(field: &[u8]) -> usize {
    field.iter().fold(0usize, |value, byte| {
        value
            .wrapping_mul(10)
            .wrapping_add((*byte as usize).wrapping_sub(48))
    })
}

// The int of a field; 0 where it has none.
pub(crate) fn int(field: &[u8]) -> i32 {
    read_int(field).map_or(0, |read| read.0)
}

// The base of a conversion's line: its mark ends in b for bools.
pub(crate) fn base_of(line: &[u8]) -> Base {
    match byte_at(line, 3) {
        b'b' => Base::Bool,
        _ => Base::Int,
    }
}
