// `s2t DEPTH ANSWER ; LENGTHS ; ELEMENTS | ..`, and `s2tb` for bools
ghost use Rattle.std.specs.Prelude.{◌≤◌, length};
ghost use Rattle.vectors.specs.Page.{Page, Within};

use crate::fields::{LENGTHS, base_of, field, int, number};
use crate::naming::{is_named, is_refusal};
use crate::writing::{TEXT, put_word};
use rendering::showing::streams_to_text;
use snesl::code::Base;
use snesl::limits::Buffer;

// The bytes that a line's longest answer is lent, with room to spare.
const ANSWER: usize = 4096;

// The number of the first field, from one on, that ends a list: a semicolon or the bar; the line's length where there is none.
fn list_end(line: &[u8], from: usize) -> usize
    ensures { result ≤ length line.now }
{
    let ends = |word: &[u8]| matches!(word.first(), Some(b';' | b'|'));
    let mut words = line.split(|byte| *byte == b' ').skip(from);
    match words.position(ends) {
        Some(count) => from.saturating_add(count).min(line.len()),
        None => line.len(),
    }
}

// What the fields from one on up to another stand for, as many as there is room for. Where a list is empty its one field is.
fn read_items<T: Copy, Read: Fn(&[u8]) -> T>(
    line: &[u8],
    from: usize,
    to: usize,
    read: Read,
    items: &mut [T],
) -> usize
    requires { Read.IsAlwaysCallable read }
    ensures { result ≤ length items.new }
{
    let mut n = 0;
    for i in from..to {
        let word = field(line, i);
        if !word.is_empty() && n < items.len() {
            items[n] = read(word);
            n += 1;
        }
    }
    n
}

fn put_shown(text: &mut [u8], answer: &[u8]) -> usize
    requires { Page 0 text.old }
    ensures { Within result text.new }
{
    let a = put_word(text, 0, b"text ");
    let b = put_word(text, a, answer);
    put_word(text, b, b"\n")
}

fn is_shown(line: &[u8], answer: &[u8]) -> bool {
    let mut text = [0u8; TEXT];
    let end = put_shown(&mut text, answer);
    is_named(line, &text[..end])
}

// In a part of this answer as long as the line says.
fn shows(line: &[u8], base: Base, lengths: &[usize], elements: &[i32], answer: &mut [u8]) -> bool {
    let depth = number(field(line, 1)).min(255) as u8;
    let lent = number(field(line, 2)).min(answer.len());
    match streams_to_text(elements, lengths, base, depth, &mut answer[..lent]) {
        Ok(bytes) => {
            let end = bytes.min(answer.len());
            is_shown(line, &answer[..end])
        }
        Err(refusal) => is_refusal(line, refusal),
    }
}

pub(crate) fn show_case(line: &[u8]) -> bool {
    let base = base_of(line);
    let mut lengths = [0usize; LENGTHS];
    let mut elements = [0i32; Buffer::ELEMENTS];
    let mut answer = [0u8; ANSWER];
    let between = list_end(line, 4);
    let end = list_end(line, between.saturating_add(1));
    let levels = read_items(line, 4, between, number, &mut lengths);
    let count = read_items(line, between.saturating_add(1), end, int, &mut elements);
    shows(
        line,
        base,
        &lengths[..levels],
        &elements[..count],
        &mut answer,
    )
}
