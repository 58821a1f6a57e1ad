// Reading a value's text: whether it is one, how many elements each of its streams has, and, where elements are lent, the streams themselves.
// Each level of the value has a cursor, at which its stream grows: 0 is the data, and the depth is the outermost flags.
ghost use Rattle.std.specs.Prelude.{◌+◌, ◌<◌, ◌^◌, ◌≡◌, length, get_or, set};
ghost use Rattle.valuetext.specs.Reading.{opening_at, after_at, scalar_at, bool_at, ints_in, Ready, ReadAs};

use decimals::numbers::{byte_at, quick_int, read_int};
use snesl::code::Base;

// How a text begins: with an empty list, with a list that has items, or with none.
#[derive(Clone, Copy, Debug, PartialEq, Eq)]
pub enum Opening {
    Empty,
    Items,
    No,
}

// What stands behind an item.
#[derive(Clone, Copy, Debug, PartialEq, Eq)]
pub enum After {
    Comma,
    Close,
    Else,
}

// An element at a place, if it lies within the lent elements.
fn store(elements: &mut [i32], at: usize, z: i32)
    ensures { elements.new ≡ set elements.old at z }
{
    if at < elements.len() {
        elements[at] = z;
    }
}

// One element more for a level's stream. A place past the lent elements is only counted.
fn append(elements: &mut [i32], cursors: &mut [usize], level: usize, z: i32)
    requires { (level < length cursors.old) × (get_or cursors.old level 0 + 1 < 2 ^ 64) }
    ensures elements_after { elements.new ≡ set elements.old (get_or cursors.old level 0) z }
    ensures cursors_after { cursors.new ≡ set cursors.old level (get_or cursors.old level 0 + 1) }
{
    let at = cursors[level];
    cursors[level] = at + 1;
    store(elements, at, z);
}

fn opening_of(text: &[u8]) -> Opening
    ensures { result ≡ opening_at text.now }
{
    match text {
        [b'{', b'}', ..] => Opening::Empty,
        [b'{', ..] => Opening::Items,
        _ => Opening::No,
    }
}

fn what_follows(text: &[u8], at: usize) -> After
    ensures { result ≡ after_at text.now at }
{
    match byte_at(text, at) {
        b',' => After::Comma,
        b'}' => After::Close,
        _ => After::Else,
    }
}

// T as 1 and F as 0, with its one byte.
fn read_bool(text: &[u8]) -> Option<(i32, usize)>
    ensures { result ≡ bool_at text.now }
{
    match byte_at(text, 0) {
        b'T' => Some((1, 1)),
        b'F' => Some((0, 1)),
        _ => None,
    }
}

// A scalar as the element that it becomes, with the bytes it takes.
fn read_scalar(text: &[u8], base: Base) -> Option<(i32, usize)>
    ensures { result ≡ scalar_at base text.now }
{
    match base {
        Base::Int => read_int(text),
        Base::Bool => read_bool(text),
    }
}

// This reader and those below answer how many bytes they took of the text, from its first one on.
fn read_leaf(text: &[u8], base: Base, elements: &mut [i32], cursors: &mut [usize]) -> Option<usize>
    requires { Ready base 0 text.now elements.old cursors.old }
    ensures { ReadAs base 0 text.now elements.old elements.new cursors.old cursors.new result }
{
    let (z, n) = read_scalar(text, base)?;
    append(elements, cursors, 0, z);
    Some(n)
}

// The ints of a list, behind its brace, up to and with its closing one. Most of a text is such lists, so the cursors of the data and of the flags stay in locals.
fn read_ints(text: &[u8], elements: &mut [i32], cursors: &mut [usize]) -> Option<usize>
    requires ready { Ready Base.Int 1 text.now elements.old cursors.old }
    requires value { Opening.Items ≡ opening_at text.now }
    ensures { ReadAs Base.Int 1 text.now elements.old elements.new cursors.old cursors.new result }
{
    let mut data = cursors[0];
    let mut flags = cursors[1];
    let mut k: usize = 1;
    // What stands behind an item says whether there is another, so that no range says it beforehand.
    loop {
        let (z, n) = quick_int(&text[k..])?;
        store(elements, data, z);
        store(elements, flags, 0);
        data += 1;
        flags += 1;
        match what_follows(text, k + n) {
            After::Comma => k += n + 1,
            After::Close => {
                store(elements, flags, 1);
                cursors[0] = data;
                cursors[1] = flags + 1;
                return Some(k + n + 1);
            }
            After::Else => return None,
        }
    }
}

// Whether a list's items are ints.
fn of_ints(base: Base, depth: u8) -> bool
    ensures { result ≡ ints_in base depth }
{
    base == Base::Int && depth == 1
}

// An item, from the text's first byte on: a scalar, or a list.
#[cycle(read_item_read_list)]
pub(crate) fn read_item(
    text: &[u8],
    base: Base,
    depth: u8,
    elements: &mut [i32],
    cursors: &mut [usize],
) -> Option<usize>
    requires { Ready base depth text.now elements.old cursors.old }
    ensures { ReadAs base depth text.now elements.old elements.new cursors.old cursors.new result }
{
    if depth == 0 {
        return read_leaf(text, base, elements, cursors);
    }
    match opening_of(text) {
        Opening::Empty => {
            let level = depth as usize;
            append(elements, cursors, level, 1);
            Some(2)
        }
        Opening::Items => {
            if of_ints(base, depth) {
                return read_ints(text, elements, cursors);
            }
            read_list(text, base, depth, elements, cursors)
        }
        Opening::No => None,
    }
}

// A list's items, behind its brace, up to and with its closing one. Each is F in the list's flags, and the end is T.
#[cycle(read_item_read_list)]
fn read_list(
    text: &[u8],
    base: Base,
    depth: u8,
    elements: &mut [i32],
    cursors: &mut [usize],
) -> Option<usize>
    requires ready { Ready base depth text.now elements.old cursors.old }
    requires depth_nonzero { (0 < depth) × (Opening.Items ≡ opening_at text.now) }
    ensures { ReadAs base depth text.now elements.old elements.new cursors.old cursors.new result }
{
    let mut k: usize = 1;
    // What stands behind an item says whether there is another, so that no range says it beforehand.
    loop {
        let n = read_item(&text[k..], base, depth - 1, elements, cursors)?;
        append(elements, cursors, depth as usize, 0);
        match what_follows(text, k + n) {
            After::Comma => k += n + 1,
            After::Close => {
                append(elements, cursors, depth as usize, 1);
                return Some(k + n + 1);
            }
            After::Else => return None,
        }
    }
}
