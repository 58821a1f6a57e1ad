// The text of a value whose streams stand in a buffer: each level has a cursor at its next element. Lent no bytes, the writers only measure.
ghost use Rattle.std.specs.Prelude.{◌+◌, ◌<◌, ◌^◌, ◌≡◌, pos, length, get_or, set};
ghost use Rattle.decimals.specs.Writing.{Writes};
ghost use Rattle.rendering.specs.Showing.{is_stop, letter_of, scalar_text, Showable, Shown};

use decimals::numbers::{put, write_int};
use flags::flag_at;
use snesl::code::Base;

// Whether a level's next flag is a T. The cursor moves on.
fn stops(elements: &[i32], cursors: &mut [usize], level: usize) -> bool
    requires { (level < length cursors.old) × (get_or cursors.old level 0 < length elements.now) }
    ensures value { result ≡ is_stop (get_or elements.now (get_or cursors.old level 0) (pos 0)) }
    ensures cursors_after { cursors.new ≡ set cursors.old level (get_or cursors.old level 0 + 1) }
{
    let at = cursors[level];
    cursors[level] = at + 1;
    flag_at(elements, at) != Some(false)
}

// A bool's letter.
fn letter(z: i32) -> u8
    ensures { result ≡ letter_of z }
{
    if z == 0 { b'F' } else { b'T' }
}

// An element of a base.
fn write_scalar(answer: &mut [u8], at: usize, base: Base, z: i32) -> usize
    requires { at + 1 < 2 ^ 32 }
    ensures { Writes answer.old answer.new at (scalar_text base z) result }
{
    match base {
        Base::Int => write_int(answer, at, z),
        Base::Bool => put(answer, at, letter(z)),
    }
}

fn write_leaf(
    elements: &[i32],
    base: Base,
    cursors: &mut [usize],
    answer: &mut [u8],
    at: usize,
) -> usize
    requires { Showable base 0 elements.now cursors.old at }
    ensures { Shown base 0 elements.now cursors.old cursors.new answer.old answer.new at result }
{
    let c = cursors[0];
    cursors[0] = c + 1;
    let z = elements[c];
    write_scalar(answer, at, base, z)
}

// The next value of a level, with all that it holds.
#[cycle(write_item_write_list)]
pub fn write_item(
    elements: &[i32],
    base: Base,
    depth: u8,
    cursors: &mut [usize],
    answer: &mut [u8],
    at: usize,
) -> usize
    requires { Showable base depth elements.now cursors.old at }
    ensures { Shown base depth elements.now cursors.old cursors.new answer.old answer.new at result }
{
    if depth == 0 {
        return write_leaf(elements, base, cursors, answer, at);
    }
    write_list(elements, base, depth, cursors, answer, at)
}

// A brace stands before a list's first item and a comma before each other one; each item is an F of its flags, and its end is their T.
#[cycle(write_item_write_list)]
fn write_list(
    elements: &[i32],
    base: Base,
    depth: u8,
    cursors: &mut [usize],
    answer: &mut [u8],
    at: usize,
) -> usize
    requires showable { Showable base depth elements.now cursors.old at }
    requires depth_nonzero { 0 < depth }
    ensures { Shown base depth elements.now cursors.old cursors.new answer.old answer.new at result }
{
    let mut next = at;
    let mut mark: u8 = b'{';
    // The list's own flags say where it ends, so that no range says it beforehand.
    while !stops(elements, cursors, depth as usize) {
        next = put(answer, next, mark);
        next = write_item(elements, base, depth - 1, cursors, answer, next);
        mark = b',';
    }
    if mark != b',' {
        next = put(answer, next, b'{');
    }
    put(answer, next, b'}')
}
