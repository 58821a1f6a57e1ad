// Value text to streams.
ghost use Rattle.std.specs.Prelude.{◌≤◌, ◌<◌, ◌≡◌, length};
ghost use Rattle.std.proofs.lemmas.List.Edits.{sets};
ghost use Rattle.snesl.specs.Values.{type_of};
ghost use Rattle.snesl.specs.Limits.{most_depth};
ghost use Rattle.valuetext.specs.Storing.{measured, counts_after, text_elements, Fillable, refusal_of, to_streams};

use crate::reading::read_item;
use levels::counts::{LEVELS, add_up, copy, starts};
use snesl::code::Base;
use snesl::limits::{Buffer, Formula};
use snesl::refusal::Refusal;

// Why a text's streams have no number of elements in all.
#[derive(Clone, Copy, Debug, PartialEq, Eq)]
pub enum Unmeasured {
    // no text of a value of this type
    NoValue,
    // more than a stream buffer's used part can ever hold
    Over,
}

impl From<Unmeasured> for Refusal {
    ghost from_gives = { λ why refusal. refusal ≡ refusal_of why };

    fn from(why: Unmeasured) -> Refusal {
        match why {
            Unmeasured::NoValue => Refusal::NoValueText(0),
            Unmeasured::Over => Refusal::NoRoom(0),
        }
    }
}

// Whether a text is a value's of a type, and how many elements each of its streams has.
pub fn measure_text(
    text: &[u8],
    base: Base,
    depth: u8,
    counts: &mut [usize],
) -> Result<usize, Unmeasured>
    requires { (depth ≤ most_depth) × (depth < length counts.old) }
    ensures value { result ≡ measured (type_of base depth) text.now }
    ensures counts_after { counts.new ≡ counts_after base depth text.now counts.old }
{
    let mut cursors = [0usize; LEVELS];
    let taken = read_item(text, base, depth, &mut [], &mut cursors);
    if taken != Some(text.len()) {
        return Err(Unmeasured::NoValue);
    }
    let counted = &cursors[..depth as usize + 1];
    copy(counted, counts);
    add_up(counted, Buffer::ELEMENTS).ok_or(Unmeasured::Over)
}

// The streams of a text that was measured, one after another from `start` on.
pub fn fill_text(
    text: &[u8],
    base: Base,
    depth: u8,
    counts: &[usize],
    start: usize,
    elements: &mut [i32],
)
    requires { Fillable base depth text.now counts.now start (length elements.old) }
    ensures { elements.new ≡ sets elements.old start (text_elements (type_of base depth) text.now) }
{
    let mut cursors = [0usize; LEVELS];
    starts(&counts[..depth as usize + 1], start, &mut cursors);
    read_item(text, base, depth, elements, &mut cursors);
}

// A value's text as its streams: depth + 1 of them in tree order, one after another, and their lengths. Answers how many elements it wrote.
pub fn text_to_streams(
    text: &[u8],
    base: Base,
    depth: u8,
    elements: &mut [i32],
    lengths: &mut [usize],
) -> Result<usize, Refusal>
    ensures value { result ≡ (to_streams text.now base depth elements.old lengths.old).answer }
    ensures elements_after { elements.new ≡ (to_streams text.now base depth elements.old lengths.old).elements }
    ensures lengths_after { lengths.new ≡ (to_streams text.now base depth elements.old lengths.old).lengths }
{
    if depth > Formula::DEPTH {
        return Err(Refusal::OverLimit(0));
    }
    let mut counts = [0usize; LEVELS];
    let sum = measure_text(text, base, depth, &mut counts)?;
    let levels = depth as usize + 1;
    if sum > elements.len() || levels > lengths.len() {
        return Err(Refusal::NoRoom(0));
    }
    fill_text(text, base, depth, &counts, 0, elements);
    copy(&counts[..levels], lengths);
    Ok(sum)
}
