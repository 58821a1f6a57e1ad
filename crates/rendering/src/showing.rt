// Streams to value text.
ghost use Rattle.std.specs.Prelude.{◌≡◌, length};
ghost use Rattle.snesl.specs.Values.{type_of};
ghost use Rattle.rendering.specs.Rendering.{ValueStands, ShowsValue, Row, row_text, to_text};

use crate::fitting::first_misfit;
use crate::writing::write_item;
use levels::counts::{LEVELS, add_up, copy, starts};
use snesl::code::Base;
use snesl::limits::{Buffer, Formula};
use snesl::refusal::Refusal;

// The text of the value whose streams start at these places, the data's first. Lent no bytes, it only measures.
pub fn value_text(
    elements: &[i32],
    places: &[usize],
    base: Base,
    depth: u8,
    answer: &mut [u8],
) -> usize
    requires { ValueStands base depth elements.now places.now }
    ensures { ShowsValue base depth elements.now places.now answer.old answer.new result }
{
    let mut cursors = [0usize; LEVELS];
    copy(&places[..depth as usize + 1], &mut cursors);
    write_item(elements, base, depth, &mut cursors, answer, 0)
}

// Streams whose lengths are right: how many bytes their value's text has, which was written, or why none was.
fn row_to_text(
    elements: &[i32],
    lengths: &[usize],
    base: Base,
    depth: u8,
    answer: &mut [u8],
) -> Result<usize, Refusal>
    requires { Row depth lengths.now (length elements.now) }
    ensures value { result ≡ (row_text elements.now lengths.now (type_of base depth) answer.old).answer }
    ensures answer_after { answer.new ≡ (row_text elements.now lengths.now (type_of base depth) answer.old).bytes }
{
    let mut places = [0usize; LEVELS];
    starts(lengths, 0, &mut places);
    first_misfit(elements, lengths, &places, base, depth).map_err(Refusal::NoRepresentation)?;
    let bytes = value_text(elements, &places, base, depth, &mut []);
    if bytes > answer.len() {
        return Err(Refusal::NoAnswerRoom(bytes));
    }
    value_text(elements, &places, base, depth, answer);
    Ok(bytes)
}

// Streams in tree order, one after another, with their lengths, as their value's text: how many bytes were written, or why none was.
pub fn streams_to_text(
    elements: &[i32],
    lengths: &[usize],
    base: Base,
    depth: u8,
    answer: &mut [u8],
) -> Result<usize, Refusal>
    ensures value { result ≡ (to_text elements.now lengths.now base depth answer.old).answer }
    ensures answer_after { answer.new ≡ (to_text elements.now lengths.now base depth answer.old).bytes }
{
    if depth > Formula::DEPTH {
        return Err(Refusal::OverLimit(0));
    }
    let levels = depth as usize + 1;
    if lengths.len() != levels || add_up(lengths, Buffer::ELEMENTS) != Some(elements.len()) {
        return Err(Refusal::NoRepresentation(levels));
    }
    row_to_text(elements, lengths, base, depth, answer)
}
