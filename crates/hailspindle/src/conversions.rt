// Value text to streams and back. A base is a byte; one that is none is over its limit (3), before anything else is looked at.
ghost use Rattle.std.specs.Prelude.{◌≡◌};
ghost use Rattle.hailspindle.specs.Bases.{base_from};
ghost use Rattle.hailspindle.specs.Replies.{noted, to_streams_by, to_text_by, counted_reply};

use crate::bases::base_from;
use crate::figures::reply;
use rendering::showing::streams_to_text;
use snesl::refusal::Refusal;
use valuetext::storing::text_to_streams;

fn store(
    text: &[u8],
    base: u8,
    depth: u8,
    elements: &mut [i32],
    lengths: &mut [usize],
) -> Result<usize, Refusal>
    ensures value { result ≡ (to_streams_by (base_from base) text.now depth elements.old lengths.old).answer }
    ensures elements_after { elements.new ≡ (to_streams_by (base_from base) text.now depth elements.old lengths.old).elements }
    ensures lengths_after { lengths.new ≡ (to_streams_by (base_from base) text.now depth elements.old lengths.old).lengths }
{
    let known = base_from(base).ok_or(Refusal::OverLimit(0))?;
    text_to_streams(text, known, depth, elements, lengths)
}

// One figure: the elements written, or the refusal's place.
pub fn hailspindle_text_to_streams(
    text: &[u8],
    base: u8,
    depth: u8,
    elements: &mut [i32],
    lengths: &mut [usize],
    figures: &mut [u64],
) -> u64
    ensures value { result ≡ (counted_reply (to_streams_by (base_from base) text.now depth elements.old lengths.old).answer).number }
    ensures figures_after { figures.new ≡ noted (counted_reply (to_streams_by (base_from base) text.now depth elements.old lengths.old).answer).figures figures.old }
    ensures elements_after { elements.new ≡ (to_streams_by (base_from base) text.now depth elements.old lengths.old).elements }
    ensures lengths_after { lengths.new ≡ (to_streams_by (base_from base) text.now depth elements.old lengths.old).lengths }
{
    let stored = store(text, base, depth, elements, lengths);
    reply(figures, stored)
}

fn show(
    elements: &[i32],
    lengths: &[usize],
    base: u8,
    depth: u8,
    answer: &mut [u8],
) -> Result<usize, Refusal>
    ensures value { result ≡ (to_text_by (base_from base) elements.now lengths.now depth answer.old).answer }
    ensures answer_after { answer.new ≡ (to_text_by (base_from base) elements.now lengths.now depth answer.old).bytes }
{
    let known = base_from(base).ok_or(Refusal::OverLimit(0))?;
    streams_to_text(elements, lengths, known, depth, answer)
}

// One figure: the bytes of the answer, or the refusal's place.
pub fn hailspindle_streams_to_text(
    elements: &[i32],
    lengths: &[usize],
    base: u8,
    depth: u8,
    answer: &mut [u8],
    figures: &mut [u64],
) -> u64
    ensures value { result ≡ (counted_reply (to_text_by (base_from base) elements.now lengths.now depth answer.old).answer).number }
    ensures figures_after { figures.new ≡ noted (counted_reply (to_text_by (base_from base) elements.now lengths.now depth answer.old).answer).figures figures.old }
    ensures answer_after { answer.new ≡ (to_text_by (base_from base) elements.now lengths.now depth answer.old).bytes }
{
    let shown = show(elements, lengths, base, depth, answer);
    reply(figures, shown)
}
