// The library as C and other languages link it: each export calls the function of its name in the crate hailspindle and states its clauses again.
#![tactic(auto)]

ghost use Rattle.std.specs.Prelude.{◌≡◌, length};
ghost use Rattle.snesl.specs.Listing.{listing};
ghost use Rattle.lister.specs.Lists.{text_after};
ghost use Rattle.hailspindle.specs.Bases.{base_from};
ghost use Rattle.hailspindle.specs.Replies.{noted, check_reply, list_reply, find_reply, to_streams_by, to_text_by, counted_reply};
ghost use Rattle.hailspindle.specs.Runs.{Exact, Keeps};

use hailspindle::{conversions, formulas, runs};

// Four figures: the answer's bytes, work, steps and room, or the refusal's place and three times 0.
#[unsafe(no_mangle)]
pub extern "C" fn hailspindle_run(
    job: &[u8],
    streams: &mut [i32],
    answer: &mut [u8],
    figures: &mut [u64],
) -> u64
    ensures exact { Exact job.now streams.old streams.new answer.old answer.new figures.old figures.new result }
    ensures demands { Keeps job.now streams.old streams.new answer.old answer.new figures.old figures.new result }
{
    runs::hailspindle_run(job, streams, answer, figures)
}

// Two figures: the depth of the formula's type and its base, or the refusal's place and 0.
#[unsafe(no_mangle)]
pub extern "C" fn hailspindle_check(formula: &[u8], figures: &mut [u64]) -> u64
    ensures value { result ≡ (check_reply formula.now).number }
    ensures figures_after { figures.new ≡ noted (check_reply formula.now).figures figures.old }
{
    formulas::hailspindle_check(formula, figures)
}

// One figure: the bytes of the listing, which stands from the start of the text on, or the refusal's place.
#[unsafe(no_mangle)]
pub extern "C" fn hailspindle_list(formula: &[u8], text: &mut [u8], figures: &mut [u64]) -> u64
    ensures value { result ≡ (list_reply (listing (length text.old) formula.now)).number }
    ensures figures_after { figures.new ≡ noted (list_reply (listing (length text.old) formula.now)).figures figures.old }
    ensures text_after { text.new ≡ text_after text.old (listing (length text.old) formula.now) }
{
    formulas::hailspindle_list(formula, text, figures)
}

// Two figures: where in the job the text of input number `input` starts, from 0 on, and its bytes; both 0 where there is none. Nothing is refused.
#[unsafe(no_mangle)]
pub extern "C" fn hailspindle_find(job: &[u8], input: usize, figures: &mut [u64]) -> u64
    ensures value { result ≡ (find_reply input job.now).number }
    ensures figures_after { figures.new ≡ noted (find_reply input job.now).figures figures.old }
{
    formulas::hailspindle_find(job, input, figures)
}

// One figure: the elements written, or the refusal's place.
#[unsafe(no_mangle)]
pub extern "C" fn hailspindle_text_to_streams(
    text: &[u8],
    base: u8,
    depth: u8,
    elements: &mut [i32],
    lengths: &mut [usize],
    figures: &mut [u64],
) -> u64
    ensures value { result ≡ (counted_reply (to_streams_by (base_from base) text.now depth elements.old lengths.old).answer).number }
    ensures figures_after { figures.new ≡ noted (counted_reply (to_streams_by (base_from base) text.now depth elements.old lengths.old).answer).figures figures.old }
    ensures elements_after { elements.new ≡ (to_streams_by (base_from base) text.now depth elements.old lengths.old).elements }
    ensures lengths_after { lengths.new ≡ (to_streams_by (base_from base) text.now depth elements.old lengths.old).lengths }
{
    conversions::hailspindle_text_to_streams(text, base, depth, elements, lengths, figures)
}

// One figure: the bytes of the answer, or the refusal's place.
#[unsafe(no_mangle)]
pub extern "C" fn hailspindle_streams_to_text(
    elements: &[i32],
    lengths: &[usize],
    base: u8,
    depth: u8,
    answer: &mut [u8],
    figures: &mut [u64],
) -> u64
    ensures value { result ≡ (counted_reply (to_text_by (base_from base) elements.now lengths.now depth answer.old).answer).number }
    ensures figures_after { figures.new ≡ noted (counted_reply (to_text_by (base_from base) elements.now lengths.now depth answer.old).answer).figures figures.old }
    ensures answer_after { answer.new ≡ (to_text_by (base_from base) elements.now lengths.now depth answer.old).bytes }
{
    conversions::hailspindle_streams_to_text(elements, lengths, base, depth, answer, figures)
}
