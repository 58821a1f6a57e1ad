// Checking and listing a formula, and finding an input's text in a job.
ghost use Rattle.std.specs.Prelude.{◌≡◌, length};
ghost use Rattle.snesl.specs.Listing.{listing};
ghost use Rattle.lister.specs.Lists.{text_after};
ghost use Rattle.hailspindle.specs.Replies.{noted, check_reply, list_reply, find_reply};

use crate::bases::base_byte;
use crate::figures::{note, refuse, reply};
use checking::check::check;
use finder::find::locate;
use lister::list::list;

// Two figures: the depth of the formula's type and its base, or the refusal's place and 0.
pub fn hailspindle_check(formula: &[u8], figures: &mut [u64]) -> u64
    ensures value { result ≡ (check_reply formula.now).number }
    ensures figures_after { figures.new ≡ noted (check_reply formula.now).figures figures.old }
{
    match check(formula) {
        Ok(found) => {
            note(figures, &[found.depth as u64, base_byte(found.base)]);
            0
        }
        Err(refusal) => refuse(figures, refusal, 1),
    }
}

// One figure: the bytes of the listing, which stands from the start of the text on, or the refusal's place.
pub fn hailspindle_list(formula: &[u8], text: &mut [u8], figures: &mut [u64]) -> u64
    ensures value { result ≡ (list_reply (listing (length text.old) formula.now)).number }
    ensures figures_after { figures.new ≡ noted (list_reply (listing (length text.old) formula.now)).figures figures.old }
    ensures text_after { text.new ≡ text_after text.old (listing (length text.old) formula.now) }
{
    let listed = list(formula, text);
    reply(figures, listed)
}

// Two figures: where in the job the text of input number `input` starts, from 0 on, and its bytes; both 0 where there is none. Nothing is refused.
pub fn hailspindle_find(job: &[u8], input: usize, figures: &mut [u64]) -> u64
    ensures value { result ≡ (find_reply input job.now).number }
    ensures figures_after { figures.new ≡ noted (find_reply input job.now).figures figures.old }
{
    let part = locate(job, input);
    note(figures, &[part.start as u64, part.bytes as u64]);
    0
}
