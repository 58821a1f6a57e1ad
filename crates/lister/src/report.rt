// What the listing program prints, as one function.
ghost use Rattle.std.specs.Prelude.{◌≤◌, length};
ghost use Rattle.snesl.specs.Listing.{listing};
ghost use Rattle.snesl.specs.Report.{list_lines};
ghost use Rattle.decimals.specs.Writing.{Writes};

use crate::list::list;
use refusals::line::refusal_line;

// What the listing program prints of a formula, at the start of a slice: the listing, or the line of its refusal, as far as it goes; its length. It goes the
// whole way where 53 bytes or more are lent.
pub fn list_lines(formula: &[u8], text: &mut [u8]) -> usize
    ensures { Writes text.old text.new 0 (list_lines (listing (length text.old) formula.now)) result × (53 ≤ length text.old → result ≤ length text.old) }
{
    match list(formula, text) {
        Ok(length) => length,
        Err(refusal) => refusal_line(refusal, text),
    }
}
