// The one line that the programs print of a refusal.
ghost use Rattle.std.specs.Prelude.{◌≤◌};
ghost use Rattle.snesl.specs.Report.{refusal_line};
ghost use Rattle.decimals.specs.Writing.{Writes};

use decimals::numbers::{put, write_number};
use lines::pieces::put_bytes;
use snesl::refusal::Refusal;

// The line of a refusal at the start of a slice, as far as it goes; its length, which is at most 53.
pub fn refusal_line(r: Refusal, text: &mut [u8]) -> usize
    ensures { Writes text.old text.new 0 (refusal_line r) result × (result ≤ 53) }
{
    let a = put_bytes(text, 0, b"refused ");
    let b = write_number(text, a, r.number());
    let c = put_bytes(text, b, b" at ");
    let d = write_number(text, c, r.place() as u64);
    put(text, d, b'\n')
}
