// ScanPlus (002, 1.2.3): at each F the total of the items before it in its segment, from `start`.
ghost use Rattle.std.specs.Prelude.{◌≡◌, ◌+◌, ◌<◌, ◌^◌, drop, length, set};
ghost use Rattle.std.proofs.Math.Option.{none};
ghost use Rattle.snesl.specs.Transducers as snesl;
ghost use Rattle.snesl.specs.Transducers.{each_f, flag_of, misfit, scans};
ghost use Rattle.streams.specs.Answers.{Answers};
ghost use Rattle.segmentwise.specs.Segmented.{Runs, Scans};

use flags::next_segment;
use laws::range::{held, in_range};
use streams::fit::fits;
use streams::output::Failure;

pub fn scan_plus(
    n: usize,
    start: i32,
    flags: &[i32],
    items: &[i32],
    out: &mut [i32],
) -> Result<usize, Failure>
    ensures answers { Answers out.old (snesl.scan_plus flag_of start n flags.now items.now) result out.new }
    ensures out_unchanged { drop (length items.now) out.new ≡ drop (length items.now) out.old }
{
    fits(flags, n, items.len(), true, false)?;
    if items.len() <= out.len() {
        scan(n, start, flags, items, &mut out[..items.len()])?;
        return Ok(items.len());
    }
    // Nothing is written, but an element that is out of range comes before the lack of room.
    scan(n, start, flags, items, &mut out[..0])?;
    Err(Failure::NoRoom)
}

// The first segment with a total that is out of range. The totals before it are written, where there is room.
fn scan(n: usize, start: i32, flags: &[i32], items: &[i32], out: &mut [i32]) -> Result<(), Failure>
    requires { misfit flag_of each_f 0 n flags.now items.now ≡ none }
    ensures { Scans (scans flag_of start 0 start flags.now items.now) out.old result out.new }
{
    let mut flags = flags;
    let mut items = items;
    let mut to = 0;
    for k in 0..n {
        let (count, rest) = next_segment(flags);
        let (these, left) = items.split_at(count);
        if !run(these, start, out, to) {
            return Err(Failure::Outside(k));
        }
        flags = rest;
        items = left;
        to += count;
    }
    Ok(())
}

// A store past the end changes nothing.
fn store(out: &mut [i32], at: usize, v: i32)
    ensures { out.new ≡ set out.old at v }
{
    if at < out.len() {
        out[at] = v;
    }
}

// The totals before each of the items, from `to` on, and whether each is in range. Each total waits for the one before, so that nothing is lost by
// leaving the loop at one that isn't.
fn run(items: &[i32], start: i32, out: &mut [i32], to: usize) -> bool
    requires { to + length items.now < 2 ^ 64 }
    ensures { Runs start items.now to out.old result out.new }
{
    let mut total = i64::from(start);
    for (i, &x) in items.iter().enumerate() {
        if !in_range(total) {
            return false;
        }
        store(out, to + i, held(total));
        total += i64::from(x);
    }
    true
}
