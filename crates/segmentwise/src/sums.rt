// SumPlus (01, "Translation"): the exact total of each segment, an empty one's too. Only a total must be in range, no running total.
ghost use Rattle.std.specs.Prelude.{◌≡◌, ◌≤◌, pos, drop, length};
ghost use Rattle.std.proofs.Math.Option.{none};
ghost use Rattle.snesl.specs.Transducers as snesl;
ghost use Rattle.snesl.specs.Transducers.{each_f, first_outside, flag_of, misfit, sums};
ghost use Rattle.streams.specs.Answers.{Answers, widest_buffer};
ghost use Rattle.streams.specs.Fills.{Fills};
ghost use Rattle.streams.specs.Walks.{told_outside};
ghost use Rattle.flags.specs.Segments.{total_from};

use flags::next_segment;
use laws::range::{held, in_range};
use streams::fit::fits;
use streams::output::Failure;

pub fn sum_plus(n: usize, flags: &[i32], items: &[i32], out: &mut [i32]) -> Result<usize, Failure>
    requires { length items.now ≤ widest_buffer }
    ensures answers { Answers out.old (snesl.sum_plus flag_of n flags.now items.now) result out.new }
    ensures out_unchanged { drop n out.new ≡ drop n out.old }
{
    fits(flags, n, items.len(), true, false)?;
    if n <= out.len() && sum(n, flags, items, out) {
        return Ok(n);
    }
    Err(first_outside(n, flags, items))
}

// The total of the items.
fn total(items: &[i32]) -> i64
    requires { length items.now ≤ widest_buffer }
    ensures { result ≡ total_from (pos 0) items.now }
{
    let mut sum = 0;
    for &x in items {
        sum += i64::from(x);
    }
    sum
}

// All n totals, and whether each is in range. No total ends the loop.
fn sum(n: usize, flags: &[i32], items: &[i32], out: &mut [i32]) -> bool
    requires fit { misfit flag_of each_f 0 n flags.now items.now ≡ none }
    requires few { length items.now ≤ widest_buffer }
    requires room { n ≤ length out.old }
    ensures { Fills (sums flag_of 0 (pos 0) flags.now items.now) n out.old result out.new }
{
    let mut flags = flags;
    let mut items = items;
    let mut inside = true;
    for k in 0..n {
        let (count, rest) = next_segment(flags);
        let (these, left) = items.split_at(count);
        let t = total(these);
        inside = inside & in_range(t);
        out[k] = held(t);
        flags = rest;
        items = left;
    }
    inside
}

// The first total that is out of range, or that there is no room.
fn first_outside(n: usize, flags: &[i32], items: &[i32]) -> Failure
    requires fit { misfit flag_of each_f 0 n flags.now items.now ≡ none }
    requires few { length items.now ≤ widest_buffer }
    ensures { result ≡ told_outside (first_outside (sums flag_of 0 (pos 0) flags.now items.now)) }
{
    let mut flags = flags;
    let mut items = items;
    for k in 0..n {
        let (count, rest) = next_segment(flags);
        let (these, left) = items.split_at(count);
        if !in_range(total(these)) {
            return Failure::Outside(k);
        }
        flags = rest;
        items = left;
    }
    Failure::NoRoom
}
