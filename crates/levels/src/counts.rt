// How many elements each stream of a value has, level by level: the data first, the outermost flags last.
ghost use Rattle.std.specs.Prelude.{ℕ, ◌+◌, ◌≤◌, ◌<◌, ◌^◌, ◌++◌, ◌≡◌, length, get_or, take, drop};
ghost use Rattle.snesl.specs.Machine.{sum_of};
ghost use Rattle.levels.specs.Counts.{total_of};

use snesl::limits::Formula;

// A value has its depth's flags and its data.
pub const LEVELS: usize = Formula::DEPTH as usize + 1;

// A total, unless it passes a limit.
pub fn add_up(counts: &[usize], most: usize) -> Option<usize>
    ensures { result ≡ total_of counts.now most }
{
    let mut sum: usize = 0;
    for n in counts {
        if *n > most - sum {
            return None;
        }
        sum += *n;
    }
    Some(sum)
}

// Counts put in front of others.
pub fn copy(from: &[usize], to: &mut [usize])
    requires { length from.now ≤ length to.old }
    ensures { to.new ≡ from.now ++ drop (length from.now) to.old }
{
    to[..from.len()].copy_from_slice(from);
}

// Where each stream starts, if they stand one after another from `start` on.
pub fn starts(counts: &[usize], start: usize, places: &mut [usize])
    requires places_bound { length counts.now ≤ length places.old }
    requires counts_bound { start + sum_of counts.now < 2 ^ 64 }
    ensures by_index { (i : ℕ) → i < length counts.now → get_or places.new i 0 ≡ start + sum_of (take i counts.now) }
    ensures places_unchanged { drop (length counts.now) places.new ≡ drop (length counts.now) places.old }
{
    let mut at = start;
    for (i, n) in counts.iter().enumerate() {
        places[i] = at;
        at += *n;
    }
}
