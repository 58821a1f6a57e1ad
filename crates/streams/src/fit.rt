// Whether streams fit each other, which comes before all else that a transducer answers, and before anything is written. Where they don't, the
// first element at which they don't is told.
ghost use Rattle.std.specs.Prelude.{◌≡◌, false, true, List, ℤ, length};
ghost use Rattle.snesl.specs.Transducers.{Feed, takes, flag_of, length_misfit, misfit};
ghost use Rattle.streams.specs.Walks.{steps, taking, told, wanted_by};
ghost use Rattle.streams.specs.declared.output.Failure.TheVariants.{Unfit};

use crate::output::Failure;
use flags::{flag_at, segments};

// What a flag does to a walk: it takes so many items and ends so many segments.
#[derive(Clone, Copy)]
pub struct Turn {
    pub taken: usize,
    pub ended: usize,
}

// Streams of l and m items under n units.
pub fn lengths(n: usize, l: usize, m: usize) -> Result<(), Failure>
    ensures { result ≡ told Unfit (length_misfit n l m) }
{
    if l == n && m == n {
        return Ok(());
    }
    Err(Failure::Unfit(n.min(l.min(m))))
}

// How many items so many F's and T's take.
fn wanted(f: bool, t: bool, fs: usize, ts: usize) -> usize
    ensures { result ≡ wanted_by f t fs ts }
{
    if f {
        return fs;
    }
    if t { ts } else { 0 }
}

// Flags under n units, and beside them so many items, of which an F takes one if `f` and a T if `t`. Streams that fit are told by their counts; only
// where they don't is the element looked for.
pub fn fits(flags: &[i32], n: usize, items: usize, f: bool, t: bool) -> Result<(), Failure>
    ensures { (feed : Feed) → takes feed false ≡ f → takes feed true ≡ t → (xs : List ℤ) → length xs ≡ items → result ≡ told Unfit (misfit flag_of feed 0 n flags.now xs) }
{
    if let Some(m) = segments(flags) {
        if m == n && wanted(f, t, flags.len() - n, n) == items {
            return Ok(());
        }
    }
    first_misfit(flags, n, items, f, t)
}

fn take(takes: bool, left: bool, ended: usize) -> Option<Turn>
    ensures { result ≡ taking takes left ended }
{
    if takes {
        if left {
            return Some(Turn { taken: 1, ended });
        }
        return None;
    }
    Some(Turn { taken: 0, ended })
}

// One flag, where a segment is still due if `due` and an item is left if `left`.
fn step(flag: Option<bool>, due: bool, left: bool, f: bool, t: bool) -> Option<Turn>
    ensures { result ≡ steps flag due left f t }
{
    if due {
        if flag? {
            return take(t, left, 1);
        }
        return take(f, left, 0);
    }
    None
}

// The same, flag by flag: j items are taken and k segments done.
fn first_misfit(flags: &[i32], n: usize, items: usize, f: bool, t: bool) -> Result<(), Failure>
    ensures { (feed : Feed) → takes feed false ≡ f → takes feed true ≡ t → (xs : List ℤ) → length xs ≡ items → result ≡ told Unfit (misfit flag_of feed 0 n flags.now xs) }
{
    let mut j = 0;
    let mut k = 0;
    for i in 0..flags.len() {
        let Some(turn) = step(flag_at(flags, i), k < n, j < items, f, t) else {
            return Err(Failure::Unfit(k));
        };
        j += turn.taken;
        k += turn.ended;
    }
    if k < n || j < items {
        return Err(Failure::Unfit(k));
    }
    Ok(())
}
