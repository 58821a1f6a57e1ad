// UPack (001): the segments whose bool is T, each whole with its T.
ghost use Rattle.std.specs.Prelude.{map, ◌≡◌, ◌≤◌, length};
ghost use Rattle.std.proofs.Math.Option.{none};
ghost use Rattle.std.proofs.lemmas.List.Edits.{sets};
ghost use Rattle.snesl.specs.Streams.{bit};
ghost use Rattle.snesl.specs.Transducers as snesl;
ghost use Rattle.snesl.specs.Transducers.{bool_of, each_t, flag_of, kept_segments, misfit};
ghost use Rattle.streams.specs.Answers.{Answers};

use flags::{next_segment, put_segment};
use streams::fit::fits;
use streams::output::Failure;

pub fn upack(n: usize, bools: &[i32], flags: &[i32], out: &mut [i32]) -> Result<usize, Failure>
    ensures { Answers out.old (snesl.upack flag_of n (map bool_of bools.now) flags.now) result out.new }
{
    fits(flags, n, bools.len(), false, true)?;
    let made = measure(bools, flags);
    if out.len() < made {
        return Err(Failure::NoRoom);
    }
    keep(bools, flags, out);
    Ok(made)
}

// How many flags the segments have whose bool is T.
fn measure(bools: &[i32], flags: &[i32]) -> usize
    requires { misfit flag_of each_t 0 (length bools.now) flags.now bools.now ≡ none }
    ensures { result ≡ length (kept_segments flag_of (map bool_of bools.now) flags.now) }
{
    let mut flags = flags;
    let mut found = 0;
    for &c in bools {
        let (count, rest) = next_segment(flags);
        flags = rest;
        if c != 0 {
            found += count + 1;
        }
    }
    found
}

// Segment k is kept if bool k is T.
fn keep(bools: &[i32], flags: &[i32], out: &mut [i32])
    requires fit { misfit flag_of each_t 0 (length bools.now) flags.now bools.now ≡ none }
    requires room { length (kept_segments flag_of (map bool_of bools.now) flags.now) ≤ length out.old }
    ensures { out.new ≡ sets out.old 0 (map bit (kept_segments flag_of (map bool_of bools.now) flags.now)) }
{
    let mut flags = flags;
    let mut to = 0;
    for &c in bools {
        let (count, rest) = next_segment(flags);
        flags = rest;
        if c != 0 {
            put_segment(out, to, count);
            to += count + 1;
        }
    }
}
