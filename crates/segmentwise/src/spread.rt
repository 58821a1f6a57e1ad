// Distr (002, 1.2.3): a segment's item at each of its F's. What an item is does not matter to it.
ghost use Rattle.std.specs.Prelude.{◌≡◌, ◌≤◌, length};
ghost use Rattle.std.proofs.Math.Option.{none};
ghost use Rattle.std.proofs.lemmas.List.Edits.{sets};
ghost use Rattle.snesl.specs.declared.code.Base.TheVariants.{Int};
ghost use Rattle.snesl.specs.Transducers as snesl;
ghost use Rattle.snesl.specs.Transducers.{each_t, flag_of, misfit, spread};
ghost use Rattle.streams.specs.Answers.{Answers};

use flags::next_segment;
use streams::fit::fits;
use streams::output::Failure;

pub fn distr(n: usize, flags: &[i32], items: &[i32], out: &mut [i32]) -> Result<usize, Failure>
    ensures { Answers out.old (snesl.distr flag_of n flags.now Int items.now) result out.new }
{
    fits(flags, n, items.len(), false, true)?;
    let made = flags.len() - n;
    if out.len() < made {
        return Err(Failure::NoRoom);
    }
    distribute(flags, items, out);
    Ok(made)
}

// Each item fills a run of elements, one for each F of its segment.
fn distribute(flags: &[i32], items: &[i32], out: &mut [i32])
    requires fit { misfit flag_of each_t 0 (length items.now) flags.now items.now ≡ none }
    requires room { length (spread flag_of flags.now items.now) ≤ length out.old }
    ensures { out.new ≡ sets out.old 0 (spread flag_of flags.now items.now) }
{
    let mut flags = flags;
    let mut to = 0;
    for &x in items {
        let (count, rest) = next_segment(flags);
        out[to..to + count].fill(x);
        flags = rest;
        to += count;
    }
}
