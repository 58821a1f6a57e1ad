// Pack (001): the items whose bool is T. What an item is does not matter to it.
ghost use Rattle.std.specs.Prelude.{map, ◌≡◌, ◌≤◌, length};
ghost use Rattle.std.proofs.lemmas.List.Edits.{sets};
ghost use Rattle.snesl.specs.declared.code.Base.TheVariants.{Int};
ghost use Rattle.snesl.specs.Charges.{count_true};
ghost use Rattle.snesl.specs.Transducers as snesl;
ghost use Rattle.snesl.specs.Transducers.{bool_of, kept};
ghost use Rattle.streams.specs.Answers.{Answers};

use streams::fit::lengths;
use streams::output::Failure;

pub fn pack(n: usize, bools: &[i32], items: &[i32], out: &mut [i32]) -> Result<usize, Failure>
    ensures { Answers out.old (snesl.pack n (map bool_of bools.now) Int items.now) result out.new }
{
    lengths(n, bools.len(), items.len())?;
    let made = trues(bools);
    if out.len() < made {
        return Err(Failure::NoRoom);
    }
    keep(bools, items, out);
    Ok(made)
}

// How many of the bools are T.
fn trues(bools: &[i32]) -> usize
    ensures { result ≡ count_true (map bool_of bools.now) }
{
    bools
        .iter()
        .filter(
            |b|
                ensures { result ≡ bool_of b.now.now }
            { **b != 0 },
        )
        .count()
}

fn keep(bools: &[i32], items: &[i32], out: &mut [i32])
    requires { (length bools.now ≡ length items.now) × (length (kept (map bool_of bools.now) items.now) ≤ length out.old) }
    ensures { out.new ≡ sets out.old 0 (kept (map bool_of bools.now) items.now) }
{
    let mut to = 0;
    for (i, b) in bools.iter().enumerate() {
        if *b != 0 {
            out[to] = items[i];
            to += 1;
        }
    }
}
