// ToFlags (002, 1.2.3): for each item n, n F's and a T.
ghost use Rattle.std.specs.Prelude.{map, ◌≡◌, ◌≤◌, drop, length};
ghost use Rattle.std.proofs.Math.Option.{none};
ghost use Rattle.std.proofs.lemmas.List.Edits.{sets};
ghost use Rattle.snesl.specs.Streams.{bit, flags};
ghost use Rattle.snesl.specs.Transducers as snesl;
ghost use Rattle.snesl.specs.Transducers.{first_negative, made, negative, unary, unless};
ghost use Rattle.streams.specs.Answers.{Answers, answered};
ghost use Rattle.streams.specs.Walks.{told_negative};

use flags::put_segment;
use streams::fit::lengths;
use streams::output::Failure;

pub fn to_flags(n: usize, items: &[i32], out: &mut [i32]) -> Result<usize, Failure>
    ensures { Answers out.old (snesl.to_flags n items.now) result out.new }
{
    lengths(n, items.len(), items.len())?;
    let made = measure(items, out.len())?;
    write_flags(items, out);
    Ok(made)
}

// How many flags there will be, where no item is negative and there is room for so many. Where there is none for an item's flags no more are
// counted, so that no count can wrap; a negative may still come.
fn measure(items: &[i32], room: usize) -> Result<usize, Failure>
    ensures { result ≡ answered room (unless (first_negative 0 items.now) negative (made (flags (unary items.now)))) }
{
    let mut free = room;
    for (i, z) in items.iter().enumerate() {
        let Ok(m) = usize::try_from(*z) else {
            return Err(Failure::Negative(i));
        };
        if free <= m {
            return Err(first_negative(items, i));
        }
        free -= m + 1;
    }
    Ok(room - free)
}

// The first negative from item `start` on, or that there is no room.
fn first_negative(items: &[i32], start: usize) -> Failure
    requires { start ≤ length items.now }
    ensures { result ≡ told_negative (first_negative start (drop start items.now)) }
{
    for i in start..items.len() {
        if items[i] < 0 {
            return Failure::Negative(i);
        }
    }
    Failure::NoRoom
}

fn write_flags(items: &[i32], out: &mut [i32])
    requires { (length (unary items.now) ≤ length out.old) × (first_negative 0 items.now ≡ none) }
    ensures { out.new ≡ sets out.old 0 (map bit (unary items.now)) }
{
    let mut to = 0;
    for z in items {
        let m = *z as usize;
        put_segment(out, to, m);
        to += m + 1;
    }
}
