// MapOneNot (001): T for each F and F for each T.
ghost use Rattle.std.specs.Prelude.{not, map, ◌≡◌, ◌≤◌, length};
ghost use Rattle.std.proofs.lemmas.List.Edits.{sets};
ghost use Rattle.snesl.specs.Streams.{bit};
ghost use Rattle.snesl.specs.Transducers as snesl;
ghost use Rattle.snesl.specs.Transducers.{bool_of};
ghost use Rattle.streams.specs.Answers.{Answers};

use streams::fit::lengths;
use streams::output::Failure;

pub fn map_one_not(n: usize, bools: &[i32], out: &mut [i32]) -> Result<usize, Failure>
    ensures { Answers out.old (snesl.map_one_not n (map bool_of bools.now)) result out.new }
{
    lengths(n, bools.len(), bools.len())?;
    if out.len() < n {
        return Err(Failure::NoRoom);
    }
    negate(bools, out);
    Ok(n)
}

fn negate(bools: &[i32], out: &mut [i32])
    requires { length bools.now ≤ length out.old }
    ensures { out.new ≡ sets out.old 0 (map bit (map not (map bool_of bools.now))) }
{
    for (i, c) in bools.iter().enumerate() {
        out[i] = negated(*c);
    }
}

fn negated(c: i32) -> i32
    ensures { result ≡ bit (not (bool_of c)) }
{
    i32::from(c == 0)
}
