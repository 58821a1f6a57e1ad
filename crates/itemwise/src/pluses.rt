// MapTwo+ (002, 1.2.3): the sum of the two items of each unit.
ghost use Rattle.std.specs.Prelude.{◌≡◌, ◌≤◌, drop, length};
ghost use Rattle.snesl.specs.declared.code.Operation.TheVariants.{Plus};
ghost use Rattle.snesl.specs.Transducers as snesl;
ghost use Rattle.snesl.specs.Transducers.{first_outside, pluses};
ghost use Rattle.streams.specs.Answers.{Answers};
ghost use Rattle.streams.specs.Walks.{told_outside};
ghost use Rattle.streams.specs.Fills.{Fills};

use laws::range::{held, in_range};
use streams::fit::lengths;
use streams::output::Failure;

pub fn map_two_plus(n: usize, xs: &[i32], ys: &[i32], out: &mut [i32]) -> Result<usize, Failure>
    ensures answers { Answers out.old (snesl.map_two Plus n xs.now ys.now) result out.new }
    ensures out_unchanged { drop n out.new ≡ drop n out.old }
{
    lengths(n, xs.len(), ys.len())?;
    if n <= out.len() && add(xs, ys, out) {
        Ok(n)
    } else {
        Err(first_outside(xs, ys))
    }
}

// All the sums, and whether each is in range. One that isn't does not end the loop, so that it goes over many at once.
fn add(xs: &[i32], ys: &[i32], out: &mut [i32]) -> bool
    requires { (length xs.now ≡ length ys.now) × (length xs.now ≤ length out.old) }
    ensures { Fills (pluses 0 xs.now ys.now) (length xs.now) out.old result out.new }
{
    let mut inside = true;
    // By index and not by `zip`: of what a zip wrote to nothing would be known.
    for (i, x) in xs.iter().enumerate() {
        let z = i64::from(*x) + i64::from(ys[i]);
        inside &= in_range(z);
        out[i] = held(z);
    }
    inside
}

// The first sum that is out of range, or that there is no room.
fn first_outside(xs: &[i32], ys: &[i32]) -> Failure
    requires { length xs.now ≡ length ys.now }
    ensures { result ≡ told_outside (first_outside (pluses 0 xs.now ys.now)) }
{
    for (i, x) in xs.iter().enumerate() {
        if !in_range(i64::from(*x) + i64::from(ys[i])) {
            return Failure::Outside(i);
        }
    }
    Failure::NoRoom
}
