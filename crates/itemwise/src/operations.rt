// MapTwo (002, 1.2.3): a scalar operation on the two items of each unit. Plus stands in pluses.rt; a comparison (001) has its result for any two items.
ghost use Rattle.std.specs.Prelude.{map, ◌≡◌, ◌≤◌, ℤ, Bool, drop, length};
ghost use Rattle.std.proofs.lemmas.List.Edits.{sets};
ghost use Rattle.snesl.specs.Streams.{bit};
ghost use Rattle.snesl.specs.Transducers as snesl;
ghost use Rattle.snesl.specs.Transducers.{pairwise};
ghost use Rattle.streams.specs.Answers.{Answers};
ghost use Rattle.itemwise.specs.Tests.{Computes, comparison};

use crate::pluses::map_two_plus;
use snesl::code::Operation;
use streams::fit::lengths;
use streams::output::Failure;

pub fn map_two(
    o: Operation,
    n: usize,
    xs: &[i32],
    ys: &[i32],
    out: &mut [i32],
) -> Result<usize, Failure>
    ensures answers { Answers out.old (snesl.map_two o n xs.now ys.now) result out.new }
    ensures out_unchanged { drop n out.new ≡ drop n out.old }
{
    match o {
        Operation::Plus => map_two_plus(n, xs, ys, out),
        Operation::LessEqual => compare(|x, y| x <= y, n, xs, ys, out),
        Operation::Equal => compare(|x, y| x == y, n, xs, ys, out),
    }
}

fn compare<F: Fn(i32, i32) -> bool>(
    test: F,
    n: usize,
    xs: &[i32],
    ys: &[i32],
    out: &mut [i32],
) -> Result<usize, Failure>
    requires { F.IsAlwaysCallable test }
    ensures { (f : ℤ → ℤ → Bool) → Computes (F.post test) f → Answers out.old (comparison f n xs.now ys.now) result out.new }
{
    lengths(n, xs.len(), ys.len())?;
    if out.len() < n {
        return Err(Failure::NoRoom);
    }
    write_tests(test, xs, ys, out);
    Ok(n)
}

// T is 1 and F is 0.
fn write_tests<F: Fn(i32, i32) -> bool>(test: F, xs: &[i32], ys: &[i32], out: &mut [i32])
    requires callable { F.IsAlwaysCallable test }
    requires room { (length xs.now ≡ length ys.now) × (length xs.now ≤ length out.old) }
    ensures { (f : ℤ → ℤ → Bool) → Computes (F.post test) f → out.new ≡ sets out.old 0 (map bit (pairwise f xs.now ys.now)) }
{
    for (i, x) in xs.iter().enumerate() {
        out[i] = i32::from(test(*x, ys[i]));
    }
}
