// Usum (002, 1.2.3): a unit for each F. It writes nothing.
ghost use Rattle.std.specs.Prelude.{◌≡◌};
ghost use Rattle.snesl.specs.Transducers as snesl;
ghost use Rattle.snesl.specs.Transducers.{flag_of};
ghost use Rattle.streams.specs.Answers.{answered};

use crate::fit::fits;
use crate::output::Failure;

pub fn usum(n: usize, flags: &[i32]) -> Result<usize, Failure>
    ensures { result ≡ answered 0 (snesl.usum flag_of n flags.now) }
{
    fits(flags, n, 0, false, false)?;
    Ok(flags.len() - n)
}
