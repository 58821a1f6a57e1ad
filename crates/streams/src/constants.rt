// Const_z (002, 1.2.3): z for each unit.
ghost use Rattle.snesl.specs.Transducers as snesl;
ghost use Rattle.streams.specs.Answers.{Answers};

use crate::output::Failure;

pub fn constant(n: usize, z: i32, out: &mut [i32]) -> Result<usize, Failure>
    ensures { Answers out.old (snesl.constant z n) result out.new }
{
    if out.len() < n {
        return Err(Failure::NoRoom);
    }
    out[..n].fill(z);
    Ok(n)
}
