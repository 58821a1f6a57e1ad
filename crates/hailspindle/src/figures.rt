// The figures of a call, written to the slice lent for them as far as it goes.
ghost use Rattle.std.specs.Prelude.{◌≡◌, ◌≤◌};
ghost use Rattle.hailspindle.specs.Replies.{noted, refuses, counted_reply};

use snesl::refusal::Refusal;

pub fn note(figures: &mut [u64], values: &[u64])
    ensures { figures.new ≡ noted values.now figures.old }
{
    let n = figures.len().min(values.len());
    figures[..n].copy_from_slice(&values[..n]);
}

// A refused call tells its place, and 0 for each other figure that it has.
pub fn refuse(figures: &mut [u64], refusal: Refusal, others: usize) -> u64
    requires { others ≤ 3 }
    ensures value { result ≡ (refuses others refusal).number }
    ensures figures_after { figures.new ≡ noted (refuses others refusal).figures figures.old }
{
    let values = [refusal.place() as u64, 0, 0, 0];
    note(figures, &values[..1 + others]);
    refusal.number()
}

// A call that answers a count, and has no other figure.
pub fn reply(figures: &mut [u64], answer: Result<usize, Refusal>) -> u64
    ensures value { result ≡ (counted_reply answer).number }
    ensures figures_after { figures.new ≡ noted (counted_reply answer).figures figures.old }
{
    match answer {
        Ok(count) => {
            note(figures, &[count as u64]);
            0
        }
        Err(refusal) => refuse(figures, refusal, 0),
    }
}
