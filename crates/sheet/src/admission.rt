// Refusals 1 to 7, in 01's order. Nothing is written but the counts of the inputs' texts.
ghost use Rattle.std.specs.Prelude.{◌≡◌, ◌*◌, ◌≤◌, length};
ghost use Rattle.snesl.specs.Limits.{most_inputs};
ghost use Rattle.inputs.specs.Supply.{per_input};
ghost use Rattle.sheet.specs.Admission.{admission, admission_counts};

use checking::check::check_front;
use formula::read::read_job;
use inputs::texts::measure_texts;
use snesl::code::Base;
use snesl::limits::Formula;
use snesl::refusal::Refusal;

// What a job that meets none of 1 to 7 asks for: its formula, the base of its result's type, and how many words the walk of its expression takes.
#[derive(Clone, Copy)]
pub struct Task {
    pub formula: Formula,
    pub base: Base,
    pub words: usize,
}

pub fn admit(job: &[u8], counts: &mut [usize]) -> Result<Task, Refusal>
    requires { per_input * most_inputs ≤ length counts.old }
    ensures value { result ≡ admission job.now }
    ensures counts_after { counts.new ≡ admission_counts job.now counts.old }
{
    let formula = read_job(job)?.formula;
    let judged = check_front(job, formula)?;
    let base = judged.found.base;
    measure_texts(job, formula, counts)?;
    Ok(Task {
        formula,
        base,
        words: judged.words,
    })
}
