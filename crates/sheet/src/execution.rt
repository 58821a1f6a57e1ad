// A job that meets none of 1 to 7: its inputs loaded (9), its formula walked under one unit (8 and 9), its answer shown (10).
ghost use Rattle.std.specs.Prelude.{◌≡◌, ◌*◌, ◌≤◌, length};
ghost use Rattle.snesl.specs.Limits.{most_inputs, most_elements};
ghost use Rattle.snesl.specs.Demands.{Demands};
ghost use Rattle.inputs.specs.Loading.{binding_words};
ghost use Rattle.leaves.specs.Places.{most_words};
ghost use Rattle.inputs.specs.Supply.{Counted};
ghost use Rattle.sheet.specs.Runs.{told, Admitted, need_of, execution, Performs, spoiled_from};

use crate::Counts;
use crate::admission::Task;
use crate::result::show;
use environment::stacks::{INPUT_WORDS, LARGEST, MIDDLE, SMALL};
use inputs::loading::load;
use runner::walk;
use sink::state::{Mode, Walk};
use snesl::refusal::Refusal;
use streams::clear;

// With a value the buffer holds the streams; with a refusal it holds whatever was left there. The walk only runs, so nothing is written to the text.
fn perform(
    job: &[u8],
    task: Task,
    counts: &[usize],
    env: &mut [u32],
    buf: &mut [i32],
    answer: &mut [u8],
) -> Result<Counts, Refusal>
    requires admitted { Admitted job.now task (length env.old) × Counted job.now counts.now }
    requires most_inputs_in_bounds { (binding_words * most_inputs ≤ length env.old) × (length buf.old ≤ most_elements) }
    ensures { (g : Admitted job.now task (length env.old)) → Performs (execution g (length buf.old) (length answer.old)) buf.old buf.new answer.old answer.new result }
{
    let formula = task.formula;
    let mut state = Walk::new(Mode::Running, &mut []);
    let sp = load(job, formula, counts, env, buf, &mut state.machine)?;
    let body = formula.expression;
    let depth = walk(job, body, 1, sp, env, buf, &mut state, &mut [])?.depth;
    let tree = sp - (3 * depth + 3);
    show(task.base, depth, tree, env, buf, state.machine, answer)
}

// Performed on a stack of `WORDS` words. It is not folded into its caller, so that no stack but the one lent takes room on the machine's.
#[inline(never)]
fn lend_words<const WORDS: usize>(
    job: &[u8],
    task: Task,
    counts: &[usize],
    buf: &mut [i32],
    answer: &mut [u8],
) -> Result<Counts, Refusal>
    requires admitted { Admitted job.now task (need_of task) × Counted job.now counts.now }
    requires enough { (need_of task ≤ WORDS) × (binding_words * most_inputs ≤ WORDS) × (WORDS ≤ most_words) }
    requires used { length buf.old ≤ most_elements }
    ensures { (g : Admitted job.now task (need_of task)) → Performs (execution g (length buf.old) (length answer.old)) buf.old buf.new answer.old answer.new result }
{
    let mut env = [0u32; WORDS];
    perform(job, task, counts, &mut env, buf, answer)
}

// On the smallest of the three that has the words of the expression and a binding for each input.
fn lend(
    job: &[u8],
    task: Task,
    counts: &[usize],
    buf: &mut [i32],
    answer: &mut [u8],
) -> Result<Counts, Refusal>
    requires admitted { Admitted job.now task (need_of task) × Counted job.now counts.now }
    requires task_bound { (need_of task ≤ most_words) × (length buf.old ≤ most_elements) }
    ensures { (g : Admitted job.now task (need_of task)) → Performs (execution g (length buf.old) (length answer.old)) buf.old buf.new answer.old answer.new result }
{
    let need = task.words + INPUT_WORDS * task.formula.inputs;
    if need <= SMALL {
        return lend_words::<SMALL>(job, task, counts, buf, answer);
    }
    if need <= MIDDLE {
        return lend_words::<MIDDLE>(job, task, counts, buf, answer);
    }
    lend_words::<LARGEST>(job, task, counts, buf, answer)
}

// From where on the buffer is spoiled: a value's streams stay, and after a refusal nothing does.
fn spoiled_from(ran: Result<Counts, Refusal>, lent: usize) -> usize
    ensures { result ≡ spoiled_from ran lent }
{
    match ran {
        Ok(_) => lent,
        Err(_) => 0,
    }
}

// On the used part of the stream buffer, which is all zero after a refusal. The demands are kept on that part.
pub fn execute(
    job: &[u8],
    task: Task,
    counts: &[usize],
    buf: &mut [i32],
    answer: &mut [u8],
) -> Result<Counts, Refusal>
    requires admitted { Admitted job.now task (need_of task) × Counted job.now counts.now }
    requires task_bound { (need_of task ≤ most_words) × (length buf.old ≤ most_elements) }
    ensures demands { Demands job.now buf.old buf.new answer.old answer.new (told result) }
{
    let ran = lend(job, task, counts, buf, answer);
    let from = spoiled_from(ran, buf.len());
    clear(buf, from);
    ran
}
