// The answer of a run that went through: its text, from the words of the result's tree and the streams in the buffer.
ghost use Rattle.std.specs.Prelude.{◌≡◌, ℕ, ◌+◌, ◌*◌, ◌≤◌, ◌<◌, length, get_or};
ghost use Rattle.snesl.specs.Values.{type_of};
ghost use Rattle.snesl.specs.Outcome.{answer_text, answered};
ghost use Rattle.sheet.specs.Runs.{Finished, Shows};

use crate::Counts;
use environment::machine::Machine;
use levels::counts::LEVELS;
use rendering::showing::value_text;
use snesl::code::Base;
use snesl::refusal::Refusal;

// Where each stream of a tree starts, the data first, from the tree's words.
fn tree_starts(env: &[u32], from: usize, levels: usize, places: &mut [usize])
    requires { (from + 3 * levels ≤ length env.now) × (levels ≤ length places.old) }
    ensures { (i : ℕ) → i < levels → get_or places.new i 0 ≡ get_or env.now (from + (3 * i + 1)) 0 }
{
    for i in 0..levels {
        places[i] = env[from + (3 * i + 1)] as usize;
    }
}

// The text is measured first, and written only where it fits.
pub fn show(
    base: Base,
    depth: usize,
    from: usize,
    env: &[u32],
    buf: &[i32],
    machine: Machine,
    answer: &mut [u8],
) -> Result<Counts, Refusal>
    requires { Finished (type_of base depth) from env.now buf.now machine }
    ensures { (g : Finished (type_of base depth) from env.now buf.now machine) → Shows (answered (length answer.old) (answer_text (type_of base depth) g.tree g.machine.store) g.machine) answer.old answer.new result }
{
    let mut places = [0usize; LEVELS];
    tree_starts(env, from, depth + 1, &mut places);
    let bytes = value_text(buf, &places, base, depth as u8, &mut []);
    if bytes > answer.len() {
        return Err(Refusal::NoAnswerRoom(bytes));
    }
    value_text(buf, &places, base, depth as u8, answer);
    Ok(Counts {
        text: bytes,
        work: machine.work,
        steps: machine.steps,
        room: machine.room,
    })
}
