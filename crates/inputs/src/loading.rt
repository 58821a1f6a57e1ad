// The inputs' streams and bindings at the start of a run.
ghost use Rattle.std.specs.Prelude.{◌≡◌, ◌∷◌, ◌+◌, ◌*◌, ◌≤◌, length};
ghost use Rattle.snesl.specs.Limits.{most_inputs, most_elements};
ghost use Rattle.snesl.specs.Inputs.{input_over};
ghost use Rattle.inputs.specs.Supply.{Valued, Counted};
ghost use Rattle.inputs.specs.Loading.{binding_words, fresh, Next, Takes, Loads};

use crate::places::push_places;
use crate::texts::text_end;
use environment::machine::Machine;
use environment::put_name;
use formula::inputs::{Declaration, declared};
use levels::counts::{LEVELS, add_up};
use snesl::limits::Formula;
use snesl::refusal::Refusal;
use valuetext::storing::fill_text;

// The next input, whose text was measured: its streams behind those before it, and its binding below theirs. Where that starts, or its first id where
// its streams pass the room.
fn load_input(
    text: &[u8],
    input: Declaration,
    counts: &[usize],
    sp: usize,
    env: &mut [u32],
    buf: &mut [i32],
    machine: &mut Machine,
) -> Result<usize, Refusal>
    requires { Next text.now input.name input.base input.depth counts.now sp env.old buf.old machine.old }
    ensures { (g : Next text.now input.name input.base input.depth counts.now sp env.old buf.old machine.old) → Takes g env.new buf.new machine.new result }
{
    let levels = input.depth as usize + 1;
    let lengths = &counts[..levels];
    let id = machine.streams;
    let room = machine.room;
    let n = add_up(lengths, buf.len() - room).ok_or(Refusal::NoRoom(id))?;
    fill_text(text, input.base, input.depth, counts, room, buf);
    let top = push_places(lengths, id, room + n, sp, env) - 2;
    put_name(env, top, input.name, input.depth as usize);
    machine.streams = id + levels;
    machine.room = room + n;
    Ok(top)
}

// All inputs of a job whose texts were measured, from an empty stack and an empty buffer on.
pub fn load(
    job: &[u8],
    formula: Formula,
    counts: &[usize],
    env: &mut [u32],
    buf: &mut [i32],
    machine: &mut Machine,
) -> Result<usize, Refusal>
    requires valued { Valued job.now formula × Counted job.now counts.now }
    requires most_inputs_in_bounds { (binding_words * most_inputs ≤ length env.old) × (length buf.old ≤ most_elements) × (machine.old ≡ fresh) }
    ensures { (g : Valued job.now formula) → Loads g env.old env.new buf.old buf.new machine.new (input_over (length buf.old) 0 0 g.given) result }
{
    let inputs = formula.inputs;
    let mut k = formula.end;
    let mut sp = env.len();
    for i in 0..inputs {
        let next = text_end(job, k);
        let input = declared(job, i);
        let from = LEVELS * i;
        sp = load_input(
            &job[k + 4..next],
            input,
            &counts[from..],
            sp,
            env,
            buf,
            machine,
        )?;
        k = next;
    }
    Ok(sp)
}
