// The line that opens a WithCtrl, and the survey of its body that comes before it.
ghost use Rattle.std.specs.Prelude.{ℕ, true, List, [], ◌∷◌, ◌≡◌};
ghost use Rattle.snesl.specs.Listing.{with_ctrl_line};
ghost use Rattle.decimals.specs.Writing.{Writes};
ghost use Rattle.lines.specs.Counting.{Countable};
ghost use Rattle.lines.specs.Pieces.{rest_text};
ghost use Rattle.sink.specs.Sinks as sinks;
ghost use Rattle.sink.specs.Sinks.{opened, surveyed};
ghost use Rattle.sink.specs.Sunk.{Sunk, Tells, Opening, opening, Lines, Opens, Resumes};

use crate::kept::taken;
use crate::state::{FAR, Mode, Sink, Walk};
use crate::trees::put_outs;
use instructions::put_instruction;
use lines::pieces::{put_bytes, put_id, put_next};
use snesl::code::{Instruction, StreamId};

// The line of a WithCtrl that puts out one stream and takes none in.
fn put_one(text: &mut [u8], at: usize, out: StreamId, control: StreamId) -> usize
    requires { Countable at (with_ctrl_line (out.0 ∷ []) control.0 []) }
    ensures { Writes text.old text.new at (with_ctrl_line (out.0 ∷ []) control.0 []) result }
{
    let a = put_bytes(text, at, b"[");
    let b = put_id(text, a, out);
    let c = put_instruction(text, b, Instruction::WithCtrl(control));
    put_bytes(text, c, b"]) {\n")
}

// A WithCtrl of iota's: its body uses no stream.
pub fn open_one(out: StreamId, control: StreamId, text: &mut [u8], sink: &mut Sink)
    requires { (k : sinks.Sink) × Sunk k text.old sink.old }
    ensures { (k : sinks.Sink) → Sunk k text.old sink.old → Sunk (opened (out.0 ∷ []) control.0 [] k) text.new sink.new }
{
    if sink.mode != Mode::Listing {
        return;
    }
    if sink.at <= FAR {
        sink.at = put_one(text, sink.at, out, control);
    }
}

// From the machine's next id on, ids that stand before it are kept.
pub fn begin_survey(state: &mut Walk)
    requires { (text : List ℕ) × (k : sinks.Sink) × Sunk k text state.old.sink }
    ensures { (text : List ℕ) (k : sinks.Sink) → Sunk k text state.old.sink → Tells (surveyed state.old.machine.streams k) text state.new state.old }
{
    state.sink.mode = Mode::Surveying;
    state.sink.own = state.machine.streams;
    state.sink.kept.count = 0;
}

// The listing goes on: the machine's next id is the body's first again, and the line before the body has ended at `end`.
fn end_survey(end: usize, state: &mut Walk)
    requires { (text : List ℕ) × (k : sinks.Sink) × Sunk k text state.old.sink }
    ensures { (text : List ℕ) (k : sinks.Sink) → Sunk k text state.old.sink → Resumes k end state.new state.old }
{
    state.machine.streams = state.sink.own;
    state.sink.mode = Mode::Listing;
    state.sink.at = end;
    state.sink.own = 0;
    state.sink.kept.count = 0;
}

// The ids that a survey has kept.
fn put_kept(ids: &[usize], text: &mut [u8], at: usize) -> usize
    requires { Countable at (rest_text true ids.now) }
    ensures { Writes text.old text.new at (rest_text true ids.now) result }
{
    let mut first = true;
    let mut p = at;
    for u in ids {
        p = put_next(text, p, first, StreamId(*u));
        first = false;
    }
    p
}

// The line over a body that was surveyed, with these ids kept, and whose tree stands at q; where it ends. The machine's next id is `next`.
fn put_opening(
    env: &[u32],
    q: usize,
    depth: usize,
    control: StreamId,
    next: usize,
    kept: &[usize],
    sink: &Sink,
    text: &mut [u8],
) -> usize
    requires { (k : sinks.Sink) × Opening env.now q depth k text.old sink.now × (kept.now ≡ k.taken) }
    ensures { (k : sinks.Sink) (g : Opening env.now q depth k text.old sink.now) → kept.now ≡ k.taken → Lines (opening k g.tree control.0 next) text.new result }
{
    let at = sink.at;
    if at > FAR {
        return at;
    }
    let a = put_bytes(text, at, b"[");
    let b = put_outs(env, q, depth + 1, sink.own, next, text, a);
    let c = put_instruction(text, b, Instruction::WithCtrl(control));
    let d = put_kept(kept, text, c);
    put_bytes(text, d, b"]) {\n")
}

// A WithCtrl's line, once its body was surveyed; the walk then comes to the body again.
pub fn open_body(
    env: &[u32],
    q: usize,
    depth: usize,
    control: StreamId,
    text: &mut [u8],
    state: &mut Walk,
)
    requires { (k : sinks.Sink) × Opening env.now q depth k text.old state.old.sink }
    ensures { (k : sinks.Sink) (g : Opening env.now q depth k text.old state.old.sink) → Opens k g.tree control.0 text.new state.new state.old }
{
    let sink = &state.sink;
    let kept = taken(&sink.kept);
    let next = state.machine.streams;
    let end = put_opening(env, q, depth, control, next, kept, sink, text);
    end_survey(end, state);
}
