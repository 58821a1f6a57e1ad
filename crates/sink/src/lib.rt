// What a walk does with each instruction that it makes, besides executing it (specs/Sinks.antt): where it lists it writes the instruction's line, where it surveys a
// body it keeps the ids that are used and stand before the body's own. Its text stands in a slice lent for it, and the rest in a `Sink` (specs/Sunk.antt).
#![tactic(auto)]

pub mod kept;
pub mod openings;
pub mod state;
pub mod trees;
pub mod uses;

ghost use Rattle.std.specs.Prelude.{◌≤◌, ◌≡◌, length};
ghost use Rattle.instructions.specs.Instructions.{instruction_text};
ghost use Rattle.sink.specs.Sinks as sinks;
ghost use Rattle.sink.specs.Sinks.{put, defined, closed, told};
ghost use Rattle.sink.specs.declared.state.Mode.TheVariants.{Listing};
ghost use Rattle.sink.specs.Sunk.{Sunk};
ghost use Rattle.sink.specs.Uses.{longest};

use crate::kept::take_in;
use crate::state::{FAR, Mode, Sink};
use crate::uses::operands_of;
use instructions::put_instruction;
use snesl::code::{Instruction, StreamId, Transducer};

// The text of an instruction at the position that comes next.
fn put_line(i: Instruction, text: &mut [u8], sink: &mut Sink)
    requires { ((k : sinks.Sink) × Sunk k text.old sink.old) × (length (instruction_text i) ≤ longest) }
    ensures { (k : sinks.Sink) → Sunk k text.old sink.old → Sunk (put (instruction_text i) k) text.new sink.new }
{
    if sink.at <= FAR {
        sink.at = put_instruction(text, sink.at, i);
    }
}

// The definition of the stream `id`.
fn define(id: StreamId, t: Transducer, text: &mut [u8], sink: &mut Sink)
    requires { (k : sinks.Sink) × Sunk k text.old sink.old }
    ensures { (k : sinks.Sink) → Sunk k text.old sink.old → Sunk (defined id.0 t k) text.new sink.new }
{
    let used = operands_of(t);
    match sink.mode {
        Mode::Running => {}
        Mode::Listing => put_line(Instruction::Define(id, t), text, sink),
        Mode::Surveying => take_in(used, sink.own, &mut sink.kept),
    }
}

// The closing of a WithCtrl.
fn close(text: &mut [u8], sink: &mut Sink)
    requires { (k : sinks.Sink) × Sunk k text.old sink.old }
    ensures { (k : sinks.Sink) → Sunk k text.old sink.old → Sunk (closed k) text.new sink.new }
{
    if sink.mode == Mode::Listing {
        put_line(Instruction::Close, text, sink);
    }
}

// One instruction that was made. The opening of a WithCtrl needs its lists: it is told in crate::openings.
pub fn tell(i: Instruction, text: &mut [u8], sink: &mut Sink)
    requires { (k : sinks.Sink) × Sunk k text.old sink.old }
    ensures { (k : sinks.Sink) → Sunk k text.old sink.old → Sunk (told i k) text.new sink.new }
{
    match i {
        Instruction::Define(s, t) => define(s, t, text, sink),
        Instruction::WithCtrl(_) => {}
        Instruction::Close => close(text, sink),
    }
}
