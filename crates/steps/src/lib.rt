// One instruction of a run: its transducer, with its streams' ids, is executed here over the stream buffer. What it does to the machine is what
// specs/Walking.antt's `stepped` says.
#![tactic(auto)]

ghost use Rattle.std.specs.Prelude.{◌≡◌, ◌+◌, ◌≤◌, length, get_or};
ghost use Rattle.laws.specs.Parts.{part};
ghost use Rattle.snesl.specs.declared.code.Base.{Base};
ghost use Rattle.snesl.specs.Streams.{Store};
ghost use Rattle.snesl.specs.Transducers.{apply, operands, signature};
ghost use Rattle.snesl.specs.Machine.{State};
ghost use Rattle.steps.specs.Walking.{stepped};
ghost use Rattle.steps.specs.Holding.{Applies, Executable, Performable, Performed, Placed, positions, Spanned, Transduced, Grows, grown, refusing, taking};

use environment::machine::Machine;
use snesl::code::Transducer;
use snesl::refusal::Refusal;
use streams::output::Failure;

// Where the places of an instruction's operands stand on the stack of words, in their order. Those that its transducer doesn't have are not read.
#[derive(Clone, Copy)]
pub struct Operands {
    pub first: usize,
    pub second: usize,
}

// Where a stream's elements stand in the stream buffer.
#[derive(Clone, Copy, Debug, PartialEq, Eq)]
pub struct Span {
    pub start: usize,
    pub length: usize,
}

// An operand that a transducer doesn't have.
const NOWHERE: Span = Span {
    start: 0,
    length: 0,
};

impl Span {
    // The elements that stand there.
    fn of(self, held: &[i32]) -> &[i32]
        requires { self.start + self.length ≤ length held.now }
        ensures { result.now ≡ part self.start self.length held.now }
    {
        &held[self.start..self.start + self.length]
    }
}

#[derive(Clone, Copy, Debug, PartialEq, Eq)]
pub struct Spans {
    pub first: Span,
    pub second: Span,
}

// How many operands a transducer has.
fn arity(t: Transducer) -> usize
    ensures { result ≡ length (operands t) }
{
    match t {
        Transducer::Const(_) | Transducer::ConstBool(_) => 0,
        Transducer::ToFlags(_) | Transducer::B2u(_) | Transducer::Usum(_) => 1,
        Transducer::MapOneNot(_) => 1,
        Transducer::MapTwo(_, _, _) | Transducer::ScanPlus(_, _, _) => 2,
        Transducer::Distr(_, _) | Transducer::SumPlus(_, _) => 2,
        Transducer::Pack(_, _) | Transducer::UPack(_, _) => 2,
    }
}

// The span of the place whose words stand at `at`.
fn read_span(env: &[u32], at: usize) -> Span
    requires { at + 3 ≤ length env.now }
    ensures { result ≡ record { start = get_or env.now (at + 1) 0; length = get_or env.now (at + 2) 0 } }
{
    Span {
        start: env[at + 1] as usize,
        length: env[at + 2] as usize,
    }
}

// The spans of as many operands as t has.
fn read_spans(t: Transducer, at: Operands, env: &[u32]) -> Spans
    requires { (σ : Store) × (b : Base) × Placed σ env.now (signature b t).inputs (operands t) (positions at) }
    ensures { (σ : Store) (b : Base) → Placed σ env.now (signature b t).inputs (operands t) (positions at) → Spanned σ t result }
{
    match arity(t) {
        0 => Spans {
            first: NOWHERE,
            second: NOWHERE,
        },
        1 => Spans {
            first: read_span(env, at.first),
            second: NOWHERE,
        },
        _ => Spans {
            first: read_span(env, at.first),
            second: read_span(env, at.second),
        },
    }
}

// The instruction over the elements of the streams that are held, into what is free behind them: one arm for each transducer.
fn transduce(
    t: Transducer,
    at: Spans,
    n: usize,
    held: &[i32],
    free: &mut [i32],
) -> Result<usize, Failure>
    requires { (σ : Store) × Applies t at held.now σ }
    ensures { (σ : Store) → Applies t at held.now σ → Transduced free.old (apply t n σ) result free.new }
{
    let first = at.first.of(held);
    let second = at.second.of(held);
    match t {
        Transducer::Const(z) => streams::constant(n, z, free),
        Transducer::ConstBool(c) => streams::constant(n, i32::from(c), free),
        Transducer::ToFlags(_) => itemwise::to_flags(n, first, free),
        Transducer::B2u(_) => itemwise::to_flags(n, first, free),
        Transducer::Usum(_) => streams::usum(n, first),
        Transducer::MapTwo(o, _, _) => itemwise::map_two(o, n, first, second, free),
        Transducer::MapOneNot(_) => itemwise::map_one_not(n, first, free),
        Transducer::ScanPlus(z, _, _) => segmentwise::scan_plus(n, z, first, second, free),
        Transducer::Distr(_, _) => segmentwise::distr(n, first, second, free),
        Transducer::SumPlus(_, _) => segmentwise::sum_plus(n, first, second, free),
        Transducer::Pack(_, _) => itemwise::pack(n, first, second, free),
        Transducer::UPack(_, _) => segmentwise::upack(n, first, second, free),
    }
}

// How many elements of the buffer t's output takes if it has so many: units, which Usum alone makes, take none.
fn taken(t: Transducer, made: usize) -> usize
    ensures { (b : Base) → result ≡ taking (signature b t).output made }
{
    match t {
        Transducer::Usum(_) => 0,
        _ => made,
    }
}

// One more stream, what room it takes, and what has been spent on it.
fn advance(machine: &mut Machine, room: usize, work: usize, steps: usize)
    requires { Grows machine.old room work steps }
    ensures { machine.new ≡ grown machine.old room work steps }
{
    machine.streams += 1;
    machine.room += room;
    machine.work += work;
    machine.steps += steps;
}

// Why the run stops where the stream with this id can't be made.
fn refusal(failure: Failure, id: usize) -> Refusal
    ensures { result ≡ refusing failure id }
{
    match failure {
        Failure::Unfit(_) | Failure::Negative(_) | Failure::Outside(_) => Refusal::NoValue(id),
        Failure::NoRoom => Refusal::NoRoom(id),
    }
}

// How long the stream is that the instruction made, or why the run stops at it. Under an empty control nothing is executed or counted: the stream is empty.
fn perform(
    t: Transducer,
    at: Spans,
    n: usize,
    buf: &mut [i32],
    machine: &mut Machine,
) -> Result<usize, Refusal>
    requires { (m : State) × Performable t at buf.old machine.old m }
    ensures { (m : State) → Performable t at buf.old machine.old m → Performed (stepped (length buf.old) n t m) m buf.old buf.new machine.new result }
{
    if n == 0 {
        advance(machine, 0, 0, 0);
        return Ok(0);
    }
    let id = machine.streams;
    let (held, free) = buf.split_at_mut(machine.room);
    let made = transduce(t, at, n, held, free).map_err(|failure| refusal(failure, id))?;
    let spent = at.first.length + at.second.length + made;
    advance(machine, taken(t, made), spent, 1);
    Ok(made)
}

// The definition of the next stream by t, whose operands have their places on the stack. A control is opened and closed by how many units the walk runs under.
pub fn execute(
    t: Transducer,
    at: Operands,
    n: usize,
    env: &[u32],
    buf: &mut [i32],
    machine: &mut Machine,
) -> Result<usize, Refusal>
    requires { (m : State) × Executable t at env.now buf.old machine.old m }
    ensures { (m : State) → Executable t at env.now buf.old machine.old m → Performed (stepped (length buf.old) n t m) m buf.old buf.new machine.new result }
{
    perform(t, read_spans(t, at, env), n, buf, machine)
}
