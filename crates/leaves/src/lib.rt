// The walk's records with no expression behind them: a variable, those that stand for one instruction, and iota's four. What a walk answers is declared here,
// since each of them answers it.
#![tactic(auto)]

ghost use Rattle.std.specs.Prelude.{◌≡◌, List, [], ◌∷◌, ◌++◌, ℕ, ◌+◌, ◌-◌, ◌≤◌, ◌<◌, ℤ, pos, length, drop};
ghost use Rattle.laws.specs.Parts.{written};
ghost use Rattle.snesl.specs.declared.code.Transducer.TheVariants.{Const};
ghost use Rattle.snesl.specs.Limits.{most_depth};
ghost use Rattle.snesl.specs.Values.{depth_of};
ghost use Rattle.snesl.specs.Terms as terms;
ghost use Rattle.snesl.specs.Terms.{lookup};
ghost use Rattle.snesl.specs.Machine.{State};
ghost use Rattle.environment.specs.Words.{Sought, tree_words, tree_size};
ghost use Rattle.sink.specs.declared.state.Walk.{Walk};
ghost use Rattle.sink.specs.Sinks.{Sink, feed};
ghost use Rattle.steps.specs.Walking.{stepped, walked};
ghost use Rattle.leaves.specs.Scenes.{Runs};
ghost use Rattle.leaves.specs.Making.{Makes, Instructed};
ghost use Rattle.leaves.specs.Arms.{Sole, Located, Counting, Bare, Filled, Flagged, Counted, counting_up};

use environment::machine::Machine;
use environment::{find, move_words, put_place};
use sink::openings::open_one;
use sink::state::Walk;
use sink::tell;
use snesl::code::{Instruction, Operation, StreamId, Transducer, Variable};
use snesl::refusal::Refusal;
use steps::{Operands, execute};

// The depth of an expression's type and the position behind it; its tree is left on the stack.
#[derive(Clone, Copy)]
pub struct Walked {
    pub depth: usize,
    pub next: usize,
}

// Where no operand is read.
const NOWHERE: Operands = Operands {
    first: 0,
    second: 0,
};

// A record that stands for one instruction.
#[derive(Clone, Copy)]
pub enum Form {
    Const(i32),
    Truth(bool),
    Operation(Operation, Variable, Variable),
    Negation(Variable),
    Sum(Variable),
}

// A variable's tree, as it stands in its entry.
pub fn variable(x: Variable, next: usize, sp: usize, env: &mut [u32]) -> Walked
    requires { ((g : Sought env.old sp x) × (depth_of g.type ≤ most_depth) × (tree_size (depth_of g.type) ≤ sp)) × (sp ≤ length env.old) }
    ensures { (g : Sought env.old sp x) → (result ≡ record { depth = depth_of g.type; next = next }) × (drop (sp - tree_size (depth_of g.type)) env.new ≡ tree_words (lookup g.pointer g.trees) ++ drop sp env.old) }
{
    let p = find(env, sp, x);
    let depth = env[p + 1] as usize;
    let words = 3 * depth + 3;
    move_words(env, p + 2, sp - words, words);
    Walked { depth, next }
}

// One instruction: the definition of the next stream is executed, and then told.
pub fn make(
    t: Transducer,
    at: Operands,
    n: usize,
    env: &[u32],
    buf: &mut [i32],
    state: &mut Walk,
    text: &mut [u8],
) -> Result<usize, Refusal>
    requires { (m : State) × (k : Sink) × Makes t at env.now buf.old state.old text.old m k }
    ensures { (m : State) (k : Sink) → Makes t at env.now buf.old state.old text.old m k → Instructed (stepped (length buf.old) n t m) t m k buf.old buf.new state.new text.new result }
{
    let i = Instruction::Define(StreamId(state.machine.streams), t);
    let made = execute(t, at, n, env, buf, &mut state.machine)?;
    tell(i, text, &mut state.sink);
    Ok(made)
}

// The place of the stream made last, of so many elements, just below sp.
pub fn push(made: usize, sp: usize, env: &mut [u32], machine: &Machine)
    requires { (3 ≤ sp) × (sp ≤ length env.old) × (1 ≤ machine.now.streams) × (machine.now.streams < 4294967296) × (made ≤ machine.now.room) × (machine.now.room < 4294967296) }
    ensures { env.new ≡ written (sp - 3) ((machine.now.streams - 1) ∷ (machine.now.room - made) ∷ made ∷ []) env.old }
{
    put_place(env, sp - 3, machine.streams - 1, machine.room - made, made);
}

// Where the operands of a form's instruction have their places: a sequence's data stand before its flags.
fn locate(form: Form, sp: usize, env: &[u32]) -> Operands
    requires { (buf : List ℤ) × (state : Walk) × (text : List ℕ) × Sole form sp env.now buf state text }
    ensures { (buf : List ℤ) (state : Walk) (text : List ℕ) (g : Sole form sp env.now buf state text) → Located g result }
{
    match form {
        Form::Const(_) | Form::Truth(_) => NOWHERE,
        Form::Operation(_, x, y) => Operands {
            first: find(env, sp, x) + 2,
            second: find(env, sp, y) + 2,
        },
        Form::Negation(x) => Operands {
            first: find(env, sp, x) + 2,
            second: 0,
        },
        Form::Sum(x) => {
            let p = find(env, sp, x) + 2;
            Operands {
                first: p + 3,
                second: p,
            }
        }
    }
}

// A form's transducer over the streams whose places stand there.
fn choose(form: Form, at: Operands, env: &[u32]) -> Transducer
    requires { (sp : ℕ) × (buf : List ℤ) × (state : Walk) × (text : List ℕ) × (g : Sole form sp env.now buf state text) × Located g at }
    ensures { (sp : ℕ) (buf : List ℤ) (state : Walk) (text : List ℕ) (g : Sole form sp env.now buf state text) → Located g at → result ≡ g.transducer }
{
    let p = at.first;
    let q = at.second;
    match form {
        Form::Const(z) => Transducer::Const(z),
        Form::Truth(c) => Transducer::ConstBool(c),
        Form::Operation(o, _, _) => {
            Transducer::MapTwo(o, StreamId(env[p] as usize), StreamId(env[q] as usize))
        }
        Form::Negation(_) => Transducer::MapOneNot(StreamId(env[p] as usize)),
        Form::Sum(_) => Transducer::SumPlus(StreamId(env[p] as usize), StreamId(env[q] as usize)),
    }
}

// One instruction whose output is the result.
pub fn single(
    form: Form,
    next: usize,
    n: usize,
    sp: usize,
    env: &mut [u32],
    buf: &mut [i32],
    state: &mut Walk,
    text: &mut [u8],
) -> Result<Walked, Refusal>
    requires { Sole form sp env.old buf.old state.old text.old }
    ensures { (g : Sole form sp env.old buf.old state.old text.old) → Runs g.scene g.term n next env.new buf.new state.new text.new result }
{
    let at = locate(form, sp, env);
    let made = make(choose(form, at, env), at, n, env, buf, state, text)?;
    push(made, sp, env, &state.machine);
    Ok(Walked { depth: 0, next })
}

// A WithCtrl on the newest stream, of so many units, whose body is a Const_1: the ones' place, just below sp.
fn fill(
    units: usize,
    sp: usize,
    env: &mut [u32],
    buf: &mut [i32],
    state: &mut Walk,
    text: &mut [u8],
) -> Result<usize, Refusal>
    requires { (m : State) × (k : Sink) × Bare sp env.old buf.old state.old text.old m k }
    ensures { (m : State) (k : Sink) → Bare sp env.old buf.old state.old text.old m k → Filled (stepped (length buf.old) units (Const (pos 1)) m) m k sp env.old env.new buf.old buf.new state.new text.new result }
{
    let s = state.machine.streams;
    open_one(StreamId(s), StreamId(s - 1), text, &mut state.sink);
    let made = make(Transducer::Const(1), NOWHERE, units, env, buf, state, text)?;
    tell(Instruction::Close, text, &mut state.sink);
    push(made, sp, env, &state.machine);
    Ok(made)
}

// Iota's instructions behind its flags, which are the newest stream and whose place stands just below sp.
fn count_up(
    n: usize,
    sp: usize,
    env: &mut [u32],
    buf: &mut [i32],
    state: &mut Walk,
    text: &mut [u8],
) -> Result<usize, Refusal>
    requires { (a : ℕ) × (m : State) × (k : Sink) × Flagged a sp env.old buf.old state.old text.old m k }
    ensures { (a : ℕ) (m : State) (k : Sink) → Flagged a sp env.old buf.old state.old text.old m k → Counted (walked (length buf.old) n (counting_up a) m) (feed (a + 1) (counting_up a) k) m sp env.old env.new buf.old buf.new state.new text.new result }
{
    let a = state.machine.streams - 1;
    let at = Operands {
        first: sp - 3,
        second: sp - 6,
    };
    let units = make(Transducer::Usum(StreamId(a)), at, n, env, buf, state, text)?;
    fill(units, sp - 3, env, buf, state, text)?;
    let t = Transducer::ScanPlus(0, StreamId(a), StreamId(a + 2));
    make(t, at, n, env, buf, state, text)
}

// The numbers up to an int, of each unit: its flags stand behind its data.
pub fn iota(
    x: Variable,
    next: usize,
    n: usize,
    sp: usize,
    env: &mut [u32],
    buf: &mut [i32],
    state: &mut Walk,
    text: &mut [u8],
) -> Result<Walked, Refusal>
    requires { Counting x sp env.old buf.old state.old text.old }
    ensures { (g : Counting x sp env.old buf.old state.old text.old) → Runs g.scene (terms.iota g.pointer) n next env.new buf.new state.new text.new result }
{
    let p = find(env, sp, x) + 2;
    let t = Transducer::ToFlags(StreamId(env[p] as usize));
    let at = Operands {
        first: p,
        second: 0,
    };
    let flags = make(t, at, n, env, buf, state, text)?;
    push(flags, sp, env, &state.machine);
    let made = count_up(n, sp, env, buf, state, text)?;
    push(made, sp - 3, env, &state.machine);
    Ok(Walked { depth: 1, next })
}
