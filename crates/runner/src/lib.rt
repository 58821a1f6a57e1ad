// The walk: one pass over a checked formula's bytes that makes each instruction, executes it and tells it, one arm at each record. Only LT, EA and GU have
// expressions behind them, and only they call the walk again. No code is stored and no table by stream id is kept: what can be used again stands in the environment (crate
// environment), and the streams in the stream buffer. What is done with an instruction besides is the sink's (crate sink): so one walk runs a formula and lists it.
#![tactic(auto)]

ghost use Rattle.std.specs.Prelude.{◌≤◌, ◌≡◌};
ghost use Rattle.snesl.specs.Terms as terms;
ghost use Rattle.snesl.specs.Checking.{pointers, any_pointers};
ghost use Rattle.leaves.specs.Scenes.{Runs};
ghost use Rattle.bodies.specs.Bodies.{Each};
ghost use Rattle.runner.specs.Walks.{route_to, Ready, Binding, Over, Opened, Entire, Comprehends};
ghost use Rattle.guards.specs.Entering.{Guard};

use bodies::enter;
use environment::{bind_tree, lift_tree};
use guards::enter_guard;
use leaves::{Form, Walked, iota, single, variable};
use records::head::{Head, head_at};
use sink::openings::{begin_survey, open_body};
use sink::state::{Mode, Walk};
use sink::tell;
use snesl::code::{Instruction, StreamId, Variable};
use snesl::refusal::Refusal;

// The arm of the walk that a record goes to, and the position behind a record that stands for one instruction.
#[derive(Clone, Copy)]
pub enum Route {
    Name(Variable),
    Single(Form, usize),
    Iota(Variable),
    Let,
    Each,
    Guard,
}

// A comprehension's body: where it stands, the id of its control, under how many units it is, and where its environment starts.
#[derive(Clone, Copy)]
pub struct Body {
    pub at: usize,
    pub control: usize,
    pub units: usize,
    pub inner: usize,
}

// The arm for the record of this head at k.
fn route_of(head: Head, k: usize) -> Route
    requires { k ≤ 65536 }
    ensures { result ≡ route_to k head }
{
    match head {
        Head::Var(x) => Route::Name(x),
        Head::Let(_) => Route::Let,
        Head::Const(z) => Route::Single(Form::Const(z), k + 6),
        Head::Truth(c) => Route::Single(Form::Truth(c), k + 3),
        Head::Iota(x) => Route::Iota(x),
        Head::Operation(o, x, y) => Route::Single(Form::Operation(o, x, y), k + 4),
        Head::Negation(x) => Route::Single(Form::Negation(x), k + 3),
        Head::Sum(x) => Route::Single(Form::Sum(x), k + 3),
        Head::Each(_, _, _) => Route::Each,
        Head::Guard(_, _) => Route::Guard,
    }
}

// Let: the first expression's tree becomes a binding, and the second's takes its place.
#[cycle(binding_comprehend_each_guard_survey_walk)]
fn binding(
    bytes: &[u8],
    k: usize,
    n: usize,
    sp: usize,
    env: &mut [u32],
    buf: &mut [i32],
    state: &mut Walk,
    text: &mut [u8],
) -> Result<Walked, Refusal>
    requires { Binding bytes.now k sp env.old buf.old state.old text.old }
    ensures { (g : Binding bytes.now k sp env.old buf.old state.old text.old) → Runs g.scene (terms.bind g.bound g.body) n g.next env.new buf.new state.new text.new result }
{
    let bound = walk(bytes, k + 3, n, sp, env, buf, state, text)?;
    let inner = bind_tree(env, sp, Variable(bytes[k + 2]), bound.depth);
    let body = walk(bytes, bound.next, n, inner, env, buf, state, text)?;
    lift_tree(env, body.depth, inner, sp);
    Ok(body)
}

// Where a listing is wanted, the line that opens a body's WithCtrl: the body is surveyed first, under no units, so that nothing is executed.
#[cycle(binding_comprehend_each_guard_survey_walk)]
fn survey(
    bytes: &[u8],
    body: Body,
    env: &mut [u32],
    buf: &mut [i32],
    state: &mut Walk,
    text: &mut [u8],
)
    requires { Over bytes.now body env.old buf.old state.old text.old }
    ensures { (g : Over bytes.now body env.old buf.old state.old text.old) → Opened g env.new buf.new state.new text.new }
{
    if state.sink.mode != Mode::Listing {
        return;
    }
    begin_survey(state);
    if let Ok(walked) = walk(bytes, body.at, 0, body.inner, env, buf, state, text) {
        let tree = body.inner - (3 * walked.depth + 3);
        open_body(env, tree, walked.depth, StreamId(body.control), text, state);
    }
}

// A body, and what all comprehensions do with it: it is told under its WithCtrl, walked and closed, and its tree lands beside the flags, whose place stands just
// below sp.
#[cycle(binding_comprehend_each_guard_survey_walk)]
fn comprehend(
    bytes: &[u8],
    body: Body,
    sp: usize,
    env: &mut [u32],
    buf: &mut [i32],
    state: &mut Walk,
    text: &mut [u8],
) -> Result<Walked, Refusal>
    requires { Entire bytes.now body sp env.old buf.old state.old text.old }
    ensures { (g : Entire bytes.now body sp env.old buf.old state.old text.old) → Comprehends g env.new buf.new state.new text.new result }
{
    survey(bytes, body, env, buf, state, text);
    let walked = walk(
        bytes, body.at, body.units, body.inner, env, buf, state, text,
    )?;
    tell(Instruction::Close, text, &mut state.sink);
    lift_tree(env, walked.depth, body.inner, sp - 3);
    Ok(Walked {
        depth: walked.depth + 1,
        next: walked.next,
    })
}

// A comprehension over a sequence: its control is the next stream.
#[cycle(binding_comprehend_each_guard_survey_walk)]
fn each(
    bytes: &[u8],
    k: usize,
    n: usize,
    sp: usize,
    env: &mut [u32],
    buf: &mut [i32],
    state: &mut Walk,
    text: &mut [u8],
) -> Result<Walked, Refusal>
    requires { Each bytes.now k sp env.old buf.old state.old text.old }
    ensures { (g : Each bytes.now k sp env.old buf.old state.old text.old) → Runs g.scene (terms.each g.pointer (pointers g.list) g.body) n g.next env.new buf.new state.new text.new result }
{
    let control = state.machine.streams;
    let entered = enter(bytes, k, n, sp, env, buf, state, text)?;
    let body = Body {
        at: k + 5 + bytes[k + 4] as usize,
        control,
        units: entered.units,
        inner: entered.inner,
    };
    comprehend(bytes, body, sp, env, buf, state, text)
}

// A guard's one item or none: its flags are the next stream, and its control the one behind them.
#[cycle(binding_comprehend_each_guard_survey_walk)]
fn guard(
    bytes: &[u8],
    k: usize,
    n: usize,
    sp: usize,
    env: &mut [u32],
    buf: &mut [i32],
    state: &mut Walk,
    text: &mut [u8],
) -> Result<Walked, Refusal>
    requires { Guard bytes.now k sp env.old buf.old state.old text.old }
    ensures { (g : Guard bytes.now k sp env.old buf.old state.old text.old) → Runs g.scene (terms.guard g.pointer (any_pointers g.list) g.body) n g.next env.new buf.new state.new text.new result }
{
    let control = state.machine.streams + 1;
    let entered = enter_guard(bytes, k, n, sp, env, buf, state, text)?;
    let body = Body {
        at: k + 4 + bytes[k + 3] as usize,
        control,
        units: entered.units,
        inner: entered.inner,
    };
    comprehend(bytes, body, sp, env, buf, state, text)
}

// The expression at byte k, under n units. A checked formula has a whole record at k.
// The bytes are gone over by position, and not as a slice of what is left, since refusals and the place behind an expression are positions in the whole.
#[cycle(binding_comprehend_each_guard_survey_walk)]
pub fn walk(
    bytes: &[u8],
    k: usize,
    n: usize,
    sp: usize,
    env: &mut [u32],
    buf: &mut [i32],
    state: &mut Walk,
    text: &mut [u8],
) -> Result<Walked, Refusal>
    requires { Ready bytes.now k sp env.old buf.old state.old text.old }
    ensures { (g : Ready bytes.now k sp env.old buf.old state.old text.old) → Runs g.scene g.term n g.next env.new buf.new state.new text.new result }
{
    let head = head_at(bytes, k)?;
    match route_of(head, k) {
        Route::Name(x) => Ok(variable(x, k + 3, sp, env)),
        Route::Single(form, next) => single(form, next, n, sp, env, buf, state, text),
        Route::Iota(x) => iota(x, k + 3, n, sp, env, buf, state, text),
        Route::Let => binding(bytes, k, n, sp, env, buf, state, text),
        Route::Each => each(bytes, k, n, sp, env, buf, state, text),
        Route::Guard => guard(bytes, k, n, sp, env, buf, state, text),
    }
}
