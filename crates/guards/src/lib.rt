// Before a guard's body: its flags and the count of their units, and each listed variable packed by the guard's bools, with the entries that the body sees.
#![tactic(auto)]

ghost use Rattle.std.specs.Prelude.{◌≡◌, List, ℕ, ◌+◌, ◌≤◌, length};
ghost use Rattle.snesl.specs.declared.code.Base.{Base};
ghost use Rattle.snesl.specs.Trees.{Tree, leaf, node};
ghost use Rattle.snesl.specs.Machine.{State};
ghost use Rattle.sink.specs.Sinks.{Sink};
ghost use Rattle.snesl.specs.Records.{byte_at};
ghost use Rattle.guards.specs.Lists.{Chosen, Enters, Lists, AllBinds};
ghost use Rattle.environment.specs.Needs.{listed_size};
ghost use Rattle.snesl.specs.Checking.{any_pointers};
ghost use Rattle.guards.specs.Entering.{Naming, Asks, Answers, Guard, GuardEnters};
ghost use Rattle.guards.specs.Packs.{Puts, Placed, Packs, Ends, Levels, Opened};

use bodies::Entered;
use environment::{find, put_name};
use leaves::{make, push};
use sink::openings::{begin_survey, open_body};
use sink::state::{Mode, Walk};
use sink::tell;
use snesl::code::{Instruction, StreamId, Transducer, Variable};
use snesl::refusal::Refusal;
use steps::Operands;

// A tree whose words stand at `from`, to be packed by the bools whose place stands at `bools`, with its packed words at `to`. Below `low` the stack is free.
#[derive(Clone, Copy)]
pub struct Packing {
    pub depth: usize,
    pub from: usize,
    pub to: usize,
    pub bools: usize,
    pub low: usize,
}

// Where the environment starts that lists are looked up in, where the place of the guard's bools stands, and where the lowest entry is to stand.
#[derive(Clone, Copy)]
pub struct Guarding {
    pub sp: usize,
    pub bools: usize,
    pub base: usize,
}

// One instruction, with its output's place at `to`.
fn put(
    t: Transducer,
    at: Operands,
    to: usize,
    n: usize,
    env: &mut [u32],
    buf: &mut [i32],
    state: &mut Walk,
    text: &mut [u8],
) -> Result<usize, Refusal>
    requires { (m : State) × (k : Sink) × Puts t at to env.old buf.old state.old text.old m k }
    ensures { (m : State) (k : Sink) → Puts t at to env.old buf.old state.old text.old m k → Placed (length buf.old) n t to m k env.old env.new buf.old buf.new state.new text.new result }
{
    let made = make(t, at, n, env, buf, state, text)?;
    push(made, to + 3, env, &state.machine);
    Ok(made)
}

// The outermost level: its flags packed, the bools spread over its items, and these counted.
fn pack_level(
    p: Packing,
    n: usize,
    env: &mut [u32],
    buf: &mut [i32],
    state: &mut Walk,
    text: &mut [u8],
) -> Result<usize, Refusal>
    requires { (d : ℕ) × (t : Tree ℕ d) × (f : ℕ) × (b : ℕ) × (c : Base) × (m : State) × (k : Sink) × Packs p (node t f) b c m k env.old buf.old state.old text.old }
    ensures { (d : ℕ) (t : Tree ℕ d) (f : ℕ) (b : ℕ) (c : Base) (m : State) (k : Sink) → Packs p (node t f) b c m k env.old buf.old state.old text.old → Levels p t f b c m k n env.old env.new buf.old buf.new state.new text.new result }
{
    let b = p.bools;
    let f = p.from + 3 * p.depth;
    let flags = StreamId(env[f] as usize);
    let bools = StreamId(env[b] as usize);
    let packing = Operands {
        first: b,
        second: f,
    };
    let unpacking = Transducer::UPack(bools, flags);
    put(
        unpacking,
        packing,
        p.to + 3 * p.depth,
        n,
        env,
        buf,
        state,
        text,
    )?;
    let spreading = Operands {
        first: f,
        second: b,
    };
    put(
        Transducer::Distr(flags, bools),
        spreading,
        p.low - 3,
        n,
        env,
        buf,
        state,
        text,
    )?;
    make(Transducer::Usum(flags), spreading, n, env, buf, state, text)
}

// Where a listing is wanted, the line that opens the WithCtrl over a packing: it is surveyed first, under no units, so that nothing is executed.
#[cycle(pack_survey_items)]
fn survey_items(p: Packing, env: &mut [u32], buf: &mut [i32], state: &mut Walk, text: &mut [u8])
    requires { (d : ℕ) × (t : Tree ℕ d) × (b : ℕ) × (c : Base) × (m : State) × (k : Sink) × Packs p t b c m k env.old buf.old state.old text.old }
    ensures { (d : ℕ) (t : Tree ℕ d) (b : ℕ) (c : Base) (m : State) (k : Sink) → Packs p t b c m k env.old buf.old state.old text.old → Opened p t b m k env.old env.new buf.old buf.new state.new text.new }
{
    if state.sink.mode != Mode::Listing {
        return;
    }
    let control = StreamId(state.machine.streams - 1);
    begin_survey(state);
    if pack(p, 0, env, buf, state, text).is_ok() {
        open_body(env, p.to, p.depth, control, text, state);
    }
}

// The data of a scalar.
fn pack_data(
    p: Packing,
    n: usize,
    env: &mut [u32],
    buf: &mut [i32],
    state: &mut Walk,
    text: &mut [u8],
) -> Result<(), Refusal>
    requires { (s : ℕ) × (b : ℕ) × (c : Base) × (m : State) × (k : Sink) × Packs p (leaf s) b c m k env.old buf.old state.old text.old }
    ensures { (s : ℕ) (b : ℕ) (c : Base) (m : State) (k : Sink) → Packs p (leaf s) b c m k env.old buf.old state.old text.old → Ends p (leaf s) b c m k n env.old env.new buf.old buf.new state.new text.new result }
{
    let b = p.bools;
    let q = p.from;
    let t = Transducer::Pack(StreamId(env[b] as usize), StreamId(env[q] as usize));
    let at = Operands {
        first: b,
        second: q,
    };
    put(t, at, p.to, n, env, buf, state, text)?;
    Ok(())
}

// A tree, level by level from the outermost.
#[cycle(pack_survey_items)]
fn pack(
    p: Packing,
    n: usize,
    env: &mut [u32],
    buf: &mut [i32],
    state: &mut Walk,
    text: &mut [u8],
) -> Result<(), Refusal>
    requires { (d : ℕ) × (t : Tree ℕ d) × (b : ℕ) × (c : Base) × (m : State) × (k : Sink) × Packs p t b c m k env.old buf.old state.old text.old }
    ensures { (d : ℕ) (t : Tree ℕ d) (b : ℕ) (c : Base) (m : State) (k : Sink) → Packs p t b c m k env.old buf.old state.old text.old → Ends p t b c m k n env.old env.new buf.old buf.new state.new text.new result }
{
    if p.depth == 0 {
        return pack_data(p, n, env, buf, state, text);
    }
    let items = Packing {
        depth: p.depth - 1,
        from: p.from,
        to: p.to,
        bools: p.low - 3,
        low: p.low - 3,
    };
    let units = pack_level(p, n, env, buf, state, text)?;
    survey_items(items, env, buf, state, text);
    pack(items, units, env, buf, state, text)?;
    tell(Instruction::Close, text, &mut state.sink);
    Ok(())
}

// The listed variable u packed, with its entry at `to`; where the entry ends.
fn pack_one(
    u: Variable,
    to: usize,
    q: Guarding,
    n: usize,
    env: &mut [u32],
    buf: &mut [i32],
    state: &mut Walk,
    text: &mut [u8],
) -> Result<usize, Refusal>
    requires { Chosen u to q env.old buf.old state.old text.old }
    ensures { (g : Chosen u to q env.old buf.old state.old text.old) → Enters g n env.new buf.new state.new text.new result }
{
    let p = find(env, q.sp, u);
    let depth = env[p + 1] as usize;
    put_name(env, to, u, depth);
    let tree = Packing {
        depth,
        from: p + 2,
        to: to + 2,
        bools: q.bools,
        low: q.base,
    };
    pack(tree, n, env, buf, state, text)?;
    Ok(to + 5 + 3 * depth)
}

// Each of the `count` variables listed from byte `at` on, in the order listed: the first has the lowest entry.
fn pack_listed(
    bytes: &[u8],
    at: usize,
    q: Guarding,
    n: usize,
    env: &mut [u32],
    buf: &mut [i32],
    state: &mut Walk,
    text: &mut [u8],
) -> Result<(), Refusal>
    requires { Lists bytes.now (at + 1) (byte_at bytes.now at) q.base q env.old buf.old state.old text.old }
    ensures { (g : Lists bytes.now (at + 1) (byte_at bytes.now at) q.base q env.old buf.old state.old text.old) → AllBinds g.guarded g.list n q.base env.new buf.new state.new text.new result }
{
    let mut to = q.base;
    for i in 0..bytes[at] as usize {
        to = pack_one(Variable(bytes[at + 1 + i]), to, q, n, env, buf, state, text)?;
    }
    Ok(())
}

// How many words the entries of the variables take that are listed behind byte `at`, where their count stands.
fn listed_words(bytes: &[u8], at: usize, sp: usize, env: &[u32]) -> usize
    requires { Naming bytes.now (at + 1) (byte_at bytes.now at) sp env.now }
    ensures { (g : Naming bytes.now (at + 1) (byte_at bytes.now at) sp env.now) → result ≡ listed_size (any_pointers g.list) }
{
    let mut words = 0;
    for i in 0..bytes[at] as usize {
        let p = find(env, sp, Variable(bytes[at + 1 + i]));
        words += 5 + 3 * env[p + 1] as usize;
    }
    words
}

// The flags of the bools whose place stands at `bools`, a segment of one unit for a T and an empty one for an F, with their place just below sp; and the units counted.
fn count_true(
    bools: usize,
    n: usize,
    sp: usize,
    env: &mut [u32],
    buf: &mut [i32],
    state: &mut Walk,
    text: &mut [u8],
) -> Result<usize, Refusal>
    requires { (b : ℕ) × (m : State) × (k : Sink) × Asks bools sp b m k env.old buf.old state.old text.old }
    ensures { (b : ℕ) (m : State) (k : Sink) → Asks bools sp b m k env.old buf.old state.old text.old → Answers b sp m k n env.old env.new buf.old buf.new state.new text.new result }
{
    let f = sp - 3;
    let asked = Operands {
        first: bools,
        second: bools,
    };
    let t = Transducer::B2u(StreamId(env[bools] as usize));
    put(t, asked, f, n, env, buf, state, text)?;
    let flags = Operands {
        first: f,
        second: f,
    };
    let u = Transducer::Usum(StreamId(env[f] as usize));
    make(u, flags, n, env, buf, state, text)
}

// All that stands before the body of the guard at k: its flags, which are the outermost of the result, their units counted, and each listed variable packed.
pub fn enter_guard(
    bytes: &[u8],
    k: usize,
    n: usize,
    sp: usize,
    env: &mut [u32],
    buf: &mut [i32],
    state: &mut Walk,
    text: &mut [u8],
) -> Result<Entered, Refusal>
    requires { Guard bytes.now k sp env.old buf.old state.old text.old }
    ensures { (g : Guard bytes.now k sp env.old buf.old state.old text.old) → GuardEnters g n env.new buf.new state.new text.new result }
{
    let bools = find(env, sp, Variable(bytes[k + 2])) + 2;
    let base = sp - 3 - listed_words(bytes, k + 3, sp, env);
    let units = count_true(bools, n, sp, env, buf, state, text)?;
    let q = Guarding { sp, bools, base };
    pack_listed(bytes, k + 3, q, n, env, buf, state, text)?;
    Ok(Entered { inner: base, units })
}
