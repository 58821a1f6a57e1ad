// Before a comprehension's body: the flags' place, the count of their units, and the entries that the body sees.
#![tactic(auto)]

ghost use Rattle.std.specs.Prelude.{◌≡◌, [], ◌∷◌, ◌+◌, ◌-◌, ◌≤◌, ◌<◌, length};
ghost use Rattle.laws.specs.Parts.{part, written};
ghost use Rattle.environment.specs.Words.{tree_size};
ghost use Rattle.bodies.specs.Bodies.{Spreading, Spread, Distributing, Distributed, count_at, entries_at, Each, Enters};

use environment::{bind_tree, find, move_words, put_name};
use leaves::{make, push};
use sink::state::Walk;
use snesl::code::{StreamId, Transducer, Variable};
use snesl::refusal::Refusal;
use steps::Operands;

// Where the body's environment starts, and under how many units it is walked.
#[derive(Clone, Copy)]
pub struct Entered {
    pub inner: usize,
    pub units: usize,
}

// The scalar u distributed over the flags whose place stands below sp, and its entry at `to`.
fn spread_one(
    u: Variable,
    to: usize,
    n: usize,
    sp: usize,
    env: &mut [u32],
    buf: &mut [i32],
    state: &mut Walk,
    text: &mut [u8],
) -> Result<usize, Refusal>
    requires { Spreading u to sp env.old buf.old state.old text.old }
    ensures { (g : Spreading u to sp env.old buf.old state.old text.old) → Spread g n env.new buf.new state.new text.new result }
{
    let p = find(env, sp, u) + 2;
    let b = sp - 3;
    let t = Transducer::Distr(StreamId(env[b] as usize), StreamId(env[p] as usize));
    let at = Operands {
        first: b,
        second: p,
    };
    let made = make(t, at, n, env, buf, state, text)?;
    put_name(env, to, u, 0);
    push(made, to + 5, env, &state.machine);
    Ok(made)
}

// Each variable that the record at k lists, in the order listed.
fn distribute(
    bytes: &[u8],
    k: usize,
    n: usize,
    sp: usize,
    env: &mut [u32],
    buf: &mut [i32],
    state: &mut Walk,
    text: &mut [u8],
) -> Result<(), Refusal>
    requires { Distributing bytes.now (k + 5) (count_at bytes.now k) (entries_at bytes.now k sp) sp env.old buf.old state.old text.old }
    ensures { (g : Distributing bytes.now (k + 5) (count_at bytes.now k) (entries_at bytes.now k sp) sp env.old buf.old state.old text.old) → Distributed g.scene g.flags g.list n (entries_at bytes.now k sp) env.new buf.new state.new text.new result }
{
    let count = bytes[k + 4] as usize;
    let base = sp - 3 - 5 * count;
    for i in 0..count {
        let u = Variable(bytes[k + 5 + i]);
        spread_one(u, base + 5 * i, n, sp, env, buf, state, text)?;
    }
    Ok(())
}

// The words of x's tree, from an entry above, as x's binding just below `base`; where it starts.
fn bind_items(x: Variable, from: usize, depth: usize, base: usize, env: &mut [u32]) -> usize
    requires { (depth < 4294967296) × (tree_size depth + 2 ≤ base) × (base ≤ from) × (from + tree_size depth ≤ length env.old) }
    ensures { (result ≡ base - tree_size depth - 2) × (env.new ≡ written (base - tree_size depth - 2) (x.0 ∷ depth ∷ []) (written (base - tree_size depth) (part from (tree_size depth) env.old) env.old)) }
{
    let words = 3 * depth + 3;
    move_words(env, from, base - words, words);
    bind_tree(env, base, x, depth)
}

// All that stands before the body of the comprehension at k: y's outermost flags pushed, their units counted, each listed variable distributed over them, and x
// bound to what they segment.
pub fn enter(
    bytes: &[u8],
    k: usize,
    n: usize,
    sp: usize,
    env: &mut [u32],
    buf: &mut [i32],
    state: &mut Walk,
    text: &mut [u8],
) -> Result<Entered, Refusal>
    requires { Each bytes.now k sp env.old buf.old state.old text.old }
    ensures { (g : Each bytes.now k sp env.old buf.old state.old text.old) → Enters g n env.new buf.new state.new text.new result }
{
    let x = Variable(bytes[k + 2]);
    let p = find(env, sp, Variable(bytes[k + 3]));
    let depth = env[p + 1] as usize - 1;
    let b = sp - 3;
    move_words(env, p + 2 + (3 * depth + 3), b, 3);
    let base = b - 5 * bytes[k + 4] as usize;
    let t = Transducer::Usum(StreamId(env[b] as usize));
    let at = Operands {
        first: b,
        second: b,
    };
    let units = make(t, at, n, env, buf, state, text)?;
    distribute(bytes, k, n, sp, env, buf, state, text)?;
    let inner = bind_items(x, p + 2, depth, base, env);
    Ok(Entered { inner, units })
}
