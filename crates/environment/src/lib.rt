// The stack of words that a walk over a formula's bytes keeps its environment on (specs/Words.antt).
#![tactic(auto)]

pub mod machine;
pub mod stacks;

ghost use Rattle.std.specs.Prelude.{◌≡◌, [], ◌∷◌, ◌⊎◌, ◌+◌, ◌-◌, ◌≤◌, ◌<◌, length};
ghost use Rattle.laws.specs.Parts.{part, written};
ghost use Rattle.snesl.specs.Terms.{lookup};
ghost use Rattle.environment.specs.Words.{tree_size, Sought, Entry};

use snesl::code::Variable;

// Where the newest entry of x stands, of the bindings from sp on.
pub fn find(env: &[u32], sp: usize, x: Variable) -> usize
    requires { Sought env.now sp x }
    ensures { (g : Sought env.now sp x) → Entry env.now sp result (lookup g.pointer g.trees) }
{
    // An entry's own words say where the next one stands, so that no range or iterator has these places.
    let mut p = sp;
    while env[p] != u32::from(x.0) {
        p += 5 + 3 * env[p + 1] as usize;
    }
    p
}

// The `count` words at `from`, to `to`: up the stack, even onto themselves, or down to where they are wholly below.
pub fn move_words(env: &mut [u32], from: usize, to: usize, count: usize)
    requires { (from + count ≤ length env.old) × (to + count ≤ length env.old) × ((from ≤ to) ⊎ (to + count ≤ from)) }
    ensures { env.new ≡ written to (part from count env.old) env.old }
{
    env.copy_within(from..from + count, to);
}

// One stream's three words.
pub fn put_place(env: &mut [u32], at: usize, id: usize, first: usize, second: usize)
    requires { (at + 3 ≤ length env.old) × (id < 4294967296) × (first < 4294967296) × (second < 4294967296) }
    ensures { env.new ≡ written at (id ∷ first ∷ second ∷ []) env.old }
{
    env[at..at + 3].copy_from_slice(&[id as u32, first as u32, second as u32]);
}

// The two words that make a binding of the tree whose words follow them.
pub fn put_name(env: &mut [u32], at: usize, x: Variable, depth: usize)
    requires { (at + 2 ≤ length env.old) × (depth < 4294967296) }
    ensures { env.new ≡ written at (x.0 ∷ depth ∷ []) env.old }
{
    env[at..at + 2].copy_from_slice(&[u32::from(x.0), depth as u32]);
}

// A tree of this depth whose words stand just below sp becomes a binding of x in place; where it starts.
pub fn bind_tree(env: &mut [u32], sp: usize, x: Variable, depth: usize) -> usize
    requires { (depth < 4294967296) × (tree_size depth + 2 ≤ sp) × (sp ≤ length env.old) }
    ensures { (result ≡ sp - tree_size depth - 2) × (env.new ≡ written (sp - tree_size depth - 2) (x.0 ∷ depth ∷ []) env.old) }
{
    let at = sp - (3 * depth + 3) - 2;
    put_name(env, at, x, depth);
    at
}

// A tree of this depth whose words stand just below `from`, up to just below `to`.
pub fn lift_tree(env: &mut [u32], depth: usize, from: usize, to: usize)
    requires { (depth < 4294967296) × (tree_size depth ≤ from) × (from ≤ to) × (to ≤ length env.old) }
    ensures { env.new ≡ written (to - tree_size depth) (part (from - tree_size depth) (tree_size depth) env.old) env.old }
{
    let words = 3 * depth + 3;
    move_words(env, from - words, to - words, words);
}
