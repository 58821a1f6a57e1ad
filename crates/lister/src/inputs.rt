// A formula's inputs on the stack of words, with ids from 0 on, each as data, innermost flags, on to outermost flags.
ghost use Rattle.std.specs.Prelude.{◌≡◌, ◌+◌, ◌*◌, ◌≤◌, ◌<◌, length};
ghost use Rattle.laws.specs.Parts.{written};
ghost use Rattle.snesl.specs.Inputs.{input_tree};
ghost use Rattle.environment.specs.Words.{tree_words};
ghost use Rattle.lister.specs.Inputs.{places_of, Declares, Enters};

use environment::{put_name, put_place};
use snesl::code::Variable;

// Where the inputs' bindings start, and the first id behind theirs.
#[derive(Clone, Copy, Debug, PartialEq, Eq)]
pub struct Inputs {
    pub sp: usize,
    pub id: usize,
}

// The places of an input's tree.
fn put_places(env: &mut [u32], at: usize, id: usize, depth: usize)
    requires { (at + (3 * depth + 3) ≤ length env.old) × (id + depth < 4294967296) }
    ensures { env.new ≡ written at (tree_words (places_of (input_tree id depth))) env.old }
{
    for i in 0..=depth {
        put_place(env, at + 3 * i, id + i, 0, 0);
    }
}

// The inputs that the formula at the start of these bytes declares, the first one's binding on top.
pub fn enter_inputs(bytes: &[u8], inputs: usize, env: &mut [u32]) -> Inputs
    requires { Declares bytes.now inputs env.old }
    ensures { (g : Declares bytes.now inputs env.old) → Enters g env.new result }
{
    let mut sp = env.len();
    let mut id = 0;
    for i in 0..inputs {
        let x = Variable(bytes[4 * i + 2]);
        let depth = bytes[4 * i + 3] as usize;
        let at = sp - (3 * depth + 3);
        put_places(env, at, id, depth);
        put_name(env, at - 2, x, depth);
        sp = at - 2;
        id += depth + 1;
    }
    Inputs { sp, id }
}
