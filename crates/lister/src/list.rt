// The whole listing into a lent slice, or why there is none.
ghost use Rattle.std.specs.Prelude.{◌≡◌, ◌+◌, ◌*◌, ◌≤◌, length, drop};
ghost use Rattle.snesl.specs.Listing.{listing};
ghost use Rattle.decimals.specs.Writing.{Writes};
ghost use Rattle.leaves.specs.Places.{most_words};
ghost use Rattle.lister.specs.Lists.{WholeReady, whole_text, Lined, Found, listed_answer, text_after};

use crate::inputs::enter_inputs;
use checking::check::check_front;
use decimals::numbers::put;
use environment::stacks::{INPUT_WORDS, LARGEST, MIDDLE, SMALL};
use formula::read::read_formula;
use lines::pieces::put_bytes;
use runner::walk;
use sink::state::{Mode, Walk};
use sink::trees::put_tree;
use snesl::limits::Formula;
use snesl::refusal::Refusal;

// The most ids that a body takes in: those of the listed variables of a GU, each of the deepest type.
const MOST: usize = Formula::LISTED * (Formula::DEPTH as usize + 1);

// The depth of the expression's result, and where its lines end.
#[derive(Clone, Copy, Debug, PartialEq, Eq)]
pub struct Lines {
    pub depth: usize,
    pub at: usize,
}

// The lines of the expression: the walk over it under no units, over inputs that are empty.
fn put_lines(
    bytes: &[u8],
    k: usize,
    env: &mut [u32],
    sp: usize,
    id: usize,
    text: &mut [u8],
) -> Lines
    requires { WholeReady bytes.now k env.old sp id }
    ensures { (g : WholeReady bytes.now k env.old sp id) → Lined g env.new text.old text.new result }
{
    let mut ids = [0; MOST];
    let mut state = Walk::new(Mode::Listing, &mut ids);
    state.machine.streams = id;
    // Under no units nothing stops the walk.
    let walked = walk(bytes, k, 0, sp, env, &mut [], &mut state, text).unwrap();
    Lines {
        depth: walked.depth,
        at: state.sink.at,
    }
}

// The expression's lines and the result's.
fn put_whole(
    bytes: &[u8],
    k: usize,
    env: &mut [u32],
    sp: usize,
    id: usize,
    text: &mut [u8],
) -> usize
    requires { WholeReady bytes.now k env.old sp id }
    ensures { (g : WholeReady bytes.now k env.old sp id) → Writes text.old text.new 0 (whole_text g.term g.trees id) result × (drop sp env.new ≡ drop sp env.old) }
{
    let lines = put_lines(bytes, k, env, sp, id, text);
    let depth = lines.depth;
    let a = put_bytes(text, lines.at, b"result ");
    let b = put_tree(env, sp - (3 * depth + 3), depth, text, a);
    put(text, b, b'\n')
}

// The listing of a formula that was read and checked, on a stack of words that is enough for it.
fn list_found(
    formula: &[u8],
    inputs: usize,
    expression: usize,
    env: &mut [u32],
    text: &mut [u8],
) -> Result<usize, Refusal>
    requires { Found formula.now inputs expression (length env.old) × (length env.old ≤ 65536) }
    ensures { (result ≡ listed_answer (listing (length text.old) formula.now)) × (text.new ≡ text_after text.old (listing (length text.old) formula.now)) }
{
    let e = enter_inputs(formula, inputs, env);
    let sp = e.sp;
    let id = e.id;
    let needed = put_whole(formula, expression, env, sp, id, &mut text[..0]);
    if text.len() < needed {
        return Err(Refusal::NoAnswerRoom(needed));
    }
    put_whole(formula, expression, env, sp, id, text);
    Ok(needed)
}

// Listed on a stack of `WORDS` words. It is not folded into its caller, so that no stack but the one lent takes room on the machine's.
#[inline(never)]
fn lend_words<const WORDS: usize>(
    formula: &[u8],
    inputs: usize,
    expression: usize,
    words: usize,
    text: &mut [u8],
) -> Result<usize, Refusal>
    requires found { Found formula.now inputs expression (words + 29 * inputs) }
    requires enough { (words + 29 * inputs ≤ WORDS) × (WORDS ≤ most_words) }
    ensures { (result ≡ listed_answer (listing (length text.old) formula.now)) × (text.new ≡ text_after text.old (listing (length text.old) formula.now)) }
{
    let mut env = [0u32; WORDS];
    list_found(formula, inputs, expression, &mut env, text)
}

// On the smallest of the three that has the words of the expression and a binding for each input.
fn lend(
    formula: &[u8],
    inputs: usize,
    expression: usize,
    words: usize,
    text: &mut [u8],
) -> Result<usize, Refusal>
    requires { Found formula.now inputs expression (words + 29 * inputs) × (words + 29 * inputs ≤ most_words) }
    ensures { (result ≡ listed_answer (listing (length text.old) formula.now)) × (text.new ≡ text_after text.old (listing (length text.old) formula.now)) }
{
    let need = words + INPUT_WORDS * inputs;
    if need <= SMALL {
        return lend_words::<SMALL>(formula, inputs, expression, words, text);
    }
    if need <= MIDDLE {
        return lend_words::<MIDDLE>(formula, inputs, expression, words, text);
    }
    lend_words::<LARGEST>(formula, inputs, expression, words, text)
}

// The listing of a formula, from the start of the slice lent on: its length, or one of 1 to 6, or 10 at the bytes that it needs. Refused, nothing is
// written; listed, the rest of the slice keeps its content.
pub fn list(formula: &[u8], text: &mut [u8]) -> Result<usize, Refusal>
    ensures { (result ≡ listed_answer (listing (length text.old) formula.now)) × (text.new ≡ text_after text.old (listing (length text.old) formula.now)) }
{
    let found = read_formula(formula)?;
    let judged = check_front(formula, found)?;
    lend(formula, found.inputs, found.expression, judged.words, text)
}
