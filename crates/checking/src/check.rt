// Checking (document 01, refusals 5 and 6): a formula's type, or why it has none, in one walk over its records.
ghost use Rattle.std.specs.Prelude.{◌≡◌, ◌+◌, ◌*◌, ◌≤◌, length, Ok};
ghost use Rattle.snesl.specs.Limits.{most_inputs, most_listed};
ghost use Rattle.snesl.specs.Records.{head_at, inputs_at, front_of, read_formula};
ghost use Rattle.records.specs.Heads.{head_of};
ghost use Rattle.formula.specs.Reading.{formula_of};
ghost use Rattle.scopes.specs.Scopes.{type_in};
ghost use Rattle.environment.specs.Needs.{binding_size};
ghost use Rattle.checking.specs.Checks.{var_in, want_in, both_in, result_type, turn_in, bound_in, judging_of, closed, guarded, deeper, bindings_size, words_of, listed_bound, nesting_bound, words_bound, Judgeable, Judges, Declares, entered_by, Enters, judge_front, check_front};

use formula::inputs::declared;
use formula::read::read_formula;
use records::head::{Head, head_at};
use scopes::listed::{prepare, prepare_guard};
use scopes::scope::{Binding, look, push};
use scopes::types::ValueType;
use snesl::code::{Operation, Variable};
use snesl::limits::Formula;
use snesl::refusal::Refusal;

// What the check of a formula that was read answers: its type, and how many words the walk of its expression takes.
#[derive(Clone, Copy, Debug, PartialEq, Eq)]
pub struct Judged {
    pub found: ValueType,
    pub words: usize,
}

// What a record asks of the walk: nothing, where it is a leaf of a type with the next record at a position, or an expression inside.
#[derive(Clone, Copy, Debug, PartialEq, Eq)]
enum Turn {
    Found(usize, ValueType),
    Let(Variable),
    Each(Variable, Variable, usize),
    Guard(Variable, usize),
}

// An expression that was walked: the position behind it, its type, and the words of its walk.
#[derive(Clone, Copy, Debug, PartialEq, Eq)]
struct Judging {
    next: usize,
    found: ValueType,
    words: usize,
}

// The stack of the deepest check: a binding for each input, and for each nesting one for x and one for each listed variable.
const STACK: usize = Formula::INPUTS + Formula::NESTING * (1 + Formula::LISTED);

// The words of the bools that packing spreads over the levels of a listed variable: three for each.
const SPREAD: usize = 24;

// A variable as an expression.
fn variable(scope: &[Binding], x: Variable, k: usize) -> Result<ValueType, Refusal>
    ensures { result ≡ var_in k (type_in x scope.now) }
{
    look(scope, x).ok_or(Refusal::Unbound(k))
}

// One operand of the type that is wanted.
fn want(
    scope: &[Binding],
    x: Variable,
    k: usize,
    wanted: ValueType,
    gives: ValueType,
) -> Result<ValueType, Refusal>
    ensures { result ≡ want_in k wanted gives (type_in x scope.now) }
{
    if variable(scope, x, k)? == wanted {
        Ok(gives)
    } else {
        Err(Refusal::WrongType(k))
    }
}

// The type of what an operation on two ints gives.
fn result_of(operation: Operation) -> ValueType
    ensures { result ≡ result_type operation }
{
    match operation {
        Operation::Plus => ValueType::INT,
        Operation::LessEqual => ValueType::BOOL,
        Operation::Equal => ValueType::BOOL,
    }
}

// Two ints: both names before either type.
fn both(
    scope: &[Binding],
    x: Variable,
    y: Variable,
    k: usize,
    gives: ValueType,
) -> Result<ValueType, Refusal>
    ensures { result ≡ both_in k gives (type_in x scope.now) (type_in y scope.now) }
{
    let first = variable(scope, x, k)?;
    let second = variable(scope, y, k)?;
    if first == ValueType::INT && second == ValueType::INT {
        Ok(gives)
    } else {
        Err(Refusal::WrongType(k))
    }
}

// The record at k.
fn step(bytes: &[u8], k: usize, scope: &[Binding]) -> Result<Turn, Refusal>
    ensures { result ≡ turn_in scope.now k (head_of k (head_at bytes.now k)) }
{
    match head_at(bytes, k)? {
        Head::Var(x) => Ok(Turn::Found(k + 3, variable(scope, x, k)?)),
        Head::Let(x) => Ok(Turn::Let(x)),
        Head::Const(_) => Ok(Turn::Found(k + 6, ValueType::INT)),
        Head::Truth(_) => Ok(Turn::Found(k + 3, ValueType::BOOL)),
        Head::Iota(x) => {
            let found = want(scope, x, k, ValueType::INT, ValueType::INTS)?;
            Ok(Turn::Found(k + 3, found))
        }
        Head::Operation(operation, x, y) => {
            let found = both(scope, x, y, k, result_of(operation))?;
            Ok(Turn::Found(k + 4, found))
        }
        Head::Negation(x) => {
            let found = want(scope, x, k, ValueType::BOOL, ValueType::BOOL)?;
            Ok(Turn::Found(k + 3, found))
        }
        Head::Sum(x) => {
            let found = want(scope, x, k, ValueType::INTS, ValueType::INT)?;
            Ok(Turn::Found(k + 3, found))
        }
        Head::Each(x, y, listed) => Ok(Turn::Each(x, y, listed)),
        Head::Guard(g, listed) => Ok(Turn::Guard(g, listed)),
    }
}

// The words of a binding.
fn binding_size(bound: ValueType) -> usize
    ensures size { result ≡ binding_size bound.depth }
    ensures few { result ≤ binding_size 255 }
{
    3 * bound.depth as usize + 5
}

// A let of two expressions: the walk of the first is over before the binding stands.
fn bound(first: Judging, second: Judging) -> Judging
    requires { second.words ≤ words_bound }
    ensures { result ≡ bound_in first second }
{
    let behind = binding_size(first.found) + second.words;
    Judging {
        next: second.next,
        found: second.found,
        words: first.words.max(behind),
    }
}

// A comprehension at k that takes so many words, when its body is done: one deeper, where that is a type.
fn enclose(body: Judging, k: usize, words: usize) -> Result<Judging, Refusal>
    ensures answer { result ≡ judging_of body.next (deeper k body.found words) }
    ensures few { words_of result ≤ words }
{
    if body.found.depth < Formula::DEPTH {
        let found = ValueType {
            base: body.found.base,
            depth: body.found.depth + 1,
        };
        Ok(Judging {
            next: body.next,
            found,
            words,
        })
    } else {
        Err(Refusal::WrongType(k))
    }
}

// An EA at k over elements of a type.
fn close(body: Judging, k: usize, element: ValueType, listed: usize) -> Result<Judging, Refusal>
    requires few { body.words ≤ words_bound }
    requires short { listed ≤ most_listed }
    ensures answer { result ≡ judging_of body.next (closed k element listed body.found body.words) }
    ensures few { words_of result ≤ nesting_bound + body.words }
{
    let entered = 3 + (5 * listed + binding_size(element));
    enclose(body, k, entered + body.words)
}

// The words that the listed variables of a guard take: a binding for each.
fn listed_size(scope: &[Binding]) -> usize
    requires { length scope.now ≤ most_listed }
    ensures { (result ≡ bindings_size scope.now) × (result ≤ listed_bound) }
{
    let mut size = 0;
    for binding in scope {
        size += binding_size(binding.value_type);
    }
    size
}

// A GU at k; before the body stood, its listed variables were packed, the bools spread over their levels.
fn close_guard(body: Judging, k: usize, size: usize) -> Result<Judging, Refusal>
    requires few { body.words ≤ words_bound }
    requires short { size ≤ listed_bound }
    ensures answer { result ≡ judging_of body.next (guarded k size body.found body.words) }
    ensures few { words_of result ≤ nesting_bound + body.words }
{
    enclose(body, k, 3 + (size + body.words.max(SPREAD)))
}

// The expression at k, in the scope from sp to its floor; below sp the stack is free.
fn walk(
    bytes: &[u8],
    k: usize,
    levels: usize,
    env: &mut [Binding],
    sp: usize,
    floor: usize,
) -> Result<Judging, Refusal>
    requires { Judgeable bytes.now k levels env.old sp floor }
    ensures { Judges bytes.now k levels env.old sp floor env.new result }
{
    match step(bytes, k, &env[sp..floor])? {
        Turn::Found(next, found) => Ok(Judging {
            next,
            found,
            words: 3 * found.depth as usize + 3,
        }),
        Turn::Let(x) => {
            let first = walk(bytes, k + 3, levels - 1, env, sp, floor)?;
            let inner = push(
                env,
                sp,
                Binding {
                    name: x,
                    value_type: first.found,
                },
            );
            let second = walk(bytes, first.next, levels - 1, env, inner, floor)?;
            Ok(bound(first, second))
        }
        Turn::Each(x, y, listed) => {
            let behind = k + (5 + listed);
            let inner = prepare(k, x, y, &bytes[k + 5..behind], env, sp, floor)?;
            let element = env[inner].value_type;
            let body = walk(bytes, behind, levels - 1, env, inner, sp)?;
            close(body, k, element, listed)
        }
        Turn::Guard(g, listed) => {
            let next = k + (4 + listed);
            let inner = prepare_guard(k, g, &bytes[k + 4..next], env, sp, floor)?;
            let size = listed_size(&env[inner..sp]);
            let body = walk(bytes, next, levels - 1, env, inner, sp)?;
            close_guard(body, k, size)
        }
    }
}

// The inputs of a formula that was read, first one first, at the top of the stack: where their scope starts, or the place of one whose name was declared before.
fn enter(bytes: &[u8], inputs: usize, env: &mut [Binding]) -> Result<usize, Refusal>
    requires here { Declares bytes.now inputs }
    requires room { inputs ≤ length env.old }
    ensures { Enters (entered_by (inputs_at most_inputs bytes.now 0)) inputs env.new result }
{
    let mut sp = env.len();
    for i in 0..inputs {
        let input = declared(bytes, i);
        if look(&env[sp..], input.name).is_some() {
            return Err(Refusal::Unbound(input.place));
        }
        let value_type = ValueType {
            base: input.base,
            depth: input.depth,
        };
        sp = push(
            env,
            sp,
            Binding {
                name: input.name,
                value_type,
            },
        );
    }
    Ok(sp)
}

// Refusals 5 and 6 of the formula that the bytes start with, where it was read: a repeated input before anything in the expression. A formula that has a
// type also has its walk's words, so that whoever walks it lends itself no more. It is not folded into its caller, so that its bindings are off the machine's
// stack before the walk begins.
#[inline(never)]
pub fn check_front(bytes: &[u8], formula: Formula) -> Result<Judged, Refusal>
    requires { Ok formula ≡ formula_of (front_of bytes.now) }
    ensures { result ≡ judge_front (front_of bytes.now) }
{
    let free = Binding {
        name: Variable(0),
        value_type: ValueType::INT,
    };
    let mut env = [free; STACK];
    let sp = enter(bytes, formula.inputs, &mut env)?;
    let levels = Formula::NESTING + 1;
    let walked = walk(bytes, formula.expression, levels, &mut env, sp, STACK)?;
    Ok(Judged {
        found: walked.found,
        words: walked.words,
    })
}

// Refusals 1 to 6 of a formula, or its type.
pub fn check(bytes: &[u8]) -> Result<ValueType, Refusal>
    ensures { result ≡ check_front (read_formula bytes.now) }
{
    let formula = read_formula(bytes)?;
    Ok(check_front(bytes, formula)?.found)
}
