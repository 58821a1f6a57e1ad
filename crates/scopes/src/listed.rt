// A comprehension's using list, and the scope of its body: the listed variables and an EA's x, nothing else.
ghost use Rattle.std.specs.Prelude.{◌≡◌, ◌+◌, ◌-◌, ◌≤◌, length};
ghost use Rattle.scopes.specs.Scopes.{scope};
ghost use Rattle.scopes.specs.UsingLists.{variables, first_usable, usable_in, each_usable, scalars_in, listed_in, Listed, each_in, guard_in, Prepares};

use crate::scope::{Binding, look, push};
use crate::types::ValueType;
use snesl::code::Variable;
use snesl::refusal::Refusal;

// Is a listed variable bound, and not listed again?
fn first_usable(name: Variable, others: &[u8], scope: &[Binding]) -> bool
    ensures { result ≡ first_usable scope.now name (variables others.now) }
{
    look(scope, name).is_some() && !others.contains(&name.0)
}

// Is each listed variable bound, and listed once?
fn usable(listed: &[u8], scope: &[Binding]) -> bool
    ensures { result ≡ usable_in scope.now (variables listed.now) }
{
    for (i, name) in listed.iter().enumerate() {
        if !first_usable(Variable(*name), &listed[i + 1..], scope) {
            return false;
        }
    }
    true
}

// The same of an EA's list: none of them is x.
fn each_usable(listed: &[u8], scope: &[Binding], x: Variable) -> bool
    ensures { result ≡ each_usable scope.now x (variables listed.now) }
{
    usable(listed, scope) && !listed.contains(&x.0)
}

// Is each listed variable a scalar?
#[tactic(auto, unfolding(crate::specs::UsingLists::scalars_in))]
fn scalars(listed: &[u8], scope: &[Binding]) -> bool
    ensures { result ≡ scalars_in scope.now (variables listed.now) }
{
    listed.iter().map(|name| Variable(*name)).all(|name| look(scope, name).is_some_and(
        |found| found.depth == 0,
    ))
}

// The listed variables, each with the type that it has outside, as a scope below sp.
fn push_listed(listed: &[u8], env: &mut [Binding], sp: usize, floor: usize) -> usize
    requires { (length listed.now ≤ sp) × (sp ≤ floor) × (floor ≤ length env.old) }
    ensures { Listed (listed_in (scope sp floor env.old) (variables listed.now)) sp env.old env.new result }
{
    let mut top = sp;
    // By position: behind a turned-round iterator the proof does not close, since it must know which of the listed an item is.
    for i in (0..listed.len()).rev() {
        let name = Variable(listed[i]);
        let value_type = look(&env[sp..floor], name).unwrap_or(ValueType::INT);
        top = push(env, top, Binding { name, value_type });
    }
    top
}

// The EA record at k, up to its body: where the body's scope starts; its floor is the scope outside.
pub fn prepare(
    k: usize,
    x: Variable,
    y: Variable,
    listed: &[u8],
    env: &mut [Binding],
    sp: usize,
    floor: usize,
) -> Result<usize, Refusal>
    requires { (1 + length listed.now ≤ sp) × (sp ≤ floor) × (floor ≤ length env.old) }
    ensures { Prepares (each_in (scope sp floor env.old) k x y (variables listed.now)) sp env.old env.new result }
{
    let outside = &env[sp..floor];
    let sequence = look(outside, y).ok_or(Refusal::Unbound(k))?;
    if !each_usable(listed, outside, x) {
        return Err(Refusal::Unbound(k));
    }
    if sequence.depth == 0 || !scalars(listed, outside) {
        return Err(Refusal::WrongType(k));
    }
    let element = ValueType {
        base: sequence.base,
        depth: sequence.depth - 1,
    };
    let top = push_listed(listed, env, sp, floor);
    Ok(push(
        env,
        top,
        Binding {
            name: x,
            value_type: element,
        },
    ))
}

// The same of a GU record.
pub fn prepare_guard(
    k: usize,
    g: Variable,
    listed: &[u8],
    env: &mut [Binding],
    sp: usize,
    floor: usize,
) -> Result<usize, Refusal>
    requires { (length listed.now ≤ sp) × (sp ≤ floor) × (floor ≤ length env.old) }
    ensures { Prepares (guard_in (scope sp floor env.old) k g (variables listed.now)) sp env.old env.new result }
{
    let outside = &env[sp..floor];
    let guard = look(outside, g).ok_or(Refusal::Unbound(k))?;
    if !usable(listed, outside) {
        return Err(Refusal::Unbound(k));
    }
    if guard != ValueType::BOOL {
        return Err(Refusal::WrongType(k));
    }
    Ok(push_listed(listed, env, sp, floor))
}
