// The scope of a check: variables and their types in a stack that grows down, newest first. It runs from a position to its floor, so that what lies above the
// floor is not seen: a comprehension's body has the stack's top for its floor.
ghost use Rattle.std.specs.Prelude.{◌≡◌, ◌<◌, ◌≤◌, length};
ghost use Rattle.scopes.specs.Scopes.{type_in, Pushed};

use crate::types::ValueType;
use snesl::code::Variable;

// A variable in scope.
#[derive(Clone, Copy, Debug, PartialEq, Eq)]
pub struct Binding {
    pub name: Variable,
    pub value_type: ValueType,
}

// The type of the newest variable of a name.
#[tactic(auto, unfolding(crate::specs::Scopes::type_in))]
pub fn look(scope: &[Binding], name: Variable) -> Option<ValueType>
    ensures { result ≡ type_in name scope.now }
{
    scope
        .iter()
        .find(|binding| name == binding.name)
        .map(|binding| binding.value_type)
}

// One variable more: the position of the scope with it. A scope that is pushed to is a position in the lent stack, since no slice of it can grow.
pub fn push(env: &mut [Binding], sp: usize, binding: Binding) -> usize
    requires { (0 < sp) × (sp ≤ length env.old) }
    ensures { Pushed env.old sp binding env.new result }
{
    env[sp - 1] = binding;
    sp - 1
}
