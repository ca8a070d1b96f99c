ghost use Rattle.std.specs.Prelude.{◌≡◌, [], ◌∷◌, ◌++◌, IfOk, OnOk, OnErr, option_map};
ghost use Rattle.ht_base.specs.Values.{value_of};
ghost use Rattle.ht_value.specs.Environment as environment;

use ht_base::{Kind, Memory, Person, State, Value, Values};
use ht_expr::{Kinds, Side, is_of_kind};
use std::alloc::Global;
use std::marker::Model;

/// What an expression or an assignment looks at, beside the directory.
#[derive(Drop)]
pub struct Env {
    /// The values of the task's input parts and output parts.
    pub input: Values,
    pub output: Values,
    pub priority: i64,
    /// The task's initiator.
    pub initiator: Person,
    pub subs: Subs,
}

/// The sub tasks of a task in ascending order, each by its state and the values of its output parts.
/// A contract sees them as the list of these.
#[derive(Drop)]
pub struct Subs {
    items: Vec<(State, Values)>,
}

impl Model for Subs {
    ghost use Rattle.std.specs.Prelude.{ℕ, List};
    ghost use Rattle.ht_base.specs.declared.state.State.{State as TaskState};
    ghost use Rattle.ht_base.specs.declared.value.Value.{Value as PartValue};

    ghost Value = { List (TaskState × List (List ℕ × PartValue)) };

    ghost view = { λ s. s.items.items };
}

impl Subs {
    /// No sub tasks.
    pub fn new(alloc: Global) -> Subs
        ensures { result ≡ [] }
    {
        Subs {
            items: Vec::new(alloc),
        }
    }

    pub fn as_slice(&self) -> &[(State, Values)]
        ensures { result.now ≡ self.now }
    {
        &self.items
    }

    /// Puts a sub task behind the others.
    pub fn push(&mut self, state: State, output: Values) -> Result<(), Memory>
        ensures ok { OnOk result (self.new ≡ self.old ++ (state, output) ∷ []) }
        ensures err { OnErr result (self.new ≡ self.old) }
    {
        self.items.push((state, output))?;
        Ok(())
    }
}

impl Env {
    /// The value of a part, if it has one.
    pub fn given(&self, side: Side, name: &str) -> Option<&Value>
        ensures { option_map (λ v. v.now) result ≡ environment.given self.now side name.now }
    {
        match side {
            Side::Input => value_at(&self.input, name.as_bytes()),
            Side::Output => value_at(&self.output, name.as_bytes()),
        }
    }

    /// Whether each declared part that has a value has one of its kind.
    pub fn has_parts(&self, kinds: &Kinds) -> bool
        ensures { result ≡ environment.has_parts kinds.now self.now }
    {
        values_fit(kinds, Side::Input, &self.input) && values_fit(kinds, Side::Output, &self.output)
    }
}

/// The value at this name, if there is one.
pub(crate) fn value_at<'a>(values: &'a Values, name: &[u8]) -> Option<&'a Value>
    ensures { option_map (λ v. v.now) result ≡ value_of name.now values.now }
{
    for (part, value) in values.as_slice() {
        if part.as_bytes() == name {
            return Some(value);
        }
    }
    None
}

fn values_fit(kinds: &Kinds, side: Side, values: &Values) -> bool
    ensures { result ≡ environment.values_fit kinds.now side values.now }
{
    for (part, value) in values.as_slice() {
        if !may_be(kinds.kind(side, part.as_bytes()), value) {
            return false;
        }
    }
    true
}

// Whether the value is of the kind that is declared, if one is.
fn may_be(kind: Option<Kind>, value: &Value) -> bool
    ensures { result ≡ environment.may_be kind value.now }
{
    match kind {
        Some(kind) => is_of_kind(kind, Some(value.kind())),
        None => true,
    }
}
