ghost use Rattle.std.specs.Prelude.{◌≡◌, bytes_eq};
ghost use Rattle.std.specs.List.{list_any};
ghost use Rattle.ht_base.specs.Name.{IsName};
ghost use Rattle.ht_api.specs.Keys as spec;
ghost use Rattle.ht_api.specs.Keys.{key_name, is_known};

use crate::asked::Asked;

/// A key of a body.
#[derive(Clone, Copy, Debug, PartialEq, Eq)]
pub(crate) enum Key {
    Device,
    Number,
    Model,
    Person,
    Fault,
    Role,
    /// Of new potential owners, at least one.
    Owners,
    Persons,
    Priority,
    Until,
    /// A period.
    For,
    /// No value fits it.
    OneEnd,
    ActivateAt,
    Text,
    Sub,
    Input,
    Output,
    /// At least one part of the output.
    SomeOutput,
}

impl Key {
    pub(crate) fn name(self) -> &'static str
        ensures value { result.now ≡ key_name self }
        ensures name { IsName result.now }
    {
        match self {
            Key::Device => "device",
            Key::Number => "number",
            Key::Model => "model",
            Key::Person => "person",
            Key::Fault => "fault",
            Key::Role => "role",
            Key::Owners => "persons",
            Key::Persons => "persons",
            Key::Priority => "priority",
            Key::Until => "until",
            Key::For => "for",
            Key::OneEnd => "until",
            Key::ActivateAt => "activateAt",
            Key::Text => "text",
            Key::Sub => "sub",
            Key::Input => "input",
            Key::Output => "output",
            Key::SomeOutput => "output",
        }
    }
}

/// The keys of an operation's body, each with whether it is required, in the order in which they are
/// looked at.
pub(crate) fn keys_of(asked: Asked) -> &'static [(Key, bool)]
    ensures { result.now ≡ spec.keys_of asked }
{
    match asked {
        Asked::Create => &[
            (Key::Model, false),
            (Key::ActivateAt, false),
            (Key::Input, false),
        ],
        Asked::Delegate => &[(Key::Person, true)],
        Asked::Forward => &[(Key::Owners, true)],
        Asked::Nominate => &[(Key::Owners, true)],
        Asked::SetRole => &[(Key::Role, true), (Key::Persons, true)],
        Asked::SetPriority => &[(Key::Priority, true)],
        Asked::SuspendUntil => &[(Key::Until, false), (Key::For, false)],
        Asked::SetOutput => &[(Key::SomeOutput, true)],
        Asked::Complete => &[(Key::Output, false)],
        Asked::Fail => &[(Key::Fault, false)],
        Asked::AddComment => &[(Key::Text, true)],
        Asked::InstantiateSubTask => &[(Key::Sub, true)],
        Asked::Claim
        | Asked::Start
        | Asked::Stop
        | Asked::Release
        | Asked::Activate
        | Asked::Suspend
        | Asked::Resume
        | Asked::Skip
        | Asked::Exit
        | Asked::Error => &[],
    }
}

/// Whether a key is one of these, or one of a command's number.
pub(crate) fn knows(rows: &[(Key, bool)], key: &str) -> bool
    ensures { result ≡ is_known rows.now key.now }
{
    key == Key::Device.name() || key == Key::Number.name() || is_one_of(rows, key)
}

fn is_one_of(rows: &[(Key, bool)], key: &str) -> bool
    ensures { result ≡ list_any (λ r. bytes_eq key.now (key_name r.0)) rows.now }
{
    rows.iter().any(|row| key == row.0.name())
}
