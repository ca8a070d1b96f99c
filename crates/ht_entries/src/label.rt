ghost use Rattle.std.specs.Prelude.{◌≡◌};
ghost use Rattle.std.specs.List.{list_all};
ghost use Rattle.ht_entries.specs.Labels as spec;

use ht_base::Name;
use ht_toml::{KeyShape, Shape};
use std::alloc::{AllocError, Global};
use std::marker::Model;
use toml::Value;

/// The name of a part, a sub entry, a deadline or an escalation: a name without `.` and `-` that
/// begins with a letter.
#[derive(Drop)]
pub struct Label(pub Name);

impl Model for Label {
    ghost use Rattle.std.specs.Prelude.{ℕ, List};

    ghost Value = { List ℕ };

    ghost view = { λ l. l.0 };
}

impl Label {
    pub fn of(text: &str) -> Option<Label>
        ensures { result ≡ spec.label text.now }
    {
        let bytes = text.as_bytes();
        let name = Name::of(bytes)?;
        if begins_with_letter(bytes) && has_no_mark(bytes) {
            Some(Label(name))
        } else {
            None
        }
    }
}

fn begins_with_letter(bytes: &[u8]) -> bool
    ensures { result ≡ spec.begins_with_letter bytes.now }
{
    match bytes.first() {
        Some(first) => first.is_ascii_alphabetic(),
        None => false,
    }
}

fn has_no_mark(bytes: &[u8]) -> bool
    ensures { result ≡ list_all spec.is_no_mark bytes.now }
{
    bytes.iter().all(|byte| *byte != b'.' && *byte != b'-')
}

impl Shape for Label {
    ghost use Rattle.ht_entries.specs.Labels.{label_of};

    ghost of = { label_of };

    fn read(_alloc: Global, value: &Value) -> Result<Option<Label>, AllocError> {
        match value.as_str() {
            Some(text) => Ok(Label::of(text)),
            None => Ok(None),
        }
    }
}

impl KeyShape for Label {
    ghost use Rattle.ht_entries.specs.Labels.{label};

    ghost of_key = { label };

    ghost spelling = { λ label. label };

    fn read_key(key: &str) -> Option<Label> {
        Label::of(key)
    }
}
