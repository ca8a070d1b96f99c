ghost use Rattle.std.specs.Prelude.{◌≡◌, ◌<◌, ◌^◌, [], IfSome, length, map, option_map};
ghost use Rattle.toml.specs.Data.{get_member};
ghost use Rattle.toml.specs.View.{table_view, view};
ghost use Rattle.ht_toml.specs.Keys.{otherwise, required};
ghost use Rattle.ht_toml.specs.Tables as spec;

use toml::{Table, Value};

/// Whether each key of the table is one of these.
pub fn has_only(table: &Table, known: &[&str]) -> bool
    ensures { result ≡ spec.has_only (map (λ k. k.now) known.now) (table_view table.now) }
{
    for (key, _) in table {
        if !is_among(key.as_str(), known) {
            return false;
        }
    }
    true
}

/// The entries of the array at a key that must be there.
pub fn array_at<'a>(table: &'a Table, key: &str) -> Option<&'a [Value]>
    ensures value { option_map (λ es. map view es.now) result
        ≡ required spec.entries_of key.now (table_view table.now) }
    ensures few { IfSome result (λ es. length es.now < 2 ^ 63) }
{
    entries_of(value_at(table, key)?)
}

/// The entries of the array at a key, of which there are none where the key is missing.
pub fn entries_at<'a>(table: &'a Table, key: &str) -> Option<&'a [Value]>
    ensures value { option_map (λ es. map view es.now) result
        ≡ otherwise [] spec.entries_of key.now (table_view table.now) }
    ensures few { IfSome result (λ es. length es.now < 2 ^ 63) }
{
    match value_at(table, key) {
        Some(value) => entries_of(value),
        None => Some(&[]),
    }
}

pub(crate) fn value_at<'a>(table: &'a Table, key: &str) -> Option<&'a Value>
    ensures { option_map (λ v. view v.now) result ≡ get_member key.now (table_view table.now) }
{
    table.get(key)
}

fn entries_of(value: &Value) -> Option<&[Value]>
    ensures value { option_map (λ es. map view es.now) result ≡ spec.entries_of (view value.now) }
    ensures few { IfSome result (λ es. length es.now < 2 ^ 63) }
{
    match value.as_array() {
        Some(array) => Some(array.as_slice()),
        None => None,
    }
}

fn is_among(key: &str, known: &[&str]) -> bool
    ensures { result ≡ spec.is_among (map (λ k. k.now) known.now) key.now }
{
    for name in known {
        if *name == key {
            return true;
        }
    }
    false
}
