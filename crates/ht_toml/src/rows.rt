ghost use Rattle.std.specs.Prelude.{◌≡◌, [], IfErr, IfOk, IfSome, List, None, Option, Some, ℕ};
ghost use Rattle.toml.specs.Data.{Data};
ghost use Rattle.toml.specs.View.{table_view, view};
ghost use Rattle.ht_toml.specs.Entries as entries;
ghost use Rattle.ht_toml.specs.Keys.{otherwise};
ghost use Rattle.ht_toml.specs.Values as spec;

use crate::tables::value_at;
use crate::{Misfit, Shape};
use ht_base::Name;
use std::alloc::{AllocError, AllocFailed, Global};
use toml::{Table, Value};

/// What is read of a key that is spelled in a certain way.
pub trait KeyShape: Sized + Drop {
    /// What a key of this shape says.
    ghost of_key: { List ℕ → Option Self };

    /// How a key of this shape is spelled.
    ghost spelling: { Self → List ℕ };

    fn read_key(key: &str) -> Option<Self>
        ensures value { result ≡ of_key key.now }
        ensures spelled { IfSome result (λ k. spelling k ≡ key.now) };
}

impl<T: Drop> From<AllocFailed<T>> for Misfit {
    ghost use Rattle.std.specs.Prelude.{◌≡◌};
    ghost use Rattle.ht_toml.specs.declared.keys.Misfit.TheVariants.{Memory};

    ghost from_gives = { λ _ fault. fault ≡ Memory };

    fn from(_error: AllocFailed<T>) -> Misfit {
        Misfit::Memory
    }
}

impl KeyShape for Name {
    ghost use Rattle.ht_base.specs.Name.{name_of};

    ghost of_key = { name_of };

    ghost spelling = { λ name. name };

    fn read_key(key: &str) -> Option<Name> {
        Name::of(key.as_bytes())
    }
}

/// The keys of a table and their values, in the order of the keys.
pub fn pairs<K: KeyShape, V: Shape>(alloc: Global, table: &Table) -> Result<Vec<(K, V)>, Misfit>
    ensures ok { IfOk result (λ pairs.
        entries.each (spec.row_of K.of_key V.of) (spec.rows (table_view table.now))
        ≡ Some pairs.items) }
    ensures misfit { IfErr result (λ e.
        e ≡ Misfit.Shape
        → entries.each (spec.row_of K.of_key V.of) (spec.rows (table_view table.now)) ≡ None) }
    ensures ascend { IfOk result (λ pairs. spec.KeysAscend K.spelling pairs.items) }
{
    let mut pairs = Vec::new(alloc);
    for (key, value) in table {
        let Some(key) = K::read_key(key.as_str()) else {
            return Err(Misfit::Shape);
        };
        match V::read(alloc, value)? {
            Some(value) => pairs.push((key, value))?,
            None => return Err(Misfit::Shape),
        }
    }
    Ok(pairs)
}

/// The keys and values of the table at a key, of which there are none where the key is missing.
pub fn pairs_at<K: KeyShape, V: Shape>(
    alloc: Global,
    table: &Table,
    key: &str,
) -> Result<Vec<(K, V)>, Misfit>
    ensures ok { IfOk result (λ pairs.
        otherwise [] (spec.table_of K.of_key V.of) key.now (table_view table.now)
        ≡ Some pairs.items) }
    ensures misfit { IfErr result (λ e.
        e ≡ Misfit.Shape
        → otherwise [] (spec.table_of K.of_key V.of) key.now (table_view table.now) ≡ None) }
    ensures ascend { IfOk result (λ pairs. spec.KeysAscend K.spelling pairs.items) }
{
    let Some(value) = value_at(table, key) else {
        return Ok(Vec::new(alloc));
    };
    match value.as_table() {
        Some(table) => pairs(alloc, table),
        None => Err(Misfit::Shape),
    }
}
