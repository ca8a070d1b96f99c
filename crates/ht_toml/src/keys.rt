ghost use Rattle.std.specs.Prelude.{◌≡◌, [], IfErr, IfOk, None, Some, map};
ghost use Rattle.toml.specs.View.{table_view, view};
ghost use Rattle.ht_toml.specs.Keys as spec;
ghost use Rattle.ht_toml.specs.Values.{list_of, word_of};

use crate::entries::{EntriesFault, Shape, each};
use crate::tables::{entries_at, value_at};
use crate::values::word_of;
use std::alloc::{AllocError, Global};
use thiserror::Error;
use toml::Table;

/// Why a table wasn't read.
#[derive(Clone, Copy, Debug, PartialEq, Eq, Error)]
pub enum Misfit {
    /// It has another shape.
    #[error("another shape")]
    Shape,
    #[error("out of memory")]
    Memory,
}

impl From<AllocError> for Misfit {
    ghost use Rattle.std.specs.Prelude.{◌≡◌};
    ghost use Rattle.ht_toml.specs.declared.keys.Misfit.TheVariants.{Memory};

    ghost from_gives = { λ _ fault. fault ≡ Memory };

    fn from(_error: AllocError) -> Misfit {
        Misfit::Memory
    }
}

/// The value at a key that must be there.
pub fn required<T: Shape>(alloc: Global, table: &Table, key: &str) -> Result<T, Misfit>
    ensures ok { IfOk result
        (λ value. spec.required T.of key.now (table_view table.now) ≡ Some value) }
    ensures misfit { IfErr result
        (λ e. e ≡ Misfit.Shape → spec.required T.of key.now (table_view table.now) ≡ None) }
{
    let Some(value) = value_at(table, key) else {
        return Err(Misfit::Shape);
    };
    match T::read(alloc, value)? {
        Some(value) => Ok(value),
        None => Err(Misfit::Shape),
    }
}

/// The value at a key that may be missing.
pub fn optional<T: Shape>(alloc: Global, table: &Table, key: &str) -> Result<Option<T>, Misfit>
    ensures ok { IfOk result
        (λ value. spec.optional T.of key.now (table_view table.now) ≡ Some value) }
    ensures misfit { IfErr result
        (λ e. e ≡ Misfit.Shape → spec.optional T.of key.now (table_view table.now) ≡ None) }
{
    let Some(value) = value_at(table, key) else {
        return Ok(None);
    };
    match T::read(alloc, value)? {
        Some(value) => Ok(Some(value)),
        None => Err(Misfit::Shape),
    }
}

/// The value at a key, or this one where the key is missing.
pub fn otherwise<T: Shape>(alloc: Global, table: &Table, key: &str, missing: T) -> Result<T, Misfit>
    ensures ok { IfOk result
        (λ value. spec.otherwise missing T.of key.now (table_view table.now) ≡ Some value) }
    ensures misfit { IfErr result (λ e.
        e ≡ Misfit.Shape → spec.otherwise missing T.of key.now (table_view table.now) ≡ None) }
{
    let Some(value) = value_at(table, key) else {
        return Ok(missing);
    };
    match T::read(alloc, value)? {
        Some(value) => Ok(value),
        None => Err(Misfit::Shape),
    }
}

/// The entries of the array at a key, of which there are none where the key is missing.
pub fn list<T: Shape>(alloc: Global, table: &Table, key: &str) -> Result<Vec<T>, Misfit>
    ensures ok { IfOk result (λ entries.
        spec.otherwise [] (list_of T.of) key.now (table_view table.now) ≡ Some entries.items) }
    ensures misfit { IfErr result (λ e.
        e ≡ Misfit.Shape → spec.otherwise [] (list_of T.of) key.now (table_view table.now) ≡ None) }
{
    let Some(values) = entries_at(table, key) else {
        return Err(Misfit::Shape);
    };
    match each(alloc, values) {
        Ok(entries) => Ok(entries),
        Err(EntriesFault::Misshapen(_)) => Err(Misfit::Shape),
        Err(EntriesFault::Memory) => Err(Misfit::Memory),
    }
}

/// What the word at a key means, which must be one of these. No memory is taken for it.
pub fn word<T: Copy>(table: &Table, key: &str, words: &[(&str, T)]) -> Result<T, Misfit>
    ensures ok { IfOk result (λ value.
        spec.required (word_of (map (λ w. (w.0.now, w.1)) words.now)) key.now (table_view table.now)
        ≡ Some value) }
    ensures shape { IfErr result (λ e. e ≡ Misfit.Shape) }
    ensures misfit { IfErr result (λ e.
        spec.required (word_of (map (λ w. (w.0.now, w.1)) words.now)) key.now (table_view table.now)
        ≡ None) }
{
    let Some(value) = value_at(table, key) else {
        return Err(Misfit::Shape);
    };
    match word_of(value, words) {
        Some(meaning) => Ok(meaning),
        None => Err(Misfit::Shape),
    }
}

/// What the word at a key means, if the key is there. No memory is taken for it.
pub fn word_if_any<T: Copy>(
    table: &Table,
    key: &str,
    words: &[(&str, T)],
) -> Result<Option<T>, Misfit>
    ensures ok { IfOk result (λ value.
        spec.optional (word_of (map (λ w. (w.0.now, w.1)) words.now)) key.now (table_view table.now)
        ≡ Some value) }
    ensures shape { IfErr result (λ e. e ≡ Misfit.Shape) }
    ensures misfit { IfErr result (λ e.
        spec.optional (word_of (map (λ w. (w.0.now, w.1)) words.now)) key.now (table_view table.now)
        ≡ None) }
{
    let Some(value) = value_at(table, key) else {
        return Ok(None);
    };
    match word_of(value, words) {
        Some(meaning) => Ok(Some(meaning)),
        None => Err(Misfit::Shape),
    }
}

/// What the word at a key means, or this one where the key is missing. No memory is taken for it.
pub fn word_or<T: Copy>(
    table: &Table,
    key: &str,
    missing: T,
    words: &[(&str, T)],
) -> Result<T, Misfit>
    ensures ok { IfOk result (λ value.
        spec.otherwise missing (word_of (map (λ w. (w.0.now, w.1)) words.now)) key.now
        (table_view table.now) ≡ Some value) }
    ensures shape { IfErr result (λ e. e ≡ Misfit.Shape) }
    ensures misfit { IfErr result (λ e.
        spec.otherwise missing (word_of (map (λ w. (w.0.now, w.1)) words.now)) key.now
        (table_view table.now) ≡ None) }
{
    let Some(value) = value_at(table, key) else {
        return Ok(missing);
    };
    match word_of(value, words) {
        Some(meaning) => Ok(meaning),
        None => Err(Misfit::Shape),
    }
}
