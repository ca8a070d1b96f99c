ghost use Rattle.std.specs.Prelude.{◌≡◌, IfErr, IfOk, None, Option, Some};
ghost use Rattle.std.specs.Option.{option_and_then};
ghost use Rattle.toml.specs.Data.{Members, as_table};
ghost use Rattle.toml.specs.View.{table_view, view};

use crate::{Misfit, Shape};
use ht_base::{Name, Txt};
use std::alloc::{AllocError, Global};
use toml::{Table, Value};

impl Shape for bool {
    ghost use Rattle.toml.specs.Data.{as_bool};

    ghost of = { as_bool };

    fn read(_alloc: Global, value: &Value) -> Result<Option<bool>, AllocError> {
        Ok(value.as_bool())
    }
}

impl Shape for Name {
    ghost use Rattle.ht_toml.specs.Values.{named};

    ghost of = { named };

    fn read(_alloc: Global, value: &Value) -> Result<Option<Name>, AllocError> {
        match value.as_str() {
            Some(text) => Ok(Name::of(text.as_bytes())),
            None => Ok(None),
        }
    }
}

impl Shape for Txt {
    ghost use Rattle.toml.specs.Data.{as_str};

    ghost of = { as_str };

    fn read(alloc: Global, value: &Value) -> Result<Option<Txt>, AllocError> {
        match value.as_str() {
            Some(text) => match Txt::of(alloc, text) {
                Ok(text) => Ok(Some(text)),
                Err(_) => Err(AllocError),
            },
            None => Ok(None),
        }
    }
}

/// What is read of a table that has a certain shape.
pub trait TableShape: Sized + Drop {
    /// What a table of this shape says.
    ghost in_table: { Members → Option Self };

    fn read_table(alloc: Global, table: &Table) -> Result<Self, Misfit>
        ensures ok { IfOk result (λ read. in_table (table_view table.now) ≡ Some read) }
        ensures misfit { IfErr result
            (λ e. e ≡ Misfit.Shape → in_table (table_view table.now) ≡ None) };
}

/// What a value says that is a table of this shape.
pub fn table_shape<T: TableShape>(alloc: Global, value: &Value) -> Result<Option<T>, AllocError>
    ensures { IfOk result (λ read. read ≡ option_and_then T.in_table (as_table (view value.now))) }
{
    let Some(table) = value.as_table() else {
        return Ok(None);
    };
    match T::read_table(alloc, table) {
        Ok(read) => Ok(Some(read)),
        Err(Misfit::Shape) => Ok(None),
        Err(Misfit::Memory) => Err(AllocError),
    }
}
