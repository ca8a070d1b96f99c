use crate::label::Label;
use ht_base::Name;
use ht_toml::{Misfit, Named, Shape, TableShape, has_only, pairs_at, required, table_shape};
use std::alloc::{AllocError, Global};
use std::marker::Model;
use toml::{Table, Value};

/// A sub entry of a model: a sub task that its tasks may have.
#[derive(Drop)]
pub struct SubEntry {
    pub name: Name,
    /// The model of the sub task.
    pub model: Name,
    /// Input parts of the sub task, each beside the input part of the composite task from which it
    /// takes its value, in the order of their names.
    pub input: Vec<(Label, Label)>,
}

impl Named for SubEntry {
    ghost name_of = { λ s. s.name };

    fn name(&self) -> Name {
        self.name
    }
}

impl Model for SubEntry {
    ghost use Rattle.ht_base.specs.Values.{Ascend};
    ghost use Rattle.ht_entries.specs.SubEntries.{SubEntry as Is, sub_entry};

    ghost Value = { Is };

    ghost view = { λ s. sub_entry s.name s.model s.input.items };

    ghost invariant = { λ s. Ascend s.input.items };
}

impl Shape for SubEntry {
    ghost use Rattle.ht_entries.specs.SubEntries.{sub_of};

    ghost of = { sub_of };

    fn read(alloc: Global, value: &Value) -> Result<Option<SubEntry>, AllocError> {
        table_shape(alloc, value)
    }
}

impl TableShape for SubEntry {
    ghost use Rattle.ht_entries.specs.SubEntries.{sub_in};

    ghost in_table = { sub_in };

    fn read_table(alloc: Global, table: &Table) -> Result<SubEntry, Misfit> {
        if !has_only(table, &["name", "model", "input"]) {
            return Err(Misfit::Shape);
        }
        Ok(SubEntry {
            name: required::<Label>(alloc, table, "name")?.0,
            model: required(alloc, table, "model")?,
            input: pairs_at(alloc, table, "input")?,
        })
    }
}
