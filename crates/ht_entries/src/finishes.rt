use crate::aggregates::how_of;
use crate::label::Label;
use ht_base::{How, Name, Txt};
use ht_toml::{Misfit, Shape, TableShape, has_only, list, optional, required, table_shape};
use std::alloc::{AllocError, Global};
use std::marker::Model;
use toml::{Table, Value};

/// A part that a finish sets.
#[derive(Drop)]
pub struct Setting {
    /// The output part of the task.
    pub part: Name,
    /// The output part of its sub tasks.
    pub from: Name,
    /// How these values become one.
    pub how: How,
}

impl Model for Setting {
    ghost use Rattle.ht_entries.specs.Finishes.{Setting as Is, setting};

    ghost Value = { Is };

    ghost view = { λ s. setting s.part s.from s.how };
}

impl Shape for Setting {
    ghost use Rattle.ht_entries.specs.Finishes.{setting_of};

    ghost of = { setting_of };

    fn read(alloc: Global, value: &Value) -> Result<Option<Setting>, AllocError> {
        table_shape(alloc, value)
    }
}

impl TableShape for Setting {
    ghost use Rattle.ht_entries.specs.Finishes.{setting_in};

    ghost in_table = { setting_in };

    fn read_table(alloc: Global, table: &Table) -> Result<Setting, Misfit> {
        if !has_only(table, &["part", "from", "with", "percent", "delimiter"]) {
            return Err(Misfit::Shape);
        }
        let part = required::<Label>(alloc, table, "part")?.0;
        let from = required::<Label>(alloc, table, "from")?.0;
        let word = required::<Txt>(alloc, table, "with")?;
        let percent = optional(alloc, table, "percent")?;
        let delimiter = optional(alloc, table, "delimiter")?;
        match how_of(word.as_str(), percent, delimiter) {
            Some(how) => Ok(Setting { part, from, how }),
            None => Err(Misfit::Shape),
        }
    }
}

/// A way in which a composite task finishes.
#[derive(Drop)]
pub struct FinishText {
    /// Its condition. One without a condition is the default.
    pub when: Option<Txt>,
    pub settings: Vec<Setting>,
}

impl Model for FinishText {
    ghost use Rattle.ht_entries.specs.Finishes.{FinishText as Text, finish_text};

    ghost Value = { Text };

    ghost view = { λ f. finish_text f.when f.settings.items };
}

impl Shape for FinishText {
    ghost use Rattle.ht_entries.specs.Finishes.{finish_of};

    ghost of = { finish_of };

    fn read(alloc: Global, value: &Value) -> Result<Option<FinishText>, AllocError> {
        table_shape(alloc, value)
    }
}

impl TableShape for FinishText {
    ghost use Rattle.ht_entries.specs.Finishes.{finish_in};

    ghost in_table = { finish_in };

    fn read_table(alloc: Global, table: &Table) -> Result<FinishText, Misfit> {
        if !has_only(table, &["when", "set"]) {
            return Err(Misfit::Shape);
        }
        Ok(FinishText {
            when: optional(alloc, table, "when")?,
            settings: list(alloc, table, "set")?,
        })
    }
}
