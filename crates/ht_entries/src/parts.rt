use crate::label::Label;
use ht_base::{Kind, Name};
use ht_toml::{Misfit, Named, Shape, TableShape, has_only, otherwise, required, table_shape, word};
use std::alloc::{AllocError, Global};
use std::marker::Model;
use toml::{Table, Value};

const KINDS: [(&str, Kind); 5] = [
    ("text", Kind::Text),
    ("int", Kind::Int),
    ("bool", Kind::Truth),
    ("person", Kind::Person),
    ("instant", Kind::Instant),
];

/// A part of a task's input or output.
#[derive(Drop)]
pub struct Part {
    pub name: Name,
    pub kind: Kind,
    /// Whether it may stay without a value.
    pub optional: bool,
}

impl Named for Part {
    ghost name_of = { λ p. p.name };

    fn name(&self) -> Name {
        self.name
    }
}

impl Model for Part {
    ghost use Rattle.ht_entries.specs.Parts.{Part as Is, part};

    ghost Value = { Is };

    ghost view = { λ p. part p.name p.kind p.optional };
}

impl Shape for Part {
    ghost use Rattle.ht_entries.specs.Parts.{part_of};

    ghost of = { part_of };

    fn read(alloc: Global, value: &Value) -> Result<Option<Part>, AllocError> {
        table_shape(alloc, value)
    }
}

impl TableShape for Part {
    ghost use Rattle.ht_entries.specs.Parts.{part_in};

    ghost in_table = { part_in };

    fn read_table(alloc: Global, table: &Table) -> Result<Part, Misfit> {
        if !has_only(table, &["name", "kind", "optional"]) {
            return Err(Misfit::Shape);
        }
        Ok(Part {
            name: required::<Label>(alloc, table, "name")?.0,
            kind: word(table, "kind", &KINDS)?,
            optional: otherwise(alloc, table, "optional", false)?,
        })
    }
}
