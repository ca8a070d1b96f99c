ghost use Rattle.std.specs.Prelude.{◌≡◌, [], ◌∷◌, ◌++◌, IfOk, Option, OnOk, ℕ, decimal, option_map};
ghost use Rattle.csv.specs.Records.{fields_of, partial_of};
ghost use Rattle.csv.specs.Writing.{default_writer, row_text};
ghost use Rattle.ht_export.specs.Lines as spec;
ghost use Rattle.ht_export.specs.Lines.{or_empty};
ghost use Rattle.ht_export.specs.Pieces.{IsBetween, gathered};
ghost use Rattle.ht_tree.specs.Soundness.{IsSoundRow};

use crate::moments::moment_text;
use csv::{ByteRecord, Writer};
use ht_base::{Memory, Name, TaskId};
use ht_lists::name_or_none;
use ht_tree::{Row, Tables};
use std::alloc::Global;
use std::mem;

// How many bytes are gathered before they are written.
const PIECE: usize = 16_384;

/// Lines that are gathered before they are written.
#[derive(Drop)]
pub(crate) struct Lines {
    writer: Writer<Vec<u8>>,
    // The fields of a line. Their memory serves the next one.
    fields: ByteRecord,
}

impl Lines {
    /// No lines, behind these bytes.
    pub(crate) fn behind(alloc: Global, head: &[u8]) -> Result<Lines, Memory>
        ensures gathered { IfOk result (λ lines. gathered lines ≡ head.now) }
        ensures between { IfOk result IsBetween }
    {
        Ok(Lines {
            writer: Writer::from_writer(Vec::from_slice(alloc, head)?),
            fields: ByteRecord::new(alloc),
        })
    }

    /// Puts the line of a task behind the others.
    pub(crate) fn put(&mut self, tables: &Tables, row: &Row) -> Result<(), Memory>
        requires between { IsBetween self.old }
        requires row { IsSoundRow tables.now.tables row.now }
        ensures line { OnOk result
            (gathered self.new ≡ gathered self.old ++ spec.line tables.now.tables row.now) }
        ensures between { OnOk result (IsBetween self.new) }
    {
        self.fields.clear();
        put_fields(tables, row, &mut self.fields)?;
        self.put_line()
    }

    // Puts the line of its fields behind the others.
    fn put_line(&mut self) -> Result<(), Memory>
        requires { IsBetween self.old }
        ensures line { OnOk result (gathered self.new
            ≡ gathered self.old ++ row_text default_writer (fields_of self.old.fields)) }
        ensures between { OnOk result (IsBetween self.new) }
    {
        match self.writer.write_byte_record(&self.fields) {
            Ok(()) => Ok(()),
            Err(_) => Err(Memory),
        }
    }

    /// Whether there are so many that they should be written.
    pub(crate) fn are_many(&self) -> bool {
        self.writer.get_ref().len() >= PIECE
    }

    /// Takes all that is gathered.
    pub(crate) fn take(&mut self, alloc: Global) -> Result<Vec<u8>, Memory>
        ensures { IfOk result (λ bytes. bytes.items ≡ gathered self.old) }
    {
        let writer = mem::replace(&mut self.writer, Writer::from_writer(Vec::new(alloc)));
        match writer.into_inner() {
            Ok(bytes) => Ok(bytes),
            Err(_) => Err(Memory),
        }
    }

    /// Begins anew, in the memory of what was taken.
    pub(crate) fn begin_in(&mut self, mut taken: Vec<u8>)
        ensures gathered { gathered self.new ≡ [] }
        ensures between { IsBetween self.new }
    {
        taken.clear();
        self.writer = Writer::from_writer(taken);
    }
}

fn put_fields(tables: &Tables, row: &Row, fields: &mut ByteRecord) -> Result<(), Memory>
    requires row { IsSoundRow tables.now.tables row.now }
    requires empty { fields_of fields.old ≡ [] }
    requires whole { partial_of fields.old ≡ [] }
    ensures { OnOk result (fields_of fields.new ≡ spec.fields tables.now.tables row.now) }
{
    let people = tables.people();
    put_number(row.task.0, fields)?;
    put_parent(row.parent, fields)?;
    fields.push_field(tables.models().model(row.model).name.as_bytes())?;
    fields.push_field(row.state.name().as_bytes())?;
    put_name(name_or_none(people, row.owner), fields)?;
    put_name(name_or_none(people, row.last_owner), fields)?;
    fields.push_field(people.name(row.initiator).as_bytes())?;
    put_number(u32::from(row.priority), fields)?;
    fields.push_field(moment_text(row.created).as_slice())?;
    Ok(())
}

fn put_number(number: u32, fields: &mut ByteRecord) -> Result<(), Memory>
    requires { partial_of fields.old ≡ [] }
    ensures fields { OnOk result
        (fields_of fields.new ≡ fields_of fields.old ++ decimal number ∷ []) }
    ensures whole { OnOk result (partial_of fields.new ≡ []) }
{
    let mut digits = itoa::Buffer::new();
    fields.push_field(digits.format(number).as_bytes())?;
    Ok(())
}

fn put_parent(parent: Option<(TaskId, u32)>, fields: &mut ByteRecord) -> Result<(), Memory>
    requires { partial_of fields.old ≡ [] }
    ensures fields { OnOk result (fields_of fields.new
        ≡ fields_of fields.old ++ or_empty (option_map (λ p. decimal p.0.0) parent) ∷ []) }
    ensures whole { OnOk result (partial_of fields.new ≡ []) }
{
    match parent {
        Some((task, _)) => put_number(task.0, fields),
        None => {
            fields.push_field(b"")?;
            Ok(())
        }
    }
}

fn put_name(name: Option<Name>, fields: &mut ByteRecord) -> Result<(), Memory>
    requires { partial_of fields.old ≡ [] }
    ensures fields { OnOk result (fields_of fields.new ≡ fields_of fields.old ++ or_empty name ∷ []) }
    ensures whole { OnOk result (partial_of fields.new ≡ []) }
{
    match name {
        Some(name) => fields.push_field(name.as_bytes())?,
        None => fields.push_field(b"")?,
    }
    Ok(())
}
