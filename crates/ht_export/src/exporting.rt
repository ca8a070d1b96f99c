ghost use Rattle.std.specs.Prelude.{◌≡◌, [], ◌++◌, Err, OnErr, OnOk};
ghost use Rattle.ht_export.specs.Lines.{export_text, line};
ghost use Rattle.ht_export.specs.Pieces.{IsBetween, Leaves, gathered};
ghost use Rattle.ht_export.specs.declared.exporting.ExportFault.TheVariants as fault;
ghost use Rattle.ht_outside.specs.Causes.{RoseWhere};
ghost use Rattle.ht_outside.specs.Tells.{Grows, GrowsPart};
ghost use Rattle.ht_tree.specs.Soundness.{IsSoundRow};

use crate::lines::Lines;
use ht_base::{Memory, TaskId};
use ht_outside::{Failed, Sink};
use ht_tree::{Row, Tables};
use std::alloc::Global;
use thiserror::Error;

/// Why not all tasks were written.
#[derive(Clone, Copy, Debug, PartialEq, Eq, Error)]
pub enum ExportFault {
    /// A write failed, and the sink's count of faults rose.
    #[error("the tasks can't be written")]
    Failed,
    #[error("out of memory")]
    Memory,
}

impl From<Memory> for ExportFault {
    ghost use Rattle.std.specs.Prelude.{◌≡◌};
    ghost use Rattle.ht_export.specs.declared.exporting.ExportFault.TheVariants as fault;

    ghost from_gives = { λ _ f. f ≡ fault.Memory };

    fn from(_memory: Memory) -> ExportFault {
        ExportFault::Memory
    }
}

impl From<Failed> for ExportFault {
    ghost use Rattle.std.specs.Prelude.{◌≡◌};
    ghost use Rattle.ht_export.specs.declared.exporting.ExportFault.TheVariants as fault;

    ghost from_gives = { λ _ f. f ≡ fault.Failed };

    fn from(_failed: Failed) -> ExportFault {
        ExportFault::Failed
    }
}

const HEAD_LINE: &[u8] = b"task,parent,model,state,owner,lastOwner,initiator,priority,created\n";

/// Writes all tasks as comma-separated values (RFC 4180), a line each behind the head line, in the
/// order of their numbers. After a fault a prefix of the text was written.
///
/// The text is written piece by piece, so memory is taken for a piece of it alone.
pub fn export<K: Sink>(alloc: Global, tables: &Tables, output: &mut K) -> Result<(), ExportFault>
    ensures whole { OnOk result (Grows (K.sink_state output.old).written
        (K.sink_state output.new).written (export_text tables.now.tables)) }
    ensures part { OnErr result (GrowsPart (K.sink_state output.old).written
        (K.sink_state output.new).written (export_text tables.now.tables)) }
    ensures cause { RoseWhere (result ≡ Err fault.Failed)
        (K.sink_state output.old).faults (K.sink_state output.new).faults }
{
    let mut lines = Lines::behind(alloc, HEAD_LINE)?;
    for before in 0..tables.rows() {
        let Some(row) = tables.row(TaskId(before + 1)) else {
            unreachable!()
        };
        add_line(alloc, tables, row, &mut lines, output)?;
    }
    write_gathered(alloc, &mut lines, output)
}

// Gathers the line of a task, and writes what is gathered if that is much.
fn add_line<K: Sink>(
    alloc: Global,
    tables: &Tables,
    row: &Row,
    lines: &mut Lines,
    output: &mut K,
) -> Result<(), ExportFault>
    requires between { IsBetween lines.old }
    requires row { IsSoundRow tables.now.tables row.now }
    ensures leaves { OnOk result (Leaves (K.sink_state output.old).written
        (K.sink_state output.new).written
        (gathered lines.old ++ line tables.now.tables row.now) (gathered lines.new)) }
    ensures part { OnErr result (GrowsPart (K.sink_state output.old).written
        (K.sink_state output.new).written
        (gathered lines.old ++ line tables.now.tables row.now)) }
    ensures between { OnOk result (IsBetween lines.new) }
    ensures cause { RoseWhere (result ≡ Err fault.Failed)
        (K.sink_state output.old).faults (K.sink_state output.new).faults }
{
    lines.put(tables, row)?;
    if lines.are_many() {
        return write_gathered(alloc, lines, output);
    }
    Ok(())
}

// Writes what is gathered.
fn write_gathered<K: Sink>(
    alloc: Global,
    lines: &mut Lines,
    output: &mut K,
) -> Result<(), ExportFault>
    ensures whole { OnOk result (Grows (K.sink_state output.old).written
        (K.sink_state output.new).written (gathered lines.old)) }
    ensures part { OnErr result (GrowsPart (K.sink_state output.old).written
        (K.sink_state output.new).written (gathered lines.old)) }
    ensures gathered { OnOk result (gathered lines.new ≡ []) }
    ensures between { OnOk result (IsBetween lines.new) }
    ensures cause { RoseWhere (result ≡ Err fault.Failed)
        (K.sink_state output.old).faults (K.sink_state output.new).faults }
{
    let bytes = lines.take(alloc)?;
    output.write(&bytes)?;
    lines.begin_in(bytes);
    Ok(())
}
