ghost use Rattle.ht_export.specs.Lines.{export_text};
ghost use Rattle.ht_program.specs.Working.{Tells};

use ht_desk::DeskState;
use ht_export::{ExportFault, export};
use ht_outside::Sink;
use ht_serve::Ending;
use std::alloc::Global;

/// Writes all tasks of an office.
pub(crate) fn export_tasks<K: Sink>(alloc: Global, desk: &DeskState, output: &mut K) -> Ending
    ensures { Tells (export_text (desk.now.tables).tables) (K.sink_state output.old)
        (K.sink_state output.new) result }
{
    match export(alloc, desk.tables(), output) {
        Ok(()) => Ending::Done,
        Err(ExportFault::Failed) => Ending::WriteFault,
        Err(ExportFault::Memory) => Ending::Memory,
    }
}
