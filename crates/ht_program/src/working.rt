ghost use Rattle.std.specs.Prelude.{◌≡◌, ◌≢◌, option_map};
ghost use Rattle.ht_desk.specs.Stepping.{Stands};
ghost use Rattle.ht_program.specs.Attaching.{disks};
ghost use Rattle.ht_program.specs.Named.{words_told, work_told};
ghost use Rattle.ht_program.specs.Office.{Runs, RunsOver};
ghost use Rattle.ht_program.specs.OfficeTexts.{AreShort, texts_seen};
ghost use Rattle.ht_program.specs.Running.{streams};
ghost use Rattle.ht_program.specs.Words.{IsAlone};
ghost use Rattle.ht_program.specs.Words.WorkOf.{checking};
ghost use Rattle.ht_program.specs.Working.{DidOver};

use crate::attaching::attach;
use crate::command::{Words, Work};
use crate::connection::serve;
use crate::exporting::export_tasks;
use crate::loading::load_office;
use crate::office_texts::OfficeTexts;
use ht_base::Memory;
use ht_desk::{DeskState, OpenFault, open};
use ht_outside::{Disk, RoomDisk, Sink, Source};
use ht_serve::Ending;
use std::alloc::Global;

/// Opens the office of these texts, and does what the command asks of it. With the name of a journal the
/// office is on the two disks, and else in memory.
pub(crate) fn work<D: Disk, S: Source, K: Sink>(
    alloc: Global,
    words: &Words<'_>,
    office: &OfficeTexts,
    first: &mut D,
    second: &mut D,
    input: &mut S,
    output: &mut K,
) -> Result<Ending, OpenFault>
    requires short { AreShort (texts_seen office.now) }
    requires opens { work_told words.now.work ≢ checking }
    requires alone { IsAlone (work_told words.now.work) }
    ensures { Runs D.Disk (option_map (λ s. s.now) words.now.journal) (words_told words.now)
        (texts_seen office.now) (disks first.old second.old) (disks first.new second.new)
        (streams (S.source_state input.old) (K.sink_state output.old))
        (streams (S.source_state input.new) (K.sink_state output.new)) result }
{
    let Some(name) = words.journal else {
        return match RoomDisk::make(alloc, words.limit) {
            Ok(mut disk) => work_over(alloc, words, office, &mut disk, input, output),
            Err(Memory) => Err(OpenFault::Memory),
        };
    };
    match attach(alloc, name, first, second) {
        Ok(()) => work_over(alloc, words, office, first, input, output),
        Err(fault) => Err(fault),
    }
}

// The same over the disk of its journal.
fn work_over<D: Disk, S: Source, K: Sink>(
    alloc: Global,
    words: &Words<'_>,
    office: &OfficeTexts,
    disk: &mut D,
    input: &mut S,
    output: &mut K,
) -> Result<Ending, OpenFault>
    requires short { AreShort (texts_seen office.now) }
    requires opens { work_told words.now.work ≢ checking }
    requires alone { IsAlone (work_told words.now.work) }
    ensures { RunsOver D.Disk (words_told words.now) (texts_seen office.now) disk.old disk.new
        (streams (S.source_state input.old) (K.sink_state output.old))
        (streams (S.source_state input.new) (K.sink_state output.new)) result }
{
    match open(alloc, office.models(), office.people(), disk, words.limit) {
        Ok(desk) => Ok(work_at(alloc, words.work, desk, disk, input, output)),
        Err(fault) => Err(fault),
    }
}

// The same by the office that is on this disk.
fn work_at<D: Disk, S: Source, K: Sink>(
    alloc: Global,
    work: Work,
    desk: DeskState,
    disk: &mut D,
    input: &mut S,
    output: &mut K,
) -> Ending
    requires stands { Stands D.Disk desk disk.old }
    requires opens { work_told work ≢ checking }
    requires alone { IsAlone (work_told work) }
    ensures { DidOver D.Disk (work_told work) desk disk.old disk.new
        (streams (S.source_state input.old) (K.sink_state output.old))
        (streams (S.source_state input.new) (K.sink_state output.new)) result }
{
    match work {
        Work::Run(run) => serve(alloc, &run, desk, disk, input, output),
        Work::Serve(_) => unreachable!(),
        Work::Check => unreachable!(),
        Work::Export => export_tasks(alloc, &desk, output),
        Work::Load { seed, count } => load_office(alloc, desk, disk, seed, count, output),
    }
}
