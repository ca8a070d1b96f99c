ghost use Rattle.std.specs.Prelude.{◌≡◌, ◌≢◌, ◌^◌, ◌≤◌, ℕ, List, Err, IfErr, IfOk, IfSome, None, OnOk, length};
ghost use Rattle.ht_base.specs.Records.{RecordOf};
ghost use Rattle.ht_base.specs.declared.limits.TheConstants.{LONGEST_OFFICE_TEXT};
ghost use Rattle.ht_desk.specs.declared.limits.TheConstants.{GREATEST_LIMIT, LEAST_LIMIT};
ghost use Rattle.ht_desk.specs.Counting.{no_counts};
ghost use Rattle.ht_desk.specs.Faults.{ComesWhere, fault_of};
ghost use Rattle.ht_desk.specs.Opening.{FailsAt, IsTextFault, Opens};
ghost use Rattle.ht_desk.specs.Records.{AreSpelled, bodies_of};
ghost use Rattle.ht_desk.specs.Replaying.{Begins, IsJournalOf, texts_of};
ghost use Rattle.ht_desk.specs.Stepping.{Stands};
ghost use Rattle.ht_journal.specs.Keeping.{IsKept};
ghost use Rattle.ht_journal.specs.Quiet.{IsQuiet};
ghost use Rattle.ht_journal.specs.Rooms.{IsRoomy};
ghost use Rattle.ht_tree.specs.Soundness.{IsSound};

use crate::beginning::{begin, compare_first};
use crate::replaying::replay_one;
use crate::{Counts, DeskState, OpenFault};
use ht_base::Bytes;
use ht_codec::spellings_are_short;
use ht_journal::{Body, JournalFault, JournalState};
use ht_models::{Models, ModelsRefusal};
use ht_outside::Disk;
use ht_people::{Directory, PeopleRefusal};
use ht_tree::Tables;
use std::alloc::Global;

/// Opens the office whose journal is on this disk and which has these texts. Its tables are what the
/// records of the journal lead to. A journal that has none is begun with these texts.
///
/// The texts are judged first: the models, then the people. Then the journal is looked at: its header
/// and all frames, and then one record after another, in their order.
pub fn open<D: Disk>(
    alloc: Global,
    models: &[u8],
    people: &[u8],
    disk: &mut D,
    limit: u64,
) -> Result<DeskState, OpenFault>
    requires texts { (length models.now ≤ LONGEST_OFFICE_TEXT)
        × (length people.now ≤ LONGEST_OFFICE_TEXT) }
    requires limit { (LEAST_LIMIT ≤ limit) × (limit ≤ GREATEST_LIMIT) }
    ensures opens { Opens D.Disk (texts_of models.now people.now) limit disk.old disk.new result }
    // For a caller to whom the state doesn't matter.
    ensures stands { IfOk result (λ desk. Stands D.Disk desk disk.new) }
{
    let mut tables = match tables_of(alloc, models, people) {
        Ok(tables) => tables,
        Err(fault) => return Err(fault),
    };
    let mut journal = match ht_journal::open(alloc, disk, limit) {
        Ok(journal) => journal,
        Err(fault) => return Err(told(fault)),
    };
    if journal.count() == 0 {
        match begin(alloc, &mut journal, disk, models, people) {
            Ok(()) => return Ok(opened(alloc, journal, tables)),
            Err(fault) => return Err(fault),
        }
    }
    match replay(alloc, &mut journal, disk, models, people, &mut tables) {
        Ok(()) => Ok(opened(alloc, journal, tables)),
        Err(fault) => Err(fault),
    }
}

fn told(fault: JournalFault) -> OpenFault
    ensures { result ≡ fault_of fault }
{
    OpenFault::from(fault)
}

// A desk over this journal with these tables. Nothing is in doubt, and nothing is counted yet.
fn opened(alloc: Global, journal: JournalState, tables: Tables) -> DeskState
    ensures journal { result.journal ≡ journal }
    ensures tables { result.tables ≡ tables }
    ensures sound { IsSound result.tables.tables }
    ensures certain { result.doubt ≡ None }
    ensures uncounted { result.counts ≡ no_counts }
{
    tables.last();
    DeskState {
        alloc,
        journal,
        tables,
        doubt: None,
        counts: Counts::none(),
    }
}

// The tables with which an office of these texts begins.
fn tables_of(alloc: Global, models: &[u8], people: &[u8]) -> Result<Tables, OpenFault>
    ensures begins { IfOk result
        (λ tables. Begins (texts_of models.now people.now) tables.tables) }
    ensures fault { IfErr result (IsTextFault (texts_of models.now people.now)) }
{
    let models = match Models::read(alloc, models) {
        Ok(models) => models,
        Err(ModelsRefusal::Memory) => return Err(OpenFault::Memory),
        Err(refusal) => return Err(OpenFault::Models(refusal)),
    };
    let people = match Directory::read(alloc, people) {
        Ok(people) => people,
        Err(PeopleRefusal::Memory) => return Err(OpenFault::Memory),
        Err(refusal) => return Err(OpenFault::People(refusal)),
    };
    Ok(Tables::new(alloc, models, people)?)
}

// Replays the records of a journal that has some, on the tables with which the office begins.
fn replay<D: Disk>(
    alloc: Global,
    journal: &mut JournalState,
    disk: &mut D,
    models: &[u8],
    people: &[u8],
    tables: &mut Tables,
) -> Result<(), OpenFault>
    requires number { 1 ≤ journal.old.count }
    requires begins { Begins (texts_of models.now people.now) tables.old.tables }
    requires kept { (bodies : List (List ℕ)) × IsKept D.Disk bodies journal.old disk.old }
    ensures replayed { OnOk result ((records : List RecordOf)
        × IsJournalOf (texts_of models.now people.now) records tables.new.tables
        × AreSpelled records
        × IsKept D.Disk (bodies_of records) journal.new disk.new
        × ((bodies : List (List ℕ)) → IsKept D.Disk bodies journal.old disk.old
        → IfSome (D.gives disk.old) (λ _. bodies ≡ bodies_of records))) }
    ensures fault { IfErr result (ComesWhere (λ fault.
        (bodies : List (List ℕ)) → IsKept D.Disk bodies journal.old disk.old
        → IfSome (D.gives disk.old)
        (λ _. FailsAt (texts_of models.now people.now) bodies fault))
        (D.faults disk.old) (D.faults disk.new)) }
    ensures same { (journal.new.limit ≡ journal.old.limit)
        × (journal.new.doubt ≡ journal.old.doubt) }
    ensures quiet { IsQuiet D.Disk disk.old disk.new }
    ensures in_room { IsRoomy (D.room disk.old) 0 → result ≢ Err OpenFault.Store }
    ensures faults { D.faults disk.old ≤ D.faults disk.new }
    ensures still { OnOk result (D.faults disk.new ≡ D.faults disk.old) }
{
    spellings_are_short();
    let first = match compare_first(alloc, journal, disk, models, people) {
        Ok(size) => size,
        Err(fault) => return Err(fault),
    };
    let mut length = 14 + first;
    let mut body = Body {
        at: 0,
        bytes: Bytes::new(alloc),
    };
    let mut n: u32 = 1;
    'records: while n < journal.count() {
        n += 1;
        let size = match replay_one(alloc, journal, disk, tables, n, &mut body) {
            Ok(size) => size,
            Err(fault) => return Err(fault),
        };
        length += 5 + size;
    }
    // Never so where nobody else writes the file.
    if length != journal.length() {
        return Err(OpenFault::Damaged(0));
    }
    Ok(())
}
