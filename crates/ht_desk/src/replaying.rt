ghost use Rattle.std.specs.Prelude.{◌≡◌, ◌≢◌, ◌⊎◌, ◌+◌, ◌-◌, ◌≤◌, ◌++◌, ◌∷◌, [], ℕ, List, IfErr, IfOk, IfSome, OnOk, Err, Ok, length, take, false, true};
ghost use Rattle.ht_base.specs.Records.{RecordOf, record_of};
ghost use Rattle.ht_codec.specs.Records.{IsRecord, Spells};
ghost use Rattle.ht_desk.specs.Opening.{FailsNext};
ghost use Rattle.ht_desk.specs.Faults.{ComesWhere};
ghost use Rattle.ht_desk.specs.Records.{IsSpelled, spelling};
ghost use Rattle.ht_desk.specs.Replaying.{Applies};
ghost use Rattle.ht_journal.specs.Bodies.{IsNth};
ghost use Rattle.ht_journal.specs.declared.limits.TheConstants.{LONGEST_BODY};
ghost use Rattle.ht_journal.specs.Keeping.{IsKept};
ghost use Rattle.ht_journal.specs.Quiet.{IsQuiet};
ghost use Rattle.ht_journal.specs.Rooms.{IsRoomy};
ghost use Rattle.ht_tree.specs.Tables.{TablesOf};

use crate::OpenFault;
use crate::kept::record_of;
use ht_base::Record;
use ht_journal::{Body, JournalState};
use ht_machine::apply;
use ht_outside::Disk;
use ht_tree::Tables;
use std::alloc::Global;

/// Replays the nth body on the tables that those before it lead to. It answers how many bytes it has.
/// The body is read into the place of the one before.
pub(crate) fn replay_one<D: Disk>(
    alloc: Global,
    journal: &mut JournalState,
    disk: &mut D,
    tables: &mut Tables,
    n: u32,
    body: &mut Body,
) -> Result<u64, OpenFault>
    requires number { (1 ≤ n) × (n ≤ journal.old.count) }
    requires kept { (bodies : List (List ℕ))
        × IsKept D.Disk bodies journal.old disk.old }
    ensures applied { IfOk result (λ size.
        (r : RecordOf)
        × Applies tables.old.tables r tables.new.tables
        × IsSpelled r
        × (size ≡ length (spelling r))
        × ((bodies : List (List ℕ))
        → IsKept D.Disk bodies journal.old disk.old
        → IfSome (D.gives disk.old)
        (λ _. take n bodies ≡ take (n - 1) bodies ++ spelling r ∷ []))) }
    ensures short { IfOk result (λ size. size ≤ LONGEST_BODY) }
    ensures fault { IfErr result (ComesWhere (λ fault.
        (bodies : List (List ℕ))
        → IsKept D.Disk bodies journal.old disk.old
        → IfSome (D.gives disk.old) (λ _.
        (at : ℕ) × (body : List ℕ) × IsNth bodies n at body
        × FailsNext tables.old.tables n at body fault))
        (D.faults disk.old) (D.faults disk.new)) }
    ensures kept { (bodies : List (List ℕ))
        → IsKept D.Disk bodies journal.old disk.old
        → IsKept D.Disk bodies journal.new disk.new }
    ensures same { (journal.new.count ≡ journal.old.count)
        × (journal.new.length ≡ journal.old.length) × (journal.new.limit ≡ journal.old.limit)
        × (journal.new.doubt ≡ journal.old.doubt) }
    ensures quiet { IsQuiet D.Disk disk.old disk.new }
    ensures in_room { IsRoomy (D.room disk.old) 0 → result ≢ Err OpenFault.Store }
    ensures faults { D.faults disk.old ≤ D.faults disk.new }
    ensures still { OnOk result (D.faults disk.new ≡ D.faults disk.old) }
{
    journal.read_body(alloc, disk, n, body)?;
    let size = body.bytes.as_slice().len() as u64;
    let kept = match record_of(alloc, body) {
        Ok(kept) => kept,
        Err(fault) => return Err(fault),
    };
    match replay_record(alloc, tables, n, &kept) {
        Ok(()) => Ok(size),
        Err(fault) => Err(fault),
    }
}

// Replays a record.
fn replay_record(alloc: Global, tables: &mut Tables, n: u32, kept: &Record) -> Result<(), OpenFault>
    requires { IsRecord (record_of kept.now) }
    ensures applied { OnOk result
        (Applies tables.old.tables (record_of kept.now) tables.new.tables) }
    ensures refused { IfErr result (λ fault.
        (fault ≡ OpenFault.Memory)
        ⊎ (((u : TablesOf) → Applies tables.old.tables (record_of kept.now) u → ⊥)
        × (fault ≡ OpenFault.RecordRefused n))) }
{
    if !apply(alloc, tables, kept)? {
        return Err(OpenFault::RecordRefused(n));
    }
    Ok(())
}
