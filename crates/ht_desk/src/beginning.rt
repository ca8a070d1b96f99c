ghost use Rattle.std.specs.Prelude.{◌≡◌, ◌≢◌, ◌⊎◌, ◌+◌, ◌^◌, ◌≤◌, ◌∷◌, [], ℕ, List, None, Err, IfErr, IfOk, IfSome, IsTrue, Ok, OnOk, length};
ghost use Rattle.ht_base.specs.Records.{record_of};
ghost use Rattle.ht_base.specs.declared.limits.TheConstants.{LONGEST_OFFICE_TEXT};
ghost use Rattle.ht_desk.specs.declared.limits.TheConstants.{LEAST_LIMIT};
ghost use Rattle.ht_desk.specs.Faults.{ComesWhere};
ghost use Rattle.ht_desk.specs.Opening.{FailsFirst};
ghost use Rattle.ht_desk.specs.Records.{Finds, IsSpelled, bodies_of, spelling};
ghost use Rattle.ht_desk.specs.Replaying.{TextsOf, opening_of, texts_of};
ghost use Rattle.ht_journal.specs.Bodies.{IsNth};
ghost use Rattle.ht_journal.specs.declared.limits.TheConstants.{LONGEST_BODY};
ghost use Rattle.ht_journal.specs.Keeping.{IsKept};
ghost use Rattle.ht_journal.specs.Quiet.{IsQuiet};
ghost use Rattle.ht_journal.specs.Rooms.{IsRoomy};
ghost use Rattle.ht_outside.specs.Moments.{LeavesOnly};

use crate::OpenFault;
use crate::kept::{are_equal, record_of};
use ht_base::{Bytes, Memory, Record};
use ht_codec::{spellings_are_short, write};
use ht_journal::{AppendRefusal, JournalState};
use ht_outside::Disk;
use std::alloc::Global;

/// Keeps the Opening as the first record of a journal that has none.
pub(crate) fn begin<D: Disk>(
    alloc: Global,
    journal: &mut JournalState,
    disk: &mut D,
    models: &[u8],
    people: &[u8],
) -> Result<(), OpenFault>
    requires texts { (length models.now ≤ LONGEST_OFFICE_TEXT)
        × (length people.now ≤ LONGEST_OFFICE_TEXT) }
    requires limit { LEAST_LIMIT ≤ journal.old.limit }
    requires certain { journal.old.doubt ≡ None }
    requires kept { IsKept D.Disk [] journal.old disk.old }
    ensures kept { OnOk result
        (IsKept D.Disk (bodies_of (opening_of (texts_of models.now people.now) ∷ []))
        journal.new disk.new) }
    ensures spelled { OnOk result
        (IsSpelled (opening_of (texts_of models.now people.now))) }
    ensures certain { OnOk result (journal.new.doubt ≡ None) }
    ensures limit { journal.new.limit ≡ journal.old.limit }
    ensures fault { IfErr result
        (ComesWhere (λ _. ⊥) (D.faults disk.old) (D.faults disk.new)) }
    ensures any_moment { IsTrue (D.tells_images disk.old)
        → LeavesOnly D.Disk disk.old disk.new (λ image.
        Finds [] image ⊎ Finds (opening_of (texts_of models.now people.now) ∷ []) image) }
    ensures file { IfSome (D.gives disk.new) (λ now.
        Finds [] now ⊎ Finds (opening_of (texts_of models.now people.now) ∷ []) now) }
    ensures room { D.room disk.new ≡ D.room disk.old }
    ensures in_room { IsRoomy (D.room disk.old) journal.old.limit
        → result ≢ Err OpenFault.Store }
    ensures faults { D.faults disk.old ≤ D.faults disk.new }
    ensures still { OnOk result (D.faults disk.new ≡ D.faults disk.old) }
    ensures tells { D.tells_images disk.new ≡ D.tells_images disk.old }
{
    spellings_are_short();
    journal.reads(disk);
    let body = opening_body(alloc, models, people)?;
    match journal.append(disk, body.as_slice()) {
        Ok(()) => {
            journal.reads(disk);
            Ok(())
        }
        Err(AppendRefusal::Store) => {
            journal.reads(disk);
            Err(OpenFault::Store)
        }
        Err(AppendRefusal::Full(_)) => unreachable!(),
        Err(AppendRefusal::TooLong) => unreachable!(),
    }
}

// The bytes of the first record of an office with these texts.
fn opening_body(alloc: Global, models: &[u8], people: &[u8]) -> Result<Bytes, Memory>
    requires texts { (length models.now ≤ LONGEST_OFFICE_TEXT)
        × (length people.now ≤ LONGEST_OFFICE_TEXT) }
    ensures { IfOk result (λ body.
        IsSpelled (opening_of (texts_of models.now people.now))
        × (body.items ≡ spelling (opening_of (texts_of models.now people.now)))) }
{
    let opening = Record::Opening {
        models: Bytes::of(alloc, models)?,
        people: Bytes::of(alloc, people)?,
    };
    write(alloc, &opening)
}

/// Compares the first body with the two texts. It answers how many bytes it has.
pub(crate) fn compare_first<D: Disk>(
    alloc: Global,
    journal: &mut JournalState,
    disk: &mut D,
    models: &[u8],
    people: &[u8],
) -> Result<u64, OpenFault>
    requires number { 1 ≤ journal.old.count }
    requires kept { (bodies : List (List ℕ)) × IsKept D.Disk bodies journal.old disk.old }
    ensures compared { IfOk result (λ size.
        IsSpelled (opening_of (texts_of models.now people.now))
        × (size ≡ length (spelling (opening_of (texts_of models.now people.now))))
        × ((bodies : List (List ℕ)) → IsKept D.Disk bodies journal.old disk.old
        → IfSome (D.gives disk.old) (λ _. (at : ℕ)
        × IsNth bodies 1 at
        (spelling (opening_of (texts_of models.now people.now)))))) }
    ensures short { IfOk result (λ size. size ≤ LONGEST_BODY) }
    ensures fault { IfErr result (ComesWhere (λ fault.
        (bodies : List (List ℕ)) → IsKept D.Disk bodies journal.old disk.old
        → IfSome (D.gives disk.old) (λ _.
        (at : ℕ) × (body : List ℕ) × IsNth bodies 1 at body
        × FailsFirst (texts_of models.now people.now) at body fault))
        (D.faults disk.old) (D.faults disk.new)) }
    ensures kept { (bodies : List (List ℕ)) → IsKept D.Disk bodies journal.old disk.old
        → IsKept D.Disk bodies journal.new disk.new }
    ensures same { (journal.new.count ≡ journal.old.count)
        × (journal.new.length ≡ journal.old.length) × (journal.new.limit ≡ journal.old.limit)
        × (journal.new.doubt ≡ journal.old.doubt) }
    ensures quiet { IsQuiet D.Disk disk.old disk.new }
    ensures in_room { IsRoomy (D.room disk.old) 0 → result ≢ Err OpenFault.Store }
    ensures faults { D.faults disk.old ≤ D.faults disk.new }
    ensures still { OnOk result (D.faults disk.new ≡ D.faults disk.old) }
{
    let body = journal.body(alloc, disk, 1)?;
    let size = body.bytes.as_slice().len() as u64;
    let kept = match record_of(alloc, &body) {
        Ok(kept) => kept,
        Err(fault) => return Err(fault),
    };
    match compare_opening(&kept, models, people) {
        Ok(()) => Ok(size),
        Err(fault) => Err(fault),
    }
}

// Compares the first record with the two texts.
fn compare_opening(kept: &Record, models: &[u8], people: &[u8]) -> Result<(), OpenFault>
    ensures same { OnOk result
        (record_of kept.now ≡ opening_of (texts_of models.now people.now)) }
    ensures fault { IfErr result (λ fault.
        (((texts : TextsOf) → record_of kept.now ≢ opening_of texts)
        × (fault ≡ OpenFault.RecordRefused 1))
        ⊎ ((others : TextsOf) × (record_of kept.now ≡ opening_of others)
        × (others ≢ texts_of models.now people.now) × (fault ≡ OpenFault.TextsDiffer))) }
{
    let Record::Opening {
        models: of_models,
        people: of_people,
    } = kept
    else {
        return Err(OpenFault::RecordRefused(1));
    };
    if !are_equal(of_models.as_slice(), models) {
        return Err(OpenFault::TextsDiffer);
    }
    if !are_equal(of_people.as_slice(), people) {
        return Err(OpenFault::TextsDiffer);
    }
    Ok(())
}
