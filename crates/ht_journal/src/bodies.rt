ghost use Rattle.std.specs.Prelude.{◌≡◌, ◌≢◌, ◌+◌, ◌^◌, ◌<◌, ◌≤◌, ℕ, List, length, take, drop, Err, IfOk, IfErr, IfSome, OnOk};
ghost use Rattle.ht_journal.specs.Bodies.{IsNth};
ghost use Rattle.ht_journal.specs.Keeping.{IsKept, doubt_of};
ghost use Rattle.ht_journal.specs.Pieces.{IsPiece};
ghost use Rattle.ht_journal.specs.Quiet.{IsQuiet};
ghost use Rattle.ht_journal.specs.Reasons.{IsFault, IsShort};
ghost use Rattle.ht_journal.specs.Rooms.{IsRoomy};

use crate::walking::{back, frame_behind, pass};
use crate::{Body, JournalFault, JournalState, Reader};
use ht_base::Bytes;
use ht_outside::Disk;
use std::alloc::Global;

// Reads a body of this length that begins at this place. It takes memory only where the vector is
// too short for it.
fn read_at<D: Disk>(
    reader: &mut Reader,
    alloc: Global,
    disk: &mut D,
    at: u64,
    len: u32,
    into: &mut Bytes,
) -> Result<(), JournalFault>
    requires range { (at + len ≤ 2 ^ 32) × (at + len ≤ D.shown disk.old) }
    requires piece { IfSome (D.gives disk.old) (IsPiece reader.old) }
    ensures body { OnOk result
        (IfSome (D.gives disk.old) (λ file. into.new.items ≡ take len (drop at file))) }
    ensures size { OnOk result (length into.new.items ≡ len) }
    ensures fault { IfErr result (IsFault (λ _. ⊥) (D.faults disk.old) (D.faults disk.new)) }
    ensures piece { IfSome (D.gives disk.old) (IsPiece reader.new) }
    ensures gate { (reader.new.gate ≡ reader.old.gate) × (reader.new.passed ≡ reader.old.passed) }
    ensures quiet { IsQuiet D.Disk disk.old disk.new }
    ensures shown { D.shown disk.new ≡ D.shown disk.old }
    ensures in_room { IsRoomy (D.room disk.old) 0 → result ≢ Err JournalFault.Store }
    ensures faults { D.faults disk.old ≤ D.faults disk.new }
    ensures still { OnOk result (D.faults disk.new ≡ D.faults disk.old) }
{
    let mut items = into.lend(alloc);
    items.resize(len as usize, 0)?;
    reader.read(disk, at, &mut items)?;
    into.give_back(items);
    Ok(())
}

impl JournalState {
    /// How many bodies there are, not counting one in doubt.
    pub fn count(&self) -> u32
        ensures { result ≡ self.now.count }
    {
        self.count
    }

    /// How many bytes the journal has, up to the closed gate and with it.
    pub fn length(&self) -> u64
        ensures { result ≡ self.now.length }
    {
        self.length
    }

    /// The nth body, counted from 1. It fails with `Store` or `Memory` alone. Bodies that are asked
    /// for in their order cost one frame each; another one is walked to, from the last place or from
    /// the first.
    pub fn body<D: Disk>(
        &mut self,
        alloc: Global,
        disk: &mut D,
        n: u32,
    ) -> Result<Body, JournalFault>
        requires number { (1 ≤ n) × (n ≤ self.old.count) }
        requires kept { (bodies : List (List ℕ)) × IsKept D.Disk bodies self.old disk.old }
        ensures body { IfOk result (λ body.
            (bodies : List (List ℕ)) → IsKept D.Disk bodies self.old disk.old
            → IfSome (D.gives disk.old) (λ _. IsNth bodies n body.at body.bytes.items)) }
        // Also where the file isn't told: the body lies in the file's first 2 ^ 32 bytes.
        ensures bounds { IfOk result (λ body.
            (body.at + length body.bytes.items ≤ 2 ^ 32) × IsShort body.bytes.items) }
        ensures fault { IfErr result (IsFault (λ _. ⊥) (D.faults disk.old) (D.faults disk.new)) }
        ensures kept { (bodies : List (List ℕ)) → IsKept D.Disk bodies self.old disk.old
            → IsKept D.Disk bodies self.new disk.new }
        // For a caller to whom the bodies don't matter.
        ensures goes_on { (bodies : List (List ℕ)) × IsKept D.Disk bodies self.new disk.new }
        ensures doubt { (self.new.doubt ≡ self.old.doubt)
            × (doubt_of self.new ≡ doubt_of self.old) }
        ensures same { (self.new.count ≡ self.old.count) × (self.new.length ≡ self.old.length)
            × (self.new.limit ≡ self.old.limit) }
        ensures quiet { IsQuiet D.Disk disk.old disk.new }
        ensures in_room { IsRoomy (D.room disk.old) 0 → result ≢ Err JournalFault.Store }
        ensures faults { D.faults disk.old ≤ D.faults disk.new }
        ensures still { OnOk result (D.faults disk.new ≡ D.faults disk.old) }
    {
        let mut body = Body {
            at: 0,
            bytes: Bytes::new(alloc),
        };
        self.read_body(alloc, disk, n, &mut body)?;
        Ok(body)
    }

    /// Reads the nth body into the place of another, as [`JournalState::body`] gives it. It takes memory
    /// only for a body that is longer than all that were read into this one. After a fault this one is any.
    pub fn read_body<D: Disk>(
        &mut self,
        alloc: Global,
        disk: &mut D,
        n: u32,
        body: &mut Body,
    ) -> Result<(), JournalFault>
        requires number { (1 ≤ n) × (n ≤ self.old.count) }
        requires kept { (bodies : List (List ℕ)) × IsKept D.Disk bodies self.old disk.old }
        ensures body { OnOk result ((bodies : List (List ℕ)) → IsKept D.Disk bodies self.old disk.old
            → IfSome (D.gives disk.old) (λ _. IsNth bodies n body.new.at body.new.bytes.items)) }
        // Also where the file isn't told: the body lies in the file's first 2 ^ 32 bytes.
        ensures bounds { OnOk result ((body.new.at + length body.new.bytes.items ≤ 2 ^ 32)
            × IsShort body.new.bytes.items) }
        ensures fault { IfErr result (IsFault (λ _. ⊥) (D.faults disk.old) (D.faults disk.new)) }
        ensures kept { (bodies : List (List ℕ)) → IsKept D.Disk bodies self.old disk.old
            → IsKept D.Disk bodies self.new disk.new }
        // For a caller to whom the bodies don't matter.
        ensures goes_on { (bodies : List (List ℕ)) × IsKept D.Disk bodies self.new disk.new }
        ensures doubt { (self.new.doubt ≡ self.old.doubt)
            × (doubt_of self.new ≡ doubt_of self.old) }
        ensures same { (self.new.count ≡ self.old.count) × (self.new.length ≡ self.old.length)
            × (self.new.limit ≡ self.old.limit) }
        ensures quiet { IsQuiet D.Disk disk.old disk.new }
        ensures in_room { IsRoomy (D.room disk.old) 0 → result ≢ Err JournalFault.Store }
        ensures faults { D.faults disk.old ≤ D.faults disk.new }
        ensures still { OnOk result (D.faults disk.new ≡ D.faults disk.old) }
    {
        let end = self.length - 1;
        back(&mut self.reader, n);
        pass(&mut self.reader, disk, n - 1, end)?;
        let (at, len) = frame_behind(&mut self.reader, disk, end)?;
        read_at(&mut self.reader, alloc, disk, at, len, &mut body.bytes)?;
        body.at = at;
        self.reader.gate = at + u64::from(len);
        self.reader.passed = n;
        Ok(())
    }
}
