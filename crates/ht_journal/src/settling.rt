ghost use Rattle.std.specs.Prelude.{◌≡◌, ◌≢◌, ◌-◌, ◌≤◌, List, ℕ, slice_index, is_some, None, Some, IfSome, IsSome, IsTrue};
ghost use Rattle.ht_outside.specs.Causes.{Rose};
ghost use Rattle.ht_outside.specs.Moments.{LeavesOnly};
ghost use Rattle.ht_journal.specs.Files.{journal_length};
ghost use Rattle.ht_journal.specs.Keeping.{IsKept, doubt_of};
ghost use Rattle.ht_journal.specs.Parts.{Reads};
ghost use Rattle.ht_journal.specs.Reasons.{IsSettledBy, settled_bodies};
ghost use Rattle.ht_journal.specs.Rooms.{IsRoomy};

use crate::device::look;
use crate::{JournalState, Settled};
use ht_outside::Disk;

impl JournalState {
    /// Whether a body is in doubt.
    pub fn doubtful(&self) -> bool
        ensures body { result ≡ is_some (doubt_of self.now) }
        ensures doubt { result ≡ is_some self.now.doubt }
    {
        self.doubt.is_some()
    }

    /// Looks whether the body in doubt is there. It takes no memory. After `Store` the doubt stays.
    pub fn settle<D: Disk>(&mut self, disk: &mut D) -> Settled
        requires doubt { IsSome self.old.doubt }
        requires kept { (bodies : List (List ℕ)) × IsKept D.Disk bodies self.old disk.old }
        // What the gate holds that is read after a sync decides.
        ensures gate { IfSome (D.gives disk.old)
            (λ file. IsSettledBy (slice_index file (self.old.length - 1)) result) }
        ensures store { result ≡ Settled.Store
            → (self.new ≡ self.old) × Rose (D.faults disk.old) (D.faults disk.new) }
        ensures certain { result ≢ Settled.Store → self.new.doubt ≡ None }
        ensures settled { (bodies : List (List ℕ)) (body : List ℕ) → doubt_of self.old ≡ Some body
            → IsKept D.Disk bodies self.old disk.old
            → IsKept D.Disk (settled_bodies bodies body result) self.new disk.new }
        // For a caller to whom the bodies don't matter.
        ensures goes_on { (bodies : List (List ℕ)) × IsKept D.Disk bodies self.new disk.new }
        ensures limit { self.new.limit ≡ self.old.limit }
        // At every moment since it began, an image has the bodies from before, or these and the one
        // in doubt.
        ensures any_moment { (bodies : List (List ℕ)) → IsKept D.Disk bodies self.old disk.old
            → IsTrue (D.tells_images disk.old)
            → LeavesOnly D.Disk disk.old disk.new (Reads bodies (doubt_of self.old)) }
        ensures room { D.room disk.new ≡ D.room disk.old }
        ensures in_room { IsRoomy (D.room disk.old) 0 → result ≢ Settled.Store }
        ensures faults { D.faults disk.old ≤ D.faults disk.new }
        ensures still { result ≢ Settled.Store → D.faults disk.new ≡ D.faults disk.old }
        ensures tells { D.tells_images disk.new ≡ D.tells_images disk.old }
    {
        let Some(n) = self.doubt else {
            return Settled::Dropped;
        };
        let Ok(gate) = look(disk, self.length - 1) else {
            return Settled::Store;
        };
        self.doubt = None;
        if gate != 1 {
            return Settled::Dropped;
        }
        self.length += 5 + u64::from(n);
        self.count += 1;
        Settled::Kept
    }

    /// What can be read of the disk now, and after a crash, and how long the journal is. It does
    /// nothing: its clauses are laws of a journal that is kept.
    pub fn reads<D: Disk>(&self, disk: &D)
        ensures length { (bodies : List (List ℕ)) → IsKept D.Disk bodies self.now disk.now
            → self.now.length ≡ journal_length bodies }
        ensures file { (bodies : List (List ℕ)) → IsKept D.Disk bodies self.now disk.now
            → IfSome (D.gives disk.now) (Reads bodies (doubt_of self.now)) }
        ensures images { (bodies : List (List ℕ)) → IsKept D.Disk bodies self.now disk.now
            → IsTrue (D.tells_images disk.now) → (image : List ℕ) → D.may_leave disk.now image
            → Reads bodies (doubt_of self.now) image }
    {}
}
