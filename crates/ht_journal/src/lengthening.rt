ghost use Rattle.std.specs.Prelude.{◌≡◌, ◌≤◌, List, ℕ, [], None, Some, IsOk, IsTrue, OnOk};
ghost use Rattle.ht_outside.specs.Causes.{HasCause};
ghost use Rattle.ht_outside.specs.Disks.{Both, Holds};
ghost use Rattle.ht_outside.specs.Moments.{LeavesOnly};
ghost use Rattle.ht_journal.specs.Ahead.{far, reached};
ghost use Rattle.ht_journal.specs.Keeping.{IsKept, doubt_of};
ghost use Rattle.ht_journal.specs.Parts.{StandsAndReads};
ghost use Rattle.ht_journal.specs.Rooms.{IsRoomy};

use crate::JournalState;
use crate::limits::AHEAD;
use ht_outside::{Disk, Failed};

impl JournalState {
    /// From here on the file is lengthened ahead of the bodies, some 65,536 bytes at a time, and never past
    /// the limit: a sync takes longer where the file's length has changed. What stands behind the closed gate
    /// has no meaning. The disk isn't touched.
    pub fn lengthen_ahead<D: Disk>(&mut self, disk: &D)
        ensures kept { (bodies : List (List ℕ)) → IsKept D.Disk bodies self.old disk.now
            → IsKept D.Disk bodies self.new disk.now }
        ensures doubt { (self.new.doubt ≡ self.old.doubt) × (doubt_of self.new ≡ doubt_of self.old) }
        ensures same { (self.new.count ≡ self.old.count) × (self.new.length ≡ self.old.length)
            × (self.new.limit ≡ self.old.limit) }
        ensures ahead { self.new.ahead ≡ Some 0 }
    {
        self.ahead = Some(0);
    }

    // Lengthens the file for what ends at a place, where it is lengthened ahead and was not so far. The next
    // sync is that of what is written.
    pub(crate) fn lengthen<D: Disk>(&mut self, disk: &mut D, end: u64) -> Result<(), Failed>
        requires certain { self.old.doubt ≡ None }
        requires range { (self.old.length ≤ end) × (end ≤ self.old.limit) }
        ensures kept { (bodies : List (List ℕ)) → IsKept D.Disk bodies self.old disk.old
            → IsKept D.Disk bodies self.new disk.new }
        ensures same { (self.new.count ≡ self.old.count) × (self.new.length ≡ self.old.length)
            × (self.new.limit ≡ self.old.limit) × (self.new.doubt ≡ self.old.doubt) }
        ensures ahead { OnOk result
            (self.new.ahead ≡ reached self.old.ahead self.old.limit end) }
        ensures written { OnOk result (Both (Holds (far self.old.ahead self.old.limit end) [])
            (D.gives disk.old) (D.gives disk.new)) }
        ensures any_moment { (bodies : List (List ℕ)) → IsKept D.Disk bodies self.old disk.old
            → IsTrue (D.tells_images disk.old)
            → LeavesOnly D.Disk disk.old disk.new (StandsAndReads bodies None) }
        ensures room { D.room disk.new ≡ D.room disk.old }
        ensures in_room { IsRoomy (D.room disk.old) self.old.limit → IsOk result }
        ensures cause { HasCause (D.faults disk.old) (D.faults disk.new) result }
        ensures still { OnOk result (D.faults disk.new ≡ D.faults disk.old) }
        ensures tells { D.tells_images disk.new ≡ D.tells_images disk.old }
    {
        let Some(reach) = self.ahead else {
            return Ok(());
        };
        if end <= reach {
            return Ok(());
        }
        let far = (end + u64::from(AHEAD)).min(self.limit);
        self.reader.held = 0;
        disk.write_at(far, &[])?;
        self.ahead = Some(far);
        Ok(())
    }
}
