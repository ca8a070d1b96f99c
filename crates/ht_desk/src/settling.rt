ghost use Rattle.std.specs.Prelude.{◌≡◌, ◌⊎◌, ◌≤◌, ℕ, List, None, Some, IsTrue, true, false};
ghost use Rattle.ht_base.specs.Records.{RecordOf};
ghost use Rattle.ht_desk.specs.Keeping.{IsAt};
ghost use Rattle.ht_desk.specs.Records.{Finds, FindsAlso};
ghost use Rattle.ht_desk.specs.Replaying.{TextsOf};
ghost use Rattle.ht_desk.specs.States.{State};
ghost use Rattle.ht_desk.specs.Stepping.{Stands};
ghost use Rattle.ht_desk.specs.Steps.{Settles};
ghost use Rattle.ht_journal.specs.Rooms.{IsRoomy};
ghost use Rattle.ht_outside.specs.Causes.{Rose};
ghost use Rattle.ht_outside.specs.Moments.{LeavesOnly};

use crate::DeskState;
use ht_journal::Settled;
use ht_outside::Disk;

impl DeskState {
    // Settles the doubt, if there is one. It answers whether there is none then. It takes no memory.
    pub(crate) fn settle<D: Disk>(&mut self, disk: &mut D) -> bool
        requires { Stands D.Disk self.old disk.old }
        ensures settles { (beside : ℕ) (texts : TextsOf) (s : State)
            → IsAt D.Disk beside texts s self.old disk.old
            → (mid : State) × Settles s mid × IsAt D.Disk beside texts mid self.new disk.new
            × (result ≡ true → mid.doubt ≡ None)
            × (result ≡ false → (r : RecordOf) × (mid.doubt ≡ Some r)) }
        ensures certain { result ≡ true
            → (self.new.journal.doubt ≡ None) × (self.new.doubt ≡ None) }
        ensures any_moment { (beside : ℕ) (texts : TextsOf) (s : State)
            → IsAt D.Disk beside texts s self.old disk.old
            → IsTrue (D.tells_images disk.old)
            → LeavesOnly D.Disk disk.old disk.new (λ image.
            Finds s.records image ⊎ FindsAlso s.records s.doubt image) }
        ensures limit { self.new.journal.limit ≡ self.old.journal.limit }
        ensures room { D.room disk.new ≡ D.room disk.old }
        ensures in_room { IsRoomy (D.room disk.old) 0 → result ≡ true }
        ensures faults { D.faults disk.old ≤ D.faults disk.new }
        ensures still { result ≡ true → D.faults disk.new ≡ D.faults disk.old }
        ensures store { result ≡ false → Rose (D.faults disk.old) (D.faults disk.new) }
        ensures tells { D.tells_images disk.new ≡ D.tells_images disk.old }
    {
        if !self.journal.doubtful() {
            self.journal.reads(disk);
            return true;
        }
        let settled = self.journal.settle(disk);
        if let Settled::Store = settled {
            return false;
        }
        let Some(doubt) = self.doubt.take() else {
            return true;
        };
        if let Settled::Kept = settled {
            self.commit(doubt);
        }
        true
    }
}
