ghost use Rattle.std.specs.Prelude.{◌≡◌, ◌≢◌, ◌+◌, ◌≤◌, ◌++◌, ◌∷◌, [], List, ℕ, length, take, Err, None, Some, IfErr, IfSome, IsErr, IsOk, IsTrue, OnOk, OnErr, MatchResult};
ghost use Rattle.ht_outside.specs.Causes.{Rose};
ghost use Rattle.ht_outside.specs.Disks.{Both};
ghost use Rattle.ht_outside.specs.Moments.{LeavesOnly};
ghost use Rattle.ht_journal.specs.Ahead.{far, reached};
ghost use Rattle.ht_journal.specs.Files.{IsAppended, IsPut, frame};
ghost use Rattle.ht_journal.specs.Keeping.{IsKept, doubt_of};
ghost use Rattle.ht_journal.specs.Parts.{IsAppending, Reads};
ghost use Rattle.ht_journal.specs.Reasons.{HasReason, HasRoom, IsShort};
ghost use Rattle.ht_journal.specs.Rooms.{IsRoomy};

use crate::device::stored;
use crate::limits::LONGEST_BODY;
use crate::{AppendRefusal, JournalState};
use ht_outside::Disk;

// Puts the body's frame and a closed gate into the front of the buffer.
fn stage(buffer: &mut [u8], body: &[u8])
    requires { (length body.now ≤ LONGEST_BODY) × (length buffer.old ≡ LONGEST_BODY + 5) }
    ensures { take (length body.now + 5) buffer.new ≡ frame body.now ++ 0 ∷ [] }
{
    let n = body.len();
    buffer[..4].copy_from_slice(&(n as u32).to_le_bytes());
    buffer[4..4 + n].copy_from_slice(body);
    buffer[4 + n] = 0;
}

impl JournalState {
    /// Adds a body of at most 1,048,576 bytes, where nothing is in doubt. It takes no memory. After
    /// `Store` the body isn't there, or it is in doubt: [`JournalState::doubtful`] says which.
    pub fn append<D: Disk>(&mut self, disk: &mut D, body: &[u8]) -> Result<(), AppendRefusal>
        requires certain { self.old.doubt ≡ None }
        requires kept { (bodies : List (List ℕ)) × IsKept D.Disk bodies self.old disk.old }
        ensures reason { MatchResult result (λ _. IsShort body.now × HasRoom self.old body.now)
            (HasReason self.old body.now (D.faults disk.old) (D.faults disk.new)) }
        ensures ok { OnOk result ((bodies : List (List ℕ)) → IsKept D.Disk bodies self.old disk.old
            → IsKept D.Disk (bodies ++ body.now ∷ []) self.new disk.new) }
        ensures certain { OnOk result (self.new.doubt ≡ None) }
        ensures err { OnErr result ((bodies : List (List ℕ))
            → IsKept D.Disk bodies self.old disk.old → IsKept D.Disk bodies self.new disk.new) }
        // For a caller to whom the bodies don't matter.
        ensures goes_on { (bodies : List (List ℕ)) × IsKept D.Disk bodies self.new disk.new }
        ensures doubt { IfSome (doubt_of self.new)
            (λ doubt. (doubt ≡ body.now) × (result ≡ Err AppendRefusal.Store)) }
        ensures written { OnOk result (Both (IsAppended
            (far self.old.ahead self.old.limit (self.old.length + 5 + length body.now))
            self.old.length body.now) (D.gives disk.old) (D.gives disk.new)) }
        ensures ahead { OnOk result (self.new.ahead ≡ reached self.old.ahead self.old.limit
            (self.old.length + 5 + length body.now)) }
        ensures limit { self.new.limit ≡ self.old.limit }
        ensures refused { result ≢ Err AppendRefusal.Store → IsErr result
            → (self.new ≡ self.old) × (disk.new ≡ disk.old) }
        // At every moment since it began, an image holds what one of its parts may leave.
        ensures any_part { (bodies : List (List ℕ)) → IsKept D.Disk bodies self.old disk.old
            → IsTrue (D.tells_images disk.old)
            → LeavesOnly D.Disk disk.old disk.new (IsAppending bodies body.now) }
        // So it has the bodies from before, or these and the new one.
        ensures any_moment { (bodies : List (List ℕ)) → IsKept D.Disk bodies self.old disk.old
            → IsTrue (D.tells_images disk.old)
            → LeavesOnly D.Disk disk.old disk.new (Reads bodies (Some body.now)) }
        ensures room { D.room disk.new ≡ D.room disk.old }
        ensures in_room { IsRoomy (D.room disk.old) self.old.limit
            → result ≢ Err AppendRefusal.Store }
        ensures faults { D.faults disk.old ≤ D.faults disk.new }
        ensures still { result ≢ Err AppendRefusal.Store → D.faults disk.new ≡ D.faults disk.old }
        ensures tells { D.tells_images disk.new ≡ D.tells_images disk.old }
    {
        if body.len() > LONGEST_BODY as usize {
            return Err(AppendRefusal::TooLong);
        }
        let end = self.length + 5 + body.len() as u64;
        if end > self.limit {
            return Err(AppendRefusal::Full(self.length));
        }
        self.lengthen(disk, end)?;
        self.put(disk, body)
    }

    // Writes a body that fits behind the closed gate, and opens the gate.
    fn put<D: Disk>(&mut self, disk: &mut D, body: &[u8]) -> Result<(), AppendRefusal>
        requires certain { self.old.doubt ≡ None }
        requires kept { (bodies : List (List ℕ)) × IsKept D.Disk bodies self.old disk.old }
        requires fits { IsShort body.now × HasRoom self.old body.now }
        ensures ok { OnOk result ((bodies : List (List ℕ)) → IsKept D.Disk bodies self.old disk.old
            → IsKept D.Disk (bodies ++ body.now ∷ []) self.new disk.new) }
        ensures certain { OnOk result (self.new.doubt ≡ None) }
        ensures err { OnErr result ((bodies : List (List ℕ))
            → IsKept D.Disk bodies self.old disk.old → IsKept D.Disk bodies self.new disk.new) }
        ensures goes_on { (bodies : List (List ℕ)) × IsKept D.Disk bodies self.new disk.new }
        ensures doubt { IfSome (doubt_of self.new)
            (λ doubt. (doubt ≡ body.now) × (result ≡ Err AppendRefusal.Store)) }
        ensures written { OnOk result (Both (IsPut self.old.length body.now) (D.gives disk.old)
            (D.gives disk.new)) }
        ensures same { (self.new.limit ≡ self.old.limit) × (self.new.ahead ≡ self.old.ahead) }
        ensures any_part { (bodies : List (List ℕ)) → IsKept D.Disk bodies self.old disk.old
            → IsTrue (D.tells_images disk.old)
            → LeavesOnly D.Disk disk.old disk.new (IsAppending bodies body.now) }
        ensures room { D.room disk.new ≡ D.room disk.old }
        ensures in_room { IsRoomy (D.room disk.old) self.old.limit → IsOk result }
        ensures store { IfErr result (λ why. (why ≡ AppendRefusal.Store)
            × Rose (D.faults disk.old) (D.faults disk.new)) }
        ensures faults { D.faults disk.old ≤ D.faults disk.new }
        ensures still { OnOk result (D.faults disk.new ≡ D.faults disk.old) }
        ensures tells { D.tells_images disk.new ≡ D.tells_images disk.old }
    {
        stage(&mut self.buffer, body);
        self.reader.held = 0;
        stored(disk, self.length, &self.buffer[..body.len() + 5])?;
        self.doubt = Some(body.len() as u32);
        stored(disk, self.length - 1, &[1])?;
        self.doubt = None;
        self.length += 5 + body.len() as u64;
        self.count += 1;
        Ok(())
    }
}
