ghost use Rattle.std.specs.Prelude.{◌≡◌, ◌≢◌, ◌+◌, ◌-◌, ◌^◌, ◌≤◌, ◌++◌, ◌∷◌, [], ℕ, List, is_some, length, slice_index, Err, None, Ok, Some, IfErr, IfOk, IfSome, IsErr, IsSome, IsTrue, MatchResult, OnErr, OnOk};
ghost use Rattle.ht_outside.specs.Causes.{Rose};
ghost use Rattle.ht_outside.specs.Disks.{Both};
ghost use Rattle.ht_outside.specs.Moments.{LeavesOnly};
ghost use Rattle.ht_journal.specs.Ahead.{far, reached};
ghost use Rattle.ht_journal.specs.Bodies.{IsNth};
ghost use Rattle.ht_journal.specs.Files.{IsAppended, contents};
ghost use Rattle.ht_journal.specs.Keeping.{IsKept, doubt_of};
ghost use Rattle.ht_journal.specs.Openings.{Opens};
ghost use Rattle.ht_journal.specs.Parts.{IsAppending, Reads};
ghost use Rattle.ht_journal.specs.Quiet.{IsQuiet};
ghost use Rattle.ht_journal.specs.Reasons.{HasReason, HasRoom, IsFault, IsSettledBy, IsShort, settled_bodies};
ghost use Rattle.ht_journal.specs.Rooms.{IsRoomy};

use crate::{AppendRefusal, Body, JournalFault, JournalState, Settled, open};
use ht_outside::Disk;
use std::alloc::Global;

/// A disk with the state of what it holds beside it, which owns all memory.
#[derive(Drop)]
pub struct JournalOver<'a, D: Disk, S> {
    pub disk: &'a mut D,
    pub state: S,
}

/// A journal with its disk. Each call is that of [`JournalState`] over this disk.
/// [`JournalOver::close`] gives the disk back: a caller who goes on with the disk closes the journal
/// before, since nothing is known of the disk after a journal that is let go otherwise.
pub type Journal<'a, D> = JournalOver<'a, D, JournalState>;

impl<'a, D: Disk, S> JournalOver<'a, D, S> {
    /// Gives the disk back, and hands out the state.
    pub fn close(self) -> S
        ensures disk { self.exit.0.now ≡ self.entry.disk.now }
        ensures state { result ≡ self.entry.state }
    {
        let JournalOver { disk: _, state } = self;
        state
    }
}

impl<'a, D: Disk> JournalOver<'a, D, JournalState> {
    /// Opens the journal of a disk: see [`open`]. Where it is refused nothing is known of the disk from
    /// here on.
    pub fn open(alloc: Global, disk: &'a mut D, limit: u64) -> Result<Journal<'a, D>, JournalFault>
        requires { limit ≤ 2 ^ 32 }
        ensures same_disk { IfOk result
            (λ journal. journal.disk.ghost_name ≡ disk.entry.ghost_name) }
        ensures opens { IfOk result
            (λ journal. Opens D.Disk limit disk.old journal.disk.now (Ok journal.state)) }
        ensures damaged { (at : ℕ) → result ≡ Err (JournalFault.Damaged at)
            → IfSome (D.gives disk.old) (λ file. contents file ≡ Err at) }
        ensures in_room { IsRoomy (D.room disk.old) 9 → result ≢ Err JournalFault.Store }
    {
        match open(alloc, &mut *disk, limit) {
            Ok(state) => Ok(JournalOver { disk, state }),
            Err(fault) => Err(fault),
        }
    }

    /// How many bodies there are, not counting one in doubt.
    pub fn count(&self) -> u32
        ensures { result ≡ self.now.state.count }
    {
        self.state.count()
    }

    /// How many bytes the journal has, up to the closed gate and with it.
    pub fn length(&self) -> u64
        ensures { result ≡ self.now.state.length }
    {
        self.state.length()
    }

    /// The nth body, counted from 1: see [`JournalState::body`].
    pub fn body(&mut self, alloc: Global, n: u32) -> Result<Body, JournalFault>
        requires number { (1 ≤ n) × (n ≤ self.old.state.count) }
        requires kept { (bodies : List (List ℕ))
            × IsKept D.Disk bodies self.old.state self.old.disk.now }
        ensures same_disk { self.new.disk.ghost_name ≡ self.old.disk.ghost_name }
        ensures body { IfOk result (λ body.
            (bodies : List (List ℕ)) → IsKept D.Disk bodies self.old.state self.old.disk.now
            → IfSome (D.gives self.old.disk.now)
            (λ _. IsNth bodies n body.at body.bytes.items)) }
        ensures bounds { IfOk result (λ body.
            (body.at + length body.bytes.items ≤ 2 ^ 32) × IsShort body.bytes.items) }
        ensures fault { IfErr result
            (IsFault (λ _. ⊥) (D.faults self.old.disk.now) (D.faults self.new.disk.now)) }
        ensures kept { (bodies : List (List ℕ))
            → IsKept D.Disk bodies self.old.state self.old.disk.now
            → IsKept D.Disk bodies self.new.state self.new.disk.now }
        ensures goes_on { (bodies : List (List ℕ))
            × IsKept D.Disk bodies self.new.state self.new.disk.now }
        ensures doubt { (self.new.state.doubt ≡ self.old.state.doubt)
            × (doubt_of self.new.state ≡ doubt_of self.old.state) }
        ensures same { (self.new.state.count ≡ self.old.state.count)
            × (self.new.state.length ≡ self.old.state.length)
            × (self.new.state.limit ≡ self.old.state.limit) }
        ensures quiet { IsQuiet D.Disk self.old.disk.now self.new.disk.now }
        ensures in_room { IsRoomy (D.room self.old.disk.now) 0 → result ≢ Err JournalFault.Store }
        ensures faults { D.faults self.old.disk.now ≤ D.faults self.new.disk.now }
        ensures still { OnOk result
            (D.faults self.new.disk.now ≡ D.faults self.old.disk.now) }
    {
        self.state.body(alloc, self.disk, n)
    }

    /// Adds a body of at most 1,048,576 bytes, where nothing is in doubt: see [`JournalState::append`].
    pub fn append(&mut self, body: &[u8]) -> Result<(), AppendRefusal>
        requires certain { self.old.state.doubt ≡ None }
        requires kept { (bodies : List (List ℕ))
            × IsKept D.Disk bodies self.old.state self.old.disk.now }
        ensures same_disk { self.new.disk.ghost_name ≡ self.old.disk.ghost_name }
        ensures reason { MatchResult result
            (λ _. IsShort body.now × HasRoom self.old.state body.now) (HasReason self.old.state
            body.now (D.faults self.old.disk.now) (D.faults self.new.disk.now)) }
        ensures ok { OnOk result ((bodies : List (List ℕ))
            → IsKept D.Disk bodies self.old.state self.old.disk.now
            → IsKept D.Disk (bodies ++ body.now ∷ []) self.new.state self.new.disk.now) }
        ensures certain { OnOk result (self.new.state.doubt ≡ None) }
        ensures err { OnErr result ((bodies : List (List ℕ))
            → IsKept D.Disk bodies self.old.state self.old.disk.now
            → IsKept D.Disk bodies self.new.state self.new.disk.now) }
        ensures goes_on { (bodies : List (List ℕ))
            × IsKept D.Disk bodies self.new.state self.new.disk.now }
        ensures doubt { IfSome (doubt_of self.new.state)
            (λ doubt. (doubt ≡ body.now) × (result ≡ Err AppendRefusal.Store)) }
        ensures written { OnOk result (Both (IsAppended (far self.old.state.ahead self.old.state.limit
            (self.old.state.length + 5 + length body.now)) self.old.state.length body.now)
            (D.gives self.old.disk.now) (D.gives self.new.disk.now)) }
        ensures ahead { OnOk result (self.new.state.ahead ≡ reached self.old.state.ahead
            self.old.state.limit (self.old.state.length + 5 + length body.now)) }
        ensures limit { self.new.state.limit ≡ self.old.state.limit }
        ensures refused { result ≢ Err AppendRefusal.Store → IsErr result
            → (self.new.state ≡ self.old.state) × (self.new.disk.now ≡ self.old.disk.now) }
        ensures any_part { (bodies : List (List ℕ))
            → IsKept D.Disk bodies self.old.state self.old.disk.now
            → IsTrue (D.tells_images self.old.disk.now)
            → LeavesOnly D.Disk self.old.disk.now self.new.disk.now (IsAppending bodies body.now) }
        ensures any_moment { (bodies : List (List ℕ))
            → IsKept D.Disk bodies self.old.state self.old.disk.now
            → IsTrue (D.tells_images self.old.disk.now)
            → LeavesOnly D.Disk self.old.disk.now self.new.disk.now (Reads bodies (Some body.now)) }
        ensures room { D.room self.new.disk.now ≡ D.room self.old.disk.now }
        ensures in_room { IsRoomy (D.room self.old.disk.now) self.old.state.limit
            → result ≢ Err AppendRefusal.Store }
        ensures faults { D.faults self.old.disk.now ≤ D.faults self.new.disk.now }
        ensures still { result ≢ Err AppendRefusal.Store
            → D.faults self.new.disk.now ≡ D.faults self.old.disk.now }
        ensures tells { D.tells_images self.new.disk.now ≡ D.tells_images self.old.disk.now }
    {
        self.state.append(self.disk, body)
    }

    /// Whether a body is in doubt.
    pub fn doubtful(&self) -> bool
        ensures body { result ≡ is_some (doubt_of self.now.state) }
        ensures doubt { result ≡ is_some self.now.state.doubt }
    {
        self.state.doubtful()
    }

    /// Looks whether the body in doubt is there: see [`JournalState::settle`].
    pub fn settle(&mut self) -> Settled
        requires doubt { IsSome self.old.state.doubt }
        requires kept { (bodies : List (List ℕ))
            × IsKept D.Disk bodies self.old.state self.old.disk.now }
        ensures same_disk { self.new.disk.ghost_name ≡ self.old.disk.ghost_name }
        ensures gate { IfSome (D.gives self.old.disk.now)
            (λ file. IsSettledBy (slice_index file (self.old.state.length - 1)) result) }
        ensures store { result ≡ Settled.Store
            → (self.new.state ≡ self.old.state)
            × Rose (D.faults self.old.disk.now) (D.faults self.new.disk.now) }
        ensures certain { result ≢ Settled.Store → self.new.state.doubt ≡ None }
        ensures settled { (bodies : List (List ℕ)) (body : List ℕ)
            → doubt_of self.old.state ≡ Some body
            → IsKept D.Disk bodies self.old.state self.old.disk.now
            → IsKept D.Disk (settled_bodies bodies body result) self.new.state self.new.disk.now }
        ensures goes_on { (bodies : List (List ℕ))
            × IsKept D.Disk bodies self.new.state self.new.disk.now }
        ensures limit { self.new.state.limit ≡ self.old.state.limit }
        ensures room { D.room self.new.disk.now ≡ D.room self.old.disk.now }
        ensures in_room { IsRoomy (D.room self.old.disk.now) 0 → result ≢ Settled.Store }
        ensures any_moment { (bodies : List (List ℕ))
            → IsKept D.Disk bodies self.old.state self.old.disk.now
            → IsTrue (D.tells_images self.old.disk.now)
            → LeavesOnly D.Disk self.old.disk.now self.new.disk.now
            (Reads bodies (doubt_of self.old.state)) }
        ensures faults { D.faults self.old.disk.now ≤ D.faults self.new.disk.now }
        ensures still { result ≢ Settled.Store
            → D.faults self.new.disk.now ≡ D.faults self.old.disk.now }
        ensures tells { D.tells_images self.new.disk.now ≡ D.tells_images self.old.disk.now }
    {
        self.state.settle(self.disk)
    }
}
