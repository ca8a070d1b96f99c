ghost use Rattle.std.specs.Prelude.{◌≡◌, ◌+◌, ◌<◌, ◌≤◌, ℕ, Bool, List, Option, min, max, length, take, drop, slice_index, Some, IfOk, IfSome, IsOk, IsTrue, OnErr, OnOk};
ghost use Rattle.ht_outside.specs.Causes.{HasCause};
ghost use Rattle.ht_outside.specs.Disks.{AddsNoImage, AreBytes, Both, Elapses, Follows, Holds, KeepsEachImage, MakesEachImage, Only, Torn};

use crate::Failed;

/// A file that is written in place, and what a crash leaves of it.
///
/// The crash model. Between two syncs each written range and the part past the old end may hold
/// any bytes. Other bytes stay. A crash may leave the file's end anywhere from the old end to the
/// present one. After a sync that succeeds a crash leaves what a read gives.
///
/// A disk that tells its images tells all of the model and no others.
///
/// No call makes a disk begin or cease to tell its file, its images or its room. A call that
/// fails, other than a write, changes nothing that a read gives.
pub trait Disk {
    /// What a read gives, where the disk tells it.
    ghost gives: { Self → Option (List ℕ) };

    /// The length that the disk shows: 0 when it is made and from `attach` on, then what the last
    /// `len` gave, raised by each later write to its end.
    ghost shown: { Self → ℕ };

    /// The room in bytes, where the disk tells one. A write then fails only where its end is past
    /// the room, and no other call fails.
    ghost room: { Self → Option ℕ };

    /// Whether the disk tells its images, which are what a crash leaves.
    ghost tells_images: { Self → Bool };

    /// What a crash at this moment may leave.
    ghost may_leave: { Self → List ℕ → Type 0 };

    /// The moment, as a number that doesn't fall.
    ghost moment: { Self → ℕ };

    /// What a crash at some moment from that one on might have left.
    ghost left_since: { Self → ℕ → List ℕ → Type 0 };

    /// How many calls failed. The count stops at 18446744073709551615, and only a call that fails
    /// raises it.
    ghost faults: { Self → ℕ };

    /// Goes over to the file of this name, and keeps what it holds. The shown length is 0 then.
    fn attach(&mut self, name: &str) -> Result<(), Failed>
        ensures shown { shown self.new ≡ 0 }
        ensures file { gives self.new ≡ gives self.old }
        ensures tells { tells_images self.new ≡ tells_images self.old }
        ensures crash { AddsNoImage (tells_images self.old) (may_leave self.old)
            (may_leave self.new) }
        ensures each { KeepsEachImage (tells_images self.old) (may_leave self.old)
            (may_leave self.new) }
        ensures time { IsTrue (tells_images self.old)
            → Elapses (moment self.old) (moment self.new) (left_since self.old)
            (left_since self.new) (may_leave self.new) }
        ensures same_room { room self.new ≡ room self.old }
        ensures in_room { IfSome (room self.old) (λ _. IsOk result) }
        ensures cause { HasCause (faults self.old) (faults self.new) result }
        ensures still { OnOk result (faults self.new ≡ faults self.old) };

    /// The length of the file in bytes, which is shown from then on.
    fn len(&mut self) -> Result<u64, Failed>
        ensures length { IfOk result
            (λ n. (shown self.new ≡ n) × IfSome (gives self.old) (λ file. n ≡ length file)) }
        ensures shown { OnErr result (shown self.new ≡ shown self.old) }
        ensures file { gives self.new ≡ gives self.old }
        ensures tells { tells_images self.new ≡ tells_images self.old }
        ensures crash { AddsNoImage (tells_images self.old) (may_leave self.old)
            (may_leave self.new) }
        ensures each { KeepsEachImage (tells_images self.old) (may_leave self.old)
            (may_leave self.new) }
        ensures time { IsTrue (tells_images self.old)
            → Elapses (moment self.old) (moment self.new) (left_since self.old)
            (left_since self.new) (may_leave self.new) }
        ensures same_room { room self.new ≡ room self.old }
        ensures in_room { IfSome (room self.old) (λ _. IsOk result) }
        ensures cause { HasCause (faults self.old) (faults self.new) result }
        ensures still { OnOk result (faults self.new ≡ faults self.old) };

    /// Gives the bytes from `at` on, and answers how many. These are at least those up to the
    /// shown length, as far as `into` takes them: where the file has fewer, the read fails.
    fn read(&mut self, at: u64, into: &mut [u8]) -> Result<usize, Failed>
        ensures bytes { IfOk result (λ n.
            (n ≤ length into.new) × (min (shown self.old) (at + length into.new) ≤ at + n)
            × IfSome (gives self.old) (λ file. take n into.new ≡ take n (drop at file))) }
        ensures small { (k : ℕ) → slice_index into.new k < 256 }
        ensures shown { shown self.new ≡ shown self.old }
        ensures file { gives self.new ≡ gives self.old }
        ensures tells { tells_images self.new ≡ tells_images self.old }
        ensures crash { AddsNoImage (tells_images self.old) (may_leave self.old)
            (may_leave self.new) }
        ensures each { KeepsEachImage (tells_images self.old) (may_leave self.old)
            (may_leave self.new) }
        ensures time { IsTrue (tells_images self.old)
            → Elapses (moment self.old) (moment self.new) (left_since self.old)
            (left_since self.new) (may_leave self.new) }
        ensures same_room { room self.new ≡ room self.old }
        ensures in_room { IfSome (room self.old) (λ _. IsOk result) }
        ensures cause { HasCause (faults self.old) (faults self.new) result }
        ensures still { OnOk result (faults self.new ≡ faults self.old) };

    /// Writes the piece over what is there from `at` on, and past the end. Where `at` is past the
    /// end, zeros come between. A write that fails may have changed bytes of its own range and
    /// lengthened the file up to its end, and changed no others.
    fn write_at(&mut self, at: u64, piece: &[u8]) -> Result<(), Failed>
        ensures written { OnOk result
            (Both (Holds at piece.now) (gives self.old) (gives self.new)) }
        ensures torn { OnErr result
            (Both (Torn at (length piece.now)) (gives self.old) (gives self.new)) }
        ensures shown { OnOk result
            (shown self.new ≡ max (shown self.old) (at + length piece.now)) }
        ensures shown_err { OnErr result (shown self.new ≡ shown self.old) }
        ensures tells { tells_images self.new ≡ tells_images self.old }
        ensures crash { IsTrue (tells_images self.old)
            → Follows (Torn at (length piece.now)) (may_leave self.old) (may_leave self.new) }
        ensures each { KeepsEachImage (tells_images self.old) (may_leave self.old)
            (may_leave self.new) }
        ensures makes { OnOk result (MakesEachImage (Torn at (length piece.now))
            (tells_images self.old) (may_leave self.old) (may_leave self.new)) }
        ensures time { IsTrue (tells_images self.old)
            → Elapses (moment self.old) (moment self.new) (left_since self.old)
            (left_since self.new) (may_leave self.new) }
        ensures same_room { room self.new ≡ room self.old }
        ensures in_room { OnErr result
            (IfSome (room self.old) (λ most. most < at + length piece.now)) }
        ensures cause { HasCause (faults self.old) (faults self.new) result }
        ensures still { OnOk result (faults self.new ≡ faults self.old) };

    /// After it, a crash leaves what a read gives.
    fn sync(&mut self) -> Result<(), Failed>
        ensures durable { OnOk result (IsTrue (tells_images self.old)
            → IfSome (gives self.old) (λ file. Only file (may_leave self.new))) }
        ensures shown { shown self.new ≡ shown self.old }
        ensures file { gives self.new ≡ gives self.old }
        ensures tells { tells_images self.new ≡ tells_images self.old }
        ensures crash { AddsNoImage (tells_images self.old) (may_leave self.old)
            (may_leave self.new) }
        ensures each { OnErr result (KeepsEachImage (tells_images self.old) (may_leave self.old)
            (may_leave self.new)) }
        ensures time { IsTrue (tells_images self.old)
            → Elapses (moment self.old) (moment self.new) (left_since self.old)
            (left_since self.new) (may_leave self.new) }
        ensures same_room { room self.new ≡ room self.old }
        ensures in_room { IfSome (room self.old) (λ _. IsOk result) }
        ensures cause { HasCause (faults self.old) (faults self.new) result }
        ensures still { OnOk result (faults self.new ≡ faults self.old) };

    /// A disk that tells its images tells its file, and what a read gives is one of the images.
    ghost now_is: { (disk : Self) → IsTrue (tells_images disk) → (file : List ℕ) × (gives disk ≡ Some file) × may_leave disk file };

    /// This moment is one of those since an earlier one.
    ghost counts_now: { (disk : Self) (t : ℕ) (image : List ℕ) → IsTrue (tells_images disk) → t ≤ moment disk → may_leave disk image → left_since disk t image };

    /// Since this moment there is no other.
    ghost only_now: { (disk : Self) (image : List ℕ) → IsTrue (tells_images disk) → left_since disk (moment disk) image → may_leave disk image };

    /// What a disk that tells its images leaves now is a list of bytes.
    ghost images_are_bytes: { (disk : Self) (image : List ℕ) → IsTrue (tells_images disk) → may_leave disk image → AreBytes image };

    /// So is what it might have left since any moment.
    ghost past_are_bytes: { (disk : Self) (t : ℕ) (image : List ℕ) → IsTrue (tells_images disk) → left_since disk t image → AreBytes image };
}
