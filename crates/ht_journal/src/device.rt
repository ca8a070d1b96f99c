ghost use Rattle.std.specs.Prelude.{◌≡◌, ◌+◌, ◌^◌, ◌<◌, ◌≤◌, List, ℕ, length, take, drop, slice_index, IfOk, IfSome, IsOk, IsTrue, OnOk, OnErr};
ghost use Rattle.ht_outside.specs.Causes.{HasCause};
ghost use Rattle.ht_outside.specs.Disks.{Both, Follows, Holds, Only, Torn};
ghost use Rattle.ht_outside.specs.Moments.{LeavesOnly};
ghost use Rattle.ht_journal.specs.Quiet.{IsQuiet};
ghost use Rattle.ht_journal.specs.Rooms.{IsRoomy};

use ht_outside::{Disk, Failed};

/// Writes and syncs.
pub(crate) fn stored<D: Disk>(disk: &mut D, at: u64, piece: &[u8]) -> Result<(), Failed>
    ensures written { OnOk result
        (Both (Holds at piece.now) (D.gives disk.old) (D.gives disk.new)) }
    ensures torn { OnErr result
        (Both (Torn at (length piece.now)) (D.gives disk.old) (D.gives disk.new)) }
    ensures durable { OnOk result (IsTrue (D.tells_images disk.old)
        → IfSome (D.gives disk.new) (λ file. Only file (D.may_leave disk.new))) }
    ensures shown { (D.shown disk.old ≤ D.shown disk.new)
        × OnOk result (at + length piece.now ≤ D.shown disk.new) }
    ensures tells { D.tells_images disk.new ≡ D.tells_images disk.old }
    ensures crash { IsTrue (D.tells_images disk.old)
        → Follows (Torn at (length piece.now)) (D.may_leave disk.old) (D.may_leave disk.new) }
    ensures any_moment { IsTrue (D.tells_images disk.old)
        → LeavesOnly D.Disk disk.old disk.new (λ image.
        (before : List ℕ) × D.may_leave disk.old before
        × Torn at (length piece.now) before image) }
    ensures room { D.room disk.new ≡ D.room disk.old }
    ensures in_room { IsRoomy (D.room disk.old) (at + length piece.now) → IsOk result }
    ensures cause { HasCause (D.faults disk.old) (D.faults disk.new) result }
    ensures still { OnOk result (D.faults disk.new ≡ D.faults disk.old) }
{
    disk.write_at(at, piece)?;
    disk.sync()
}

/// Reads as many bytes as `into` takes. The disk has shown that they are there.
pub(crate) fn read_whole<D: Disk>(disk: &mut D, at: u64, into: &mut [u8]) -> Result<(), Failed>
    requires { at + length into.old ≤ D.shown disk.old }
    ensures bytes { OnOk result
        (IfSome (D.gives disk.old) (λ file. into.new ≡ take (length into.new) (drop at file))) }
    ensures small { (i : ℕ) → slice_index into.new i < 256 }
    ensures quiet { IsQuiet D.Disk disk.old disk.new }
    ensures shown { D.shown disk.new ≡ D.shown disk.old }
    ensures in_room { IsRoomy (D.room disk.old) 0 → IsOk result }
    ensures cause { HasCause (D.faults disk.old) (D.faults disk.new) result }
    ensures still { OnOk result (D.faults disk.new ≡ D.faults disk.old) }
{
    disk.read(at, into)?;
    Ok(())
}

/// Syncs, and reads the byte at a place.
pub(crate) fn look<D: Disk>(disk: &mut D, at: u64) -> Result<u8, Failed>
    requires { at + 1 ≤ D.shown disk.old }
    ensures byte { IfOk result
        (λ byte. IfSome (D.gives disk.old) (λ file. byte ≡ slice_index file at)) }
    ensures durable { OnOk result (IsTrue (D.tells_images disk.old)
        → IfSome (D.gives disk.new) (λ file. Only file (D.may_leave disk.new))) }
    ensures file { D.gives disk.new ≡ D.gives disk.old }
    ensures shown { D.shown disk.new ≡ D.shown disk.old }
    ensures tells { D.tells_images disk.new ≡ D.tells_images disk.old }
    ensures crash { IsTrue (D.tells_images disk.old) → (image : List ℕ) → D.may_leave disk.new image
        → D.may_leave disk.old image }
    ensures any_moment { IsTrue (D.tells_images disk.old)
        → LeavesOnly D.Disk disk.old disk.new (D.may_leave disk.old) }
    ensures room { D.room disk.new ≡ D.room disk.old }
    ensures in_room { IsRoomy (D.room disk.old) 0 → IsOk result }
    ensures cause { HasCause (D.faults disk.old) (D.faults disk.new) result }
    ensures still { OnOk result (D.faults disk.new ≡ D.faults disk.old) }
{
    let mut byte = [0];
    disk.sync()?;
    read_whole(disk, at, &mut byte)?;
    Ok(byte[0])
}

/// Syncs, and asks for the length.
pub(crate) fn synced_len<D: Disk>(disk: &mut D) -> Result<u64, Failed>
    ensures length { IfOk result
        (λ n. (D.shown disk.new ≡ n) × IfSome (D.gives disk.old) (λ file. n ≡ length file)) }
    ensures durable { OnOk result (IsTrue (D.tells_images disk.old)
        → IfSome (D.gives disk.new) (λ file. Only file (D.may_leave disk.new))) }
    ensures quiet { IsQuiet D.Disk disk.old disk.new }
    ensures in_room { IsRoomy (D.room disk.old) 0 → IsOk result }
    ensures cause { HasCause (D.faults disk.old) (D.faults disk.new) result }
    ensures still { OnOk result (D.faults disk.new ≡ D.faults disk.old) }
{
    disk.sync()?;
    disk.len()
}
