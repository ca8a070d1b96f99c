ghost use Rattle.std.specs.Prelude.{◌≡◌, ◌+◌, ◌^◌, ◌<◌, ◌≤◌, ℕ, length, take, drop, min, slice_index, vec_len, IfOk, IfSome, IsOk, IsTrue, OnOk};
ghost use Rattle.ht_outside.specs.Causes.{HasCause};
ghost use Rattle.ht_journal.specs.Pieces.{IsPiece};
ghost use Rattle.ht_journal.specs.Quiet.{IsQuiet};
ghost use Rattle.ht_journal.specs.Rooms.{IsRoomy};

use crate::Reader;
use crate::device::read_whole;
use crate::state::FIRST_GATE;
use ht_outside::{Disk, Failed};
use std::alloc::{AllocError, Global};

const PIECE: usize = 65_536;

/// This many zeros.
pub(crate) fn zeros(alloc: Global, n: usize) -> Result<Vec<u8>, AllocError>
    ensures { IfOk result (λ v. vec_len v ≡ n) }
{
    vec![in alloc; 0; n]
}

impl Reader {
    /// A reader before the first gate that has read nothing.
    pub(crate) fn new(alloc: Global) -> Result<Reader, AllocError>
        ensures { IfOk result
            (λ reader. (reader.held ≡ 0) × (reader.gate ≡ 8) × (reader.passed ≡ 0)) }
    {
        Ok(Reader {
            bytes: zeros(alloc, PIECE)?,
            from: 0,
            held: 0,
            gate: FIRST_GATE,
            passed: 0,
        })
    }

    // Reads a piece from a place on.
    fn fill<D: Disk>(&mut self, disk: &mut D, at: u64) -> Result<(), Failed>
        requires { at ≤ 2 ^ 32 }
        ensures held { OnOk result
            ((self.new.from ≡ at) × (min (D.shown disk.old) (at + 65536) ≤ at + self.new.held)) }
        ensures piece { IfSome (D.gives disk.old) (IsPiece self.new) }
        ensures gate { (self.new.gate ≡ self.old.gate) × (self.new.passed ≡ self.old.passed) }
        ensures quiet { IsQuiet D.Disk disk.old disk.new }
        ensures shown { D.shown disk.new ≡ D.shown disk.old }
        ensures in_room { IsRoomy (D.room disk.old) 0 → IsOk result }
        ensures cause { HasCause (D.faults disk.old) (D.faults disk.new) result }
        ensures still { OnOk result (D.faults disk.new ≡ D.faults disk.old) }
    {
        self.held = 0;
        let held = disk.read(at, &mut self.bytes)?;
        self.from = at;
        self.held = held;
        Ok(())
    }

    // Sees to it that the piece has these bytes.
    fn hold<D: Disk>(&mut self, disk: &mut D, at: u64, len: usize) -> Result<(), Failed>
        requires range { (at ≤ 2 ^ 32) × (len ≤ 65536) × (at + len ≤ D.shown disk.old) }
        requires piece { IfSome (D.gives disk.old) (IsPiece self.old) }
        ensures held { OnOk result
            ((self.new.from ≤ at) × (at + len ≤ self.new.from + self.new.held)) }
        ensures piece { IfSome (D.gives disk.old) (IsPiece self.new) }
        ensures gate { (self.new.gate ≡ self.old.gate) × (self.new.passed ≡ self.old.passed) }
        ensures quiet { IsQuiet D.Disk disk.old disk.new }
        ensures shown { D.shown disk.new ≡ D.shown disk.old }
        ensures in_room { IsRoomy (D.room disk.old) 0 → IsOk result }
        ensures cause { HasCause (D.faults disk.old) (D.faults disk.new) result }
        ensures still { OnOk result (D.faults disk.new ≡ D.faults disk.old) }
    {
        if at < self.from || at - self.from + len as u64 > self.held as u64 {
            return self.fill(disk, at);
        }
        Ok(())
    }

    /// Reads as many bytes as `into` takes, few of them through a piece of 65,536 bytes. The disk has
    /// shown that they are there.
    pub(crate) fn read<D: Disk>(
        &mut self,
        disk: &mut D,
        at: u64,
        into: &mut [u8],
    ) -> Result<(), Failed>
        requires range { (at ≤ 2 ^ 32) × (at + length into.old ≤ D.shown disk.old) }
        requires piece { IfSome (D.gives disk.old) (IsPiece self.old) }
        ensures bytes { OnOk result
            (IfSome (D.gives disk.old) (λ file. into.new ≡ take (length into.new) (drop at file))) }
        ensures small { (i : ℕ) → slice_index into.new i < 256 }
        ensures piece { IfSome (D.gives disk.old) (IsPiece self.new) }
        ensures gate { (self.new.gate ≡ self.old.gate) × (self.new.passed ≡ self.old.passed) }
        ensures quiet { IsQuiet D.Disk disk.old disk.new }
        ensures shown { D.shown disk.new ≡ D.shown disk.old }
        ensures in_room { IsRoomy (D.room disk.old) 0 → IsOk result }
        ensures cause { HasCause (D.faults disk.old) (D.faults disk.new) result }
        ensures still { OnOk result (D.faults disk.new ≡ D.faults disk.old) }
    {
        if into.len() > PIECE {
            return read_whole(disk, at, into);
        }
        self.hold(disk, at, into.len())?;
        let start = (at - self.from) as usize;
        into.copy_from_slice(&self.bytes[start..start + into.len()]);
        Ok(())
    }
}
