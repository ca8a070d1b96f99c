ghost use Rattle.std.specs.Prelude.{◌≡◌, ◌+◌, ◌-◌, ◌<◌, ◌≤◌, ℕ, false, min, length, take, drop, slice_index, Ok, Some, None, IfOk, OnErr, OnOk, ⊤, is_err, nat_lt};
ghost use Rattle.ht_outside.specs.Causes.{HasCause};
ghost use Rattle.ht_outside.specs.Disks.{Torn};
ghost use Rattle.ht_outside.specs.Rooms.{IsRoomWrite, empty_room};

use crate::file_bytes::{lay_over, read_from};
use crate::{Disk, Failed};
use ht_base::Memory;
use std::alloc::Global;
use std::marker::Model;

/// A disk in memory with room for so many bytes. It takes its memory when it is made and none
/// afterwards, and fails only where a write's end is past its room.
#[derive(Drop)]
pub struct RoomDisk {
    file: Vec<u8>,
    room: u64,
    shown: u64,
    faults: u64,
}

impl Model for RoomDisk {
    ghost use Rattle.std.specs.Prelude.{◌≤◌, length, vec_capacity};
    ghost use Rattle.ht_outside.specs.Rooms.{RoomOf};

    ghost Value = { RoomOf };

    ghost view = { λ d. record { file = d.file.items; room = d.room; shown = d.shown; faults = d.faults } };

    ghost invariant = { λ d. (d.room ≤ vec_capacity d.file) × (d.shown ≤ length d.file.items) };
}

impl RoomDisk {
    /// An empty disk with room for this many bytes.
    pub fn make(alloc: Global, room: u64) -> Result<RoomDisk, Memory>
        ensures { IfOk result (λ disk. disk ≡ empty_room room) }
    {
        Ok(RoomDisk {
            file: Vec::with_capacity(alloc, room as usize)?,
            room,
            shown: 0,
            faults: 0,
        })
    }
}

fn is_past(room: u64, at: u64, count: usize) -> bool
    ensures { result ≡ nat_lt room (at + count) }
{
    match at.checked_add(count as u64) {
        Some(end) => room < end,
        None => true,
    }
}

impl Disk for RoomDisk {
    ghost use Rattle.ht_outside.specs.Untold.{untold};

    ghost gives = { λ d. Some d.file };

    ghost shown = { λ d. d.shown };

    ghost room = { λ d. Some d.room };

    ghost tells_images = { λ _. false };

    ghost may_leave = { λ _ _. ⊤ };

    ghost moment = { λ _. 0 };

    ghost left_since = { λ _ _ _. ⊤ };

    ghost faults = { λ d. d.faults };

    ghost now_is = { λ _ told. untold told };

    ghost counts_now = { λ _ _ _ _ _ _. tt };

    ghost only_now = { λ _ _ _ _. tt };

    ghost images_are_bytes = { λ _ _ told _. untold told };

    ghost past_are_bytes = { λ _ _ _ told _. untold told };

    fn attach(&mut self, _name: &str) -> Result<(), Failed>
        ensures ok { result ≡ Ok tt }
        ensures done { self.new ≡ record self.old { shown = 0 } }
    {
        self.shown = 0;
        Ok(())
    }

    fn len(&mut self) -> Result<u64, Failed>
        ensures length { result ≡ Ok (length self.old.file) }
        ensures done { self.new ≡ record self.old { shown = length self.old.file } }
    {
        self.shown = self.file.len() as u64;
        Ok(self.shown)
    }

    fn read(&mut self, at: u64, into: &mut [u8]) -> Result<usize, Failed>
        ensures count { result ≡ Ok (min (length into.new) (length self.old.file - at)) }
        ensures bytes { IfOk result (λ n. take n into.new ≡ take n (drop at self.old.file)) }
        ensures small { (k : ℕ) → slice_index into.new k < 256 }
        ensures within { self.old.shown ≤ length self.old.file }
        ensures same { self.new ≡ self.old }
    {
        Ok(read_from(&self.file, at, into))
    }

    fn write_at(&mut self, at: u64, piece: &[u8]) -> Result<(), Failed>
        ensures fails { is_err result ≡ nat_lt self.old.room (at + length piece.now) }
        ensures done { IsRoomWrite self.old self.new at piece.now result }
        ensures torn { OnErr result (Torn at (length piece.now) self.old.file self.new.file) }
        ensures cause { HasCause self.old.faults self.new.faults result }
        ensures still { OnOk result (self.new.faults ≡ self.old.faults) }
    {
        if is_past(self.room, at, piece.len()) || lay_over(&mut self.file, 0, at, piece).is_err() {
            self.faults = self.faults.saturating_add(1);
            return Err(Failed);
        }
        self.shown = self.shown.max(at + piece.len() as u64);
        Ok(())
    }

    fn sync(&mut self) -> Result<(), Failed>
        ensures ok { result ≡ Ok tt }
        ensures same { self.new ≡ self.old }
    {
        Ok(())
    }
}
