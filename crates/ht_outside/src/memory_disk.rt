ghost use Rattle.std.specs.Prelude.{◌≡◌, ◌+◌, ◌-◌, ◌^◌, ◌<◌, ◌≤◌, ◌==◌, ◌++◌, ◌∷◌, [], ◌||◌, ℕ, List, true, max, min, length, take, drop, slice_index, Some, None, IfOk, IsErr, OnOk, OnErr, MatchResult, is_err};
ghost use Rattle.std.specs.List.{list_any};
ghost use Rattle.ht_outside.specs.Causes.{HasCause, next_count};
ghost use Rattle.ht_outside.specs.Disks.{Elapses, Follows, Holds, KeepsEachImage, MakesEachImage, Only, Torn, all_bytes, written};
ghost use Rattle.ht_outside.specs.CrashModel.{IsImage};
ghost use Rattle.ht_outside.specs.DiskHistory.{LeftSince};
ghost use Rattle.ht_outside.specs.MemoryDisks.{IsPicked, IsSyncOf, IsWriteOf, disk_of, done_call, earlier, failed_call, given_by, holds_bytes, is_from, is_to_fail, stands};
ghost use Rattle.ht_outside.specs.Replays.{picked};

use crate::crash_images::{marked_of, synced_of};
use crate::disk_call::{DiskCall, Patch};
use crate::file_bytes::{lay_over, read_from};
use crate::memory_source::is_among;
use crate::{Disk, Failed};
use ht_base::{Bytes, Memory};
use std::alloc::Global;
use std::marker::Model;

/// A disk in memory, whose calls fail where a test asks for it and where there is no memory. A
/// failed call changes nothing that a read gives. It keeps a record of its calls, so it tells what
/// a crash leaves at every moment.
#[derive(Drop)]
pub struct MemoryDisk {
    alloc: Global,
    bytes: Bytes,
    file: Vec<u8>,
    calls: Vec<DiskCall>,
    shown: u64,
    failing: Vec<u32>,
    stopped: Option<u32>,
    asked: u64,
    faults: u64,
}

impl Model for MemoryDisk {
    ghost use Rattle.std.specs.Prelude.{◌≡◌, ◌≤◌, length, true};
    ghost use Rattle.ht_outside.specs.MemoryDisks.{ScriptedDisk, holds_bytes};
    ghost use Rattle.ht_outside.specs.CrashModel.{present};
    ghost use Rattle.ht_outside.specs.DiskHistory.{stand};

    ghost Value = { ScriptedDisk };

    ghost view = { λ d. record { bytes = d.bytes.items; calls = d.calls.items; shown = d.shown; failing = d.failing.items; stopped = d.stopped; asked = d.asked; faults = d.faults } };

    ghost invariant = { λ d. (d.file.items ≡ present (stand d.bytes.items d.calls.items)) × (d.shown ≤ length d.file.items) × (holds_bytes d.bytes.items d.calls.items ≡ true) };
}

impl MemoryDisk {
    /// A disk of these bytes, as last synced. `failing` has the numbers, counted from 1, of its
    /// calls that fail.
    pub fn make(alloc: Global, bytes: Bytes, failing: Vec<u32>) -> Result<MemoryDisk, Memory>
        ensures made { IfOk result (λ disk. disk ≡ disk_of bytes.items failing.items) }
        ensures told { IfOk result (λ disk. holds_bytes disk.bytes disk.calls ≡ true) }
    {
        let file = copied(alloc, bytes.as_slice())?;
        Ok(MemoryDisk {
            alloc,
            bytes,
            file,
            calls: Vec::new(alloc),
            shown: 0,
            failing,
            stopped: None,
            asked: 0,
            faults: 0,
        })
    }

    /// Lets this call and all later ones fail. Calls are counted from 1.
    pub fn stop(&mut self, call: u32)
        ensures { self.new ≡ record self.old { stopped = Some (earlier self.old.stopped call) } }
    {
        self.stopped = match self.stopped {
            Some(stopped) => Some(stopped.min(call)),
            None => Some(call),
        };
    }

    /// A disk with a file that a crash now may leave, as last synced, whose calls don't fail. Pick 0
    /// is the contents as last synced. Pick 1 is what a read gives. Pick 2 is the contents as last
    /// synced, in which each byte that was written since, or that lies past the old end up to the
    /// present one, holds 1.
    pub fn crash(&self, pick: u8) -> Result<MemoryDisk, Memory>
        requires { pick ≤ 2 }
        ensures made { IfOk result (λ disk. disk ≡ disk_of (given_by disk) []) }
        ensures pick { IfOk result (λ disk. IsPicked pick (stands self.now) (given_by disk)) }
        ensures image { IfOk result (λ disk. IsImage (stands self.now) (given_by disk)) }
        ensures told { IfOk result (λ disk. holds_bytes disk.bytes disk.calls ≡ true) }
    {
        let image = self.image_by(pick)?;
        MemoryDisk::make(self.alloc, image, Vec::new(self.alloc))
    }

    fn image_by(&self, pick: u8) -> Result<Bytes, Memory>
        ensures image { IfOk result (λ image. image.items ≡ picked pick (stands self.now)) }
        ensures told { holds_bytes self.now.bytes self.now.calls ≡ true }
    {
        let image = match pick {
            0 => synced_of(self.alloc, self.bytes.as_slice(), &self.calls)?,
            1 => Vec::from_slice(self.alloc, &self.file)?,
            _ => marked_of(self.alloc, self.bytes.as_slice(), &self.calls)?,
        };
        let mut bytes = Bytes::new(self.alloc);
        bytes.give_back(image);
        Ok(bytes)
    }

    // Writes, and notes the call.
    fn store(&mut self, at: u64, piece: &[u8]) -> Result<(), Failed>
        ensures fails { is_to_fail self.old ≡ true → IsErr result }
        ensures done { IsWriteOf self.old self.new at piece.now result }
        ensures told { holds_bytes self.old.bytes self.old.calls ≡ true }
        ensures tells { holds_bytes self.new.bytes self.new.calls
            ≡ holds_bytes self.old.bytes self.old.calls }
        ensures cause { HasCause self.old.faults self.new.faults result }
        ensures still { OnOk result (self.new.faults ≡ self.old.faults) }
    {
        pass(
            &mut self.asked,
            &mut self.faults,
            &self.failing,
            self.stopped,
        )?;
        match write(self.alloc, &mut self.file, &mut self.calls, at, piece) {
            Ok(()) => {
                self.shown = self.shown.max(at + piece.len() as u64);
                Ok(())
            }
            Err(_) => {
                self.faults = self.faults.saturating_add(1);
                Err(Failed)
            }
        }
    }

    // Notes a sync.
    fn note_sync(&mut self) -> Result<(), Failed>
        ensures fails { is_to_fail self.old ≡ true → IsErr result }
        ensures done { IsSyncOf self.old self.new result }
        ensures told { holds_bytes self.old.bytes self.old.calls ≡ true }
        ensures tells { holds_bytes self.new.bytes self.new.calls
            ≡ holds_bytes self.old.bytes self.old.calls }
        ensures cause { HasCause self.old.faults self.new.faults result }
        ensures still { OnOk result (self.new.faults ≡ self.old.faults) }
    {
        pass(
            &mut self.asked,
            &mut self.faults,
            &self.failing,
            self.stopped,
        )?;
        match push_sync(&mut self.calls) {
            Ok(()) => Ok(()),
            Err(_) => {
                self.faults = self.faults.saturating_add(1);
                Err(Failed)
            }
        }
    }
}

// A copy of these bytes.
fn copied(alloc: Global, bytes: &[u8]) -> Result<Vec<u8>, Memory>
    ensures copy { IfOk result (λ file. file.items ≡ bytes.now) }
    ensures bytes { IfOk result (λ _. all_bytes bytes.now ≡ true) }
{
    Ok(Vec::from_slice(alloc, bytes)?)
}

// Counts a call, and lets it fail where a test asks for it.
fn pass(
    asked: &mut u64,
    faults: &mut u64,
    failing: &[u32],
    stopped: Option<u32>,
) -> Result<(), Failed>
    ensures asked { asked.new ≡ next_count asked.old }
    ensures fails { is_err result ≡ (list_any (λ n. n == next_count asked.old) failing.now
        || is_from stopped (next_count asked.old)) }
    ensures ok { OnOk result (faults.new ≡ faults.old) }
    ensures err { OnErr result (faults.new ≡ next_count faults.old) }
{
    *asked = asked.saturating_add(1);
    if is_among(*asked, failing) || is_stopped(stopped, *asked) {
        *faults = faults.saturating_add(1);
        return Err(Failed);
    }
    Ok(())
}

fn is_stopped(stopped: Option<u32>, call: u64) -> bool
    ensures { result ≡ is_from stopped call }
{
    match stopped {
        Some(first) => call >= u64::from(first),
        None => false,
    }
}

// Writes, and notes the call. It does both or nothing.
fn write(
    alloc: Global,
    file: &mut Vec<u8>,
    calls: &mut Vec<DiskCall>,
    at: u64,
    piece: &[u8],
) -> Result<(), Memory>
    ensures file { OnOk result (file.new.items ≡ written at piece.now file.old.items) }
    ensures calls { OnOk result (calls.new.items
        ≡ calls.old.items ++ DiskCall.Write (record { at = at; piece = piece.now }) ∷ []) }
    ensures end { OnOk result (at + length piece.now < 2 ^ 64) }
    ensures same_file { OnErr result (file.new.items ≡ file.old.items) }
    ensures same_calls { OnErr result (calls.new.items ≡ calls.old.items) }
{
    let patch = Patch::of(alloc, at, piece)?;
    calls.reserve(1)?;
    lay_over(file, 0, at, piece)?;
    calls.push_reserved(DiskCall::Write(patch));
    Ok(())
}

fn push_sync(calls: &mut Vec<DiskCall>) -> Result<(), Memory>
    ensures ok { OnOk result (calls.new.items ≡ calls.old.items ++ DiskCall.Sync ∷ []) }
    ensures err { OnErr result (calls.new.items ≡ calls.old.items) }
{
    calls.push(DiskCall::Sync)?;
    Ok(())
}

impl Disk for MemoryDisk {
    ghost use Rattle.ht_outside.specs.ImageLaws.{now_is, counts_now, image_is_bytes, past_is_bytes, only_now};

    ghost gives = { λ d. Some (given_by d) };

    ghost shown = { λ d. d.shown };

    ghost room = { λ _. None };

    ghost tells_images = { λ d. holds_bytes d.bytes d.calls };

    ghost may_leave = { λ d. IsImage (stands d) };

    ghost moment = { λ d. length d.calls };

    ghost left_since = { λ d. LeftSince d.bytes d.calls };

    ghost faults = { λ d. d.faults };

    ghost now_is = { λ d told. now_is d.bytes d.calls told };

    ghost counts_now = { λ d t image _ le now. counts_now d.bytes d.calls t image le now };

    ghost only_now = { λ d image _ left. only_now d.bytes d.calls image left };

    ghost images_are_bytes = { λ d image _ left. image_is_bytes (stands d) image left };

    ghost past_are_bytes = { λ d t image _ left. past_is_bytes d.bytes d.calls t image left };

    fn attach(&mut self, _name: &str) -> Result<(), Failed>
        ensures fails { is_err result ≡ is_to_fail self.old }
        ensures told { holds_bytes self.old.bytes self.old.calls ≡ true }
        ensures done { MatchResult result (λ _. self.new ≡ done_call self.old 0 self.old.calls)
            (λ _. self.new ≡ record (failed_call self.old) { shown = 0 }) }
        ensures cause { HasCause self.old.faults self.new.faults result }
        ensures still { OnOk result (self.new.faults ≡ self.old.faults) }
    {
        self.shown = 0;
        pass(
            &mut self.asked,
            &mut self.faults,
            &self.failing,
            self.stopped,
        )
    }

    fn len(&mut self) -> Result<u64, Failed>
        ensures fails { is_err result ≡ is_to_fail self.old }
        ensures told { holds_bytes self.old.bytes self.old.calls ≡ true }
        ensures length { IfOk result (λ n. n ≡ length (given_by self.old)) }
        ensures done { MatchResult result (λ n. self.new ≡ done_call self.old n self.old.calls)
            (λ _. self.new ≡ failed_call self.old) }
        ensures cause { HasCause self.old.faults self.new.faults result }
        ensures still { OnOk result (self.new.faults ≡ self.old.faults) }
    {
        pass(
            &mut self.asked,
            &mut self.faults,
            &self.failing,
            self.stopped,
        )?;
        self.shown = self.file.len() as u64;
        Ok(self.shown)
    }

    fn read(&mut self, at: u64, into: &mut [u8]) -> Result<usize, Failed>
        ensures fails { is_err result ≡ is_to_fail self.old }
        ensures told { holds_bytes self.old.bytes self.old.calls ≡ true }
        ensures count { IfOk result
            (λ n. n ≡ min (length into.new) (length (given_by self.old) - at)) }
        ensures bytes { IfOk result (λ n. take n into.new ≡ take n (drop at (given_by self.old))) }
        ensures small { (k : ℕ) → slice_index into.new k < 256 }
        ensures within { self.old.shown ≤ length (given_by self.old) }
        ensures done { MatchResult result
            (λ _. self.new ≡ done_call self.old self.old.shown self.old.calls)
            (λ _. self.new ≡ failed_call self.old) }
        ensures cause { HasCause self.old.faults self.new.faults result }
        ensures still { OnOk result (self.new.faults ≡ self.old.faults) }
    {
        pass(
            &mut self.asked,
            &mut self.faults,
            &self.failing,
            self.stopped,
        )?;
        Ok(read_from(&self.file, at, into))
    }

    fn write_at(&mut self, at: u64, piece: &[u8]) -> Result<(), Failed>
        ensures fails { is_to_fail self.old ≡ true → IsErr result }
        ensures done { IsWriteOf self.old self.new at piece.now result }
        ensures told { holds_bytes self.old.bytes self.old.calls ≡ true }
        ensures tells { holds_bytes self.new.bytes self.new.calls
            ≡ holds_bytes self.old.bytes self.old.calls }
        ensures written { OnOk result (Holds at piece.now (given_by self.old) (given_by self.new)) }
        ensures torn { OnErr result
            (Torn at (length piece.now) (given_by self.old) (given_by self.new)) }
        ensures crash { Follows (Torn at (length piece.now)) (IsImage (stands self.old))
            (IsImage (stands self.new)) }
        ensures each { KeepsEachImage true (IsImage (stands self.old))
            (IsImage (stands self.new)) }
        ensures makes { OnOk result (MakesEachImage (Torn at (length piece.now))
            (holds_bytes self.old.bytes self.old.calls) (IsImage (stands self.old))
            (IsImage (stands self.new))) }
        ensures time { Elapses (length self.old.calls) (length self.new.calls)
            (LeftSince self.old.bytes self.old.calls) (LeftSince self.new.bytes self.new.calls)
            (IsImage (stands self.new)) }
        ensures cause { HasCause self.old.faults self.new.faults result }
        ensures still { OnOk result (self.new.faults ≡ self.old.faults) }
    {
        self.store(at, piece)
    }

    fn sync(&mut self) -> Result<(), Failed>
        ensures fails { is_to_fail self.old ≡ true → IsErr result }
        ensures done { IsSyncOf self.old self.new result }
        ensures told { holds_bytes self.old.bytes self.old.calls ≡ true }
        ensures tells { holds_bytes self.new.bytes self.new.calls
            ≡ holds_bytes self.old.bytes self.old.calls }
        ensures durable { OnOk result (Only (given_by self.old) (IsImage (stands self.new))) }
        ensures file { given_by self.new ≡ given_by self.old }
        ensures crash { (image : List ℕ) → IsImage (stands self.new) image
            → IsImage (stands self.old) image }
        ensures each { OnErr result (KeepsEachImage true (IsImage (stands self.old))
            (IsImage (stands self.new))) }
        ensures time { Elapses (length self.old.calls) (length self.new.calls)
            (LeftSince self.old.bytes self.old.calls) (LeftSince self.new.bytes self.new.calls)
            (IsImage (stands self.new)) }
        ensures cause { HasCause self.old.faults self.new.faults result }
        ensures still { OnOk result (self.new.faults ≡ self.old.faults) }
    {
        self.note_sync()
    }
}
