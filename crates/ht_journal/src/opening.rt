ghost use Rattle.std.specs.Prelude.{◌≡◌, ◌≢◌, ◌+◌, ◌^◌, ◌<◌, ◌≤◌, ◌⊎◌, ◌++◌, ℕ, List, [], length, take, drop, bytes_eq, min, vec_len, Ok, Err, None, IfOk, IfErr, IfSome, IsOk, IsTrue, OnErr, OnOk};
ghost use Rattle.ht_outside.specs.Causes.{HasCause};
ghost use Rattle.ht_outside.specs.Disks.{Both, Only};
ghost use Rattle.ht_outside.specs.Moments.{LeavesOnly};
ghost use Rattle.ht_journal.specs.Files.{Fit, Rests, bodies_from, contents, front, header};
ghost use Rattle.ht_journal.specs.Opening.{StandsAt};
ghost use Rattle.ht_journal.specs.Openings.{IsBegun, IsOpened, IsRefused, IsTornBeginning, Opens};
ghost use Rattle.ht_journal.specs.Pieces.{IsPiece};
ghost use Rattle.ht_journal.specs.Quiet.{IsQuiet};
ghost use Rattle.ht_journal.specs.Reasons.{IsFault};
ghost use Rattle.ht_journal.specs.Rooms.{IsRoomy};

use crate::device::{stored, synced_len};
use crate::limits::LONGEST_BODY;
use crate::reading::zeros;
use crate::state::FIRST_GATE;
use crate::{JournalFault, JournalState, Reader};
use ht_outside::{Disk, Failed};
use std::alloc::{AllocError, Global};

// How far gates are looked at.
const REACH: u64 = 1 << 32;

const HEADER: [u8; 8] = [0x48, 0x54, 0x4a, 0x31, 0x0d, 0x0a, 0x1a, 0x0a];

// The header and a closed gate.
const BEGINNING: [u8; 9] = [0x48, 0x54, 0x4a, 0x31, 0x0d, 0x0a, 0x1a, 0x0a, 0];

// Reads the gate at a place, and where it is open the length behind it.
fn frame_at<D: Disk>(
    reader: &mut Reader,
    disk: &mut D,
    gate: u64,
    end: u64,
) -> Result<Option<u32>, JournalFault>
    requires range { (gate < end) × (end ≤ 2 ^ 32) × (end ≤ D.shown disk.old) }
    requires told { IfSome (D.gives disk.old) (λ file. end ≡ min (length file) (2 ^ 32)) }
    requires piece { IfSome (D.gives disk.old) (IsPiece reader.old) }
    ensures stands { IfOk result
        (λ found. IfSome (D.gives disk.old) (λ file. StandsAt gate file found)) }
    ensures whole { IfOk result
        (λ found. IfSome found (λ n. (n ≤ LONGEST_BODY) × (gate + 5 + n < end))) }
    ensures fault { IfErr result (IsFault (λ at.
        (at ≡ gate)
        × IfSome (D.gives disk.old) (λ file. bodies_from gate 0 (drop gate file) ≡ Err gate))
        (D.faults disk.old) (D.faults disk.new)) }
    ensures piece { IfSome (D.gives disk.old) (IsPiece reader.new) }
    ensures gate { (reader.new.gate ≡ reader.old.gate) × (reader.new.passed ≡ reader.old.passed) }
    ensures quiet { IsQuiet D.Disk disk.old disk.new }
    ensures shown { D.shown disk.new ≡ D.shown disk.old }
    ensures in_room { IsRoomy (D.room disk.old) 0 → result ≢ Err JournalFault.Store }
    ensures faults { D.faults disk.old ≤ D.faults disk.new }
    ensures still { OnOk result (D.faults disk.new ≡ D.faults disk.old) }
{
    let mut byte = [0];
    reader.read(disk, gate, &mut byte)?;
    if byte[0] != 1 {
        return Ok(None);
    }
    if end - gate <= 5 {
        return Err(JournalFault::Damaged(gate));
    }
    let mut bytes = [0; 4];
    reader.read(disk, gate + 1, &mut bytes)?;
    let n = u32::from_le_bytes(bytes);
    if n > LONGEST_BODY {
        return Err(JournalFault::Damaged(gate));
    }
    if end - gate - 5 <= u64::from(n) {
        return Err(JournalFault::Damaged(gate));
    }
    Ok(Some(n))
}

// The place of the closed gate and the number of bodies before it.
fn scan<D: Disk>(reader: &mut Reader, disk: &mut D, end: u64) -> Result<(u64, u32), JournalFault>
    requires range { (9 < end) × (end ≤ 2 ^ 32) × (end ≤ D.shown disk.old) }
    requires told { IfSome (D.gives disk.old) (λ file. end ≡ min (length file) (2 ^ 32)) }
    requires headed { IfSome (D.gives disk.old) (λ file. file ≡ header ++ drop 8 file) }
    requires piece { IfSome (D.gives disk.old) (IsPiece reader.old) }
    ensures found { IfOk result (λ r.
        (bodies : List (List ℕ)) × (r.1 ≡ length bodies) × (r.0 ≡ length (front bodies))
        × Fit bodies × IfSome (D.gives disk.old) (Rests bodies)) }
    ensures within { IfOk result (λ r. r.0 < end) }
    ensures fault { IfErr result (IsFault
        (λ at. IfSome (D.gives disk.old) (λ file. contents file ≡ Err at)) (D.faults disk.old)
        (D.faults disk.new)) }
    ensures gate { (reader.new.gate ≡ reader.old.gate) × (reader.new.passed ≡ reader.old.passed) }
    ensures quiet { IsQuiet D.Disk disk.old disk.new }
    ensures shown { D.shown disk.new ≡ D.shown disk.old }
    ensures in_room { IsRoomy (D.room disk.old) 0 → result ≢ Err JournalFault.Store }
    ensures faults { D.faults disk.old ≤ D.faults disk.new }
    ensures still { OnOk result (D.faults disk.new ≡ D.faults disk.old) }
{
    let mut gate = FIRST_GATE;
    let mut count: u32 = 0;
    'frames: loop {
        let Some(n) = frame_at(reader, disk, gate, end)? else {
            return Ok((gate, count));
        };
        gate += 5 + u64::from(n);
        count += 1;
    }
}

// Writes the header and a closed gate into a file that has no more bytes.
fn begin<D: Disk>(disk: &mut D) -> Result<(), Failed>
    requires short { IfSome (D.gives disk.old) (λ file. length file ≤ 9) }
    requires images { IsTrue (D.tells_images disk.old) → (image : List ℕ)
        → D.may_leave disk.old image → length image ≤ 9 }
    ensures file { OnOk result (IfSome (D.gives disk.new) (Rests [])) }
    ensures written { OnOk result (Both IsBegun (D.gives disk.old) (D.gives disk.new)) }
    ensures torn { OnErr result (Both IsTornBeginning (D.gives disk.old) (D.gives disk.new)) }
    ensures same { Both (λ file now. contents now ≡ contents file) (D.gives disk.old)
        (D.gives disk.new) }
    ensures durable { OnOk result (IsTrue (D.tells_images disk.old)
        → IfSome (D.gives disk.new) (λ file. Only file (D.may_leave disk.new))) }
    ensures shown { OnOk result (9 ≤ D.shown disk.new) }
    ensures any_moment { IsTrue (D.tells_images disk.old)
        → LeavesOnly D.Disk disk.old disk.new (λ image. contents image ≡ Ok []) }
    ensures tells { D.tells_images disk.new ≡ D.tells_images disk.old }
    ensures room { D.room disk.new ≡ D.room disk.old }
    ensures in_room { IsRoomy (D.room disk.old) 9 → IsOk result }
    ensures cause { HasCause (D.faults disk.old) (D.faults disk.new) result }
    ensures still { OnOk result (D.faults disk.new ≡ D.faults disk.old) }
{
    stored(disk, 0, &BEGINNING)
}

// Whether the header stands.
fn is_headed<D: Disk>(reader: &mut Reader, disk: &mut D) -> Result<bool, Failed>
    requires long { 8 ≤ D.shown disk.old }
    requires piece { IfSome (D.gives disk.old) (IsPiece reader.old) }
    ensures header { IfOk result
        (λ is. IfSome (D.gives disk.old) (λ file. is ≡ bytes_eq (take 8 file) header)) }
    ensures piece { IfSome (D.gives disk.old) (IsPiece reader.new) }
    ensures gate { (reader.new.gate ≡ reader.old.gate) × (reader.new.passed ≡ reader.old.passed) }
    ensures quiet { IsQuiet D.Disk disk.old disk.new }
    ensures shown { D.shown disk.new ≡ D.shown disk.old }
    ensures in_room { IsRoomy (D.room disk.old) 0 → IsOk result }
    ensures cause { HasCause (D.faults disk.old) (D.faults disk.new) result }
    ensures still { OnOk result (D.faults disk.new ≡ D.faults disk.old) }
{
    let mut bytes = [0; 8];
    reader.read(disk, 0, &mut bytes)?;
    Ok(bytes.as_slice() == HEADER.as_slice())
}

// The place of the closed gate and the number of bodies before it. A file of at most 9 bytes is
// begun.
fn find<D: Disk>(reader: &mut Reader, disk: &mut D) -> Result<(u64, u32), JournalFault>
    requires { reader.old.held ≡ 0 }
    ensures found { IfOk result (λ r.
        (bodies : List (List ℕ)) × (r.1 ≡ length bodies) × (r.0 ≡ length (front bodies))
        × Fit bodies × (r.0 + 1 ≤ D.shown disk.new) × IfSome (D.gives disk.new) (Rests bodies)
        × (IsTrue (D.tells_images disk.new) → (image : List ℕ) → D.may_leave disk.new image
        → Rests bodies image)
        × IfSome (D.gives disk.old) (λ file. contents file ≡ Ok bodies)) }
    ensures refused { IfErr result (IsRefused D.Disk disk.old disk.new) }
    ensures written { OnOk result (Both IsOpened (D.gives disk.old) (D.gives disk.new)) }
    ensures gate { (reader.new.gate ≡ reader.old.gate) × (reader.new.passed ≡ reader.old.passed) }
    ensures any_moment { IsTrue (D.tells_images disk.old)
        → LeavesOnly D.Disk disk.old disk.new (λ image.
        D.may_leave disk.old image
        ⊎ IfSome (D.gives disk.old) (λ file. contents image ≡ contents file)) }
    ensures same { Both (λ file now. contents now ≡ contents file) (D.gives disk.old)
        (D.gives disk.new) }
    ensures room { D.room disk.new ≡ D.room disk.old }
    ensures in_room { IsRoomy (D.room disk.old) 9 → result ≢ Err JournalFault.Store }
    ensures faults { D.faults disk.old ≤ D.faults disk.new }
    ensures still { OnOk result (D.faults disk.new ≡ D.faults disk.old) }
    ensures tells { D.tells_images disk.new ≡ D.tells_images disk.old }
{
    let length = synced_len(disk)?;
    if length <= 9 {
        begin(disk)?;
        return Ok((FIRST_GATE, 0));
    }
    if !is_headed(reader, disk)? {
        return Err(JournalFault::Damaged(0));
    }
    scan(reader, disk, length.min(REACH))
}

/// Opens the journal of a disk, which is to have at most `limit` bytes. A file of at most 9 bytes is
/// begun anew. Damage is told of the header first (0), then at the first open gate with no whole
/// frame behind it. The file is read in pieces of 64 KiB. Opening takes the memory that appending and
/// settling need.
pub fn open<D: Disk>(alloc: Global, disk: &mut D, limit: u64) -> Result<JournalState, JournalFault>
    requires { limit ≤ 2 ^ 32 }
    ensures { Opens D.Disk limit disk.old disk.new result }
{
    let buffer = zeros(alloc, LONGEST_BODY as usize + 5)?;
    let mut reader = Reader::new(alloc)?;
    let (gate, count) = find(&mut reader, disk)?;
    reader.held = 0;
    Ok(JournalState {
        buffer,
        reader,
        length: gate + 1,
        count,
        limit,
        doubt: None,
        ahead: None,
    })
}
