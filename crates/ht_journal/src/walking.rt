ghost use Rattle.std.specs.Prelude.{◌≡◌, ◌+◌, ◌^◌, ◌<◌, ◌≤◌, ℕ, List, length, max, IfOk, IfSome, IsOk, OnOk};
ghost use Rattle.ht_outside.specs.Causes.{HasCause};
ghost use Rattle.ht_journal.specs.Bodies.{HasFront, IsBehind};
ghost use Rattle.ht_journal.specs.Files.{Fit, front};
ghost use Rattle.ht_journal.specs.Pieces.{IsPiece, IsRead};
ghost use Rattle.ht_journal.specs.Quiet.{IsQuiet};
ghost use Rattle.ht_journal.specs.Rooms.{IsRoomy};

use crate::Reader;
use crate::limits::LONGEST_BODY;
use crate::state::FIRST_GATE;
use ht_outside::{Disk, Failed};

/// Where the body behind the reader's gate begins, and how long it is. The closed gate stands at
/// `end`: what somebody else may have written into the file since is cut there.
pub(crate) fn frame_behind<D: Disk>(
    reader: &mut Reader,
    disk: &mut D,
    end: u64,
) -> Result<(u64, u32), Failed>
    requires range { (reader.old.gate ≤ end) × (end ≤ 2 ^ 32) × (end ≤ D.shown disk.old) }
    requires piece { IfSome (D.gives disk.old) (IsPiece reader.old) }
    ensures within { IfOk result (λ r. (r.0 + r.1 ≤ end) × (r.1 ≤ LONGEST_BODY)) }
    ensures behind { IfOk result
        (λ r. IfSome (D.gives disk.old) (IsBehind reader.old.gate end r.0 r.1)) }
    ensures piece { IfSome (D.gives disk.old) (IsPiece reader.new) }
    ensures gate { (reader.new.gate ≡ reader.old.gate) × (reader.new.passed ≡ reader.old.passed) }
    ensures quiet { IsQuiet D.Disk disk.old disk.new }
    ensures shown { D.shown disk.new ≡ D.shown disk.old }
    ensures in_room { IsRoomy (D.room disk.old) 0 → IsOk result }
    ensures cause { HasCause (D.faults disk.old) (D.faults disk.new) result }
    ensures still { OnOk result (D.faults disk.new ≡ D.faults disk.old) }
{
    let gate = reader.gate;
    if end - gate < 5 {
        return Ok((end, 0));
    }
    let at = gate + 5;
    let mut bytes = [0; 4];
    reader.read(disk, gate + 1, &mut bytes)?;
    let n = u32::from_le_bytes(bytes).min(LONGEST_BODY);
    if u64::from(n) > end - at {
        return Ok((at, 0));
    }
    Ok((at, n))
}

/// Goes back to the first gate, where the nth body is passed already.
pub(crate) fn back(reader: &mut Reader, n: u32)
    requires { 1 ≤ n }
    ensures before { reader.new.passed + 1 ≤ n }
    ensures no_further { (reader.new.passed ≤ reader.old.passed)
        × (reader.new.gate ≤ max 8 reader.old.gate) }
    ensures read { (bodies : List (List ℕ)) (file : List ℕ) → IsRead bodies reader.old file
        → IsRead bodies reader.new file }
{
    if n <= reader.passed {
        reader.gate = FIRST_GATE;
        reader.passed = 0;
    }
}

/// Goes on from gate to gate until so many bodies are passed.
pub(crate) fn pass<D: Disk>(
    reader: &mut Reader,
    disk: &mut D,
    wanted: u32,
    end: u64,
) -> Result<(), Failed>
    requires range { (reader.old.gate ≤ end) × (end ≤ 2 ^ 32) × (end ≤ D.shown disk.old) }
    requires before { reader.old.passed ≤ wanted }
    requires piece { IfSome (D.gives disk.old) (IsPiece reader.old) }
    ensures passed { (reader.new.passed ≤ wanted) × OnOk result (reader.new.passed ≡ wanted) }
    ensures within { reader.new.gate ≤ end }
    ensures read { (bodies : List (List ℕ)) → Fit bodies → end ≡ length (front bodies)
        → wanted ≤ length bodies → IfSome (D.gives disk.old) (HasFront bodies)
        → IfSome (D.gives disk.old) (IsRead bodies reader.old)
        → IfSome (D.gives disk.old) (IsRead bodies reader.new) }
    ensures piece { IfSome (D.gives disk.old) (IsPiece reader.new) }
    ensures quiet { IsQuiet D.Disk disk.old disk.new }
    ensures shown { D.shown disk.new ≡ D.shown disk.old }
    ensures in_room { IsRoomy (D.room disk.old) 0 → IsOk result }
    ensures cause { HasCause (D.faults disk.old) (D.faults disk.new) result }
    ensures still { OnOk result (D.faults disk.new ≡ D.faults disk.old) }
{
    'gates: while reader.passed < wanted {
        let (at, n) = frame_behind(reader, disk, end)?;
        reader.gate = at + u64::from(n);
        reader.passed += 1;
    }
    Ok(())
}
