//! What a crash leaves of a disk in memory, from its record of calls.
ghost use Rattle.std.specs.Prelude.{◌≡◌, ◌≤◌, ℕ, List, length, take, replicate, IfOk, OnOk};
ghost use Rattle.ht_outside.specs.DiskHistory.{stand};
ghost use Rattle.ht_outside.specs.Replays.{IsCutAt, marked, marked_by, replayed};

use crate::disk_call::DiskCall;
use crate::file_bytes::lay_over;
use ht_base::Memory;
use std::alloc::Global;

/// The contents as last synced.
pub(crate) fn synced_of(alloc: Global, bytes: &[u8], calls: &[DiskCall]) -> Result<Vec<u8>, Memory>
    ensures { IfOk result (λ file. file.items ≡ (stand bytes.now calls.now).synced) }
{
    let mut file = Vec::from_slice(alloc, bytes)?;
    let (before, _since) = calls.split_at(last_sync(calls));
    replay(&mut file, before)?;
    Ok(file)
}

/// The contents as last synced, in which each byte that was written since, or that lies past the
/// old end up to the present one, holds 1.
pub(crate) fn marked_of(alloc: Global, bytes: &[u8], calls: &[DiskCall]) -> Result<Vec<u8>, Memory>
    ensures { IfOk result (λ file.
        file.items ≡ marked (stand bytes.now calls.now).synced
        (stand bytes.now calls.now).patches) }
{
    let mut file = synced_of(alloc, bytes, calls)?;
    let (_before, since) = calls.split_at(last_sync(calls));
    mark(alloc, &mut file, since)?;
    Ok(file)
}

// How many calls there are up to the last sync.
fn last_sync(calls: &[DiskCall]) -> usize
    ensures within { result ≤ length calls.now }
    ensures cut { (bytes : List ℕ) → IsCutAt bytes calls.now result }
{
    let mut place = calls.len();
    while place > 0 {
        if let DiskCall::Sync = calls[place - 1] {
            return place;
        }
        place -= 1;
    }
    0
}

// Writes again what these calls wrote.
fn replay(file: &mut Vec<u8>, calls: &[DiskCall]) -> Result<(), Memory>
    ensures { OnOk result (file.new.items ≡ replayed file.old.items calls.now) }
{
    for call in calls {
        if let DiskCall::Write(patch) = call {
            lay_over(file, 0, patch.at(), patch.piece())?;
        }
    }
    Ok(())
}

// Writes 1 in place of each byte that these calls wrote.
fn mark(alloc: Global, file: &mut Vec<u8>, calls: &[DiskCall]) -> Result<(), Memory>
    ensures { OnOk result (file.new.items ≡ marked_by file.old.items calls.now) }
{
    for call in calls {
        if let DiskCall::Write(patch) = call {
            let ones = ones(alloc, patch.piece().len())?;
            lay_over(file, 1, patch.at(), &ones)?;
        }
    }
    Ok(())
}

fn ones(alloc: Global, count: usize) -> Result<Vec<u8>, Memory>
    ensures { IfOk result (λ bytes. bytes.items ≡ replicate count 1) }
{
    Ok(vec![in alloc; 1; count]?)
}
