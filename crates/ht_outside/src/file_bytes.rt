ghost use Rattle.std.specs.Prelude.{◌≡◌, ◌+◌, ◌-◌, ◌^◌, ◌<◌, ◌≤◌, ◌++◌, length, min, take, drop, vec_capacity, IsOk, OnErr, OnOk};
ghost use Rattle.ht_outside.specs.Disks.{laid_over, padded};

use ht_base::Memory;

/// Lays a piece over the bytes of a file from `at` on, with a filler between the file's end and the
/// piece. It takes no memory where the capacity suffices.
pub(crate) fn lay_over(file: &mut Vec<u8>, filler: u8, at: u64, piece: &[u8]) -> Result<(), Memory>
    ensures ok { OnOk result (file.new.items ≡ laid_over filler at piece.now file.old.items) }
    ensures err { OnErr result (file.new.items ≡ file.old.items) }
    ensures end { OnOk result (at + length piece.now < 2 ^ 64) }
    ensures room { at + length piece.now ≤ vec_capacity file.old → IsOk result }
    ensures capacity { vec_capacity file.old ≤ vec_capacity file.new }
{
    let at = at as usize;
    let Some(end) = at.checked_add(piece.len()) else {
        return Err(Memory);
    };
    file.reserve(end.saturating_sub(file.len()))?;
    pad(file, filler, at)?;
    let within = piece.len().min(file.len() - at);
    overwrite(file, at, &piece[..within]);
    file.extend_from_slice(&piece[within..])?;
    Ok(())
}

// Puts a filler behind the bytes, as far as a place.
fn pad(file: &mut Vec<u8>, filler: u8, at: usize) -> Result<(), Memory>
    ensures ok { OnOk result (file.new.items ≡ padded filler at file.old.items) }
    ensures err { OnErr result (file.new.items ≡ file.old.items) }
    ensures room { at ≤ vec_capacity file.old → IsOk result }
    ensures capacity { vec_capacity file.old ≤ vec_capacity file.new }
{
    if file.len() < at {
        file.resize(at, filler)?;
    }
    Ok(())
}

// Copies a piece over bytes that are there.
fn overwrite(file: &mut [u8], at: usize, piece: &[u8])
    requires { at + length piece.now ≤ length file.old }
    ensures { file.new ≡ take at file.old ++ piece.now ++ drop (at + length piece.now) file.old }
{
    file[at..at + piece.len()].copy_from_slice(piece);
}

/// Copies as many bytes as there are, from `at` on, and answers how many.
pub(crate) fn read_from(file: &[u8], at: u64, into: &mut [u8]) -> usize
    ensures count { result ≡ min (length into.old) (length file.now - at) }
    ensures copied { take result into.new ≡ take result (drop at file.now) }
{
    let at = at as usize;
    let count = file.len().saturating_sub(at).min(into.len());
    if count > 0 {
        into[..count].copy_from_slice(&file[at..at + count]);
    }
    count
}
