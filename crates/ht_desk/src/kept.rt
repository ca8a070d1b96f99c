ghost use Rattle.std.specs.Prelude.{◌≡◌, ◌≢◌, ◌⊎◌, ◌+◌, ◌^◌, ◌≤◌, IfErr, IfOk, false, length, true};
ghost use Rattle.ht_base.specs.Records.{record_of};
ghost use Rattle.ht_codec.specs.Records.{IsRecord, Spells, place_of};
ghost use Rattle.ht_desk.specs.Opening.{IsNoRecord, damage_of};

use crate::OpenFault;
use ht_base::Record;
use ht_codec::{CodecRefusal, read, refusals_stand_inside};
use ht_journal::Body;
use std::alloc::Global;

/// The record of a body.
// Part of its callers, for which it would be moved once more.
#[inline(always)]
pub(crate) fn record_of(alloc: Global, body: &Body) -> Result<Record, OpenFault>
    requires bounds { body.now.at + length body.now.bytes.items ≤ 2 ^ 32 }
    ensures found { IfOk result
        (λ r. Spells (record_of r) body.now.bytes.items × IsRecord (record_of r)) }
    ensures refused { IfErr result (λ fault.
        (fault ≡ OpenFault.Memory) ⊎ IsNoRecord body.now.at body.now.bytes.items fault) }
{
    refusals_stand_inside();
    match read(alloc, body.bytes.as_slice()) {
        Ok(kept) => Ok(kept),
        Err(why) => Err(damage(body.at, why)),
    }
}

// Where a body that begins at this place is no record.
fn damage(at: u64, why: CodecRefusal) -> OpenFault
    requires { at + place_of why ≤ 2 ^ 32 }
    ensures { result ≡ damage_of at why }
{
    match why {
        CodecRefusal::Short(n)
        | CodecRefusal::Tag(n)
        | CodecRefusal::Range(n)
        | CodecRefusal::Trailing(n) => OpenFault::Damaged(at + n),
        CodecRefusal::Memory => OpenFault::Memory,
    }
}

/// Whether these bytes are the same.
pub(crate) fn are_equal(one: &[u8], other: &[u8]) -> bool
    ensures same { result ≡ true → other.now ≡ one.now }
    ensures apart { result ≡ false → other.now ≢ one.now }
{
    one == other
}
