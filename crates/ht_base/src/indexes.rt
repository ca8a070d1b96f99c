ghost use Rattle.std.specs.Prelude.{◌≡◌, ℕ, IfOk, IfErr, OnOk};
ghost use Rattle.std.specs.BTreeMap.{get};
ghost use Rattle.std.specs.Ordering.{is_eq};
ghost use Rattle.ht_base.specs.Indexes.{IsIndex, IsIndexBy};
ghost use Rattle.ht_base.specs.Places.{IsLeast, IsRepeated};

use crate::Name;
use std::alloc::{AllocError, AllocFailed, Global};
use std::cmp::Ordering;
use std::collections::BTreeMap;
use thiserror::Error;

/// What an index can be made over: values that are the same where they are equal in order.
pub trait Key: Ord + Copy + Drop {
    ghost use Rattle.std.specs.Prelude.{◌≡◌};
    ghost use Rattle.std.specs.declared.cmp.Ordering.TheVariants.{Equal};

    ghost exact: { (a b : Self) → Self.Ord.cmp a b ≡ Equal → a ≡ b };
}

impl Key for Name {
    ghost use Rattle.std.proofs.lemmas.Map.Lookups.{exact_bytes};

    ghost exact = { exact_bytes };
}

/// Why there is no index.
#[derive(Clone, Copy, Debug, PartialEq, Eq, Error)]
pub enum IndexFault {
    /// The key at this place stands at an earlier one too. It is the first such.
    #[error("the key at {0} stands twice")]
    Repeated(usize),
    #[error("out of memory")]
    Memory,
}

impl From<AllocError> for IndexFault {
    ghost use Rattle.std.specs.Prelude.{◌≡◌};
    ghost use Rattle.ht_base.specs.declared.indexes.IndexFault.TheVariants.{Memory};

    ghost from_gives = { λ _ fault. fault ≡ Memory };

    fn from(_error: AllocError) -> IndexFault {
        IndexFault::Memory
    }
}

impl<T: Drop> From<AllocFailed<T>> for IndexFault {
    ghost use Rattle.std.specs.Prelude.{◌≡◌};
    ghost use Rattle.ht_base.specs.declared.indexes.IndexFault.TheVariants.{Memory};

    ghost from_gives = { λ _ fault. fault ≡ Memory };

    fn from(_error: AllocFailed<T>) -> IndexFault {
        IndexFault::Memory
    }
}

/// The place of each key, or the first key that stands twice.
pub fn index<K: Key>(alloc: Global, keys: &[K]) -> Result<BTreeMap<K, usize>, IndexFault>
    ensures ok { IfOk result (λ places. IsIndexBy K.cmp places keys.now) }
    ensures distinct { OnOk result ((place : ℕ) → IsRepeated keys.now place → ⊥) }
    ensures repeated { IfErr result (λ fault.
        (place : ℕ) → fault ≡ IndexFault.Repeated place → IsLeast (IsRepeated keys.now) place) }
{
    let mut places = BTreeMap::new(alloc);
    for (place, key) in keys.iter().enumerate() {
        if places.insert(*key, place)?.is_some() {
            return Err(IndexFault::Repeated(place));
        }
    }
    Ok(places)
}

/// The place of each name, or the first name that stands twice.
pub fn name_places(alloc: Global, names: &[Name]) -> Result<BTreeMap<Name, usize>, IndexFault>
    ensures ok { IfOk result (λ places. IsIndex places names.now) }
    ensures distinct { OnOk result ((place : ℕ) → IsRepeated names.now place → ⊥) }
    ensures repeated { IfErr result (λ fault.
        (place : ℕ) → fault ≡ IndexFault.Repeated place → IsLeast (IsRepeated names.now) place) }
{
    index(alloc, names)
}
