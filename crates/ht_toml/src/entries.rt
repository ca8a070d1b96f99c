ghost use Rattle.std.specs.Prelude.{◌≡◌, ◌<◌, ℕ, IfOk, IfErr, None, Option, Some, length, map};
ghost use Rattle.toml.specs.Data.{Data};
ghost use Rattle.toml.specs.View.{view};
ghost use Rattle.ht_toml.specs.Entries as spec;
ghost use Rattle.ht_toml.specs.Entries.{IsMisshapen};
ghost use Rattle.ht_toml.specs.Refusals.{Passes, refused};

use std::alloc::{AllocError, AllocFailed, Global};
use thiserror::Error;
use toml::Value;

/// What is read of a value that has a certain shape.
pub trait Shape: Sized + Drop {
    /// What a value of this shape says.
    ghost of: { Data → Option Self };

    fn read(alloc: Global, value: &Value) -> Result<Option<Self>, AllocError>
        ensures { IfOk result (λ entry. entry ≡ of (view value.now)) };
}

/// Why not every entry was read.
#[derive(Clone, Copy, Debug, PartialEq, Eq, Error)]
pub enum EntriesFault {
    /// The entry at this place, counted from 0, has another shape.
    #[error("entry {0} has another shape")]
    Misshapen(usize),
    #[error("out of memory")]
    Memory,
}

impl From<AllocError> for EntriesFault {
    ghost use Rattle.std.specs.Prelude.{◌≡◌};
    ghost use Rattle.ht_toml.specs.declared.entries.EntriesFault.TheVariants.{Memory};

    ghost from_gives = { λ _ fault. fault ≡ Memory };

    fn from(_error: AllocError) -> EntriesFault {
        EntriesFault::Memory
    }
}

impl<T: Drop> From<AllocFailed<T>> for EntriesFault {
    ghost use Rattle.std.specs.Prelude.{◌≡◌};
    ghost use Rattle.ht_toml.specs.declared.entries.EntriesFault.TheVariants.{Memory};

    ghost from_gives = { λ _ fault. fault ≡ Memory };

    fn from(_error: AllocFailed<T>) -> EntriesFault {
        EntriesFault::Memory
    }
}

/// Reads every entry of an array, or tells the first that has another shape.
pub fn each<E: Shape>(alloc: Global, values: &[Value]) -> Result<Vec<E>, EntriesFault>
    ensures all { IfOk result
        (λ entries. spec.each E.of (map view values.now) ≡ Some entries.items) }
    ensures passes { Passes EntriesFault.Memory
        (refused EntriesFault.Misshapen (IsMisshapen E.of (map view values.now))) result }
    ensures none { IfErr result (λ fault.
        (place : ℕ) → fault ≡ EntriesFault.Misshapen place
        → spec.each E.of (map view values.now) ≡ None) }
    ensures within { IfErr result
        (λ fault. (place : ℕ) → fault ≡ EntriesFault.Misshapen place → place < length values.now) }
{
    let mut entries = Vec::new(alloc);
    for (place, value) in values.iter().enumerate() {
        match E::read(alloc, value)? {
            Some(entry) => entries.push(entry)?,
            None => return Err(EntriesFault::Misshapen(place)),
        }
    }
    Ok(entries)
}
