ghost use Rattle.std.specs.Prelude.{◌≡◌, true, IfOk, is_none};
ghost use Rattle.std.specs.BTreeMap.{get};
ghost use Rattle.std.specs.Cmp.Lexicographic.{slice_cmp};
ghost use Rattle.std.specs.List.{list_any};
ghost use Rattle.std.specs.Ordering.{nat_cmp};
ghost use Rattle.ht_base.specs.Indexes.{IsIndex};
ghost use Rattle.ht_base.specs.Places.{IsLeastIfAny};
ghost use Rattle.ht_toml.specs.Refusals.{Passes, refused};
ghost use Rattle.ht_models.specs.Refusals.{IsOne, IsTwice, NamesUnknownModel};
ghost use Rattle.ht_models.specs.Repeats as repeats;
ghost use Rattle.ht_models.specs.SubTrees as spec;

use crate::ModelsRefusal;
use crate::repeats::repeats_name;
use ht_base::{IndexFault, Memory, Name, name_places};
use ht_entries::ModelEntry;
use ht_toml::names_of;
use std::alloc::Global;
use std::collections::BTreeMap;

/// The place of each model by its name, or the first whose name an earlier one has or in which names
/// stand twice.
pub fn places_of(
    alloc: Global,
    entries: &[ModelEntry],
) -> Result<BTreeMap<Name, usize>, ModelsRefusal>
    ensures ok { IfOk result (λ places. IsIndex places (spec.names_of entries.now)) }
    ensures passes { Passes ModelsRefusal.Memory (refused ModelsRefusal.Twice (IsTwice entries.now))
        result }
{
    let names = names_of(alloc, entries)?;
    let inside = first_that_repeats(alloc, entries)?;
    match (name_places(alloc, &names), inside) {
        (Ok(places), None) => Ok(places),
        (Ok(_), Some(place)) => Err(ModelsRefusal::Twice(place)),
        (Err(IndexFault::Repeated(place)), None) => Err(ModelsRefusal::Twice(place)),
        (Err(IndexFault::Repeated(place)), Some(other)) => {
            Err(ModelsRefusal::Twice(place.min(other)))
        }
        (Err(IndexFault::Memory), _) => Err(ModelsRefusal::Memory),
    }
}

fn first_that_repeats(alloc: Global, entries: &[ModelEntry]) -> Result<Option<usize>, Memory>
    ensures { IfOk result
        (λ found. IsLeastIfAny (IsOne (λ m. repeats.repeats_name m ≡ true) entries.now) found) }
{
    for (place, entry) in entries.iter().enumerate() {
        if repeats_name(alloc, entry)? {
            return Ok(Some(place));
        }
    }
    Ok(None)
}

/// Refuses a model that names one which isn't in the text.
pub fn check_known(
    places: &BTreeMap<Name, usize>,
    entries: &[ModelEntry],
) -> Result<(), ModelsRefusal>
    requires { IsIndex places.now (spec.names_of entries.now) }
    ensures { Passes ModelsRefusal.Memory
        (refused ModelsRefusal.UnknownModel (NamesUnknownModel entries.now)) result }
{
    for (place, entry) in entries.iter().enumerate() {
        if names_unknown_model(places, entry) {
            return Err(ModelsRefusal::UnknownModel(place));
        }
    }
    Ok(())
}

fn names_unknown_model(places: &BTreeMap<Name, usize>, entry: &ModelEntry) -> bool
    ensures { result ≡ list_any (λ s. is_none (get (slice_cmp nat_cmp) places.now s.model))
        entry.now.subs }
{
    entry
        .subs
        .iter()
        .any(|sub| !places.contains_key(&sub.model))
}
