ghost use Rattle.std.specs.Prelude.{◌≡◌, ◌<◌, ℕ, IfOk, IfErr, IfSome, IfNone, OnOk, length, map};
ghost use Rattle.ht_people.specs.Directory.{group_names, person_names};
ghost use Rattle.ht_base.specs.Indexes.{IsIndex};
ghost use Rattle.ht_base.specs.Places.{IsLeast, IsRepeated};
ghost use Rattle.ht_people.specs.Indexes.{ArePlaces};
ghost use Rattle.ht_toml.specs.Refusals.{Passes, refused};
ghost use Rattle.ht_people.specs.Refusals.{HasTwiceMember, IsTwice, IsTwiceGroup};

use crate::PeopleRefusal;
use crate::entries::{GroupEntry, PeopleText, PersonEntry};
use ht_base::{IndexFault, Name, index, name_places};
use ht_toml::names_of;
use std::alloc::{AllocError, Global};
use std::collections::BTreeMap;

/// Where each name stands among the persons, and where among the groups.
#[derive(Drop)]
pub(crate) struct Places {
    pub(crate) persons: BTreeMap<Name, usize>,
    pub(crate) groups: BTreeMap<Name, usize>,
}

/// The places of a text's names, or the first entry that stands twice.
pub(crate) fn places_of(alloc: Global, text: &PeopleText) -> Result<Places, PeopleRefusal>
    ensures ok { IfOk result
        (λ places. ArePlaces places (person_names text.now) (group_names text.now)) }
    ensures passes { Passes PeopleRefusal.Memory (refused PeopleRefusal.Twice (IsTwice text.now))
        result }
{
    let persons = match person_places(alloc, &text.persons) {
        Ok(persons) => persons,
        Err(IndexFault::Repeated(place)) => return Err(PeopleRefusal::Twice(place)),
        Err(IndexFault::Memory) => return Err(PeopleRefusal::Memory),
    };
    match group_places(alloc, &text.groups) {
        Ok(groups) => Ok(Places { persons, groups }),
        Err(IndexFault::Repeated(i)) => Err(PeopleRefusal::Twice(text.persons.len() + i)),
        Err(IndexFault::Memory) => Err(PeopleRefusal::Memory),
    }
}

fn person_places(
    alloc: Global,
    persons: &[PersonEntry],
) -> Result<BTreeMap<Name, usize>, IndexFault>
    ensures ok { IfOk result (λ places. IsIndex places (map (λ p. p.name) persons.now)) }
    ensures distinct { OnOk result
        ((place : ℕ) → IsRepeated (map (λ p. p.name) persons.now) place → ⊥) }
    ensures repeated { IfErr result (λ fault.
        (place : ℕ) → fault ≡ IndexFault.Repeated place
        → IsLeast (IsRepeated (map (λ p. p.name) persons.now)) place) }
{
    let names = names_of(alloc, persons)?;
    name_places(alloc, &names)
}

// The places of the groups, of which none may have a member twice.
fn group_places(alloc: Global, groups: &[GroupEntry]) -> Result<BTreeMap<Name, usize>, IndexFault>
    ensures ok { IfOk result (λ places. IsIndex places (map (λ g. g.name) groups.now)) }
    ensures distinct { OnOk result ((place : ℕ) → IsTwiceGroup groups.now place → ⊥) }
    ensures repeated { IfErr result (λ fault.
        (place : ℕ) → fault ≡ IndexFault.Repeated place → IsLeast (IsTwiceGroup groups.now) place) }
    ensures within { IfErr result
        (λ fault. (place : ℕ) → fault ≡ IndexFault.Repeated place → place < length groups.now) }
{
    let names = names_of(alloc, groups)?;
    match name_places(alloc, &names) {
        Ok(places) => match first_twice_member(alloc, groups)? {
            Some(place) => Err(IndexFault::Repeated(place)),
            None => Ok(places),
        },
        Err(IndexFault::Repeated(place)) => match first_twice_member(alloc, &groups[..place])? {
            Some(earlier) => Err(IndexFault::Repeated(earlier)),
            None => Err(IndexFault::Repeated(place)),
        },
        Err(IndexFault::Memory) => Err(IndexFault::Memory),
    }
}

// The first group in which a member stands twice.
fn first_twice_member(alloc: Global, groups: &[GroupEntry]) -> Result<Option<usize>, AllocError>
    ensures found { IfOk result (λ place. IfSome place (IsLeast (HasTwiceMember groups.now))) }
    ensures none { IfOk result (λ place. IfNone place ((i : ℕ) → HasTwiceMember groups.now i → ⊥)) }
{
    for (place, group) in groups.iter().enumerate() {
        match index(alloc, &group.members) {
            Ok(_) => {}
            Err(IndexFault::Repeated(_)) => return Ok(Some(place)),
            Err(IndexFault::Memory) => return Err(AllocError),
        }
    }
    Ok(None)
}
