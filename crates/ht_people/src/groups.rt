ghost use Rattle.std.specs.Prelude.{◌≡◌, IfOk, None, Some, length, map};
ghost use Rattle.ht_people.specs.Directory as spec;
ghost use Rattle.ht_people.specs.Directory.{group_from, group_names, person_names};
ghost use Rattle.ht_people.specs.Indexes.{ArePlaces};
ghost use Rattle.ht_base.specs.Places.{Behind};
ghost use Rattle.ht_toml.specs.Refusals.{Passes, refused};
ghost use Rattle.ht_people.specs.Refusals.{HasUnknown, HasUnknownMember};

use crate::PeopleRefusal;
use crate::entries::{GroupEntry, MemberName, PeopleText};
use crate::places::Places;
use ht_base::Name;
use std::alloc::{AllocError, Global};
use std::marker::Model;

/// A group, and the places of its members: persons first, and then groups.
#[derive(Drop)]
pub(crate) struct Group {
    pub(crate) name: Name,
    pub(crate) members: Vec<usize>,
}

impl Model for Group {
    ghost use Rattle.ht_people.specs.Directory.{GroupOf};

    ghost Value = { GroupOf };

    ghost view = { λ g. record { name = g.name; members = g.members.items } };
}

/// The groups of a text with their members' places, or the first group with a member that isn't
/// known.
pub(crate) fn groups_of(
    alloc: Global,
    text: &PeopleText,
    places: &Places,
) -> Result<Vec<Group>, PeopleRefusal>
    requires { ArePlaces places.now (person_names text.now) (group_names text.now) }
    ensures ok { IfOk result (λ groups. groups.items ≡ map (group_from text.now) text.now.groups) }
    ensures passes { Passes PeopleRefusal.Memory (refused PeopleRefusal.UnknownMember
        (Behind (length text.now.persons) (HasUnknown text.now))) result }
{
    let mut groups = Vec::new(alloc);
    for (i, entry) in text.groups.iter().enumerate() {
        match group_of(alloc, text, places, entry)? {
            Some(group) => groups.push(group)?,
            None => return Err(PeopleRefusal::UnknownMember(text.persons.len() + i)),
        }
    }
    Ok(groups)
}

// A group with its members' places, if all of them are known.
fn group_of(
    alloc: Global,
    text: &PeopleText,
    places: &Places,
    entry: &GroupEntry,
) -> Result<Option<Group>, AllocError>
    requires { ArePlaces places.now (person_names text.now) (group_names text.now) }
    ensures some { IfOk result
        (λ group. (g : spec.GroupOf) → group ≡ Some g → g ≡ group_from text.now entry.now) }
    ensures known { IfOk result
        (λ group. (g : spec.GroupOf) → group ≡ Some g → HasUnknownMember text.now entry.now → ⊥) }
    ensures none { IfOk result (λ group. group ≡ None → HasUnknownMember text.now entry.now) }
{
    let mut members = Vec::new(alloc);
    for member in &entry.members {
        match place_of(text, places, member) {
            Some(place) => members.push(place)?,
            None => return Ok(None),
        }
    }
    Ok(Some(Group {
        name: entry.name,
        members,
    }))
}

fn place_of(text: &PeopleText, places: &Places, member: &MemberName) -> Option<usize>
    requires { ArePlaces places.now (person_names text.now) (group_names text.now) }
    ensures { result ≡ spec.place_of text.now member.now }
{
    match member {
        MemberName::Person(name) => places.persons.get(name).copied(),
        MemberName::Group(name) => match places.groups.get(name) {
            Some(i) => Some(text.persons.len() + *i),
            None => None,
        },
    }
}
