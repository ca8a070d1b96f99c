ghost use Rattle.std.specs.Prelude.{◌≡◌, ◌<◌, Some, length, slice_get};
ghost use Rattle.ht_graph.specs.Graphs.{IsClosed, IsInCycle};
ghost use Rattle.ht_toml.specs.Refusals.{Passes, refused};
ghost use Rattle.ht_people.specs.Directory.{members_at, places};
ghost use Rattle.ht_people.specs.Refusals.{IsTooMuch};

use crate::PeopleRefusal;
use crate::entries::PersonEntry;
use crate::groups::Group;
use ht_base::{LONGEST_CHAIN, MOST_GROUPS, MOST_PERSONS};
use ht_graph::{Graph, first_cycle, is_deeper};
use std::alloc::Global;
use std::marker::Model;

/// Persons and groups. Each has a place, persons first, and a group leads to its members.
#[derive(Drop)]
pub(crate) struct People {
    pub(crate) persons: Vec<PersonEntry>,
    pub(crate) groups: Vec<Group>,
}

impl Model for People {
    ghost use Rattle.ht_people.specs.Directory.{DirectoryOf};

    ghost Value = { DirectoryOf };

    ghost view = { λ d. record { persons = d.persons.items; groups = d.groups.items } };
}

impl People {
    pub(crate) fn person_count(&self) -> usize
        ensures { result ≡ length self.now.persons }
    {
        self.persons.len()
    }

    pub(crate) fn person(&self, place: usize) -> &PersonEntry
        requires { place < length self.now.persons }
        ensures { slice_get self.now.persons place ≡ Some result.now }
    {
        &self.persons[place]
    }

    pub(crate) fn group_count(&self) -> usize
        ensures { result ≡ length self.now.groups }
    {
        self.groups.len()
    }
}

impl Graph for People {
    ghost use Rattle.ht_people.specs.Directory.{members_at, places};

    ghost count = { places };

    ghost next = { members_at };

    fn count(&self) -> usize {
        self.persons.len() + self.groups.len()
    }

    fn next(&self, place: usize) -> &[usize] {
        if place < self.persons.len() {
            return &[];
        }
        match self.groups.get(place - self.persons.len()) {
            Some(group) => &group.members,
            None => &[],
        }
    }
}

/// Refuses memberships that lead back to where they began.
pub(crate) fn check_cycles(alloc: Global, people: &People) -> Result<(), PeopleRefusal>
    requires { IsClosed (places people.now) (members_at people.now) }
    ensures { Passes PeopleRefusal.Memory
        (refused PeopleRefusal.Cycle (IsInCycle (members_at people.now))) result }
{
    match first_cycle(alloc, people)? {
        Some(place) => Err(PeopleRefusal::Cycle(place)),
        None => Ok(()),
    }
}

/// Refuses too many persons or groups, and chains that are too long.
pub(crate) fn check_limits(alloc: Global, people: &People) -> Result<(), PeopleRefusal>
    requires { IsClosed (places people.now) (members_at people.now) }
    ensures { Passes PeopleRefusal.Memory
        (refused (λ _. PeopleRefusal.Limit) (λ _. IsTooMuch people.now)) result }
{
    if people.person_count() > MOST_PERSONS || people.group_count() > MOST_GROUPS {
        return Err(PeopleRefusal::Limit);
    }
    if is_deeper(alloc, people, LONGEST_CHAIN)? {
        return Err(PeopleRefusal::Limit);
    }
    Ok(())
}
