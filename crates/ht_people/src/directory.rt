ghost use Rattle.std.specs.Prelude.{◌≡◌, ◌<◌, ◌≤◌, false, IfOk, IfSome, Some, filter, length, map, slice_get, slice_index_or};
ghost use Rattle.std.specs.List.{range_with_len};
ghost use Rattle.ht_base.specs.declared.limits.TheConstants.{MOST_GROUPS, MOST_PERSONS};
ghost use Rattle.ht_people.specs.Directory as spec;
ghost use Rattle.ht_people.specs.Membership as membership;

use crate::people::People;
use crate::places::Places;
use ht_base::{Memory, Name, Person, Persons};
use ht_graph::{is_marked, reached_from};
use std::alloc::Global;
use std::marker::Model;

/// The persons and groups of an office: at most `MOST_PERSONS` persons, `MOST_GROUPS` groups, and chains of
/// at most `LONGEST_CHAIN` memberships.
#[derive(Drop)]
pub struct Directory {
    pub(crate) people: People,
    pub(crate) places: Places,
}

impl Model for Directory {
    ghost use Rattle.ht_people.specs.Directory.{DirectoryOf};

    ghost Value = { DirectoryOf };

    ghost use Rattle.ht_people.specs.Kept.{IsKept};

    ghost view = { λ d. d.people };

    ghost invariant = { IsKept };
}

impl Directory {
    /// The person with this name.
    pub fn find(&self, name: Name) -> Option<Person>
        ensures value { result ≡ spec.find name self.now }
        ensures within { IfSome result (λ person. person < length self.now.persons) }
    {
        match self.places.persons.get(&name) {
            Some(place) => Some(Person(*place as u32)),
            None => None,
        }
    }

    /// The person's name, by which `find` finds the person again.
    pub fn name(&self, person: Person) -> Name
        requires { person < length self.now.persons }
        ensures value { slice_get (map (λ p. p.name) self.now.persons) person ≡ Some result }
        ensures found { spec.find result self.now ≡ Some person }
    {
        self.people.person(person.0 as usize).name
    }

    /// Whether the person operates the server.
    pub fn operator(&self, person: Person) -> bool
        requires { person < length self.now.persons }
        ensures { slice_get (map (λ p. p.operator) self.now.persons) person ≡ Some result }
    {
        self.people.person(person.0 as usize).operator
    }

    /// How many persons there are, at most `MOST_PERSONS`.
    pub fn persons(&self) -> u32
        ensures value { result ≡ length self.now.persons }
        ensures few { result ≤ MOST_PERSONS }
    {
        self.people.person_count() as u32
    }

    /// How many groups there are, at most `MOST_GROUPS`.
    pub fn groups(&self) -> u32
        ensures value { result ≡ length self.now.groups }
        ensures few { result ≤ MOST_GROUPS }
    {
        self.people.group_count() as u32
    }

    /// The persons to whom memberships lead from the group with this name. An unknown group is
    /// empty.
    pub fn members(&self, alloc: Global, group: Name) -> Result<Persons, Memory>
        ensures { IfOk result (λ persons. persons ≡ membership.members self.now group) }
    {
        let Some(i) = self.places.groups.get(&group) else {
            return Ok(Persons::new(alloc));
        };
        let place = self.people.person_count() + *i;
        let reached = reached_from(alloc, &self.people, place)?;
        marked_persons(alloc, &reached, self.people.person_count())
    }
}

// The marked ones of this many persons.
fn marked_persons(alloc: Global, marks: &[bool], count: usize) -> Result<Persons, Memory>
    requires { count ≤ MOST_PERSONS }
    ensures { IfOk result (λ persons.
        persons ≡ filter (λ person. slice_index_or marks.now person false)
        (range_with_len 0 count)) }
{
    let mut persons = Persons::new(alloc);
    for person in 0..count {
        if is_marked(marks, person) {
            persons.push(Person(person as u32))?;
        }
    }
    Ok(persons)
}
