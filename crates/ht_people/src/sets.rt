ghost use Rattle.std.specs.Prelude.{◌≡◌, ◌&&◌, ◌||◌, ℕ, not, IfOk};
ghost use Rattle.ht_base.specs.Persons.{Ascends, has};
ghost use Rattle.ht_people.specs.Sets.{begins_with, keeps, least_head, without_head};

use ht_base::{Memory, Person, Persons};
use std::alloc::Global;

/// The persons who are in either set.
pub fn union(alloc: Global, a: &Persons, b: &Persons) -> Result<Persons, Memory>
    ensures set { IfOk result (λ set. (p : ℕ) → has p set ≡ (has p a.now || has p b.now)) }
    ensures ascends { IfOk result Ascends }
{
    merge(alloc, a, b, Keep::Either)
}

/// The persons who are in both sets.
pub fn intersect(alloc: Global, a: &Persons, b: &Persons) -> Result<Persons, Memory>
    ensures set { IfOk result (λ set. (p : ℕ) → has p set ≡ (has p a.now && has p b.now)) }
    ensures ascends { IfOk result Ascends }
{
    merge(alloc, a, b, Keep::Both)
}

/// The persons who are in the first set and not in the second.
pub fn except(alloc: Global, a: &Persons, b: &Persons) -> Result<Persons, Memory>
    ensures set { IfOk result (λ set. (p : ℕ) → has p set ≡ (has p a.now && not (has p b.now))) }
    ensures ascends { IfOk result Ascends }
{
    merge(alloc, a, b, Keep::FirstAlone)
}

/// Which persons of two sets go into a third.
#[derive(Clone, Copy)]
enum Keep {
    Either,
    Both,
    FirstAlone,
}

impl Keep {
    fn keeps(self, in_first: bool, in_second: bool) -> bool
        ensures { result ≡ keeps self in_first in_second }
    {
        match self {
            Keep::Either => in_first || in_second,
            Keep::Both => in_first && in_second,
            Keep::FirstAlone => in_first && !in_second,
        }
    }
}

// Goes through both sets at once, in ascending order.
fn merge(alloc: Global, first: &Persons, second: &Persons, keep: Keep) -> Result<Persons, Memory>
    ensures set { IfOk result
        (λ set. (p : ℕ) → has p set ≡ keeps keep (has p first.now) (has p second.now)) }
    ensures ascends { IfOk result Ascends }
{
    let mut first = first.as_slice();
    let mut second = second.as_slice();
    let mut merged = Persons::with_capacity(alloc, first.len())?;
    while let Some(person) = least_of(first, second) {
        let in_first = begins_with(first, person);
        let in_second = begins_with(second, person);
        if keep.keeps(in_first, in_second) {
            merged.push(person)?;
        }
        first = behind(first, person);
        second = behind(second, person);
    }
    Ok(merged)
}

// The lower of the two first persons.
fn least_of(first: &[Person], second: &[Person]) -> Option<Person>
    ensures { result ≡ least_head first.now second.now }
{
    match (first.first(), second.first()) {
        (Some(a), Some(b)) => Some((*a).min(*b)),
        (Some(a), None) => Some(*a),
        (None, Some(b)) => Some(*b),
        (None, None) => None,
    }
}

fn begins_with(persons: &[Person], person: Person) -> bool
    ensures { result ≡ begins_with person persons.now }
{
    persons.first() == Some(&person)
}

// What is left behind this person, where the list begins with it.
fn behind(persons: &[Person], person: Person) -> &[Person]
    ensures { result.now ≡ without_head person persons.now }
{
    match persons.split_first() {
        Some((first, rest)) => { if *first == person { rest } else { persons } }
        None => persons,
    }
}
