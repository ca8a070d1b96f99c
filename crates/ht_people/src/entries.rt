ghost use Rattle.std.specs.Prelude.{◌≡◌, ◌<◌, ◌^◌, IfErr, IfOk, None, Some, length, map};
ghost use Rattle.toml.specs.View.{table_view, view};
ghost use Rattle.ht_toml.specs.Refusals.{Passes, refused};
ghost use Rattle.ht_people.specs.PeopleText as spec;
ghost use Rattle.ht_people.specs.PeopleText.{HasShapeFault, IsMisshapen};

use crate::PeopleRefusal;
use ht_base::{Key, Name};
use ht_toml::{
    EntriesFault, Misfit, Named, Shape, TableShape, array_at, each, entries_at, has_only,
    otherwise, required, table_shape,
};
use std::alloc::{AllocError, Global};
use std::marker::Model;
use toml::{Table, Value};

/// A person of the people text.
#[derive(Clone, Copy)]
pub struct PersonEntry {
    pub name: Name,
    /// Whether the person operates the server.
    pub operator: bool,
}

impl Named for PersonEntry {
    ghost name_of = { λ p. p.name };

    fn name(&self) -> Name {
        self.name
    }
}

/// A member of a group, by the name that is written.
#[derive(Clone, Copy, Debug, PartialEq, Eq, PartialOrd, Ord)]
pub enum MemberName {
    Person(Name),
    Group(Name),
}

impl Key for MemberName {
    ghost use Rattle.std.specs.Prelude.{ℕ, List};
    ghost use Rattle.std.proofs.Common.{ap};
    ghost use Rattle.std.proofs.lemmas.Map.Lookups.{exact_bytes};
    ghost use Rattle.ht_people.specs.declared.entries.MemberName.TheVariants.{Person, Group};

    ghost exact = { elim [
      | Person m ↦ elim [ Person n ↦ λ e. ap (λ (l : List ℕ). Person l) (exact_bytes m n e) | Group n ↦ λ e. cc ]
      | Group m ↦ elim [ Person n ↦ λ e. cc | Group n ↦ λ e. ap (λ (l : List ℕ). Group l) (exact_bytes m n e) ]
    ] };
}

/// A group of the people text.
#[derive(Drop)]
pub(crate) struct GroupEntry {
    pub(crate) name: Name,
    pub(crate) members: Vec<MemberName>,
}

impl Model for GroupEntry {
    ghost use Rattle.ht_people.specs.PeopleText.{GroupText};

    ghost Value = { GroupText };

    ghost view = { λ g. record { name = g.name; members = g.members.items } };
}

impl Named for GroupEntry {
    ghost name_of = { λ g. g.name };

    fn name(&self) -> Name {
        self.name
    }
}

/// What a people text says, entry by entry.
#[derive(Drop)]
pub(crate) struct PeopleText {
    pub(crate) persons: Vec<PersonEntry>,
    pub(crate) groups: Vec<GroupEntry>,
}

impl Model for PeopleText {
    ghost use Rattle.ht_people.specs.PeopleText.{PeopleTextOf};

    ghost Value = { PeopleTextOf };

    ghost view = { λ t. record { persons = t.persons.items; groups = t.groups.items } };
}

/// The entries of a document, or the first that has another shape.
pub(crate) fn people_text(alloc: Global, document: &Table) -> Result<PeopleText, PeopleRefusal>
    ensures ok { IfOk result (λ text. spec.text_of (table_view document.now) ≡ Some text) }
    ensures passes { Passes PeopleRefusal.Memory
        (refused PeopleRefusal.Field (IsMisshapen (table_view document.now))) result }
{
    if !has_only(document, &["person", "group"]) {
        return Err(PeopleRefusal::Field(0));
    }
    let Some(persons) = entries_at(document, "person") else {
        return Err(PeopleRefusal::Field(0));
    };
    let Some(groups) = entries_at(document, "group") else {
        return Err(PeopleRefusal::Field(0));
    };
    entries_text(alloc, persons, groups)
}

fn entries_text(
    alloc: Global,
    persons: &[Value],
    groups: &[Value],
) -> Result<PeopleText, PeopleRefusal>
    requires persons { length persons.now < 2 ^ 63 }
    requires groups { length groups.now < 2 ^ 63 }
    ensures ok { IfOk result
        (λ text. spec.read_entries (map view persons.now) (map view groups.now) ≡ Some text) }
    ensures passes { Passes PeopleRefusal.Memory
        (refused PeopleRefusal.Field (HasShapeFault (map view persons.now) (map view groups.now)))
        result }
{
    let count = persons.len();
    let persons = match each(alloc, persons) {
        Ok(persons) => persons,
        Err(EntriesFault::Misshapen(place)) => return Err(PeopleRefusal::Field(place)),
        Err(EntriesFault::Memory) => return Err(PeopleRefusal::Memory),
    };
    match each(alloc, groups) {
        Ok(groups) => Ok(PeopleText { persons, groups }),
        Err(EntriesFault::Misshapen(place)) => Err(PeopleRefusal::Field(count + place)),
        Err(EntriesFault::Memory) => Err(PeopleRefusal::Memory),
    }
}

impl Shape for PersonEntry {
    ghost use Rattle.ht_people.specs.PeopleText.{person_of};

    ghost of = { person_of };

    fn read(alloc: Global, value: &Value) -> Result<Option<PersonEntry>, AllocError> {
        table_shape(alloc, value)
    }
}

impl TableShape for PersonEntry {
    ghost use Rattle.ht_people.specs.PeopleText.{person_in};

    ghost in_table = { person_in };

    fn read_table(alloc: Global, table: &Table) -> Result<PersonEntry, Misfit> {
        if !has_only(table, &["name", "operator"]) {
            return Err(Misfit::Shape);
        }
        Ok(PersonEntry {
            name: required(alloc, table, "name")?,
            operator: otherwise(alloc, table, "operator", false)?,
        })
    }
}

impl Shape for GroupEntry {
    ghost use Rattle.ht_people.specs.PeopleText.{group_of};

    ghost of = { group_of };

    fn read(alloc: Global, value: &Value) -> Result<Option<GroupEntry>, AllocError> {
        table_shape(alloc, value)
    }
}

impl TableShape for GroupEntry {
    ghost use Rattle.ht_people.specs.PeopleText.{group_in};

    ghost in_table = { group_in };

    fn read_table(alloc: Global, table: &Table) -> Result<GroupEntry, Misfit> {
        if !has_only(table, &["name", "members"]) {
            return Err(Misfit::Shape);
        }
        Ok(GroupEntry {
            name: required(alloc, table, "name")?,
            members: members_in(alloc, table)?,
        })
    }
}

fn members_in(alloc: Global, table: &Table) -> Result<Vec<MemberName>, Misfit>
    ensures ok { IfOk result
        (λ members. spec.members_in (table_view table.now) ≡ Some members.items) }
    ensures misfit { IfErr result
        (λ e. e ≡ Misfit.Shape → spec.members_in (table_view table.now) ≡ None) }
{
    let Some(members) = array_at(table, "members") else {
        return Err(Misfit::Shape);
    };
    match each(alloc, members) {
        Ok(members) => Ok(members),
        Err(EntriesFault::Misshapen(_)) => Err(Misfit::Shape),
        Err(EntriesFault::Memory) => Err(Misfit::Memory),
    }
}

impl Shape for MemberName {
    ghost use Rattle.ht_people.specs.PeopleText.{member_of};

    ghost of = { member_of };

    fn read(_alloc: Global, value: &Value) -> Result<Option<MemberName>, AllocError> {
        match value.as_str() {
            Some(text) => Ok(member_of_text(text.as_bytes())),
            None => Ok(None),
        }
    }
}

fn member_of_text(text: &[u8]) -> Option<MemberName>
    ensures { result ≡ spec.member_of_text text.now }
{
    if let Some((first, rest)) = text.split_first() {
        if *first == b'@' {
            return Some(MemberName::Group(Name::of(rest)?));
        }
    }
    Some(MemberName::Person(Name::of(text)?))
}
