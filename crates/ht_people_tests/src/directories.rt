use ht_base::{Name, Person, Persons};
use ht_people::Directory;
use ht_samples::PEOPLE;
use std::alloc::Global;
use std::test::Fail;

pub(crate) fn members_of(
    alloc: Global,
    directory: &Directory,
    group: &str,
) -> Result<Persons, Fail> {
    let name = Name::of(group.as_bytes()).ok_or("a name")?;
    Ok(directory.members(alloc, name)?)
}

// Whether these are the members of a group.
pub(crate) fn has_members(
    alloc: Global,
    directory: &Directory,
    group: &str,
    persons: &[Person],
) -> Result<bool, Fail> {
    let members = members_of(alloc, directory, group)?;
    Ok(members.as_slice() == persons)
}

// Whether a person has this name and this number, and is an operator or not.
fn is_person(directory: &Directory, text: &str, number: u32, operator: bool) -> bool {
    let Some(name) = Name::of(text.as_bytes()) else {
        return false;
    };
    match directory.find(name) {
        Some(person) => {
            person == Person(number)
                && directory.name(person) == name
                && directory.operator(person) == operator
        }
        None => false,
    }
}

// How many persons and groups a text has.
fn counts(alloc: Global, text: &[u8]) -> Result<(u32, u32), Fail> {
    let directory = Directory::read(alloc, text)?;
    Ok((directory.persons(), directory.groups()))
}

// Each person of the sample with its number, and whether it is an operator.
const SAMPLE: [(&str, u32, bool); 5] = [
    ("anna", 0, false),
    ("ben", 1, false),
    ("cora", 2, false),
    ("dan", 3, false),
    ("root", 4, true),
];

#[test]
fn the_sample_people_are_read(rt: HostRuntime) -> Result<(), Fail> {
    let directory = Directory::read(rt.alloc(), PEOPLE.as_bytes())?;
    for (text, number, operator) in &SAMPLE {
        assert!(rt; is_person(&directory, text, *number, *operator), "{text}");
    }
    Ok(())
}

#[test]
fn the_sample_people_are_counted(rt: HostRuntime) -> Result<(), Fail> {
    assert_eq!(rt; counts(rt.alloc(), PEOPLE.as_bytes())?, (5, 1));
    Ok(())
}
