use crate::directories::{has_members, members_of};
use ht_base::{Memory, Person, Persons};
use ht_people::{Directory, except, intersect, union};
use std::alloc::Global;
use std::process::Abort;
use std::test::Fail;

const SETS: &[u8] =
    b"person = [{name = \"p0\"}, {name = \"p1\"}, {name = \"p2\"}, {name = \"p3\"}, {name = \"p4\"}]\n[[group]]\nname = \"none\"\nmembers = []\n[[group]]\nname = \"odd\"\nmembers = [\"p3\", \"p1\"]\n[[group]]\nname = \"even\"\nmembers = [\"p0\", \"p2\", \"p4\"]\n[[group]]\nname = \"all\"\nmembers = [\"@even\", \"@odd\"]\n[[group]]\nname = \"low\"\nmembers = [\"p1\", \"p2\", \"p3\"]\n[[group]]\nname = \"high\"\nmembers = [\"p2\", \"p3\", \"p4\"]\n[[group]]\nname = \"most\"\nmembers = [\"p4\", \"p3\", \"p2\", \"p1\"]\n[[group]]\nname = \"middle\"\nmembers = [\"p2\", \"p3\"]\n[[group]]\nname = \"first\"\nmembers = [\"p1\"]\n";

fn set_of(alloc: Global, set: &str, first: &Persons, second: &Persons) -> Result<Persons, Memory> {
    match set {
        "union" => union(alloc, first, second),
        "intersect" => intersect(alloc, first, second),
        _ => except(alloc, first, second),
    }
}

// The persons that two groups make.
fn made(
    alloc: Global,
    directory: &Directory,
    set: &str,
    first: &str,
    second: &str,
) -> Result<Persons, Fail> {
    let first = members_of(alloc, directory, first)?;
    let second = members_of(alloc, directory, second)?;
    Ok(set_of(alloc, set, &first, &second)?)
}

// Whether two groups make the set of the members of a third.
fn is_made(
    alloc: Global,
    directory: &Directory,
    set: &str,
    of: (&str, &str),
    group: &str,
) -> Result<bool, Fail> {
    let made = made(alloc, directory, set, of.0, of.1)?;
    has_members(alloc, directory, group, made.as_slice())
}

// In each row two groups stand before the groups of who is in either, in both, and in the first alone.
const OF_TWO: [[&str; 5]; 6] = [
    ["none", "none", "none", "none", "none"],
    ["odd", "none", "odd", "none", "odd"],
    ["none", "odd", "odd", "none", "none"],
    ["odd", "even", "all", "none", "odd"],
    ["low", "high", "most", "middle", "first"],
    ["odd", "odd", "odd", "odd", "none"],
];

fn are_made(
    rt: &impl Abort,
    alloc: Global,
    directory: &Directory,
    row: &[&str; 5],
) -> Result<(), Fail> {
    let [first, second, either, both, first_alone] = *row;
    let sets = [
        ("union", either),
        ("intersect", both),
        ("except", first_alone),
    ];
    for (set, group) in sets {
        assert!(rt;
            is_made(alloc, directory, set, (first, second), group)?,
            "{set} {first} {second}"
        );
    }
    Ok(())
}

#[test]
fn sets_are_made_of_two(rt: HostRuntime) -> Result<(), Fail> {
    let directory = Directory::read(rt.alloc(), SETS)?;
    for row in &OF_TWO {
        are_made(&rt, rt.alloc(), &directory, row)?;
    }
    Ok(())
}

#[test]
fn members_ascend(rt: HostRuntime) -> Result<(), Fail> {
    let directory = Directory::read(rt.alloc(), SETS)?;
    let ascending = [Person(1), Person(2), Person(3), Person(4)];
    assert!(rt; has_members(rt.alloc(), &directory, "most", &ascending)?);
    Ok(())
}
