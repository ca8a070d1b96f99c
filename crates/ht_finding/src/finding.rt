ghost use Rattle.std.specs.Prelude.{◌≡◌, ◌<◌, IfOk, IsTrue, length, option_map};
ghost use Rattle.ht_expr.specs.AssignmentKinds.{Assigns};
ghost use Rattle.ht_expr.specs.Assignments.{Assignment, group, part, user};
ghost use Rattle.ht_value.specs.Environment.{has_parts};
ghost use Rattle.ht_expr.specs.Kinds.{Declared};
ghost use Rattle.ht_expr.specs.Shown.{shown};
ghost use Rattle.ht_finding.specs.Assigning as spec;
ghost use Rattle.ht_finding.specs.Assigning.{Sight, potential_owners, resolved, sight};
ghost use Rattle.ht_people.specs.Directory.{DirectoryOf};
ghost use Rattle.ht_people.specs.Membership as membership;

use ht_base::{Memory, Name, Person, Persons, Value};
use ht_expr::{Assign, Side};
use ht_people::{Directory, except, intersect, union};
use ht_value::{Env, truth};
use std::alloc::Global;

/// The persons of the directory whom an assignment finds in an environment, in ascending order
/// (WS-HumanTask 1.1, 3.5). A text that is no name, or an unknown one, finds nobody. It fails only for
/// want of memory.
pub fn found(
    alloc: Global,
    people: &Directory,
    env: &Env,
    assign: &Assign,
) -> Result<Persons, Memory>
    requires initiator { env.now.initiator < length people.now.persons }
    requires kinds { (kinds : Declared) × Assigns kinds assign.now
        × IsTrue (has_parts kinds env.now) }
    ensures { IfOk result (λ persons.
        (kinds : Declared) → Assigns kinds assign.now
        → persons ≡ resolved people.now (sight kinds env.now) (shown assign.now)) }
{
    match assign {
        Assign::Nobody => Ok(Persons::new(alloc)),
        Assign::Everybody => everybody(alloc, people),
        Assign::Initiator => Persons::alone(alloc, env.initiator),
        Assign::In(name) => person_given(alloc, people, env, name.as_str()),
        Assign::User(text) => persons_named(alloc, people, text.as_str()),
        Assign::Group(text) => members_of(alloc, people, text.as_str()),
        Assign::Union(a, b) => {
            let first = found(alloc, people, env, a)?;
            let second = found(alloc, people, env, b)?;
            union(alloc, &first, &second)
        }
        Assign::Intersect(a, b) => {
            let first = found(alloc, people, env, a)?;
            let second = found(alloc, people, env, b)?;
            intersect(alloc, &first, &second)
        }
        Assign::Except(a, b) => {
            let first = found(alloc, people, env, a)?;
            let second = found(alloc, people, env, b)?;
            except(alloc, &first, &second)
        }
        Assign::When(test, a, b) => {
            if truth(test, env) {
                found(alloc, people, env, a)
            } else {
                found(alloc, people, env, b)
            }
        }
    }
}

/// Those of the persons found who aren't excluded (WS-HumanTask 1.1, 3.1), in ascending order. It fails
/// only for want of memory.
pub fn without(alloc: Global, found: Persons, excluded: &Persons) -> Result<Persons, Memory>
    ensures { IfOk result (λ ps.
        (d : DirectoryOf) (s : Sight) (a : Assignment) → found ≡ resolved d s a
        → ps ≡ potential_owners d s a excluded.now) }
{
    if excluded.as_slice().is_empty() {
        return Ok(found);
    }
    except(alloc, &found, excluded)
}

// The person whom an input part names, if the directory has the person.
fn person_given(alloc: Global, people: &Directory, env: &Env, name: &str) -> Result<Persons, Memory>
    ensures { IfOk result (λ persons.
        (kinds : Declared)
        → persons ≡ resolved people.now (sight kinds env.now) (part Side.Input name.now)) }
{
    let Some(person) = person_of(env.given(Side::Input, name)) else {
        return Ok(Persons::new(alloc));
    };
    if person.0 < people.persons() {
        Persons::alone(alloc, person)
    } else {
        Ok(Persons::new(alloc))
    }
}

// The person that a value is, where it is one.
fn person_of(value: Option<&Value>) -> Option<Person>
    ensures { result ≡ spec.person_of (option_map (λ v. v.now) value.entry) }
{
    match value {
        Some(Value::Person(person)) => Some(*person),
        _ => None,
    }
}

fn everybody(alloc: Global, people: &Directory) -> Result<Persons, Memory>
    ensures { IfOk result (λ persons. persons ≡ membership.everybody people.now) }
{
    let count = people.persons();
    let mut persons = Persons::with_capacity(alloc, count as usize)?;
    for place in 0..count {
        persons.push(Person(place))?;
    }
    Ok(persons)
}

// The person with this name, where the text is a name.
fn persons_named(alloc: Global, people: &Directory, text: &str) -> Result<Persons, Memory>
    ensures { IfOk result
        (λ persons. (s : Sight) → persons ≡ resolved people.now s (user text.now)) }
{
    let Some(name) = Name::of(text.as_bytes()) else {
        return Ok(Persons::new(alloc));
    };
    match people.find(name) {
        Some(person) => Persons::alone(alloc, person),
        None => Ok(Persons::new(alloc)),
    }
}

// The members of the group with this name, where the text is a name.
fn members_of(alloc: Global, people: &Directory, text: &str) -> Result<Persons, Memory>
    ensures { IfOk result
        (λ persons. (s : Sight) → persons ≡ resolved people.now s (group text.now)) }
{
    match Name::of(text.as_bytes()) {
        Some(name) => people.members(alloc, name),
        None => Ok(Persons::new(alloc)),
    }
}
