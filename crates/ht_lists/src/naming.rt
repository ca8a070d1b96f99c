ghost use Rattle.std.specs.Prelude.{◌≡◌, ◌<◌, true, IfOk, IfSome, IsSome, length};
ghost use Rattle.std.specs.List.{All};
ghost use Rattle.ht_base.specs.Persons.{AllBelow};
ghost use Rattle.ht_lists.specs.Naming as spec;
ghost use Rattle.ht_lists.specs.Naming.{AreShown};
ghost use Rattle.ht_people.specs.Directory.{find};
ghost use Rattle.ht_tree.specs.Soundness.{is_known, is_timely};

use ht_base::{
    Memory, Name, Names, Parts, Person, Persons, Scalar, ShownComment, ShownComments, Txt, Value,
    Values,
};
use ht_people::Directory;
use ht_tree::{Comment, Comments};
use std::alloc::Global;

/// The names of persons.
pub(crate) fn names_of(
    alloc: Global,
    people: &Directory,
    persons: &Persons,
) -> Result<Names, Memory>
    requires { AllBelow (length people.now.persons) persons.now }
    ensures { IfOk result (λ names. names ≡ spec.names_of people.now persons.now) }
{
    let persons = persons.as_slice();
    let mut names = Names::with_capacity(alloc, persons.len())?;
    for person in persons {
        names.push(people.name(*person))?;
    }
    Ok(names)
}

/// The name of a person, if there is one.
pub fn name_or_none(people: &Directory, person: Option<Person>) -> Option<Name>
    requires { IfSome person (λ p. p < length people.now.persons) }
    ensures name { result ≡ spec.name_or_none people.now person }
    ensures known { IfSome result (λ name. IsSome (find name people.now)) }
{
    Some(people.name(person?))
}

/// The comments on a task, with the names of the persons.
pub(crate) fn comments_of(
    alloc: Global,
    people: &Directory,
    comments: &Comments,
) -> Result<ShownComments, Memory>
    requires { All (λ c. c.person < length people.now.persons) comments.now }
    ensures { IfOk result (λ shown. shown ≡ spec.comments_of people.now comments.now) }
{
    let mut shown = ShownComments::new(alloc);
    for place in 0..comments.count() {
        if let Some(comment) = comments.get(place) {
            shown.push(shown_comment(alloc, people, comment)?)?;
        }
    }
    Ok(shown)
}

fn shown_comment(
    alloc: Global,
    people: &Directory,
    comment: &Comment,
) -> Result<ShownComment, Memory>
    requires { comment.now.person < length people.now.persons }
    ensures { IfOk result (λ shown. shown ≡ spec.shown_comment people.now comment.now) }
{
    Ok(ShownComment {
        moment: comment.moment,
        person: people.name(comment.person),
        text: comment.text.copy(alloc)?,
    })
}

/// The values of parts as they are given: persons by name, and instants in milliseconds.
pub(crate) fn parts_of(alloc: Global, people: &Directory, values: &Values) -> Result<Parts, Memory>
    requires { AreShown (length people.now.persons) values.now }
    ensures { IfOk result (λ parts. parts ≡ spec.parts_of people.now values.now) }
{
    let mut parts = Parts::new(alloc);
    for (name, value) in values.as_slice() {
        parts.push(*name, scalar_of(alloc, people, *name, value)?)?;
    }
    Ok(parts)
}

fn scalar_of(alloc: Global, people: &Directory, name: Name, value: &Value) -> Result<Scalar, Memory>
    requires known { is_known (length people.now.persons) (name, value.now) ≡ true }
    requires timely { is_timely (name, value.now) ≡ true }
    ensures { IfOk result (λ scalar. scalar ≡ spec.scalar_of people.now value.now) }
{
    Ok(match value {
        Value::Text(text) => Scalar::Text(text.copy(alloc)?),
        Value::Int(number) => Scalar::Int(*number),
        Value::Truth(truth) => Scalar::Truth(*truth),
        Value::Person(person) => Scalar::Text(Txt::of(alloc, people.name(*person).as_str())?),
        Value::Instant(moment) => Scalar::Int(moment.0 as i64),
    })
}
