ghost use Rattle.std.specs.Prelude.{◌≡◌, IfOk, is_some, option_map};
ghost use Rattle.ht_finding.specs.Giving as spec;

use ht_base::{Kind, LAST, Memory, Moment, Name, Parts, Person, Scalar, Value, Values};
use ht_entries::Part;
use ht_people::Directory;
use std::alloc::Global;

/// The part for which what is given is refused: first a name of no part, and then, in the order of
/// the parts, one for which something of another kind is given, or nothing where it must be.
pub fn refused_part(
    people: &Directory,
    required: bool,
    parts: &[Part],
    given: &Parts,
) -> Option<Name>
    ensures { result ≡ spec.refused_part people.now required parts.now given.now }
{
    match undeclared(parts, given) {
        Some(name) => Some(name),
        None => unfit(people, required, parts, given),
    }
}

/// The values that are given for the parts, but for those that are refused.
pub fn values_given(
    alloc: Global,
    people: &Directory,
    parts: &[Part],
    given: &Parts,
) -> Result<Values, Memory>
    ensures { IfOk result (λ values. values ≡ spec.values_given people.now parts.now given.now) }
{
    let mut values = Values::new(alloc);
    for (name, scalar) in given.as_slice() {
        if let Some(value) = value_for(alloc, people, parts, *name, scalar)? {
            values.push(*name, value)?;
        }
    }
    Ok(values)
}

// The value of the part of this name that is given, if there is such a part.
fn value_for(
    alloc: Global,
    people: &Directory,
    parts: &[Part],
    name: Name,
    scalar: &Scalar,
) -> Result<Option<Value>, Memory>
    ensures { IfOk result (λ v. v ≡ spec.value_for people.now parts.now name scalar.now) }
{
    match part_named(name, parts) {
        Some(part) => value_of(alloc, people, part.kind, scalar),
        None => Ok(None),
    }
}

fn undeclared(parts: &[Part], given: &Parts) -> Option<Name>
    ensures { result ≡ spec.undeclared parts.now given.now }
{
    for (name, _) in given.as_slice() {
        if part_named(*name, parts).is_none() {
            return Some(*name);
        }
    }
    None
}

fn unfit(people: &Directory, required: bool, parts: &[Part], given: &Parts) -> Option<Name>
    ensures { result ≡ spec.unfit people.now required parts.now given.now }
{
    for part in parts {
        if is_unfit(people, required, part, scalar_at(part.name, given)) {
            return Some(part.name);
        }
    }
    None
}

fn is_unfit(people: &Directory, required: bool, part: &Part, scalar: Option<&Scalar>) -> bool
    ensures { result ≡ spec.is_unfit people.now required part.now
        (option_map (λ s. s.now) scalar.entry) }
{
    match scalar {
        None => required && !part.optional,
        Some(scalar) => !is_of_kind(people, part.kind, scalar),
    }
}

fn part_named(name: Name, parts: &[Part]) -> Option<&Part>
    ensures { option_map (λ p. p.now) result ≡ spec.part_named name parts.now }
{
    for part in parts {
        if part.name == name {
            return Some(part);
        }
    }
    None
}

fn scalar_at(name: Name, given: &Parts) -> Option<&Scalar>
    ensures { option_map (λ s. s.now) result ≡ spec.scalar_at name given.now }
{
    for (part, scalar) in given.as_slice() {
        if *part == name {
            return Some(scalar);
        }
    }
    None
}

// Whether a value of this kind is given.
fn is_of_kind(people: &Directory, kind: Kind, scalar: &Scalar) -> bool
    ensures { result ≡ is_some (spec.value_of people.now kind scalar.now) }
{
    match kind {
        Kind::Text => matches!(scalar, Scalar::Text(_)),
        Kind::Int => matches!(scalar, Scalar::Int(_)),
        Kind::Truth => matches!(scalar, Scalar::Truth(_)),
        Kind::Person => person_given(people, scalar).is_some(),
        Kind::Instant => instant_given(scalar).is_some(),
    }
}

// The value of this kind that is given.
fn value_of(
    alloc: Global,
    people: &Directory,
    kind: Kind,
    scalar: &Scalar,
) -> Result<Option<Value>, Memory>
    ensures { IfOk result (λ v. v ≡ spec.value_of people.now kind scalar.now) }
{
    match kind {
        Kind::Text => match scalar {
            Scalar::Text(text) => Ok(Some(Value::Text(text.copy(alloc)?))),
            _ => Ok(None),
        },
        Kind::Int => match scalar {
            Scalar::Int(number) => Ok(Some(Value::Int(*number))),
            _ => Ok(None),
        },
        Kind::Truth => match scalar {
            Scalar::Truth(truth) => Ok(Some(Value::Truth(*truth))),
            _ => Ok(None),
        },
        Kind::Person => match person_given(people, scalar) {
            Some(person) => Ok(Some(Value::Person(person))),
            None => Ok(None),
        },
        Kind::Instant => match instant_given(scalar) {
            Some(moment) => Ok(Some(Value::Instant(moment))),
            None => Ok(None),
        },
    }
}

// The person whom a text names.
fn person_given(people: &Directory, scalar: &Scalar) -> Option<Person>
    ensures { result ≡ spec.person_given people.now scalar.now }
{
    match scalar {
        Scalar::Text(text) => people.find(Name::of(text.as_str().as_bytes())?),
        _ => None,
    }
}

// The moment of a whole number of milliseconds.
fn instant_given(scalar: &Scalar) -> Option<Moment>
    ensures { result ≡ spec.moment_given scalar.now }
{
    match scalar {
        Scalar::Int(number) => {
            if *number < 0 || *number as u64 > LAST {
                return None;
            }
            Some(Moment(*number as u64))
        }
        _ => None,
    }
}
