ghost use Rattle.ht_base.specs.Persons.{AllBelow};

use ht_base::{
    Bytes, How, Ids, Kind, Moment, Name, Names, Person, Persons, ShownComment, ShownComments,
    TaskId, Txt, Value, ValueList, Values, name_places, number, period,
};
use std::alloc::Global;
use std::process::Abort;
use std::test::Fail;

const NAMES: &str = "\
anna
p0
A_z.9-
-
abcdefghijklmnopqrstuvwxyz012345";

const NO_NAMES: &str = "\
abcdefghijklmnopqrstuvwxyz0123456
a b
a/b
caf\u{e9}
a\0";

fn is_name(text: &str) -> bool {
    match Name::of(text.as_bytes()) {
        Some(name) => name.as_bytes() == text.as_bytes() && name.as_str() == text,
        None => false,
    }
}

#[test]
fn names_are_read(rt: HostRuntime) {
    for text in NAMES.lines() {
        assert!(rt; is_name(text), "{text}");
    }
    for text in NO_NAMES.lines() {
        assert!(rt; Name::of(text.as_bytes()).is_none(), "{text}");
    }
    assert!(rt; Name::of(b"").is_none());
}

fn is_copied_before_it_changes(
    rt: &impl Abort,
    bytes: &mut Bytes,
    copy: &Bytes,
) -> Result<(), Fail> {
    bytes.clear();
    bytes.extend(b"s")?;
    assert_eq!(rt; bytes.as_slice(), b"s".as_slice());
    assert_eq!(rt; copy.as_slice(), b"task".as_slice());
    Ok(())
}

#[test]
fn bytes_grow_and_are_copied(rt: HostRuntime) -> Result<(), Fail> {
    let mut bytes = Bytes::new(rt.alloc());
    bytes.reserve(16)?;
    bytes.extend(b"task")?;
    let copy = bytes.copy(rt.alloc())?;
    is_copied_before_it_changes(&rt, &mut bytes, &copy)
}

#[test]
fn bytes_are_lent(rt: HostRuntime) -> Result<(), Fail> {
    let mut of = Bytes::of(rt.alloc(), b"row")?;
    let mut lent = of.lend(rt.alloc());
    assert_eq!(rt; lent.as_slice(), b"row".as_slice());
    assert!(rt; of.as_slice().is_empty());
    lent.push(b's')?;
    of.give_back(lent);
    assert_eq!(rt; of.as_slice(), b"rows".as_slice());
    Ok(())
}

#[test]
fn tasks_are_copied(rt: HostRuntime) -> Result<(), Fail> {
    let numbers = [TaskId(2), TaskId(5)];
    let ids = Ids::of(numbers.to_vec(rt.alloc())?);
    let copy = ids.copy(rt.alloc())?;
    assert!(rt; copy.as_slice() == numbers.as_slice());
    Ok(())
}

// In each line a text stands before its milliseconds.
const PERIODS: &str = "\
P1D => Some(86400000)
P01D => Some(86400000)
PT1H => Some(3600000)
PT1M => Some(60000)
PT1S => Some(1000)
P1DT2H3M4S => Some(93784000)
PT2H4S => Some(7204000)
P0D => Some(0)
P999999DT999999H999999M999999S => Some(90060909939000)
 => None
P => None
PT => None
P1DT => None
PT4S3M => None
PT1D => None
P1H => None
P1M => None
PT1H1H => None
P1234567D => None
PD => None
PT1 => None
P1D  => None
 P1D => None
p1d => None
P-1D => None
P1.5D => None
P1D\u{e9} => None
P\u{661}D => None";

#[test]
fn periods_are_read(rt: HostRuntime) -> Result<(), Fail> {
    for line in PERIODS.lines() {
        let (text, expected) = line.split_once(" => ").ok_or("a text and its period")?;
        let millis = format!(in rt.alloc(); "{:?}", period(text))?;
        assert_eq!(rt; millis.as_str(), expected, "{text}");
    }
    Ok(())
}

fn two_names(alloc: Global) -> Result<Names, Fail> {
    let mut names = Names::with_capacity(alloc, 2)?;
    names.push(Name::of(b"anna").ok_or("a name")?)?;
    names.push(Name::of(b"ben").ok_or("a name")?)?;
    Ok(names)
}

#[test]
fn lists_of_names_grow_and_are_copied(rt: HostRuntime) -> Result<(), Fail> {
    let names = two_names(rt.alloc())?;
    let copy = names.copy(rt.alloc())?;
    assert_eq!(rt; copy.as_slice().len(), 2);
    assert!(rt; copy.as_slice().first().copied() == Name::of(b"anna"));
    Ok(())
}

fn are_there(rt: &impl Abort, persons: &Persons) {
    let table = [(0, false), (3, true), (5, false), (7, true), (8, false)];
    for (place, is_there) in table {
        assert_eq!(rt; persons.contains(Person(place)), is_there, "{place}");
    }
}

// A copy to which another person comes, which the copied set doesn't have then.
fn is_grown_copy(rt: &impl Abort, alloc: Global, persons: &Persons) -> Result<(), Fail>
    requires { AllBelow 7 persons.now }
{
    let mut copy = persons.copy(alloc)?;
    copy.push(Person(7))?;
    are_there(rt, &copy);
    assert_eq!(rt; persons.as_slice(), [Person(3)].as_slice());
    Ok(())
}

#[test]
fn sets_of_persons_grow_and_are_copied(rt: HostRuntime) -> Result<(), Fail> {
    let mut persons = Persons::with_capacity(rt.alloc(), 1)?;
    assert_eq!(rt; persons.as_slice(), Persons::new(rt.alloc()).as_slice());
    persons.push(Person(3))?;
    is_grown_copy(&rt, rt.alloc(), &persons)
}

#[test]
fn texts_are_copied(rt: HostRuntime) -> Result<(), Fail> {
    let text = Txt::of(rt.alloc(), "caf\u{e9}")?;
    let copy = text.copy(rt.alloc())?;
    assert_eq!(rt; copy.as_str(), "caf\u{e9}");
    assert_ne!(rt; Kind::Text, Kind::Person);
    Ok(())
}

fn push_comment(
    alloc: Global,
    comments: &mut ShownComments,
    at: u64,
    text: &str,
) -> Result<(), Fail> {
    let person = Name::of(b"anna").ok_or("a name")?;
    let text = Txt::of(alloc, text)?;
    comments.push(ShownComment {
        moment: Moment(at),
        person,
        text,
    })?;
    Ok(())
}

fn copied_comments(alloc: Global) -> Result<ShownComments, Fail> {
    let mut comments = ShownComments::new(alloc);
    push_comment(alloc, &mut comments, 5, "first")?;
    push_comment(alloc, &mut comments, 4, "second")?;
    Ok(comments.copy(alloc)?)
}

#[test]
fn comments_are_shown_in_order(rt: HostRuntime) -> Result<(), Fail> {
    let copy = copied_comments(rt.alloc())?;
    let last = copy.as_slice().last().ok_or("a comment")?;
    assert_eq!(rt; last.moment, Moment(4));
    assert_eq!(rt; last.text.as_str(), "second");
    assert_eq!(rt; copy.as_slice().len(), 2);
    Ok(())
}

#[test]
fn aggregates_are_copied(rt: HostRuntime) -> Result<(), Fail> {
    assert!(rt; matches!(How::Sum.copy(rt.alloc())?, How::Sum));
    assert!(rt; matches!(How::Vote(50).copy(rt.alloc())?, How::Vote(50)));
    let how = How::ConcatWithDelimiter(Txt::of(rt.alloc(), "; ")?);
    let copy = how.copy(rt.alloc())?;
    assert!(rt; matches!(&copy, How::ConcatWithDelimiter(text) if text.as_str() == "; "));
    Ok(())
}

// Whether values with this one show it when they are copied, and the copied value is its copy.
fn is_copied(alloc: Global, value: &Value) -> Result<bool, Fail> {
    let mut values = Values::new(alloc);
    values.push(Name::of(b"due").ok_or("a name")?, value.copy(alloc)?)?;
    let copy = values.copy(alloc)?;
    Ok(is_alone(&copy, value))
}

fn is_alone(values: &Values, value: &Value) -> bool {
    match values.as_slice().first() {
        Some((key, copied)) => Some(*key) == Name::of(b"due") && is_same(copied, value),
        None => false,
    }
}

#[test]
fn values_grow_and_are_copied(rt: HostRuntime) -> Result<(), Fail> {
    let text = Value::Text(Txt::of(rt.alloc(), "soon")?);
    assert!(rt; is_copied(rt.alloc(), &text)?);
    assert!(rt; is_copied(rt.alloc(), &Value::Int(-1))?);
    assert!(rt; is_copied(rt.alloc(), &Value::Truth(true))?);
    assert!(rt; is_copied(rt.alloc(), &Value::Person(Person(3)))?);
    assert!(rt; is_copied(rt.alloc(), &Value::Instant(Moment(1000)))?);
    Ok(())
}

#[test]
fn lists_of_values_grow_and_are_copied(rt: HostRuntime) -> Result<(), Fail> {
    let mut values = ValueList::new(rt.alloc());
    for number in [-1, 2] {
        values.push(Value::Int(number))?;
    }
    let copy = values.copy(rt.alloc())?;
    assert!(rt; int_of(copy.as_slice().first()) == Some(-1));
    assert!(rt; int_of(copy.as_slice().last()) == Some(2));
    Ok(())
}

fn int_of(value: Option<&Value>) -> Option<i64> {
    match value {
        Some(Value::Int(number)) => Some(*number),
        _ => None,
    }
}

fn is_same(one: &Value, other: &Value) -> bool {
    match (one, other) {
        (Value::Text(a), Value::Text(b)) => a.as_str() == b.as_str(),
        (Value::Int(a), Value::Int(b)) => a == b,
        (Value::Truth(a), Value::Truth(b)) => a == b,
        (Value::Person(a), Value::Person(b)) => a == b,
        (Value::Instant(a), Value::Instant(b)) => a == b,
        _ => false,
    }
}

// Names of which some stand twice.
fn five_names(alloc: Global) -> Result<Vec<Name>, Fail> {
    let mut names = Vec::new(alloc);
    for text in ["cora", "anna", "ben", "anna", "cora"] {
        names.push(Name::of(text.as_bytes()).ok_or("a name")?)?;
    }
    Ok(names)
}

fn have_places(rt: &impl Abort, alloc: Global, names: &[Name]) -> Result<(), Fail> {
    let ben = Name::of(b"ben").ok_or("a name")?;
    let dan = Name::of(b"dan").ok_or("a name")?;
    let places = name_places(alloc, names)?;
    assert_eq!(rt; places.get(&ben).copied(), Some(2));
    assert_eq!(rt; places.get(&dan).copied(), None);
    Ok(())
}

#[test]
fn names_have_their_places(rt: HostRuntime) -> Result<(), Fail> {
    let names = five_names(rt.alloc())?;
    assert_eq!(rt; names.len(), 5);
    have_places(&rt, rt.alloc(), &names[..3])
}
