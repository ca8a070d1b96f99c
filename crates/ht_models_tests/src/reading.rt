use ht_base::{How, Kind, Moment, Name};
use ht_entries::{Composition, DeadlineKind, Delegation, Trigger, instant};
use ht_expr::Assign;
use ht_models::{Deadline, Model, Models};
use ht_samples::MODELS;
use std::process::Abort;
use std::test::Fail;

const SHUT: &[u8] = b"[[model]]
name = \"shut\"
potentialOwners = \"user('anna')\"
excludedOwners = \"user('anna')\"
administrators = \"user('cora')\"
";

fn name(text: &str) -> Result<Name, Fail> {
    Ok(Name::of(text.as_bytes()).ok_or("a name")?)
}

fn is_user(assignment: &Assign, name: &str) -> bool {
    match assignment {
        Assign::User(text) => text.as_str() == name,
        _ => false,
    }
}

#[test]
fn a_model_is_found_by_its_name(rt: HostRuntime) -> Result<(), Fail> {
    let models = Models::read(rt.alloc(), SHUT)?;
    assert_eq!(rt; models.find(name("shut")?), Some(0));
    assert_eq!(rt; models.find(name("shu")?), None);
    Ok(())
}

const WHOLE: &str = "
[[model]]
name = \"child\"
[[model.input]]
name = \"about\"
kind = \"text\"
[[model]]
name = \"whole\"
priority = \"if in.urgent then 1 else 7\"
skipable = true
delegation = \"other\"
delegatees = \"user('ben')\"
potentialOwners = \"everybody\"
composition = \"parallel\"
instantiation = \"automatic\"
completion = \"automatic\"
input = [{name = \"urgent\", kind = \"bool\", optional = true}, {name = \"topic\", kind = \"text\"}]
output = [{name = \"sum\", kind = \"int\"}]
sub = [{name = \"x\", model = \"child\", input = {about = \"topic\"}}]
[[model.deadline]]
name = \"one\"
kind = \"completion\"
for = \"PT10S\"
escalation = [{name = \"tell\", when = \"priority < 3\", notify = \"initiator\"}, {name = \"move\", reassign = \"user('cora')\"}]
[[model.deadline]]
name = \"two\"
kind = \"start\"
at = \"2026-03-02T09:00:00Z\"
[[model.finish]]
when = \"done() > 0\"
set = [{part = \"sum\", from = \"n\", with = \"sum\"}]
";

fn has_choices(rt: &impl Abort, whole: &Model) {
    assert!(rt; whole.priority.is_some());
    assert!(rt; whole.skipable);
    assert_eq!(rt; whole.delegation, Delegation::Other);
    assert!(rt; whole.delegatees.as_ref().is_some_and(|a| is_user(a, "ben")));
    assert_eq!(rt; whole.composition, Composition::Parallel);
    assert_eq!(rt; whole.instantiation, Trigger::Automatic);
    assert_eq!(rt; whole.completion, Trigger::Automatic);
    assert_eq!(rt; whole.size, 2);
}

fn has_parts(rt: &impl Abort, whole: &Model) -> Result<(), Fail> {
    let urgent = whole.input.first().ok_or("a part")?;
    assert!(rt; urgent.name == name("urgent")? && urgent.optional);
    assert_eq!(rt; urgent.kind, Kind::Truth);
    assert_eq!(rt; whole.output.first().ok_or("a part")?.kind, Kind::Int);
    Ok(())
}

fn has_a_sub_entry(rt: &impl Abort, whole: &Model) -> Result<(), Fail> {
    let sub = whole.subs.first().ok_or("a sub entry")?;
    assert!(rt; sub.name == name("x")? && sub.model == name("child")?);
    let (theirs, ours) = sub.input.first().ok_or("a pair")?;
    assert!(rt; theirs.0 == name("about")? && ours.0 == name("topic")?);
    Ok(())
}

fn has_a_finish(rt: &impl Abort, whole: &Model) -> Result<(), Fail> {
    let finish = whole.finishes.first().ok_or("a finish")?;
    assert!(rt; finish.when.is_some());
    let setting = finish.settings.first().ok_or("a setting")?;
    assert!(rt; setting.part == name("sum")? && setting.from == name("n")?);
    assert!(rt; matches!(&setting.how, How::Sum));
    Ok(())
}

// The model that the text of every key has behind another.
fn whole_of(models: &Models) -> Result<&Model, Fail> {
    let place = models.find(name("whole")?).ok_or("a model")?;
    Ok(models.model(place))
}

#[test]
fn every_key_is_read(rt: HostRuntime) -> Result<(), Fail> {
    let models = Models::read(rt.alloc(), WHOLE.as_bytes())?;
    let whole = whole_of(&models)?;
    has_choices(&rt, whole);
    has_parts(&rt, whole)?;
    has_a_sub_entry(&rt, whole)?;
    has_a_finish(&rt, whole)
}

fn is_the_first(rt: &impl Abort, one: &Deadline) -> Result<(), Fail> {
    assert!(rt; one.name == name("one")?);
    assert_eq!(rt; one.kind, DeadlineKind::Completion);
    assert_eq!(rt; one.period, Some(10_000));
    let tell = one.escalations.first().ok_or("an escalation")?;
    assert!(rt; tell.name == name("tell")? && tell.when.is_some() && tell.reassign.is_none());
    assert!(rt; matches!(&tell.notify, Some(Assign::Initiator)));
    let moves = one.escalations.get(1).ok_or("an escalation")?;
    assert!(rt; moves.when.is_none() && moves.notify.is_none());
    assert!(rt; moves.reassign.as_ref().is_some_and(|a| is_user(a, "cora")));
    Ok(())
}

fn is_the_second(rt: &impl Abort, two: &Deadline) {
    assert_eq!(rt; two.kind, DeadlineKind::Start);
    assert_eq!(rt; two.at, Some(Moment(1_772_442_000_000)));
    assert!(rt; two.part.is_none() && two.escalations.is_empty());
}

#[test]
fn deadlines_are_read(rt: HostRuntime) -> Result<(), Fail> {
    let models = Models::read(rt.alloc(), WHOLE.as_bytes())?;
    let deadlines = &whole_of(&models)?.deadlines;
    is_the_first(&rt, deadlines.first().ok_or("a deadline")?)?;
    is_the_second(&rt, deadlines.get(1).ok_or("a deadline")?);
    Ok(())
}

// Each model with how many tasks the tree of a task has.
const SIZES: [(&str, u32); 7] = [
    ("unit", 1),
    ("both", 3),
    ("seq", 3),
    ("ballot", 1),
    ("vote", 4),
    ("timed", 1),
    ("late", 1),
];

fn size(models: &Models, model: &str) -> Result<u32, Fail> {
    let place = models.find(name(model)?).ok_or("a model")?;
    Ok(models.model(place).size)
}

#[test]
fn the_models_of_an_office_are_read(rt: HostRuntime) -> Result<(), Fail> {
    let models = Models::read(rt.alloc(), MODELS.as_bytes())?;
    assert_eq!(rt; models.count(), 10);
    for (model, want) in &SIZES {
        assert_eq!(rt; size(&models, model)?, *want, "{model}");
    }
    Ok(())
}

#[test]
fn instants_are_read(rt: HostRuntime) {
    let table = [
        ("1970-01-01T00:00:00Z", 0),
        ("2026-03-02T09:00:00Z", 1_772_442_000_000),
        ("2000-02-28T00:00:00Z", 951_696_000_000),
        ("2000-02-29T00:00:00Z", 951_782_400_000),
        ("2023-02-28T12:34:56Z", 1_677_587_696_000),
        ("2024-02-28T00:00:00Z", 1_709_078_400_000),
        ("2024-02-29T23:59:59Z", 1_709_251_199_000),
        ("2100-02-28T00:00:00Z", 4_107_456_000_000),
        ("9999-12-31T23:59:59Z", 253_402_300_799_000),
    ];
    for (text, moment) in table {
        assert_eq!(rt; instant(text), Some(Moment(moment)), "{text}");
    }
}
