ghost use Rattle.std.specs.Prelude.{◌≡◌, All, IfOk};
ghost use Rattle.ht_base.specs.Kinds.{kind_of_how, kind_of_value};
ghost use Rattle.ht_base.specs.declared.kind.Kind.TheVariants as kind;

use ht_aggregate::aggregate;
use ht_base::{How, Memory, Txt, Value, ValueList};
use std::alloc::Global;
use std::process::Abort;
use std::test::Fail;

fn text_list(alloc: Global, texts: &[&str]) -> Result<ValueList, Memory>
    ensures { IfOk result (All (λ v. kind_of_value v ≡ kind.Text)) }
{
    let mut values = ValueList::new(alloc);
    for text in texts {
        values.push(Value::Text(Txt::of(alloc, text)?))?;
    }
    Ok(values)
}

fn is_text(value: &Option<Value>, expected: &str) -> bool {
    match value {
        Some(Value::Text(text)) => text.as_str() == expected,
        _ => false,
    }
}

// In each row texts stand before what they give.
fn texts_give(
    rt: &(impl Abort + AllocGlobal),
    how: &How,
    rows: &[(&[&str], &str)],
) -> Result<(), Fail>
    requires { kind_of_how how.now ≡ kind.Text }
{
    for (texts, expected) in rows {
        let values = text_list(rt.alloc(), texts)?;
        let value = aggregate(rt.alloc(), how, &values)?;
        assert!(rt; is_text(&value, expected), "{texts:?}");
    }
    Ok(())
}

#[test]
fn texts_give_one(rt: HostRuntime) -> Result<(), Fail> {
    let delimiter = How::ConcatWithDelimiter(Txt::of(rt.alloc(), "; ")?);
    texts_give(&rt, &delimiter, &[(&["a", "b"], "a; b"), (&[], "")])?;
    texts_give(&rt, &How::VoteOnString(50), &[(&["yes", "no"], "")])
}

fn truth_list(alloc: Global, truths: &[bool]) -> Result<ValueList, Memory>
    ensures { IfOk result (All (λ v. kind_of_value v ≡ kind.Truth)) }
{
    let mut values = ValueList::new(alloc);
    for truth in truths {
        values.push(Value::Truth(*truth))?;
    }
    Ok(values)
}

fn is_truth(value: &Option<Value>, expected: bool) -> bool {
    match value {
        Some(Value::Truth(truth)) => *truth == expected,
        _ => false,
    }
}

// In each row truth values stand before what they give.
fn truths_give(
    rt: &(impl Abort + AllocGlobal),
    how: &How,
    rows: &[(&[bool], bool)],
) -> Result<(), Fail>
    requires { kind_of_how how.now ≡ kind.Truth }
{
    for (truths, expected) in rows {
        let values = truth_list(rt.alloc(), truths)?;
        let value = aggregate(rt.alloc(), how, &values)?;
        assert!(rt; is_truth(&value, *expected), "{truths:?}");
    }
    Ok(())
}

#[test]
fn truths_give_one(rt: HostRuntime) -> Result<(), Fail> {
    truths_give(&rt, &How::Vote(50), &[(&[true, false], false)])?;
    truths_give(&rt, &How::Vote(0), &[(&[], false)])
}

fn number_list(alloc: Global, numbers: &[i64]) -> Result<ValueList, Memory>
    ensures { IfOk result (All (λ v. kind_of_value v ≡ kind.Int)) }
{
    let mut values = ValueList::new(alloc);
    for number in numbers {
        values.push(Value::Int(*number))?;
    }
    Ok(values)
}

fn is_number(value: &Option<Value>, expected: Option<i64>) -> bool {
    match value {
        Some(Value::Int(number)) => Some(*number) == expected,
        Some(_) => false,
        None => expected.is_none(),
    }
}

// In each row numbers stand before what they give.
fn numbers_give(
    rt: &(impl Abort + AllocGlobal),
    how: &How,
    rows: &[(&[i64], Option<i64>)],
) -> Result<(), Fail>
    requires { kind_of_how how.now ≡ kind.Int }
{
    for (numbers, expected) in rows {
        let values = number_list(rt.alloc(), numbers)?;
        let value = aggregate(rt.alloc(), how, &values)?;
        assert!(rt; is_number(&value, *expected), "{numbers:?}");
    }
    Ok(())
}

#[test]
fn numbers_give_one(rt: HostRuntime) -> Result<(), Fail> {
    numbers_give(&rt, &How::Avg, &[(&[-3, 0], Some(-2)), (&[], None)])?;
    numbers_give(&rt, &How::Sum, &[(&[i64::MAX, 1], Some(i64::MAX))])
}
