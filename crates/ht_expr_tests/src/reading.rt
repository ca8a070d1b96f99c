use ht_base::{Kind, Memory, Name};
use ht_expr::{Assign, Expr, ExprRefusal, Kinds, Side};
use std::alloc::Global;
use std::test::Fail;

// Parts of which the texts of these tests speak.
fn declared(alloc: Global) -> Result<Kinds, Memory> {
    let mut kinds = Kinds::new(alloc);
    let table = [
        (Side::Input, "owner", Kind::Person),
        (Side::Input, "if", Kind::Text),
        (Side::Output, "amount", Kind::Int),
    ];
    for (side, name, kind) in table {
        if let Some(name) = Name::of(name.as_bytes()) {
            kinds.push(side, name, kind)?;
        }
    }
    Ok(kinds)
}

// In a line a text stands before why it is refused, or `read`.
fn is_told(alloc: Global, refusal: Option<ExprRefusal>, want: &str) -> Result<bool, Fail> {
    let Some(refusal) = refusal else {
        return Ok(want == "read");
    };
    Ok(format!(in alloc; "{refusal:?}")?.as_str() == want)
}

fn is_expression_told(alloc: Global, kinds: &Kinds, line: &str) -> Result<bool, Fail> {
    let (text, want) = line.split_once(" => ").ok_or("a text and its answer")?;
    is_told(alloc, Expr::read(alloc, text, kinds).err(), want)
}

fn is_assignment_told(alloc: Global, kinds: &Kinds, line: &str) -> Result<bool, Fail> {
    let (text, want) = line.split_once(" => ").ok_or("a text and its answer")?;
    is_told(alloc, Assign::read(alloc, text, kinds).err(), want)
}

const EXPRESSIONS: &str = "\
1 + 2 * 3 == 7 => read
if not in.if == 'it' then -out.amount else (made() + finished() * done()) => read
set(in.owner) and countText('p', 't') <= countTrue('p') or initiator != in.owner => read
1 $ 2 => Token(2)
9223372036854775808 => Token(0)
1 + => Shape(3)
1 == 2 == 3 => Shape(7)
not if 1 then 2 else 3 => Shape(4)
nobody => Shape(0)
priority == 'a' => BadKind";

#[test]
fn expressions_are_read(rt: HostRuntime) -> Result<(), Fail> {
    let kinds = declared(rt.alloc())?;
    for line in EXPRESSIONS.lines() {
        assert!(rt; is_expression_told(rt.alloc(), &kinds, line)?, "{line}");
    }
    Ok(())
}

const ASSIGNMENTS: &str = "\
except(user('a'), union(group('b'), intersect(initiator, in.owner))) => read
when(1 < 2 or true, nobody, everybody) => read
user(anna) => Shape(5)
union(nobody, => Shape(13)
in.if => BadKind";

#[test]
fn assignments_are_read(rt: HostRuntime) -> Result<(), Fail> {
    let kinds = declared(rt.alloc())?;
    for line in ASSIGNMENTS.lines() {
        assert!(rt; is_assignment_told(rt.alloc(), &kinds, line)?, "{line}");
    }
    let groups = Assign::read(rt.alloc(), "union(initiator, group('b'))", &kinds)?;
    assert!(rt; !groups.individual());
    Ok(())
}

// Why an expression of a sign, 1 and so many more numbers, each behind a sign, is refused.
fn refusal_of_a_sum(
    alloc: Global,
    first: &str,
    others: usize,
) -> Result<Option<ExprRefusal>, Fail> {
    let signs = " + 1".repeat(alloc, others)?;
    let text = format!(in alloc; "{first}1{signs}")?;
    Ok(Expr::read(alloc, text.as_str(), &declared(alloc)?).err())
}

#[test]
fn expressions_of_128_tokens_are_read(rt: HostRuntime) -> Result<(), Fail> {
    assert_eq!(rt; refusal_of_a_sum(rt.alloc(), "-", 63)?, None);
    assert_eq!(rt;
        refusal_of_a_sum(rt.alloc(), "", 64)?,
        Some(ExprRefusal::TooLong)
    );
    Ok(())
}
