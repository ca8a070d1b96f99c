use ht_base::{Kind, Name};
use ht_expr::{Expr, Kinds, Side};
use std::alloc::Global;
use std::test::Fail;

fn name(text: &str) -> Result<Name, Fail> {
    Ok(Name::of(text.as_bytes()).ok_or("a name")?)
}

// A part of each kind on the input's side, and three on the output's.
fn declared(alloc: Global) -> Result<Kinds, Fail> {
    let mut kinds = Kinds::new(alloc);
    let table = [
        (Side::Input, "t", Kind::Text),
        (Side::Input, "i", Kind::Int),
        (Side::Input, "b", Kind::Truth),
        (Side::Input, "p", Kind::Person),
        (Side::Input, "m", Kind::Instant),
        (Side::Output, "p", Kind::Person),
        (Side::Output, "m", Kind::Instant),
        (Side::Output, "i", Kind::Int),
    ];
    for (side, part, kind) in table {
        kinds.push(side, name(part)?, kind)?;
    }
    Ok(kinds)
}

const KINDS: &str = "\
1 + 2 * 3 == 7 => Truth
-priority => Int
in.t => Text
(in.p) => Person
if in.b then in.m else out.m => Instant
set(in.t) and set(in.i) and set(in.b) and set(in.p) and set(in.m) => Truth
made() + finished() + done() => Int
countText('v', 'yes') + countTrue('v') => Int
not (in.m < out.m) or in.p == initiator => Truth";

// In a line a text stands before its kind.
fn has_kind(alloc: Global, kinds: &Kinds, line: &str) -> Result<bool, Fail> {
    let (text, kind) = line.split_once(" => ").ok_or("a text and its kind")?;
    let expr = Expr::read(alloc, text, kinds)?;
    is_shown(alloc, expr.kind(), kind)
}

fn is_shown(alloc: Global, kind: Kind, want: &str) -> Result<bool, Fail> {
    let shown = format!(in alloc; "{kind:?}")?;
    Ok(shown.as_str() == want)
}

#[test]
fn kinds_are_told(rt: HostRuntime) -> Result<(), Fail> {
    let kinds = declared(rt.alloc())?.copy(rt.alloc())?;
    for line in KINDS.lines() {
        assert!(rt; has_kind(rt.alloc(), &kinds, line)?, "{line}");
    }
    Ok(())
}
