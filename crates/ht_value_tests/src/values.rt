ghost use Rattle.std.specs.Prelude.{◌≡◌, IsSome};
ghost use Rattle.ht_expr.specs.KindTable.{kind_of};

use ht_base::{Kind, Name, Person, Values};
use ht_expr::{Expr, Kinds, Side};
use ht_value::{Env, Subs, int, truth};
use std::alloc::Global;
use std::test::Fail;

// The parts of which the texts of these tests speak.
fn declared(alloc: Global) -> Result<Kinds, Fail> {
    let mut kinds = Kinds::new(alloc);
    let table = [
        (Side::Input, "i", Kind::Int),
        (Side::Input, "p", Kind::Person),
    ];
    for (side, part, kind) in table {
        kinds.push(side, name(part)?, kind)?;
    }
    Ok(kinds)
}

fn name(text: &str) -> Result<Name, Fail> {
    Ok(Name::of(text.as_bytes()).ok_or("a name")?)
}

fn bare(alloc: Global) -> Env {
    Env {
        input: Values::new(alloc),
        output: Values::new(alloc),
        priority: 4,
        initiator: Person(7),
        subs: Subs::new(alloc),
    }
}

// The number or the truth of an expression, where its parts are there.
fn value_of(alloc: Global, expr: &Expr, kinds: &Kinds, env: &Env) -> Result<String, Fail>
    requires kinds { expr.now.kinds ≡ kinds.now }
    requires kind { IsSome (kind_of expr.now.kinds expr.now.tree) }
{
    if !env.has_parts(kinds) {
        return Err("another kind".into());
    }
    match expr.kind() {
        Kind::Int => Ok(format!(in alloc; "{}", int(expr, env))?),
        Kind::Truth => Ok(format!(in alloc; "{}", truth(expr, env))?),
        _ => Err("neither a number nor a truth".into()),
    }
}

// In a line a text, in which `LEAST` stands for that, stands before its value.
fn has_value(alloc: Global, kinds: &Kinds, env: &Env, line: &str) -> Result<bool, Fail> {
    let (text, expected) = line.split_once(" => ").ok_or("a text and its value")?;
    let text = text.replace(alloc, "LEAST", LEAST)?;
    let expr = Expr::read(alloc, text.as_str(), kinds)?;
    let value = value_of(alloc, &expr, kinds, env)?;
    Ok(value.as_str() == expected)
}

const LEAST: &str = "(-9223372036854775807 - 1)";

const VALUES: &str = "\
1 + 2 * 3 == 7 => true
not set(in.i) and initiator != in.p => true
1 + 2 * 3 => 7
1 - 2 - 3 => -4
priority * -2 => -8
if 1 < 2 then 3 else 4 => 3
if 2 < 1 then 3 else 4 => 4
9223372036854775807 + 1 => 9223372036854775807
-9223372036854775807 - 2 => -9223372036854775808
LEAST * LEAST => 9223372036854775807
-LEAST => 9223372036854775807
9223372036854775807 + 1 - 1 => 9223372036854775806";

#[test]
fn expressions_have_values(rt: HostRuntime) -> Result<(), Fail> {
    let kinds = declared(rt.alloc())?;
    let env = bare(rt.alloc());
    for line in VALUES.lines() {
        assert!(rt; has_value(rt.alloc(), &kinds, &env, line)?, "{line}");
    }
    Ok(())
}
