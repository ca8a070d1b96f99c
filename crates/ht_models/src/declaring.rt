ghost use Rattle.std.specs.Prelude.{◌≡◌, ◌++◌, IfOk, OnOk, map};
ghost use Rattle.ht_expr.specs.Kinds.{declared_kind};
ghost use Rattle.ht_models.specs.Expressions as spec;

use ht_base::{Kind, Memory, Name};
use ht_entries::{ModelEntry, Part};
use ht_expr::{Kinds, Side};
use std::alloc::Global;

/// The parts of a model, of which its expressions may speak.
pub fn declared(alloc: Global, entry: &ModelEntry) -> Result<Kinds, Memory>
    ensures { IfOk result (λ kinds. kinds ≡ spec.declared entry.now) }
{
    let mut kinds = Kinds::new(alloc);
    declare(&mut kinds, Side::Input, &entry.input)?;
    declare(&mut kinds, Side::Output, &entry.output)?;
    Ok(kinds)
}

fn declare(kinds: &mut Kinds, side: Side, parts: &[Part]) -> Result<(), Memory>
    ensures { OnOk result (kinds.new ≡ kinds.old ++ map (λ p. (side, p.name, p.kind)) parts.now) }
{
    for part in parts {
        kinds.push(side, part.name, part.kind)?;
    }
    Ok(())
}

/// The kind of an input part of a model, if it has the part.
#[tactic(auto, using(crate::proofs::DeclaredKinds::declared_input))]
pub fn input_kind(entry: &ModelEntry, name: Name) -> Option<Kind>
    ensures { result ≡ declared_kind (spec.declared entry.now) Side.Input name }
{
    kind_in(&entry.input, name)
}

/// The kind of an output part of a model, if it has the part.
#[tactic(auto, using(crate::proofs::DeclaredKinds::declared_output))]
pub fn output_kind(entry: &ModelEntry, name: Name) -> Option<Kind>
    ensures { result ≡ declared_kind (spec.declared entry.now) Side.Output name }
{
    kind_in(&entry.output, name)
}

fn kind_in(parts: &[Part], name: Name) -> Option<Kind>
    ensures { result ≡ spec.kind_among name parts.now }
{
    for part in parts {
        if part.name == name {
            return Some(part.kind);
        }
    }
    None
}
