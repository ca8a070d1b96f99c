ghost use Rattle.std.specs.Prelude.{◌≡◌, IfOk, map};
ghost use Rattle.std.specs.List.{list_any};
ghost use Rattle.ht_models.specs.Repeats as spec;

use ht_base::{IndexFault, Memory, name_places};
use ht_entries::{DeadlineText, ModelEntry};
use ht_toml::{Named, names_of};
use std::alloc::Global;

/// Whether two parts of one side, two sub entries, two deadlines, or two escalations of one deadline
/// have one name.
pub fn repeats_name(alloc: Global, entry: &ModelEntry) -> Result<bool, Memory>
    ensures { IfOk result (λ repeats. repeats ≡ spec.repeats_name entry.now) }
{
    Ok(
        has_repeat(alloc, &entry.input)?
            || has_repeat(alloc, &entry.output)?
            || has_repeat(alloc, &entry.subs)?
            || has_repeat(alloc, &entry.deadlines)?
            || repeats_escalation(alloc, &entry.deadlines)?,
    )
}

fn repeats_escalation(alloc: Global, deadlines: &[DeadlineText]) -> Result<bool, Memory>
    ensures { IfOk result (λ repeats. repeats ≡ list_any spec.repeats_escalation deadlines.now) }
{
    for deadline in deadlines {
        if has_repeat(alloc, &deadline.escalations)? {
            return Ok(true);
        }
    }
    Ok(false)
}

fn has_repeat<T: Named>(alloc: Global, items: &[T]) -> Result<bool, Memory>
    ensures { IfOk result (λ repeats. repeats ≡ spec.has_repeat (map T.name_of items.now)) }
{
    let names = names_of(alloc, items)?;
    match name_places(alloc, &names) {
        Ok(_) => Ok(false),
        Err(IndexFault::Repeated(_)) => Ok(true),
        Err(IndexFault::Memory) => Err(Memory),
    }
}
