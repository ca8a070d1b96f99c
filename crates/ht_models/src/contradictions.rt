ghost use Rattle.std.specs.Prelude.{◌≡◌, All, IfNone, false, option_map};
ghost use Rattle.std.specs.List.{list_any};
ghost use Rattle.ht_base.specs.Indexes.{IsIndex};
ghost use Rattle.ht_base.specs.Places.{IsLeastIfAny};
ghost use Rattle.ht_base.specs.Values.{Ascend};
ghost use Rattle.ht_models.specs.Contradictions as spec;
ghost use Rattle.ht_models.specs.Expressions.{declared};
ghost use Rattle.ht_models.specs.Refusals.{IsContradicted};
ghost use Rattle.ht_entries.specs.SubEntries.{AreInOrder};
ghost use Rattle.ht_models.specs.SubTrees.{model_named, names_of};

use crate::declaring::{input_kind, output_kind};
use ht_base::{Kind, Name};
use ht_entries::{DeadlineText, FinishText, Label, ModelEntry, Setting, SubEntry, Trigger};
use ht_expr::is_of_kind;
use std::collections::BTreeMap;

/// The first model that contradicts itself, by the places of the models.
pub fn first_contradicted(places: &BTreeMap<Name, usize>, entries: &[ModelEntry]) -> Option<usize>
    requires { IsIndex places.now (names_of entries.now) }
    ensures first { IsLeastIfAny (IsContradicted entries.now) result }
    ensures order { IfNone result (All (λ m. AreInOrder m.subs) entries.now) }
{
    for (place, entry) in entries.iter().enumerate() {
        if is_contradicted(places, entries, entry) {
            return Some(place);
        }
    }
    None
}

fn is_contradicted(
    places: &BTreeMap<Name, usize>,
    entries: &[ModelEntry],
    entry: &ModelEntry,
) -> bool
    requires { IsIndex places.now (names_of entries.now) }
    ensures value { result ≡ spec.is_contradicted entries.now entry.now }
    ensures order { result ≡ false → AreInOrder entry.now.subs }
{
    owns_without_need(entry)
        || waits_for_owner(entry)
        || has_unfit_sub(places, entries, entry)
        || has_undated_deadline(entry)
        || has_unfit_finish(entry)
        || has_early_default(&entry.finishes)
}

/// Whether tasks that need no owner are given owners.
pub fn owns_without_need(entry: &ModelEntry) -> bool
    ensures { result ≡ spec.owns_without_need entry.now }
{
    !entry.owner_required
        && (entry.potential_owners.is_some()
            || entry.delegation.is_some()
            || entry.delegatees.is_some()
            || is_any_reassigned(&entry.deadlines))
}

fn is_any_reassigned(deadlines: &[DeadlineText]) -> bool
    ensures { result ≡ list_any spec.reassigns deadlines.now }
{
    deadlines.iter().any(|deadline| reassigns(deadline))
}

fn reassigns(deadline: &DeadlineText) -> bool
    ensures { result ≡ spec.reassigns deadline.now }
{
    deadline
        .escalations
        .iter()
        .any(|escalation| escalation.reassign.is_some())
}

/// Whether tasks that need no owner wait for one.
pub fn waits_for_owner(entry: &ModelEntry) -> bool
    ensures { result ≡ spec.waits_for_owner entry.now }
{
    !entry.owner_required && !(is_automatic(entry.instantiation) && is_automatic(entry.completion))
}

fn is_automatic(trigger: Trigger) -> bool
    ensures { result ≡ spec.is_automatic trigger }
{
    matches!(trigger, Trigger::Automatic)
}

/// Whether a sub entry maps parts that aren't there, or two of different kinds. Where none does, all
/// were looked at, and each has its pairs in order, as every sub entry has.
fn has_unfit_sub(places: &BTreeMap<Name, usize>, entries: &[ModelEntry], entry: &ModelEntry) -> bool
    requires { IsIndex places.now (names_of entries.now) }
    ensures value { result ≡ spec.has_unfit_sub entries.now entry.now }
    ensures order { result ≡ false → AreInOrder entry.now.subs }
{
    for sub in &entry.subs {
        if misses_parts(model_named(places, entries, sub.model), entry, sub) {
            return true;
        }
    }
    false
}

fn model_named<'a>(
    places: &BTreeMap<Name, usize>,
    entries: &'a [ModelEntry],
    name: Name,
) -> Option<&'a ModelEntry>
    requires { IsIndex places.now (names_of entries.now) }
    ensures { option_map (λ m. m.now) result ≡ model_named entries.now name }
{
    entries.get(*places.get(&name)?)
}

fn misses_parts(model: Option<&ModelEntry>, entry: &ModelEntry, sub: &SubEntry) -> bool
    ensures value { result
        ≡ list_any (spec.is_unfit_pair (option_map (λ m. m.now) model.entry) (declared entry.now))
        sub.now.input }
    ensures order { Ascend sub.now.input }
{
    sub.input
        .iter()
        .any(|pair| is_unfit_pair(model, entry, pair))
}

fn is_unfit_pair(model: Option<&ModelEntry>, entry: &ModelEntry, pair: &(Label, Label)) -> bool
    ensures { result ≡ spec.is_unfit_pair (option_map (λ m. m.now) model.entry) (declared entry.now)
        pair.now }
{
    let theirs = match model {
        Some(model) => input_kind(model, pair.0.0),
        None => None,
    };
    match theirs {
        Some(kind) => !is_of_kind(kind, input_kind(entry, pair.1.0)),
        None => true,
    }
}

/// Whether the part of a deadline isn't an input of kind instant.
pub fn has_undated_deadline(entry: &ModelEntry) -> bool
    ensures { result ≡ spec.has_undated_deadline entry.now }
{
    entry
        .deadlines
        .iter()
        .any(|deadline| is_undated(entry, deadline))
}

fn is_undated(entry: &ModelEntry, deadline: &DeadlineText) -> bool
    ensures { result ≡ spec.is_undated (declared entry.now) deadline.now.part }
{
    match &deadline.part {
        Some(part) => !is_of_kind(Kind::Instant, input_kind(entry, part.0)),
        None => false,
    }
}

/// Whether a finish sets a part that isn't an output of the aggregate's kind.
pub fn has_unfit_finish(entry: &ModelEntry) -> bool
    ensures { result ≡ spec.has_unfit_finish entry.now }
{
    entry
        .finishes
        .iter()
        .any(|finish| has_unfit_setting(entry, finish))
}

fn has_unfit_setting(entry: &ModelEntry, finish: &FinishText) -> bool
    ensures { result ≡ list_any (spec.is_unfit (declared entry.now)) finish.now.settings }
{
    finish
        .settings
        .iter()
        .any(|setting| is_unfit(entry, setting))
}

fn is_unfit(entry: &ModelEntry, setting: &Setting) -> bool
    ensures { result ≡ spec.is_unfit (declared entry.now) setting.now }
{
    !is_of_kind(setting.how.kind(), output_kind(entry, setting.part))
}

/// Whether a finish without a condition isn't the last.
pub fn has_early_default(finishes: &[FinishText]) -> bool
    ensures { result ≡ spec.has_early_default finishes.now }
{
    if finishes.is_empty() {
        return false;
    }
    let before = &finishes[..finishes.len() - 1];
    before.iter().any(|finish| finish.when.is_none())
}
