ghost use Rattle.std.specs.Prelude.{◌≡◌, ◌≢◌, ◌<◌, ℕ, All, IfErr, IfOk, Some, map, slice_get, slice_index_or};
ghost use Rattle.std.specs.List.{AllZip, flat_map};
ghost use Rattle.ht_toml.specs.Refusals.{Passes, refused};
ghost use Rattle.ht_models.specs.Expressions.{HasRefused, IsRefused, One, of_deadline, of_escalation, of_finish};
ghost use Rattle.ht_models.specs.Kinded.{Ends, Escalates, HasTruth, SpeaksOfParts};
ghost use Rattle.ht_models.specs.Model.{ModelOf};
ghost use Rattle.ht_models.specs.Reading.{IsDeadline, IsEscalation, IsFinish, IsModel};
ghost use Rattle.ht_models.specs.Refusals.{IsUnreadable};
ghost use Rattle.ht_models.specs.Shown.{deadline_of, escalation_of, finish_of, model_of};

use crate::declaring::declared;
use crate::expressions::{assignment_if_any, assignment_or_nobody, expression_if_any};
use crate::model::{Deadline, Escalation, Finish};
use crate::tree_sizes::TreeSizes;
use crate::{Model, ModelsRefusal};
use ht_base::Kind;
use ht_entries::{DeadlineText, Delegation, EscalationText, FinishText, ModelEntry};
use ht_expr::{ExprRefusal, Kinds};
use std::alloc::Global;

/// The models of all entries, or the first that has an expression which is refused.
pub fn models_of(
    alloc: Global,
    entries: Vec<ModelEntry>,
    trees: &TreeSizes,
) -> Result<Vec<Model>, ModelsRefusal>
    ensures models { IfOk result
        (λ models. AllZip IsModel entries.items (map model_of models.items)) }
    ensures sizes { IfOk result (λ models.
        (place : ℕ) (m : ModelOf) → slice_get (map model_of models.items) place ≡ Some m
        → m.size ≡ slice_index_or trees.now.sizes place 0) }
    ensures kinds { IfOk result (λ models. All SpeaksOfParts models.items) }
    ensures passes { Passes ModelsRefusal.Memory
        (refused ModelsRefusal.Expression (IsUnreadable entries.items)) result }
{
    let mut models = Vec::new(alloc);
    for entry in entries {
        let place = models.len();
        match model(alloc, entry, trees.size(place)) {
            Ok(model) => models.push(model)?,
            Err(refusal) => return Err(refused_at(place, refusal)),
        }
    }
    Ok(models)
}

fn refused_at(place: usize, refusal: ExprRefusal) -> ModelsRefusal
    ensures memory { refusal ≡ ExprRefusal.Memory → result ≡ ModelsRefusal.Memory }
    ensures expression { refusal ≢ ExprRefusal.Memory → result ≡ ModelsRefusal.Expression place }
{
    match refusal {
        ExprRefusal::Memory => ModelsRefusal::Memory,
        _ => ModelsRefusal::Expression(place),
    }
}

fn model(alloc: Global, entry: ModelEntry, size: u32) -> Result<Model, ExprRefusal>
    ensures ok { IfOk result (λ model. IsModel entry (model_of model)) }
    ensures size { IfOk result (λ model. model.size ≡ size) }
    ensures kinds { IfOk result SpeaksOfParts }
    ensures refused { IfErr result (λ e. e ≢ ExprRefusal.Memory → HasRefused entry) }
{
    let kinds = declared(alloc, &entry)?;
    Ok(Model {
        name: entry.name,
        priority: expression_if_any(alloc, Kind::Int, &entry.priority, &kinds)?,
        skipable: entry.skipable,
        owner_required: entry.owner_required,
        delegation: entry.delegation.unwrap_or(Delegation::Anybody),
        delegatees: assignment_if_any(alloc, &entry.delegatees, &kinds)?,
        potential_owners: assignment_or_nobody(alloc, &entry.potential_owners, &kinds)?,
        excluded_owners: assignment_or_nobody(alloc, &entry.excluded_owners, &kinds)?,
        administrators: assignment_if_any(alloc, &entry.administrators, &kinds)?,
        stakeholders: assignment_if_any(alloc, &entry.stakeholders, &kinds)?,
        composition: entry.composition,
        instantiation: entry.instantiation,
        completion: entry.completion,
        deadlines: deadlines_of(alloc, &entry.deadlines, &kinds)?,
        finishes: finishes_of(alloc, entry.finishes, &kinds)?,
        input: entry.input,
        output: entry.output,
        subs: entry.subs,
        size,
    })
}

fn deadlines_of(
    alloc: Global,
    texts: &[DeadlineText],
    kinds: &Kinds,
) -> Result<Vec<Deadline>, ExprRefusal>
    ensures ok { IfOk result
        (λ deadlines. AllZip (IsDeadline kinds.now) texts.now (map deadline_of deadlines.items)) }
    ensures kinds { IfOk result (λ deadlines. All (Ends kinds.now) deadlines.items) }
    ensures refused { IfErr result
        (λ e. e ≢ ExprRefusal.Memory → One (IsRefused kinds.now) (flat_map of_deadline texts.now)) }
{
    let mut deadlines = Vec::new(alloc);
    for text in texts {
        deadlines.push(deadline(alloc, text, kinds)?)?;
    }
    Ok(deadlines)
}

fn deadline(alloc: Global, text: &DeadlineText, kinds: &Kinds) -> Result<Deadline, ExprRefusal>
    ensures ok { IfOk result (λ deadline. IsDeadline kinds.now text.now (deadline_of deadline)) }
    ensures kinds { IfOk result (Ends kinds.now) }
    ensures refused { IfErr result
        (λ e. e ≢ ExprRefusal.Memory → One (IsRefused kinds.now) (of_deadline text.now)) }
{
    Ok(Deadline {
        name: text.name,
        kind: text.kind,
        period: text.period.as_ref().map(|period| period.0),
        at: text.at.as_ref().map(|at| at.0),
        part: text.part.as_ref().map(|part| part.0),
        escalations: escalations_of(alloc, &text.escalations, kinds)?,
    })
}

fn escalations_of(
    alloc: Global,
    texts: &[EscalationText],
    kinds: &Kinds,
) -> Result<Vec<Escalation>, ExprRefusal>
    ensures ok { IfOk result (λ escalations.
        AllZip (IsEscalation kinds.now) texts.now (map escalation_of escalations.items)) }
    ensures kinds { IfOk result (λ escalations. All (Escalates kinds.now) escalations.items) }
    ensures refused { IfErr result (λ e.
        e ≢ ExprRefusal.Memory → One (IsRefused kinds.now) (flat_map of_escalation texts.now)) }
{
    let mut escalations = Vec::new(alloc);
    for text in texts {
        escalations.push(escalation(alloc, text, kinds)?)?;
    }
    Ok(escalations)
}

fn escalation(
    alloc: Global,
    text: &EscalationText,
    kinds: &Kinds,
) -> Result<Escalation, ExprRefusal>
    ensures ok { IfOk result
        (λ escalation. IsEscalation kinds.now text.now (escalation_of escalation)) }
    ensures kinds { IfOk result (Escalates kinds.now) }
    ensures refused { IfErr result
        (λ e. e ≢ ExprRefusal.Memory → One (IsRefused kinds.now) (of_escalation text.now)) }
{
    Ok(Escalation {
        name: text.name,
        when: expression_if_any(alloc, Kind::Truth, &text.when, kinds)?,
        notify: assignment_if_any(alloc, &text.notify, kinds)?,
        reassign: assignment_if_any(alloc, &text.reassign, kinds)?,
    })
}

fn finishes_of(
    alloc: Global,
    texts: Vec<FinishText>,
    kinds: &Kinds,
) -> Result<Vec<Finish>, ExprRefusal>
    ensures ok { IfOk result
        (λ finishes. AllZip (IsFinish kinds.now) texts.items (map finish_of finishes.items)) }
    ensures kinds { IfOk result (λ finishes. All (HasTruth kinds.now) finishes.items) }
    ensures refused { IfErr result
        (λ e. e ≢ ExprRefusal.Memory → One (IsRefused kinds.now) (flat_map of_finish texts.items)) }
{
    let mut finishes = Vec::new(alloc);
    for text in texts {
        finishes.push(finish(alloc, text, kinds)?)?;
    }
    Ok(finishes)
}

fn finish(alloc: Global, text: FinishText, kinds: &Kinds) -> Result<Finish, ExprRefusal>
    ensures ok { IfOk result (λ finish. IsFinish kinds.now text (finish_of finish)) }
    ensures kinds { IfOk result (HasTruth kinds.now) }
    ensures refused { IfErr result
        (λ e. e ≢ ExprRefusal.Memory → One (IsRefused kinds.now) (of_finish text)) }
{
    Ok(Finish {
        when: expression_if_any(alloc, Kind::Truth, &text.when, kinds)?,
        settings: text.settings,
    })
}
