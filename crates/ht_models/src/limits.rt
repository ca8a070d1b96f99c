ghost use Rattle.std.specs.Prelude.{◌≡◌, length};
ghost use Rattle.std.specs.List.{count_by, list_any};
ghost use Rattle.ht_base.specs.Places.{IsLeastIfAny};
ghost use Rattle.ht_models.specs.Limits as spec;
ghost use Rattle.ht_models.specs.Refusals.{IsTooMuch};
ghost use Rattle.ht_models.specs.SubTrees.{AreCounted, sub_places};

use crate::tree_sizes::TreeSizes;
use ht_base::{MOST_DEADLINES, MOST_ESCALATIONS, MOST_MODELS, MOST_PARTS, MOST_SUBS};
use ht_entries::{DeadlineKind, DeadlineText, ModelEntry};

/// The first place at which a limit is passed, which is 0 where there are too many models.
pub fn first_too_much(entries: &[ModelEntry], trees: &TreeSizes) -> Option<usize>
    requires { AreCounted (sub_places entries.now) trees.now }
    ensures { IsLeastIfAny (IsTooMuch entries.now) result }
{
    if entries.len() > MOST_MODELS {
        return Some(0);
    }
    for (place, entry) in entries.iter().enumerate() {
        if holds_too_much(entry) || trees.is_too_large(place) {
            return Some(place);
        }
    }
    None
}

/// Whether a model holds more than it may, apart from its tree.
pub fn holds_too_much(entry: &ModelEntry) -> bool
    ensures { result ≡ spec.holds_too_much entry.now }
{
    entry.input.len() > MOST_PARTS
        || entry.output.len() > MOST_PARTS
        || entry.subs.len() > MOST_SUBS
        || starts(&entry.deadlines) > MOST_DEADLINES
        || completions(&entry.deadlines) > MOST_DEADLINES
        || has_many_escalations(&entry.deadlines)
}

fn starts(deadlines: &[DeadlineText]) -> usize
    ensures { result ≡ count_by (λ d. spec.is_start d.kind) deadlines.now }
{
    let mut count = 0;
    for deadline in deadlines {
        if matches!(deadline.kind, DeadlineKind::Start) {
            count += 1;
        }
    }
    count
}

fn completions(deadlines: &[DeadlineText]) -> usize
    ensures { result ≡ count_by (λ d. spec.is_completion d.kind) deadlines.now }
{
    let mut count = 0;
    for deadline in deadlines {
        if matches!(deadline.kind, DeadlineKind::Completion) {
            count += 1;
        }
    }
    count
}

fn has_many_escalations(deadlines: &[DeadlineText]) -> bool
    ensures { result ≡ list_any (λ d. spec.has_more MOST_ESCALATIONS d.escalations) deadlines.now }
{
    deadlines
        .iter()
        .any(|deadline| deadline.escalations.len() > MOST_ESCALATIONS)
}
