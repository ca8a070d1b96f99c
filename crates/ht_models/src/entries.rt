ghost use Rattle.std.specs.Prelude.{◌≡◌, true, false, IfNone, IfOk, IfSome, Some, map};
ghost use Rattle.toml.specs.View.{table_view, view};
ghost use Rattle.ht_models.specs.ModelsText as spec;
ghost use Rattle.ht_models.specs.ModelsText.{IsMisshapen, is_top, models_text};
ghost use Rattle.ht_toml.specs.Refusals.{Passes, refused};

use crate::ModelsRefusal;
use ht_entries::ModelEntry;
use ht_toml::{EntriesFault, array_at, each, has_only};
use std::alloc::Global;
use toml::{Table, Value};

/// What a document says, or the first entry that has another shape.
pub fn entries_of(alloc: Global, document: &Table) -> Result<Vec<ModelEntry>, ModelsRefusal>
    ensures ok { IfOk result
        (λ entries. models_text (table_view document.now) ≡ Some entries.items) }
    ensures passes { Passes ModelsRefusal.Memory
        (refused ModelsRefusal.Field (IsMisshapen (table_view document.now))) result }
{
    let Some(values) = values_of(document) else {
        return Err(ModelsRefusal::Field(0));
    };
    match each(alloc, values) {
        Ok(entries) => Ok(entries),
        Err(EntriesFault::Misshapen(place)) => Err(ModelsRefusal::Field(place)),
        Err(EntriesFault::Memory) => Err(ModelsRefusal::Memory),
    }
}

/// The entries of the document, whose one top key is an array of them.
fn values_of(document: &Table) -> Option<&[Value]>
    ensures some { let ms = table_view document.now in
        IfSome result (λ values. (is_top ms ≡ true) × (map view values.now ≡ spec.entries ms)) }
    ensures none { IfNone result (is_top (table_view document.now) ≡ false) }
{
    if !has_only(document, &["model"]) {
        return None;
    }
    match array_at(document, "model") {
        Some([]) | None => None,
        Some(values) => Some(values),
    }
}
