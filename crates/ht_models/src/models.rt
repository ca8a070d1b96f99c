ghost use Rattle.std.specs.Prelude.{◌≡◌, ◌*◌, ◌≤◌, ◌<◌, ℕ, IfSome, Some, length, slice_get};
ghost use Rattle.ht_base.specs.declared.limits.TheConstants.{LARGEST_TREE, MOST_DEADLINES, MOST_MODELS};
ghost use Rattle.ht_base.specs.Places.{place_in};
ghost use Rattle.ht_toml.specs.Refusals as text_reads;
ghost use Rattle.ht_toml.specs.Refusals.{each_of};
ghost use Rattle.ht_models.specs.DeclaredParts.{DeclareOnce};
ghost use Rattle.ht_models.specs.Kinded.{IsKinded};
ghost use Rattle.ht_models.specs.MappedInputs.{AreMapped};
ghost use Rattle.ht_models.specs.Model.{ModelOf, names};
ghost use Rattle.ht_models.specs.Reading.{AreModels, Reads};
ghost use Rattle.ht_models.specs.Reassigning.{ReassignOwned};
ghost use Rattle.ht_models.specs.Refusals.{model_refusals};
ghost use Rattle.ht_models.specs.SetOutputs.{SetOutputs};
ghost use Rattle.ht_models.specs.Shown.{model_of};
ghost use Rattle.ht_models.specs.TreeSizes.{AreSized};

use crate::contradictions::first_contradicted;
use crate::entries::entries_of;
use crate::index::{check_known, places_of};
use crate::limits::first_too_much;
use crate::reading::models_of;
use crate::sub_graph::{check_cycles, sub_graph};
use crate::tree_sizes::TreeSizes;
use crate::{Model, ModelsRefusal};
use ht_base::Name;
use ht_entries::ModelEntry;
use ht_toml::document;
use std::alloc::Global;
use std::collections::BTreeMap;
use std::marker;

/// The task models of an office, which have distinct names. A contract sees them as a list, in the
/// order of the text.
#[derive(Drop)]
pub struct Models {
    models: Vec<Model>,
    places: BTreeMap<Name, usize>,
}

impl marker::Model for Models {
    ghost use Rattle.std.specs.Prelude.{List, map};
    ghost use Rattle.std.specs.Coded.{codes};
    ghost use Rattle.ht_expr.specs.Codes.{coded_tree};
    ghost use Rattle.ht_models.specs.Model.{ModelOf};

    ghost Value = { List ModelOf };

    ghost coded = { Prim.hlevel (codes, coded_tree) };

    ghost use Rattle.ht_models.specs.Kept.{IsKept};
    ghost use Rattle.ht_models.specs.Shown.{model_of};

    ghost view = { λ m. map model_of m.models.items };

    ghost invariant = { IsKept };
}

impl Models {
    /// The models of a TOML text, or the first cause for which the text is refused.
    ///
    /// The text's one top key is `model`, an array of 1 to `MOST_MODELS` tables, whose keys docs/USING.md
    /// lists. Each has a `name`. All its other keys may be missing. A text of an expression or an
    /// assignment is one that [`Expr::read`] or [`Assign::read`] reads with the parts of the model.
    ///
    /// [`Expr::read`]: ht_expr::Expr::read
    /// [`Assign::read`]: ht_expr::Assign::read
    pub fn read(alloc: Global, text: &[u8]) -> Result<Models, ModelsRefusal>
        ensures { Reads text.now result }
    {
        let document = document(alloc, text)?;
        let entries = entries_of(alloc, &document)?;
        Models::of_entries(alloc, entries)
    }

    // What is told behind the expressions is looked up before them, since the entries become the
    // models.
    fn of_entries(alloc: Global, entries: Vec<ModelEntry>) -> Result<Models, ModelsRefusal>
        requires { 1 ≤ length entries.items }
        ensures { text_reads.Reads ModelsRefusal.Memory (each_of entries.items model_refusals)
            (AreModels entries.items) result }
    {
        let places = places_of(alloc, &entries)?;
        check_known(&places, &entries)?;
        let graph = sub_graph(alloc, &places, &entries)?;
        check_cycles(alloc, &graph)?;
        let trees = TreeSizes::of(alloc, &graph)?;
        let too_much = first_too_much(&entries, &trees);
        let contradicted = first_contradicted(&places, &entries);
        let models = models_of(alloc, entries, &trees)?;
        match (too_much, contradicted) {
            (Some(place), _) => Err(ModelsRefusal::Limit(place)),
            (None, Some(place)) => Err(ModelsRefusal::Contradiction(place)),
            (None, None) => Ok(Models { models, places }),
        }
    }

    /// The place of the model with this name, counted from 0, if there is one.
    pub fn find(&self, name: Name) -> Option<u32>
        ensures value { result ≡ place_in name (names self.now) }
        ensures within { IfSome result (λ place. place < length self.now) }
    {
        let place = *self.places.get(&name)?;
        Some(place as u32)
    }

    /// The model at a place, counted from 0.
    pub fn model(&self, place: u32) -> &Model
        requires { place < length self.now }
        ensures value { slice_get self.now place ≡ Some (model_of result.now) }
        ensures found { place_in result.now.name (names self.now) ≡ Some place }
        ensures size { (1 ≤ result.now.size) × (result.now.size ≤ LARGEST_TREE) }
        ensures kinds { IsKinded result.now }
        ensures trees { AreSized self.now }
        ensures parts { DeclareOnce self.now }
        ensures inputs { AreMapped self.now }
        ensures outputs { SetOutputs self.now }
        ensures owned { ReassignOwned self.now }
        ensures deadlines { length result.now.deadlines.items ≤ 2 * MOST_DEADLINES }
    {
        &self.models[place as usize]
    }

    /// The number of models, from 1 to `MOST_MODELS`.
    pub fn count(&self) -> u32
        ensures value { result ≡ length self.now }
        ensures some { 1 ≤ result }
        ensures few { result ≤ MOST_MODELS }
        ensures sizes { (place : ℕ) (m : ModelOf) → slice_get self.now place ≡ Some m
            → (1 ≤ m.size) × (m.size ≤ LARGEST_TREE) }
        ensures trees { AreSized self.now }
        ensures parts { DeclareOnce self.now }
        ensures inputs { AreMapped self.now }
        ensures outputs { SetOutputs self.now }
    {
        self.models.len() as u32
    }
}
