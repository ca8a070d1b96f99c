ghost use Rattle.std.specs.Prelude.{◌≡◌, ℕ, List, IfOk, length};
ghost use Rattle.ht_base.specs.Indexes.{IsIndex};
ghost use Rattle.ht_graph.specs.Graphs.{IsClosed, IsInCycle};
ghost use Rattle.ht_toml.specs.Refusals.{Passes, refused};
ghost use Rattle.ht_models.specs.SubTrees as spec;

use crate::ModelsRefusal;
use ht_base::Name;
use ht_entries::ModelEntry;
use ht_graph::{Graph, first_cycle};
use std::alloc::{AllocError, Global};
use std::collections::BTreeMap;
use std::marker::Model;

/// The places of the models of a model's sub entries.
#[derive(Drop)]
struct SubPlaces {
    places: Vec<usize>,
}

impl Model for SubPlaces {
    ghost use Rattle.std.specs.Prelude.{ℕ, List};

    ghost Value = { List ℕ };

    ghost view = { λ b. b.places.items };
}

/// The models of a text, of which each leads to those of its sub entries.
#[derive(Drop)]
pub struct SubGraph {
    next: Vec<SubPlaces>,
}

impl Model for SubGraph {
    ghost use Rattle.std.specs.Prelude.{ℕ, List};

    ghost Value = { List (List ℕ) };

    ghost view = { λ g. g.next.items };
}

impl Graph for SubGraph {
    ghost use Rattle.std.specs.Prelude.{length};
    ghost use Rattle.ht_models.specs.SubTrees.{places_at};

    ghost count = { λ g. length g };

    ghost next = { places_at };

    fn count(&self) -> usize {
        self.next.len()
    }

    fn next(&self, place: usize) -> &[usize] {
        match self.next.get(place) {
            Some(subs) => &subs.places,
            None => &[],
        }
    }
}

/// The graph of models with these places.
pub fn sub_graph(
    alloc: Global,
    places: &BTreeMap<Name, usize>,
    entries: &[ModelEntry],
) -> Result<SubGraph, AllocError>
    requires { IsIndex places.now (spec.names_of entries.now) }
    ensures { IfOk result (λ graph. graph ≡ spec.sub_places entries.now) }
{
    let mut next = Vec::new(alloc);
    for entry in entries {
        next.push(sub_places(alloc, places, entry)?)?;
    }
    Ok(SubGraph { next })
}

fn sub_places(
    alloc: Global,
    places: &BTreeMap<Name, usize>,
    entry: &ModelEntry,
) -> Result<SubPlaces, AllocError>
    ensures { IfOk result (λ below.
        (names : List (List ℕ)) → IsIndex places.now names → below ≡ spec.below names entry.now) }
{
    let mut below = Vec::new(alloc);
    for sub in &entry.subs {
        if let Some(place) = places.get(&sub.model) {
            below.push(*place)?;
        }
    }
    Ok(SubPlaces { places: below })
}

/// Refuses a model that reaches itself by sub entries.
pub fn check_cycles(alloc: Global, graph: &SubGraph) -> Result<(), ModelsRefusal>
    requires { IsClosed (length graph.now) (spec.places_at graph.now) }
    ensures { Passes ModelsRefusal.Memory
        (refused ModelsRefusal.Cycle (IsInCycle (spec.places_at graph.now))) result }
{
    match first_cycle(alloc, graph)? {
        Some(place) => Err(ModelsRefusal::Cycle(place)),
        None => Ok(()),
    }
}
