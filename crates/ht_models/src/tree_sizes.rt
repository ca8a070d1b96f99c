ghost use Rattle.std.specs.Prelude.{◌≡◌, ◌+◌, IfOk, length, map, slice_index_or};
ghost use Rattle.std.specs.List.{range_with_len, sum_by};
ghost use Rattle.ht_models.specs.SubTrees as spec;

use crate::sub_graph::SubGraph;
use ht_base::{LARGEST_TREE, MOST_LEVELS};
use ht_graph::Graph;
use std::alloc::{AllocError, Global};
use std::marker::Model;

/// What is counted of a tree goes no further than this.
const ENOUGH: u32 = LARGEST_TREE + 1;

/// The trees of tasks of each model.
#[derive(Drop)]
pub struct TreeSizes {
    /// How many chains of more levels than there may be begin at each.
    deep: Vec<u32>,
    /// The tasks of each.
    sizes: Vec<u32>,
}

impl Model for TreeSizes {
    ghost use Rattle.ht_models.specs.SubTrees.{TreeCounts};

    ghost Value = { TreeCounts };

    ghost view = { λ t. record { deep = t.deep.items; sizes = t.sizes.items } };
}

impl TreeSizes {
    /// Counts level by level, each by the one below.
    pub fn of(alloc: Global, graph: &SubGraph) -> Result<TreeSizes, AllocError>
        ensures { IfOk result (spec.AreCounted graph.now) }
    {
        let mut level = subs(alloc, graph)?;
        let mut sizes = vec![in alloc; 1; graph.count()]?;
        for _ in 1..MOST_LEVELS {
            sizes = sums(alloc, &sizes, &level)?;
            level = longer(alloc, graph, &level)?;
        }
        Ok(TreeSizes { deep: level, sizes })
    }

    /// The tasks of the tree at a place, or one more than there may be where there are more.
    pub fn size(&self, place: usize) -> u32
        ensures { result ≡ slice_index_or self.now.sizes place 0 }
    {
        count_at(&self.sizes, place)
    }

    /// Whether the tree at a place has more levels or more tasks than a tree may have.
    pub fn is_too_large(&self, place: usize) -> bool
        ensures { result ≡ spec.is_counted_too_large self.now place }
    {
        count_at(&self.deep, place) > 0 || count_at(&self.sizes, place) > LARGEST_TREE
    }
}

fn count_at(counts: &[u32], place: usize) -> u32
    ensures { result ≡ slice_index_or counts.now place 0 }
{
    match counts.get(place) {
        Some(count) => *count,
        None => 0,
    }
}

fn plus(a: u32, b: u32) -> u32
    ensures { result ≡ spec.up_to_enough (a + b) }
{
    a.saturating_add(b).min(ENOUGH)
}

// How many sub entries each has.
fn subs(alloc: Global, graph: &SubGraph) -> Result<Vec<u32>, AllocError>
    ensures { IfOk result (λ subs.
        subs.items ≡ map (λ place. spec.up_to_enough (length (spec.places_at graph.now place)))
        (range_with_len 0 (length graph.now))) }
{
    let mut subs = Vec::new(alloc);
    for place in 0..graph.count() {
        subs.push(up_to_enough(graph.next(place).len()))?;
    }
    Ok(subs)
}

fn up_to_enough(n: usize) -> u32
    ensures { result ≡ spec.up_to_enough n }
{
    n.min(ENOUGH as usize) as u32
}

// The sums of two counts of each place.
fn sums(alloc: Global, counts: &[u32], more: &[u32]) -> Result<Vec<u32>, AllocError>
    ensures { IfOk result (λ sums. sums.items
        ≡ map (λ place.
        spec.up_to_enough (slice_index_or counts.now place 0 + slice_index_or more.now place 0))
        (range_with_len 0 (length counts.now))) }
{
    let mut sums = Vec::new(alloc);
    for place in 0..counts.len() {
        sums.push(plus(count_at(counts, place), count_at(more, place)))?;
    }
    Ok(sums)
}

// Of each place the sum of the counts of those to which it leads.
fn longer(alloc: Global, graph: &SubGraph, counts: &[u32]) -> Result<Vec<u32>, AllocError>
    ensures { IfOk result (λ next.
        next.items
        ≡ map (λ place.
        spec.up_to_enough (sum_by (λ to. slice_index_or counts.now to 0)
        (spec.places_at graph.now place))) (range_with_len 0 (length counts.now))) }
{
    let mut next = Vec::new(alloc);
    for place in 0..counts.len() {
        next.push(sum_of(graph.next(place), counts))?;
    }
    Ok(next)
}

fn sum_of(places: &[usize], counts: &[u32]) -> u32
    ensures { result
        ≡ spec.up_to_enough (sum_by (λ to. slice_index_or counts.now to 0) places.now) }
{
    let mut sum = 0;
    for place in places {
        sum = plus(sum, count_at(counts, *place));
    }
    sum
}
