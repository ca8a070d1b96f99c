ghost use Rattle.std.specs.Prelude.{◌≡◌, ◌<◌, ◌+◌, ◌↔◌, ℕ, Some, true, false, IfOk, OnOk, length, slice_get, slice_index_or};
ghost use Rattle.ht_graph.specs.Graphs.{IsClosed, IsReached};
ghost use Rattle.ht_graph.specs.Walking.{Meets, unmet};

use crate::Graph;
use std::alloc::{AllocError, Global};

/// For each place whether one step or more lead to it from this one. It meets each place once.
pub fn reached_from<G: Graph>(
    alloc: Global,
    graph: &G,
    from: usize,
) -> Result<Vec<bool>, AllocError>
    requires { IsClosed (G.count graph.now) (G.next graph.now) }
    ensures long { IfOk result (λ met. length met.items ≡ G.count graph.now) }
    ensures reached { IfOk result (λ met. (place : ℕ)
        → (slice_index_or met.items place false ≡ true) ↔ IsReached (G.next graph.now) from place) }
{
    let mut met = vec![in alloc; false; graph.count()]?;
    let mut pending = vec![in alloc; from]?;
    while let Some(place) = pending.pop() {
        meet(graph.next(place), &mut met, &mut pending)?;
    }
    Ok(met)
}

// Marks the places that were not met before, and leaves them to go on from.
fn meet(places: &[usize], met: &mut [bool], pending: &mut Vec<usize>) -> Result<(), AllocError>
    requires { (i place : ℕ) → slice_get places.now i ≡ Some place → place < length met.old }
    ensures meets { OnOk result
        (Meets places.now met.old met.new pending.old.items pending.new.items) }
    ensures counted { OnOk result
        (unmet met.new + length pending.new.items ≡ unmet met.old + length pending.old.items) }
{
    for place in places {
        if !met[*place] {
            met[*place] = true;
            pending.push(*place)?;
        }
    }
    Ok(())
}

/// Whether the place is marked. One beyond the marks isn't.
pub fn is_marked(marks: &[bool], place: usize) -> bool
    ensures { result ≡ slice_index_or marks.now place false }
{
    marks.get(place).copied().unwrap_or(false)
}
