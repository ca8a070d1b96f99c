ghost use Rattle.std.specs.Prelude.{◌↔◌, IfOk, IsTrue};
ghost use Rattle.ht_base.specs.Places.{IsLeastIfAny};
ghost use Rattle.ht_graph.specs.Graphs.{IsClosed, IsInCycle};

use crate::Graph;
use crate::walking::{is_marked, reached_from};
use std::alloc::{AllocError, Global};

/// The first place that reaches itself, if there is one. It walks from each place in front of it.
pub fn first_cycle<G: Graph>(alloc: Global, graph: &G) -> Result<Option<usize>, AllocError>
    requires { IsClosed (G.count graph.now) (G.next graph.now) }
    ensures { IfOk result (IsLeastIfAny (IsInCycle (G.next graph.now))) }
{
    for place in 0..graph.count() {
        if is_in_cycle(alloc, graph, place)? {
            return Ok(Some(place));
        }
    }
    Ok(None)
}

fn is_in_cycle<G: Graph>(alloc: Global, graph: &G, place: usize) -> Result<bool, AllocError>
    requires { IsClosed (G.count graph.now) (G.next graph.now) }
    ensures { IfOk result (λ is. IsTrue is ↔ IsInCycle (G.next graph.now) place) }
{
    let reached = reached_from(alloc, graph, place)?;
    Ok(is_marked(&reached, place))
}
