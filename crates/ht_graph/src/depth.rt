ghost use Rattle.std.specs.Prelude.{◌≡◌, ◌↔◌, false, IfOk, IsTrue, length, map, slice_index_or};
ghost use Rattle.std.specs.List.{list_any, range_with_len};
ghost use Rattle.ht_graph.specs.Graphs.{IsClosed, IsDeeper};

use crate::Graph;
use crate::walking::is_marked;
use std::alloc::{AllocError, Global};

/// Whether there is a chain of more steps than these. It goes round by round, of which each tells
/// for each place whether a chain of one more step begins there.
pub fn is_deeper<G: Graph>(alloc: Global, graph: &G, most: u32) -> Result<bool, AllocError>
    requires { IsClosed (G.count graph.now) (G.next graph.now) }
    ensures { IfOk result (λ deep. IsTrue deep ↔ IsDeeper (G.next graph.now) most) }
{
    let mut long = vec![in alloc; true; graph.count()]?;
    for _ in 0..most {
        long = longer(alloc, graph, &long)?;
    }
    let long = longer(alloc, graph, &long)?;
    Ok(is_any_marked(&long))
}

fn is_any_marked(marks: &[bool]) -> bool
    ensures { result ≡ list_any (λ b. b) marks.now }
{
    marks.iter().any(|b| *b)
}

// For each place whether a chain of one more step begins there.
fn longer<G: Graph>(alloc: Global, graph: &G, long: &[bool]) -> Result<Vec<bool>, AllocError>
    ensures { IfOk result (λ next. next.items
        ≡ map (λ place. list_any (λ to. slice_index_or long.now to false) (G.next graph.now place))
        (range_with_len 0 (length long.now))) }
{
    let mut next = Vec::new(alloc);
    for place in 0..long.len() {
        next.push(is_any(graph.next(place), long))?;
    }
    Ok(next)
}

fn is_any(places: &[usize], long: &[bool]) -> bool
    ensures { result ≡ list_any (λ place. slice_index_or long.now place false) places.now }
{
    for place in places {
        if is_marked(long, *place) {
            return true;
        }
    }
    false
}
