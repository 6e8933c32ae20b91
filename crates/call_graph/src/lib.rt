//! Directed graphs of calls, as the list of the successors of each node.
#![tactic(auto)]

ghost use Rattle.call_graph.specs.Graph.{AreCalleesFirst, AreGroups, Successors};
ghost use Rattle.call_graph.specs.Walk.{IsOrder, IsPast, IsWalk};
ghost use Rattle.std.specs.Prelude.{◌≡◌, ℕ, ◌<◌, [], IfOk, length, slice_get, vec_len};

mod walk;

use crate::walk::Walk;
use cstar_base::Memory;
use std::alloc::Global;

/// A walk that has come to all nodes.
fn walked(alloc: Global, graph: &[Vec<u32>]) -> Result<Walk, Memory>
    ensures walk { IfOk result (λ walk. IsWalk (Successors graph.now) walk.places.items walk.ungrouped.items []) }
    ensures order { IfOk result (λ walk. IsOrder (Successors graph.now) walk.places.items walk.order.items) }
    ensures come { IfOk result (λ walk. (node : ℕ) → node < length graph.now → IsPast 0 (slice_get walk.places.items node)) }
{
    let mut walk = Walk::new(alloc, graph.len())?;
    for root in 0..graph.len() {
        walk.go_from(graph, root)?;
    }
    Ok(walk)
}

/// The nodes in the order in which a walk in depth leaves their groups: where the graph has no
/// cycle, each one behind all its successors.
pub fn finishing_order(alloc: Global, graph: &[Vec<u32>]) -> Result<Vec<usize>, Memory>
    ensures { IfOk result (λ order. AreCalleesFirst (Successors graph.now) order.items) }
{
    let Walk { order, .. } = walked(alloc, graph)?;
    Ok(order)
}

/// The group of each node: two nodes are of one group if each is reached from the other.
pub fn groups(alloc: Global, graph: &[Vec<u32>]) -> Result<Vec<usize>, Memory>
    ensures length { IfOk result (λ groups. vec_len groups ≡ length graph.now) }
    ensures exact { IfOk result (λ groups. AreGroups (Successors graph.now) groups.items) }
{
    walked(alloc, graph)?.groups(alloc)
}
