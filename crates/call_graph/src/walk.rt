//! The walk that finds the groups of a graph: in depth, with the nodes that have no group yet in
//! the order in which it came to them.
#![tactic(auto)]

ghost use Rattle.call_graph.specs.Graph.{Successors};
ghost use Rattle.call_graph.specs.Walk.{Advances, Closes, IsOrder, IsPast, IsWalk, Moves, first_visit, group_at, lowered_by, place_of, step_at};
ghost use Rattle.std.specs.Prelude.{◌≡◌, ℕ, ◌<◌, ◌≤◌, ◌∷◌, ◌++◌, ◌-◌, [], IfOk, IfSome, drop, length, map, replicate, reverse, slice_get, slice_set, take, vec_len};

use cstar_base::Memory;
use std::alloc::Global;

/// Where a node stands in the walk.
#[derive(Clone, Copy)]
pub enum Place {
    /// The walk has not come to it.
    New,
    /// It has no group yet, and this number among the nodes that have none.
    Open(usize),
    /// Its group, as the node of the group that the walk came to first.
    Grouped(usize),
}

/// A node on the way of the walk.
#[derive(Clone, Copy)]
pub struct Visit {
    /// The node.
    pub node: usize,
    /// Its number among the nodes that have no group.
    pub number: usize,
    /// The lowest number that it is known to lead back to.
    pub lowest: usize,
    /// How many of its successors are done.
    pub next: usize,
}

/// The walk: where each node stands, the nodes without a group, the way to the present one, and the
/// nodes with a group in the order in which they got it.
#[derive(Drop)]
pub struct Walk {
    pub places: Vec<Place>,
    pub ungrouped: Vec<usize>,
    pub path: Vec<Visit>,
    pub order: Vec<usize>,
}

/// The successor to which the visit comes next.
fn successor(graph: &[Vec<u32>], visit: &Visit) -> Option<usize>
    ensures node { result ≡ step_at (Successors graph.now) visit.now.node visit.now.next }
    ensures more { IfSome result (λ _. visit.now.next < usize.MAX) }
{
    let successors = graph.get(visit.node)?;
    let successor = successors.get(visit.next)?;
    Some(*successor as usize)
}

/// Gives the nodes a group.
fn set_group(places: &mut [Place], nodes: &[usize], root: usize)
    requires { (n node : ℕ) → slice_get nodes.now n ≡ Some node → node < length places.old }
    ensures shut { (n node : ℕ) → slice_get nodes.now n ≡ Some node → slice_get places.new node ≡ Some (Place.Grouped root) }
    ensures kept { (node : ℕ) → ((n : ℕ) → slice_get nodes.now n ≡ Some node → ⊥) → slice_get places.new node ≡ slice_get places.old node }
{
    for node in nodes {
        places[*node] = Place::Grouped(root);
    }
}

impl Walk {
    /// A walk over so many nodes that has come to none.
    pub fn new(alloc: Global, nodes: usize) -> Result<Walk, Memory>
        ensures places { IfOk result (λ walk. walk.places.items ≡ replicate nodes Place.New) }
        ensures ungrouped { IfOk result (λ walk. walk.ungrouped.items ≡ []) }
        ensures path { IfOk result (λ walk. walk.path.items ≡ []) }
        ensures order { IfOk result (λ walk. walk.order.items ≡ []) }
    {
        Ok(Walk {
            places: vec![in alloc; Place::New; nodes]?,
            ungrouped: Vec::new(alloc),
            path: Vec::new(alloc),
            order: Vec::new(alloc),
        })
    }

    /// Comes to a new node.
    fn enter(&mut self, node: usize) -> Result<(), Memory>
        requires { node < vec_len self.old.places }
        ensures places { IfOk result
            (λ _. self.new.places.items ≡ slice_set self.old.places.items node (Place.Open (vec_len self.old.ungrouped))) }
        ensures ungrouped { IfOk result (λ _. self.new.ungrouped.items ≡ self.old.ungrouped.items ++ node ∷ []) }
        ensures path { IfOk result
            (λ _. reverse self.new.path.items ≡ first_visit node (vec_len self.old.ungrouped) ∷ reverse self.old.path.items) }
        ensures order { self.new.order.items ≡ self.old.order.items }
    {
        let number = self.ungrouped.len();
        self.places[node] = Place::Open(number);
        self.ungrouped.push(node)?;
        self.path.push(Visit {
            node,
            number,
            lowest: number,
            next: 0,
        })?;
        Ok(())
    }

    /// Goes back on the way, from where the walk is known to lead back to the number.
    fn lower(&mut self, number: usize) -> Result<(), Memory>
        ensures places { self.new.places.items ≡ self.old.places.items }
        ensures ungrouped { self.new.ungrouped.items ≡ self.old.ungrouped.items }
        ensures path { IfOk result
            (λ _. reverse self.new.path.items ≡ lowered_by number (reverse self.old.path.items)) }
        ensures order { self.new.order.items ≡ self.old.order.items }
    {
        if let Some(caller) = self.path.pop() {
            let lowest = caller.lowest.min(number);
            self.path.push(Visit { lowest, ..caller })?;
        }
        Ok(())
    }

    /// Gives the nodes from the number on their group.
    fn close(&mut self, number: usize, root: usize) -> Result<(), Memory>
        requires within { number ≤ vec_len self.old.ungrouped }
        requires node { (node n : ℕ) → slice_get self.old.ungrouped.items n ≡ Some node → slice_get self.old.places.items node ≡ Some (Place.Open n) }
        ensures places { IfOk result (λ _. Closes self.old.ungrouped.items number root self.old.places.items self.new.places.items) }
        ensures ungrouped { IfOk result (λ _. self.new.ungrouped.items ≡ take number self.old.ungrouped.items) }
        ensures path { self.new.path.items ≡ self.old.path.items }
        ensures order { IfOk result
            (λ _. self.new.order.items ≡ self.old.order.items ++ take (length self.old.ungrouped.items - number) (drop number self.old.ungrouped.items)) }
    {
        set_group(&mut self.places, &self.ungrouped[number..], root);
        self.order.extend_from_slice(&self.ungrouped[number..])?;
        self.ungrouped.truncate(number);
        Ok(())
    }

    /// Where the node stands. One that is not in the graph is a group of its own.
    fn place(&self, node: usize) -> Place
        ensures { result ≡ place_of node (slice_get self.now.places.items node) }
    {
        match self.places.get(node) {
            Some(place) => *place,
            None => Place::Grouped(node),
        }
    }

    /// Goes on by one step from the visit, which is the last of the way.
    fn advance(&mut self, graph: &[Vec<u32>], visit: Visit) -> Result<(), Memory>
        requires walk { IsWalk (Successors graph.now) self.old.places.items self.old.ungrouped.items (visit ∷ reverse self.old.path.items) }
        requires order { IsOrder (Successors graph.now) self.old.places.items self.old.order.items }
        ensures order { IfOk result (λ _. IsOrder (Successors graph.now) self.new.places.items self.new.order.items) }
        ensures walk { IfOk result
            (λ _. Advances (Successors graph.now) self.old.places.items (visit ∷ reverse self.old.path.items) self.new.places.items self.new.ungrouped.items (reverse self.new.path.items)) }
    {
        let Some(node) = successor(graph, &visit) else {
            if visit.lowest < visit.number {
                return self.lower(visit.lowest);
            }
            return self.close(visit.number, visit.node);
        };
        let next = visit.next + 1;
        match self.place(node) {
            Place::New => {
                self.path.push(Visit { next, ..visit })?;
                self.enter(node)
            }
            Place::Open(number) => {
                let lowest = visit.lowest.min(number);
                self.path.push(Visit {
                    lowest,
                    next,
                    ..visit
                })?;
                Ok(())
            }
            Place::Grouped(_) => {
                self.path.push(Visit { next, ..visit })?;
                Ok(())
            }
        }
    }

    /// Comes to the node, if it is new, and gives a group to every node that it leads to.
    pub fn go_from(&mut self, graph: &[Vec<u32>], root: usize) -> Result<(), Memory>
        requires walk { IsWalk (Successors graph.now) self.old.places.items self.old.ungrouped.items [] }
        requires path { self.old.path.items ≡ [] }
        requires order { IsOrder (Successors graph.now) self.old.places.items self.old.order.items }
        requires root { root < length graph.now }
        ensures walk { IfOk result (λ _. IsWalk (Successors graph.now) self.new.places.items self.new.ungrouped.items []) }
        ensures path { IfOk result (λ _. self.new.path.items ≡ []) }
        ensures moves { IfOk result (λ _. Moves self.old.places.items self.new.places.items) }
        ensures order { IfOk result (λ _. IsOrder (Successors graph.now) self.new.places.items self.new.order.items) }
        ensures root { IfOk result (λ _. IsPast 0 (slice_get self.new.places.items root)) }
    {
        let Place::New = self.place(root) else {
            return Ok(());
        };
        self.enter(root)?;
        'steps: while let Some(visit) = self.path.pop() {
            self.advance(graph, visit)?;
        }
        Ok(())
    }

    /// The groups of the nodes.
    pub fn groups(&self, alloc: Global) -> Result<Vec<usize>, Memory>
        ensures { IfOk result (λ groups. groups.items ≡ map group_at self.now.places.items) }
    {
        let mut groups = Vec::new(alloc);
        for place in &self.places {
            groups.push(place.group())?;
        }
        Ok(groups)
    }
}

impl Place {
    /// The group that the place names.
    fn group(&self) -> usize
        ensures { result ≡ group_at self.now }
    {
        match self {
            Place::Grouped(root) => *root,
            Place::New | Place::Open(_) => 0,
        }
    }
}
