//! The exploration of a tableau. Nodes get their places in the order in which they are met, the
//! root first, so that most kids stand behind their node; the plain form is the whole graph of
//! specs/Graphs.antt of tableau_rules. A kid is made once for each node that it is one of, in
//! memory that a known node left, and looked up once: that look-up keeps it, or gives the place of
//! its equal. A tableau of 169,339 nodes took 0.20 s (docs/ARCHITECTURE.md).

ghost use Rattle.std.specs.Prelude.{◌≡◌, ◌<◌, length, map, slice_get, Some, IfOk};
ghost use Rattle.state_space.specs.Spaces.{sizes};
ghost use Rattle.formula_table.specs.Closures.{closure_of};
ghost use Rattle.tableau_rules.specs.Nodes.{NodeForm};
ghost use Rattle.tableau_rules.specs.NodeTurns.{IsTurnOf};
ghost use Rattle.tableau_rules.specs.NodeView.{node_of};
ghost use Rattle.tableau_rules.specs.QueryView.{cores_in};
ghost use Rattle.tableau_graph.specs.Places.{kids_in, AreWithin, IsPlaced, IsKidPlace, IsRow};
ghost use Rattle.tableau_graph.specs.Explorations.{IsExploration};

use crate::joining::joined;
use indexmap::IndexSet;
use smallvec::SmallVec;
use source_sink::Memory;
use state_space::Space;
use std::alloc::Global;
use std::mem::replace;
use tableau_rules::{Graph, Node, NodeTurn, Query, make_kid, root, turn};

/// What an exploration finds.
#[derive(Drop)]
pub enum Explored {
    /// The query has more nodes than the budget, which is given.
    Over(u32),
    /// All nodes of the query.
    Whole(Graph),
}

// The place of a node, which comes last where it is new; none where the nodes are then over the
// budget. What is left of the node is the memory of an equal one that was there before, or none.
fn place(
    alloc: Global,
    nodes: &mut IndexSet<Node>,
    node: &mut Node,
    budget: u32,
) -> Result<Option<u32>, Memory>
    ensures { IfOk result (IsPlaced budget (map node_of nodes.old.keys) (map node_of nodes.new.keys) (node_of node.old)) }
{
    let (place, known) = nodes.replace_full(replace(node, Node::empty(alloc)))?;
    if let Some(known) = known {
        *node = known;
    }
    if nodes.len() > budget as usize {
        return Ok(None);
    }
    Ok(Some(place as u32))
}

// The place of a kid of the node at a place, whose turn is given; none where the nodes are then over
// the budget. The kid is made in the memory of a node that is of no account.
fn kid_place(
    alloc: Global,
    space: &Space,
    query: &Query,
    nodes: &mut IndexSet<Node>,
    at: usize,
    turn: NodeTurn,
    which: u8,
    kid: &mut Node,
    budget: u32,
) -> Result<Option<u32>, Memory>
    requires at { at < length nodes.old.keys }
    requires turn { (n : NodeForm) → slice_get (map node_of nodes.old.keys) at ≡ Some n
        → IsTurnOf (closure_of (cores_in query.now)) n turn.turn turn.formula.0 }
    requires which { (n : NodeForm) → slice_get (map node_of nodes.old.keys) at ≡ Some n
        → which < length (kids_in (sizes space.now) (cores_in query.now) n) }
    requires within { AreWithin (sizes space.now) (cores_in query.now) budget (map node_of nodes.old.keys) }
    ensures { IfOk result (IsKidPlace (sizes space.now) (cores_in query.now) budget (map node_of nodes.old.keys) (map node_of nodes.new.keys) at which) }
{
    make_kid(space, query, &nodes[at], turn, which, kid)?;
    place(alloc, nodes, kid, budget)
}

// The places of the kids of the node at a place, in the order of its rule; none where the nodes are
// then over the budget.
fn row(
    alloc: Global,
    space: &Space,
    query: &Query,
    nodes: &mut IndexSet<Node>,
    at: usize,
    kid: &mut Node,
    budget: u32,
) -> Result<Option<SmallVec<u32, 2>>, Memory>
    requires at { at < length nodes.old.keys }
    requires within { AreWithin (sizes space.now) (cores_in query.now) budget (map node_of nodes.old.keys) }
    ensures { IfOk result (IsRow (sizes space.now) (cores_in query.now) budget (map node_of nodes.old.keys) (map node_of nodes.new.keys) at) }
{
    let turn = turn(query, &nodes[at]);
    let mut places = SmallVec::new(alloc);
    'kids: for which in 0..turn.kid_count() {
        match kid_place(alloc, space, query, nodes, at, turn, which, kid, budget)? {
            Some(place) => places.push(place)?,
            None => return Ok(None),
        }
    }
    Ok(Some(places))
}

/// All nodes that the root of a query leads to, each with the places of its kids, or the budget
/// where they are more than it. It ends with the first node that is over the budget. The one error
/// is that memory runs out.
pub fn explore(alloc: Global, space: &Space, query: &Query, budget: u32) -> Result<Explored, Memory>
    ensures { IfOk result (IsExploration (sizes space.now) (cores_in query.now) budget) }
{
    let mut nodes = IndexSet::new(alloc);
    let mut rows = Vec::new(alloc);
    let mut kid = root(alloc, space, query)?;
    if place(alloc, &mut nodes, &mut kid, budget)?.is_none() {
        return Ok(Explored::Over(budget));
    }
    'rows: while rows.len() < nodes.len() {
        match row(
            alloc,
            space,
            query,
            &mut nodes,
            rows.len(),
            &mut kid,
            budget,
        )? {
            Some(places) => rows.push(places)?,
            None => return Ok(Explored::Over(budget)),
        }
    }
    let nodes = joined(alloc, nodes, rows)?;
    Ok(Explored::Whole(Graph { nodes }))
}
