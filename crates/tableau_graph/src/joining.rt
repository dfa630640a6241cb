//! Nodes and the places of their kids, moved into one list: at the end of an exploration no node is
//! copied, however many there are.

ghost use Rattle.std.specs.Prelude.{◌≡◌, ◌<◌, [], ◌∷◌, ◌++◌, length, map, IfOk};
ghost use Rattle.tableau_rules.specs.NodeView.{node_of};
ghost use Rattle.tableau_rules.specs.GraphView.{graph_node_of};
ghost use Rattle.tableau_graph.specs.Joined.{join, rows_in};

use indexmap::IndexSet;
use smallvec::SmallVec;
use source_sink::Memory;
use std::alloc::Global;
use tableau_rules::{GraphNode, Node};

// The last node, taken out.
fn take_last(nodes: &mut IndexSet<Node>) -> Node
    requires { 0 < length nodes.old.keys }
    ensures { nodes.old.keys ≡ nodes.new.keys ++ result ∷ [] }
{
    match nodes.pop() {
        Some(node) => node,
        None => unreachable!(),
    }
}

/// Each node with its row, in order. Nothing is copied: both are taken from the end on, which leaves
/// the places of those before.
pub(crate) fn joined(
    alloc: Global,
    nodes: IndexSet<Node>,
    rows: Vec<SmallVec<u32, 2>>,
) -> Result<Vec<GraphNode>, Memory>
    requires { length nodes.keys ≡ length rows.items }
    ensures { IfOk result (λ graph. map graph_node_of graph.items ≡ join (map node_of nodes.keys) (rows_in rows.items)) }
{
    let mut nodes = nodes;
    let mut rows = rows;
    let mut graph = Vec::with_capacity(alloc, rows.len())?;
    'last: while let Some(kids) = rows.pop() {
        let node = take_last(&mut nodes);
        graph.push(GraphNode { node, kids })?;
    }
    graph.reverse();
    Ok(graph)
}
