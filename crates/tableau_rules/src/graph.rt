//! Graphs of nodes: what an exploration makes, and what elimination and the builder of lassos read.

use crate::node::Node;
use smallvec::SmallVec;

/// A node of a graph.
#[derive(Drop)]
pub struct GraphNode {
    /// What is asked.
    pub node: Node,
    /// Where in the graph its kids stand, in the order of its rule.
    pub kids: SmallVec<u32, 2>,
}

/// A graph of nodes.
#[derive(Drop)]
pub struct Graph {
    /// The nodes, the root first.
    pub nodes: Vec<GraphNode>,
}
