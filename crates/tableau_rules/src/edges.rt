//! Graphs by places alone, for searches that go over all nodes again and again: where the kids of a
//! node stand, and which until is fulfilled in the first of them. The plain form is the graph with
//! the rule of each node (`IsLinked` of specs/Links.antt), which is asked for once a node and not
//! in each pass. It has no time of its own in docs/ARCHITECTURE.md.

ghost use Rattle.std.specs.Prelude.{◌≡◌, ◌<◌, ◌≤◌, ℕ, IsTrue, IfOk, List, length};
ghost use Rattle.formula_table.specs.Closures.{closure_of, formula_at};
ghost use Rattle.tableau_rules.specs.Certificates.{is_until};
ghost use Rattle.tableau_rules.specs.NodeView.{AreNumbersBelow};
ghost use Rattle.tableau_rules.specs.QueryView.{cores_in};
ghost use Rattle.tableau_rules.specs.Graphs.{IsWhole};
ghost use Rattle.tableau_rules.specs.GraphView.{graph_node_of, graph_of};
ghost use Rattle.tableau_rules.specs.Links.{kids_of, until_fulfilled, carries_at, InRange, IsLinkOf, IsLinked};

use crate::graph::{Graph, GraphNode};
use crate::kind::RuleKind;
use crate::query::Query;
use crate::tableau::rule;
use source_sink::Memory;
use std::alloc::Global;

/// The places of a node's kids.
#[derive(Clone, Copy, Drop)]
pub enum Kids {
    /// It has none.
    Leaf,
    /// It has one.
    One(u32),
    /// It has two.
    Two(u32, u32),
}

/// What a search needs of a node.
#[derive(Clone, Copy, Drop)]
pub struct Edges {
    /// Where its kids stand.
    pub kids: Kids,
    /// The number of the until that is fulfilled in its first kid, if one is.
    pub fulfils: Option<u16>,
}

// The places of at most two kids.
fn kids_in(places: &[u32]) -> Kids
    requires { length places.now ≤ 2 }
    ensures { kids_of result ≡ places.now }
{
    match places.len() {
        0 => Kids::Leaf,
        1 => Kids::One(places[0]),
        _ => Kids::Two(places[0], places[1]),
    }
}

// The until that is fulfilled in the first kid of a node whose rule is of this kind.
fn until_fulfilled(kind: RuleKind) -> Option<u16>
    ensures { result ≡ until_fulfilled kind }
{
    match kind {
        RuleKind::FulfilOnly(until) | RuleKind::FulfilOrWait(until) => Some(until),
        _ => None,
    }
}

// The link of a node.
fn link_of(query: &Query, node: &GraphNode) -> Edges
    requires todo { AreNumbersBelow (length (closure_of (cores_in query.now))) node.now.node.todo }
    requires few { length node.now.kids.items ≤ 2 }
    ensures { IsLinkOf (closure_of (cores_in query.now)) (graph_node_of node.entry.now) result }
{
    Edges {
        kids: kids_in(node.kids.as_slice()),
        fulfils: until_fulfilled(rule(query, &node.node)),
    }
}

/// The links of a graph that is whole: one for each node, in their order. It fails only where memory
/// does.
pub fn links_of(alloc: Global, query: &Query, graph: &Graph) -> Result<Vec<Edges>, Memory>
    requires whole { (sizes : List ℕ) × IsWhole sizes (cores_in query.now) (graph_of graph.now) }
    ensures linked { IfOk result (λ v. IsLinked (cores_in query.now) (graph_of graph.now) v.items) }
    ensures in_range { IfOk result (λ v. InRange v.items) }
{
    let mut links = Vec::new(alloc);
    'nodes: for node in &graph.nodes {
        links.push(link_of(query, node))?;
    }
    Ok(links)
}

/// Whether the node at a place of the graph carries the until.
#[tactic(auto, unfolding(crate::specs::Links::carries_at))]
pub fn does_carry(query: &Query, graph: &Graph, until: u16, place: usize) -> bool
    requires inside { place < length (graph_of graph.now) }
    requires until { IsTrue (is_until (formula_at (closure_of (cores_in query.now)) until)) }
    ensures { result ≡ carries_at (closure_of (cores_in query.now)) (graph_of graph.now) until place }
{
    let node = &graph.nodes[place].node;
    node.todo.has(until) || node.next.has(until)
}
