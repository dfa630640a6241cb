//! The certificate that the marks of a graph's places make, in the graph's own numbering: each node
//! with its rank, and its cause as a reason. Nothing is looked for here, so right marks make a
//! valid one.

ghost use Rattle.std.specs.Prelude.{◌≡◌, IfOk, length};
ghost use Rattle.tableau_rules.specs.NodeView.{node_of};
ghost use Rattle.tableau_rules.specs.GraphView.{graph_node_of, graph_of};
ghost use Rattle.tableau_rules.specs.CertView.{reason_of, cert_node_of, cert_of};
ghost use Rattle.tableau_elimination.specs.CertNodes.{reason_by, cert_node_by, IsCertOf};

use crate::cause::Cause;
use smallvec::SmallVec;
use source_sink::Memory;
use std::alloc::Global;
use tableau_rules::{Cert, CertNode, Graph, GraphNode, Mark, Node, Reason};

// The same node.
fn copy_of(alloc: Global, node: &Node) -> Result<Node, Memory>
    ensures { IfOk result (λ n. node_of n ≡ node_of node.entry.now) }
{
    let todo = node.todo.clone(alloc)?;
    let now = Vec::from_slice(alloc, &node.now)?;
    let next = node.next.clone(alloc)?;
    Ok(Node { todo, now, next })
}

// The reason that a cause is, of a node with these kids. A node that is dead with no kids clashes.
fn reason_by(cause: Cause, kids: &[u32]) -> Reason
    ensures { reason_of result ≡ reason_by cause kids.now }
{
    match cause {
        Cause::Wait(until) => Reason::Wait(until),
        Cause::Dead => {
            if kids.is_empty() {
                Reason::Clash
            } else {
                Reason::Dead
            }
        }
    }
}

// The node with its mark.
fn cert_node(alloc: Global, node: &GraphNode, rank: u32, cause: Cause) -> Result<CertNode, Memory>
    ensures { IfOk result (λ c. cert_node_of c ≡ cert_node_by (graph_node_of node.entry.now) rank cause) }
{
    let places = node.kids.as_slice();
    let reason = reason_by(cause, places);
    let kids = SmallVec::from_slice(alloc, places)?;
    Ok(CertNode {
        node: copy_of(alloc, &node.node)?,
        kids,
        mark: Mark { rank, reason },
    })
}

/// The certificate of the graph's nodes, each with the mark of its place.
pub(crate) fn certificate(
    alloc: Global,
    graph: &Graph,
    ranks: &[u32],
    causes: &[Cause],
) -> Result<Cert, Memory>
    requires ranks { length ranks.now ≡ length (graph_of graph.now) }
    requires causes { length causes.now ≡ length (graph_of graph.now) }
    ensures { IfOk result (λ cert. IsCertOf (graph_of graph.now) ranks.now causes.now (cert_of cert)) }
{
    let mut nodes = Vec::new(alloc);
    'places: for place in 0..graph.nodes.len() {
        nodes.push(cert_node(alloc, &graph.nodes[place], ranks[place], causes[place])?)?;
    }
    Ok(Cert { nodes })
}
