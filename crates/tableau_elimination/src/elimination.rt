//! Elimination of a whole graph, for whoever wants its verdict: marks that a walk proposes are
//! taken where they are right, rounds go on from there, and what is left is a certificate or a
//! surviving set. The walk may be changed freely; what is answered rests on right.rt and the rounds
//! alone.

ghost use Rattle.std.specs.Prelude.{ℕ, ◌<◌, ◌^◌, List, length, IfOk};
ghost use Rattle.tableau_rules.specs.QueryView.{cores_in};
ghost use Rattle.tableau_rules.specs.GraphView.{graph_of};
ghost use Rattle.tableau_rules.specs.Graphs.{IsWhole};
ghost use Rattle.tableau_rules.specs.Links.{fulfils_at};
ghost use Rattle.tableau_elimination.specs.Marks.{carrying_in, IsReady, AreMarked};
ghost use Rattle.tableau_elimination.specs.Outcomes.{IsOutcome};

use crate::certify::certificate;
use crate::linked_graph::LinkedGraph;
use crate::marks::{Marks, unmarked};
use crate::outcome::Outcome;
use crate::right::are_right;
use crate::round::rounds;
use crate::walk::proposed;
use source_sink::Memory;
use std::alloc::Global;
use tableau_rules::{Graph, Query, links_of};

// The marks to begin with: those that a walk proposes, where they are right, and else none.
fn first_marks(alloc: Global, linked_graph: &LinkedGraph<'_>) -> Result<Marks, Memory>
    requires ready { IsReady linked_graph.now }
    ensures { IfOk result (λ m. AreMarked linked_graph.now.links.now (carrying_in linked_graph.now) (fulfils_at linked_graph.now.links.now) m.alive.items m.ranks.items m.causes.items m.left) }
{
    let marks = proposed(alloc, linked_graph)?;
    if are_right(linked_graph, &marks) {
        Ok(marks)
    } else {
        unmarked(alloc, linked_graph.links.len() as u32)
    }
}

/// Whether the root of the query's whole graph can be part of a lasso. If it cannot, the certificate
/// has the graph's nodes, in their order. If it can, there is a test for each place of the graph. It
/// fails only where memory does.
pub fn eliminate(alloc: Global, query: &Query, graph: &Graph) -> Result<Outcome, Memory>
    requires few { length (graph_of graph.now) < 2 ^ 32 }
    requires whole { (sizes : List ℕ) × IsWhole sizes (cores_in query.now) (graph_of graph.now) }
    ensures { (sizes : List ℕ) → IsWhole sizes (cores_in query.now) (graph_of graph.now) → IfOk result (IsOutcome sizes (cores_in query.now) (graph_of graph.now)) }
{
    let links = links_of(alloc, query, graph)?;
    let linked_graph = LinkedGraph {
        query,
        graph,
        links: &links,
    };
    let marks = first_marks(alloc, &linked_graph)?;
    let (mut alive, mut ranks, mut causes) = (marks.alive, marks.ranks, marks.causes);
    if rounds(
        alloc,
        &linked_graph,
        &mut alive,
        &mut ranks,
        &mut causes,
        marks.left,
    )? {
        Ok(Outcome::RootStays(alive))
    } else {
        Ok(Outcome::RootGone(certificate(alloc, graph, &ranks, &causes)?))
    }
}
