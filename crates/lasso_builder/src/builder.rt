//! The builder of lassos, for whoever has a surviving set and wants a trace: a closed walk through
//! the set, and the states along it. It joins the other files; the lasso is of the space and meets
//! the query.

ghost use Rattle.std.specs.Prelude.{ℕ, ◌+◌, ◌<◌, ◌^◌, List, IfOk, All, length};
ghost use Rattle.state_space.specs.Spaces.{sizes};
ghost use Rattle.temporal_logic.specs.Lassos.{trace_of, IsOfSpace};
ghost use Rattle.tableau_rules.specs.QueryView.{cores_in};
ghost use Rattle.tableau_rules.specs.GraphView.{graph_of};
ghost use Rattle.tableau_rules.specs.Graphs.{IsWhole};
ghost use Rattle.tableau_rules.specs.Surviving.{Survives};
ghost use Rattle.tableau_rules.specs.Queries.{IsOver, MeetsAll};
ghost use Rattle.tableau_rules.specs.Walks.{IsClosedWalk};
ghost use Rattle.lasso_builder.specs.PlaceWalks.{stem_of, loop_of};
ghost use Rattle.lasso_builder.specs.GraphPlaces.{nodes_at};

use crate::states::{lasso_of, states_along};
use crate::walk::{ClosedWalk, closed_walk};
use source_sink::Memory;
use state_space::Space;
use std::alloc::Global;
use tableau_rules::{Graph, Query, links_of};
use temporal_logic::Lasso;

// A closed walk through the graph, from the query's root.
fn walk_in(
    alloc: Global,
    query: &Query,
    graph: &Graph,
    stays: &[bool],
) -> Result<ClosedWalk, Memory>
    requires few { length (graph_of graph.now) < 2 ^ 32 }
    requires whole { (sizes : List ℕ) × IsWhole sizes (cores_in query.now) (graph_of graph.now) }
    requires stays { Survives (cores_in query.now) (graph_of graph.now) stays.now }
    ensures inside { IfOk result (λ w. All (λ p. p < length (graph_of graph.now)) w.places.items) }
    ensures order { IfOk result (λ w. w.start + 1 < length w.places.items) }
    ensures closed { (sizes : List ℕ) → IsWhole sizes (cores_in query.now) (graph_of graph.now)
        → IfOk result (λ w. IsClosedWalk sizes (cores_in query.now)
        (nodes_at (graph_of graph.now) (stem_of w.places.items w.start))
        (nodes_at (graph_of graph.now) (loop_of w.places.items w.start))) }
{
    let links = links_of(alloc, query, graph)?;
    closed_walk(alloc, query, graph, &links, stays)
}

/// A lasso of the space that meets the query, from a whole graph of the query and a surviving set
/// of its places. It fails only where memory does.
pub fn build(
    alloc: Global,
    space: &Space,
    query: &Query,
    graph: &Graph,
    stays: &[bool],
) -> Result<Lasso, Memory>
    requires few { length (graph_of graph.now) < 2 ^ 32 }
    requires over { All (IsOver (sizes space.now)) (cores_in query.now) }
    requires whole { IsWhole (sizes space.now) (cores_in query.now) (graph_of graph.now) }
    requires stays { Survives (cores_in query.now) (graph_of graph.now) stays.now }
    ensures of_space { IfOk result (IsOfSpace (sizes space.now)) }
    ensures meets { IfOk result (λ l. MeetsAll (trace_of l) (cores_in query.now)) }
{
    let walk = walk_in(alloc, query, graph, stays)?;
    let end = walk.places.len() - 1;
    let prefix = states_along(alloc, graph, &walk.places[..walk.start])?;
    let cycle = states_along(alloc, graph, &walk.places[walk.start..end])?;
    Ok(lasso_of(space, prefix, cycle))
}
