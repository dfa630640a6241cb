//! The states along a walk: one for each node that steps to the next position, with the least index
//! that is left to each variable.

ghost use Rattle.std.specs.Prelude.{◌≡◌, ◌<◌, [], ◌∷◌, ◌++◌, List, IfOk, OnOk, All, length, map};
ghost use Rattle.state_space.specs.Spaces.{sizes};
ghost use Rattle.temporal_logic.specs.Rows.{rows};
ghost use Rattle.temporal_logic.specs.Lassos.{IsOfSpace};
ghost use Rattle.bound_unfolding.specs.CoreForm.{CoreForm};
ghost use Rattle.tableau_rules.specs.GraphView.{graph_of};
ghost use Rattle.tableau_rules.specs.Turns.{sets_of};
ghost use Rattle.tableau_rules.specs.NodeView.{node_of};
ghost use Rattle.tableau_rules.specs.Walks.{is_empty, least_index, states, IsAnswer};
ghost use Rattle.lasso_builder.specs.GraphPlaces.{nodes_at};

use source_sink::Memory;
use state_space::{Space, State, Values};
use std::alloc::Global;
use tableau_rules::{Graph, Node};
use temporal_logic::{Lasso, LassoRefusal};

// The least index of a set, or 64 where it has none.
fn least_index(set: Values) -> u8
    ensures { result ≡ least_index set.0 }
{
    set.0.trailing_zeros() as u8
}

/// The least index of each of the sets.
pub(crate) fn least_indexes(alloc: Global, sets: &[Values]) -> Result<Vec<u8>, Memory>
    ensures { IfOk result (λ v. v.items ≡ map least_index (sets_of sets.now)) }
{
    let mut values = Vec::new(alloc);
    'sets: for set in sets {
        values.push(least_index(*set))?;
    }
    Ok(values)
}

// Whether the node steps to the next position: it has nothing to do.
fn does_step(node: &Node) -> bool
    ensures { result ≡ is_empty node.entry.now.todo }
{
    match node.todo.least_from(0) {
        Some(_) => false,
        None => true,
    }
}

// Appends the node's state, if it steps.
fn add_state(alloc: Global, node: &Node, along: &mut Vec<State>) -> Result<(), Memory>
    ensures { OnOk result (rows along.new.items ≡ rows along.old.items ++ states (node_of node.entry.now ∷ [])) }
{
    if does_step(node) {
        let values = least_indexes(alloc, &node.now)?;
        along.push(State { values })?;
    }
    Ok(())
}

/// The states along the places of the graph.
pub(crate) fn states_along(
    alloc: Global,
    graph: &Graph,
    places: &[u32],
) -> Result<Vec<State>, Memory>
    requires inside { All (λ p. p < length (graph_of graph.now)) places.now }
    ensures { IfOk result (λ v. rows v.items ≡ states (nodes_at (graph_of graph.now) places.now)) }
{
    let mut along = Vec::new(alloc);
    'places: for place in places {
        add_state(alloc, &graph.nodes[*place as usize].node, &mut along)?;
    }
    Ok(along)
}

/// The lasso of a prefix and a loop that meet some cores.
pub(crate) fn lasso_of(space: &Space, prefix: Vec<State>, cycle: Vec<State>) -> Lasso
    requires { (cores : List CoreForm) × IsAnswer (sizes space.now) cores (rows prefix.items) (rows cycle.items) }
    ensures of_space { IsOfSpace (sizes space.now) result }
    ensures prefix { result.prefix.items ≡ prefix.items }
    ensures cycle { result.cycle.items ≡ cycle.items }
{
    match Lasso::new(space, prefix, cycle) {
        Ok(lasso) => lasso,
        Err(LassoRefusal::EmptyLoop) => unreachable!(),
        Err(LassoRefusal::StateOutOfSpace) => unreachable!(),
    }
}
