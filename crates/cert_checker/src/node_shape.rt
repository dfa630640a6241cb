//! The shape of a node, before anything is asked of it: its numbers are those of formulas of the
//! query, and it has one set for each variable. And whether it is the root.

ghost use Rattle.std.specs.Prelude.{◌≡◌, IsTrue, length};
ghost use Rattle.std.specs.List.Sorted.{IsStrictlyIncreasing};
ghost use Rattle.state_space.specs.Members.{full_of};
ghost use Rattle.state_space.specs.Spaces.{sizes};
ghost use Rattle.formula_table.specs.Closures.{closure_of};
ghost use Rattle.tableau_rules.specs.Nodes.{root_of};
ghost use Rattle.tableau_rules.specs.QueryView.{cores_in};
ghost use Rattle.tableau_rules.specs.NodeView.{node_of};
ghost use Rattle.tableau_rules.specs.Turns.{sets_of};
ghost use Rattle.cert_checker.specs.Causes.{all_below, are_inside, has_shape, root_cause};
ghost use Rattle.cert_checker.specs.Entries.{IsAscending};

use crate::why::Why;
use state_space::{Space, Values};
use tableau_rules::{Bits, Node, Query, is_root};

// Whether each number of the set is below the bound.
fn are_below(set: &Bits, bound: u16) -> bool
    ensures below { result ≡ all_below bound set.now }
    ensures ascending { IsStrictlyIncreasing set.now }
{
    match set.least_from(bound) {
        Some(_) => false,
        None => true,
    }
}

// Whether there is one set for each variable, with no index outside the variable's own.
fn are_inside(full: &[Values], sets: &[Values]) -> bool
    ensures { result ≡ are_inside (sets_of full.now) (sets_of sets.now) }
{
    if full.len() != sets.len() {
        return false;
    }
    'places: for place in 0..full.len() {
        if sets[place].0 & full[place].0 != sets[place].0 {
            return false;
        }
    }
    true
}

/// Whether the node is one of a query with these formulas.
pub(crate) fn has_shape(space: &Space, query: &Query, node: &Node) -> bool
    ensures shape { result ≡ has_shape (length (closure_of (cores_in query.now))) (full_of (sizes space.now)) (node_of node.entry.now) }
    ensures ascending { IsTrue result → IsAscending (node_of node.entry.now) }
{
    let count = query.len();
    are_below(&node.todo, count)
        && are_below(&node.next, count)
        && are_inside(space.full(), &node.now)
}

/// Why the node at `place` is bad as the root: the first is to be it.
pub(crate) fn root_cause(space: &Space, query: &Query, place: usize, node: &Node) -> Option<Why>
    ensures { result ≡ root_cause (root_of (closure_of (cores_in query.now)) (full_of (sizes space.now)) (cores_in query.now)) place (node_of node.entry.now) }
{
    if place == 0 {
        if is_root(space, query, node) {
            None
        } else {
            Some(Why::NotRoot)
        }
    } else {
        None
    }
}
