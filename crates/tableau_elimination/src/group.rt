//! Whether a group of places that lead to each other goes, and why, once all other places that it
//! leads to are judged. Nothing is proved here but safety: marks are checked before they are taken.

ghost use Rattle.std.specs.Prelude.{◌<◌, length};
ghost use Rattle.formula_table.specs.Closures.{closure_of};
ghost use Rattle.tableau_rules.specs.QueryView.{cores_in};

use crate::cause::Cause;
use crate::linked_graph::LinkedGraph;
use crate::marks::Marks;
use crate::place::{is_alive, is_head_alive, is_some_alive, kids_at};
use tableau_rules::{Edges, Kids, does_carry, does_fulfil};

/// What stands in the list of lows for a place whose group is judged.
pub(crate) const JUDGED: u32 = u32::MAX;

// Whether the place is alive and judged.
fn is_way_out(lows: &[u32], alive: &[bool], place: u32) -> bool {
    is_alive(alive, place) && lows.get(place as usize) == Some(&JUDGED)
}

// Whether a member of the group leads to a living place outside it.
fn has_way_out(links: &[Edges], group: &[u32], lows: &[u32], alive: &[bool]) -> bool {
    'group: for &place in group {
        let leads_out = match kids_at(links, place) {
            Kids::Leaf => false,
            Kids::One(a) => is_way_out(lows, alive, a),
            Kids::Two(a, b) => is_way_out(lows, alive, a) || is_way_out(lows, alive, b),
        };
        if leads_out {
            return true;
        }
    }
    false
}

// Whether a member of the group fulfils the until in a living kid.
fn is_fulfilled(links: &[Edges], until: u16, group: &[u32], alive: &[bool]) -> bool {
    'group: for &place in group {
        if does_fulfil(links, until, place as usize)
            && is_head_alive(kids_at(links, place), alive)
        {
            return true;
        }
    }
    false
}

// Whether the formula is an until that the first of the group carries, and no member fulfils. The
// first stands for all: an until that is not fulfilled goes on into each kid.
fn is_put_off(linked_graph: &LinkedGraph<'_>, formula: u16, group: &[u32], alive: &[bool]) -> bool
    requires formula { formula < length (closure_of (cores_in linked_graph.now.query.now)) }
{
    match group.first() {
        Some(&first) => {
            linked_graph.query.is_until(formula)
                && (first as usize) < linked_graph.graph.nodes.len()
                && does_carry(
                    linked_graph.query,
                    linked_graph.graph,
                    formula,
                    first as usize,
                )
                && !is_fulfilled(linked_graph.links, formula, group, alive)
        }
        None => false,
    }
}

/// Why the group goes, if it does. Its members are alive until it is condemned, so that a first one
/// without a living kid is alone in it, and no kid of itself.
pub(crate) fn cause_of(
    linked_graph: &LinkedGraph<'_>,
    group: &[u32],
    lows: &[u32],
    alive: &[bool],
) -> Option<Cause> {
    if has_way_out(linked_graph.links, group, lows, alive) {
        return None;
    }
    let first = *group.first()?;
    if !is_some_alive(kids_at(linked_graph.links, first), alive) {
        return Some(Cause::Dead);
    }
    'formulas: for formula in 0..linked_graph.query.len() {
        if is_put_off(linked_graph, formula, group, alive) {
            return Some(Cause::Wait(formula));
        }
    }
    None
}

/// Marks the group as gone.
pub(crate) fn condemn(group: &[u32], cause: Cause, marks: &mut Marks) {
    let count = u32::try_from(marks.alive.len()).unwrap_or(marks.left);
    let rank = count.saturating_sub(marks.left);
    'group: for &place in group {
        let place = place as usize;
        if place < marks.alive.len() && place < marks.ranks.len() && place < marks.causes.len() {
            marks.alive[place] = false;
            marks.ranks[place] = rank;
            marks.causes[place] = cause;
            marks.left = marks.left.saturating_sub(1);
        }
    }
}
