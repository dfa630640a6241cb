//! Rounds of killing, until one kills no more: what then lives is settled, and what is gone has a
//! right mark, whatever marks the first round began from. The number of rounds is no promise.

ghost use Rattle.std.specs.Prelude.{◌≡◌, ◌<◌, ◌^◌, length, IfOk};
ghost use Rattle.formula_table.specs.Closures.{closure_of};
ghost use Rattle.tableau_rules.specs.QueryView.{cores_in};
ghost use Rattle.tableau_rules.specs.GraphView.{graph_of};
ghost use Rattle.tableau_rules.specs.Links.{fulfils_at};
ghost use Rattle.tableau_elimination.specs.Marks.{carrying_in, IsReady, AreMarked, Leafless, IsWaitedFor, IsRound, HasEnded};

use crate::cause::Cause;
use crate::kill::{clear, kill};
use crate::linked_graph::LinkedGraph;
use source_sink::Memory;
use std::alloc::Global;

// Kills the places that wait for the formula of this number, if it is an until.
fn kill_for(
    alloc: Global,
    linked_graph: &LinkedGraph<'_>,
    formula: u16,
    alive: &mut [bool],
    ranks: &mut [u32],
    causes: &mut [Cause],
    left: u32,
) -> Result<u32, Memory>
    requires ready { IsReady linked_graph.now }
    requires formula { formula < length (closure_of (cores_in linked_graph.now.query.now)) }
    requires marked { AreMarked linked_graph.now.links.now (carrying_in linked_graph.now) (fulfils_at linked_graph.now.links.now) alive.old ranks.old causes.old left }
    requires leafless { Leafless linked_graph.now.links.now alive.old }
    ensures { IfOk result (λ rest. IsWaitedFor linked_graph.now.links.now (carrying_in linked_graph.now) (fulfils_at linked_graph.now.links.now) formula alive.old alive.new ranks.new causes.new left rest) }
{
    if linked_graph.query.is_until(formula) {
        kill(alloc, linked_graph, formula, alive, ranks, causes, left)
    } else {
        Ok(left)
    }
}

// One round: kills what can be killed by the marks so far. Answers how many are left. Places
// without a living kid go first, so that none of those that are then killed for an until is a leaf.
fn round(
    alloc: Global,
    linked_graph: &LinkedGraph<'_>,
    alive: &mut [bool],
    ranks: &mut [u32],
    causes: &mut [Cause],
    left: u32,
) -> Result<u32, Memory>
    requires ready { IsReady linked_graph.now }
    requires marked { AreMarked linked_graph.now.links.now (carrying_in linked_graph.now) (fulfils_at linked_graph.now.links.now) alive.old ranks.old causes.old left }
    ensures { IfOk result (λ rest. IsRound linked_graph.now.links.now (carrying_in linked_graph.now) (fulfils_at linked_graph.now.links.now) alive.new ranks.new causes.new left rest) }
{
    let first = clear(linked_graph.links, alive, ranks, causes, left);
    let mut rest = first;
    'formulas: for formula in 0..linked_graph.query.len() {
        rest = kill_for(alloc, linked_graph, formula, alive, ranks, causes, rest)?;
    }
    Ok(rest)
}

/// Rounds until none kills, from marks of which so many are alive. Answers whether the first place
/// stays.
pub(crate) fn rounds(
    alloc: Global,
    linked_graph: &LinkedGraph<'_>,
    alive: &mut [bool],
    ranks: &mut [u32],
    causes: &mut [Cause],
    left: u32,
) -> Result<bool, Memory>
    requires ready { IsReady linked_graph.now }
    requires marked { AreMarked linked_graph.now.links.now (carrying_in linked_graph.now) (fulfils_at linked_graph.now.links.now) alive.old ranks.old causes.old left }
    ensures { IfOk result (λ stays. HasEnded stays linked_graph.now.links.now (carrying_in linked_graph.now) (fulfils_at linked_graph.now.links.now) alive.new ranks.new causes.new) }
{
    let mut left = left;
    'rounds: loop {
        let rest = round(alloc, linked_graph, alive, ranks, causes, left)?;
        if rest == left {
            return Ok(alive[0]);
        }
        left = rest;
    }
}
