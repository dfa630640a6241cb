//! One way each in which places go: those with no living kid, and those that carry an until which
//! no path among the living fulfils. All that go at once for an until get one rank. A rank is the
//! number of places that were gone before.

ghost use Rattle.std.specs.Prelude.{◌≡◌, ℕ, ◌<◌, ◌^◌, length, IfOk, IsTrue, IsFalse, Bool, false};
ghost use Rattle.formula_table.specs.Closures.{formula_at, closure_of};
ghost use Rattle.tableau_rules.specs.Certificates.{is_until};
ghost use Rattle.tableau_rules.specs.QueryView.{cores_in};
ghost use Rattle.tableau_rules.specs.GraphView.{graph_of};
ghost use Rattle.tableau_rules.specs.Links.{fulfils_at, InRange};
ghost use Rattle.tableau_rules.specs.Levels.{Alive};
ghost use Rattle.tableau_elimination.specs.Marks.{carrying_in, living, waits, IsReady, AreMarked, Leafless, AreKilled, AreCleared, IsWaitedFor};

use crate::cause::Cause;
use crate::linked_graph::LinkedGraph;
use crate::place::is_some_alive;
use source_sink::Memory;
use std::alloc::Global;
use tableau_rules::{Edges, does_carry, levels};

/// Kills each place none of whose kids is alive, the last place first, since most kids stand behind
/// their node: so a chain of them goes in one pass. Answers how many are left.
pub(crate) fn clear(
    links: &[Edges],
    alive: &mut [bool],
    ranks: &mut [u32],
    causes: &mut [Cause],
    left: u32,
) -> u32
    requires few { length links.now < 2 ^ 32 }
    requires in_range { InRange links.now }
    requires marked { (carrying : ℕ → ℕ → Bool) × AreMarked links.now carrying (fulfils_at links.now) alive.old ranks.old causes.old left }
    ensures { (carrying : ℕ → ℕ → Bool) → AreMarked links.now carrying (fulfils_at links.now) alive.old ranks.old causes.old left
        → AreCleared links.now carrying (fulfils_at links.now) alive.old alive.new ranks.new causes.new left result 0 }
{
    let count = links.len() as u32;
    let mut rest = left;
    'places: for place in (0..links.len()).rev() {
        if alive[place] && !is_some_alive(links[place].kids, alive) {
            alive[place] = false;
            ranks[place] = count - rest;
            causes[place] = Cause::Dead;
            rest -= 1;
        }
    }
    rest
}

// Whether the place is alive without a level, and carries the until. One that fulfils it in a
// living kid has a level and stays, even where that kid carries the until again.
fn is_waiting(
    linked_graph: &LinkedGraph<'_>,
    until: u16,
    levels: &[u32],
    alive: &[bool],
    place: usize,
) -> bool
    requires inside { place < length levels.now }
    requires graph { length (graph_of linked_graph.now.graph.now) ≡ length levels.now }
    requires alive { length alive.now ≡ length levels.now }
    requires until { IsTrue (is_until (formula_at (closure_of (cores_in linked_graph.now.query.now)) until)) }
    ensures { result ≡ waits (carrying_in linked_graph.now until) alive.now levels.now place }
{
    alive[place]
        && levels[place] as usize >= levels.len()
        && does_carry(linked_graph.query, linked_graph.graph, until, place)
}

// Kills the places that carry the until and have no level towards it. All get one rank, taken
// before any is killed: they wait for each other, so that none of them can be below the rest.
fn kill_waiting(
    linked_graph: &LinkedGraph<'_>,
    until: u16,
    levels: &[u32],
    alive: &mut [bool],
    ranks: &mut [u32],
    causes: &mut [Cause],
    left: u32,
) -> u32
    requires few { length levels.now < 2 ^ 32 }
    requires graph { length (graph_of linked_graph.now.graph.now) ≡ length levels.now }
    requires alive { length alive.old ≡ length levels.now }
    requires ranks { length ranks.old ≡ length levels.now }
    requires causes { length causes.old ≡ length levels.now }
    requires left { living alive.old ≡ left }
    requires until { IsTrue (is_until (formula_at (closure_of (cores_in linked_graph.now.query.now)) until)) }
    ensures { AreKilled (carrying_in linked_graph.now until) until levels.now alive.old alive.new ranks.old ranks.new causes.old causes.new left result (length levels.now) }
{
    let count = levels.len() as u32;
    let rank = count - left;
    let mut rest = left;
    'places: for place in 0..levels.len() {
        if is_waiting(linked_graph, until, levels, alive, place) {
            alive[place] = false;
            ranks[place] = rank;
            causes[place] = Cause::Wait(until);
            rest -= 1;
        }
    }
    rest
}

// Whether some living place carries the until.
fn is_carried(linked_graph: &LinkedGraph<'_>, until: u16, alive: &[bool]) -> bool
    requires alive { length alive.now ≡ length (graph_of linked_graph.now.graph.now) }
    requires until { IsTrue (is_until (formula_at (closure_of (cores_in linked_graph.now.query.now)) until)) }
    ensures { IsFalse result → (k : ℕ) → k < length alive.now → Alive alive.now k → carrying_in linked_graph.now until k ≡ false }
{
    'places: for place in 0..alive.len() {
        if alive[place] && does_carry(linked_graph.query, linked_graph.graph, until, place) {
            return true;
        }
    }
    false
}

/// Kills the places that wait for the until. Answers how many are left.
pub(crate) fn kill(
    alloc: Global,
    linked_graph: &LinkedGraph<'_>,
    until: u16,
    alive: &mut [bool],
    ranks: &mut [u32],
    causes: &mut [Cause],
    left: u32,
) -> Result<u32, Memory>
    requires ready { IsReady linked_graph.now }
    requires marked { AreMarked linked_graph.now.links.now (carrying_in linked_graph.now) (fulfils_at linked_graph.now.links.now) alive.old ranks.old causes.old left }
    requires leafless { Leafless linked_graph.now.links.now alive.old }
    requires until { IsTrue (is_until (formula_at (closure_of (cores_in linked_graph.now.query.now)) until)) }
    ensures { IfOk result (λ rest. IsWaitedFor linked_graph.now.links.now (carrying_in linked_graph.now) (fulfils_at linked_graph.now.links.now) until alive.old alive.new ranks.new causes.new left rest) }
{
    if !is_carried(linked_graph, until, alive) {
        return Ok(left);
    }
    let levels = levels(alloc, linked_graph.links, until, alive)?;
    Ok(kill_waiting(linked_graph, until, &levels, alive, ranks, causes, left))
}
