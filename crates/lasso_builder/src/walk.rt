//! One walk of places that only grows: laps, each a step and then a leg for each until, up to a
//! place at which an earlier lap began. All that was served since then is on the loop.

ghost use Rattle.std.specs.Prelude.{◌≡◌, ℕ, ◌-◌, ◌<◌, ◌^◌, length, get_or, IfOk, OnOk};
ghost use Rattle.formula_table.specs.Closures.{closure_of};
ghost use Rattle.tableau_rules.specs.QueryView.{cores_in};
ghost use Rattle.tableau_rules.specs.GraphView.{graph_of};
ghost use Rattle.tableau_rules.specs.Links.{fulfils_at, carries_at, InRange};
ghost use Rattle.tableau_rules.specs.Levels.{HasLevels, PlacesSurvive};
ghost use Rattle.lasso_builder.specs.PlaceWalks.{IsWalk, GoesOn, Steps, Descends, Leg, Lap, IsClosed, IsLapped};
ghost use Rattle.lasso_builder.specs.LevelTables.{LevelsFor, AllLevels};

use crate::kid::{first_kid, is_first_alive, lower_kid, some_kid};
use crate::level_table::{is_pending, level_table};
use source_sink::Memory;
use std::alloc::Global;
use tableau_rules::{Edges, Graph, Query, does_fulfil};

/// Goes down the levels from the last place, and into the kid in which the until is fulfilled.
pub(crate) fn descend(
    links: &[Edges],
    until: u16,
    alive: &[bool],
    levels: &[u32],
    walk: &mut Vec<u32>,
) -> Result<(), Memory>
    requires few { length links.now < 2 ^ 32 }
    requires alive { length alive.now ≡ length links.now }
    requires range { InRange links.now }
    requires levels { HasLevels links.now (fulfils_at links.now until) alive.now levels.now }
    requires walk { IsWalk links.now alive.now walk.old.items }
    requires starts { get_or levels.now (get_or walk.old.items (length walk.old.items - 1) 0) 0 < length links.now }
    ensures { OnOk result (Descends links.now (fulfils_at links.now until) alive.now walk.old.items walk.new.items) }
{
    let mut at = walk[walk.len() - 1];
    'down: loop {
        let kids = links[at as usize].kids;
        if does_fulfil(links, until, at as usize) && is_first_alive(kids, alive) {
            walk.push(first_kid(kids, alive))?;
            return Ok(());
        }
        at = lower_kid(kids, alive, levels, levels[at as usize]);
        walk.push(at)?;
    }
}

// Goes on from the last place until the until is fulfilled, if it is carried there.
fn leg(
    query: &Query,
    graph: &Graph,
    links: &[Edges],
    formula: u16,
    alive: &[bool],
    levels: &[u32],
    walk: &mut Vec<u32>,
) -> Result<(), Memory>
    requires few { length links.now < 2 ^ 32 }
    requires size { length links.now ≡ length (graph_of graph.now) }
    requires alive { length alive.now ≡ length links.now }
    requires range { InRange links.now }
    requires formula { formula < length (closure_of (cores_in query.now)) }
    requires levels { LevelsFor links.now (carries_at (closure_of (cores_in query.now)) (graph_of graph.now)) (fulfils_at links.now) alive.now formula levels.now }
    requires walk { IsWalk links.now alive.now walk.old.items }
    ensures { OnOk result (Leg links.now (carries_at (closure_of (cores_in query.now)) (graph_of graph.now)) (fulfils_at links.now) formula alive.now walk.old.items walk.new.items) }
{
    let last = walk[walk.len() - 1];
    if is_pending(query, graph, formula, last as usize) {
        descend(links, formula, alive, levels, walk)?;
    }
    Ok(())
}

// Goes on from the last place to some kid that is alive.
fn step(links: &[Edges], alive: &[bool], walk: &mut Vec<u32>) -> Result<(), Memory>
    requires alive { length alive.now ≡ length links.now }
    requires range { InRange links.now }
    requires goes { GoesOn links.now alive.now }
    requires walk { IsWalk links.now alive.now walk.old.items }
    ensures { OnOk result (Steps links.now alive.now walk.old.items walk.new.items) }
{
    let last = walk[walk.len() - 1];
    walk.push(some_kid(links[last as usize].kids, alive))?;
    Ok(())
}

// Goes one step on, and then serves each until in turn. Without the step a lap on which nothing is
// to be served would close to an empty loop.
fn lap(
    query: &Query,
    graph: &Graph,
    links: &[Edges],
    alive: &[bool],
    table: &[Vec<u32>],
    walk: &mut Vec<u32>,
) -> Result<(), Memory>
    requires few { length links.now < 2 ^ 32 }
    requires size { length links.now ≡ length (graph_of graph.now) }
    requires alive { length alive.now ≡ length links.now }
    requires range { InRange links.now }
    requires goes { GoesOn links.now alive.now }
    requires each { length table.now ≡ length (closure_of (cores_in query.now)) }
    requires levels { AllLevels links.now (carries_at (closure_of (cores_in query.now)) (graph_of graph.now)) (fulfils_at links.now) alive.now table.now }
    requires walk { IsWalk links.now alive.now walk.old.items }
    ensures { OnOk result (Lap links.now (carries_at (closure_of (cores_in query.now)) (graph_of graph.now)) (fulfils_at links.now) (length (closure_of (cores_in query.now))) alive.now walk.old.items walk.new.items) }
{
    step(links, alive, walk)?;
    'formulas: for formula in 0..query.len() {
        leg(
            query,
            graph,
            links,
            formula,
            alive,
            &table[formula as usize],
            walk,
        )?;
    }
    Ok(())
}

// Laps until the last place is one at which a lap began. Answers where it did. `begun` has for each
// place how long the walk was when a lap began there, which is at least 1, or 0 where none did.
fn laps(
    query: &Query,
    graph: &Graph,
    links: &[Edges],
    alive: &[bool],
    table: &[Vec<u32>],
    begun: &mut [usize],
    walk: &mut Vec<u32>,
) -> Result<usize, Memory>
    requires few { length links.now < 2 ^ 32 }
    requires size { length links.now ≡ length (graph_of graph.now) }
    requires alive { length alive.now ≡ length links.now }
    requires range { InRange links.now }
    requires goes { GoesOn links.now alive.now }
    requires each { length table.now ≡ length (closure_of (cores_in query.now)) }
    requires levels { AllLevels links.now (carries_at (closure_of (cores_in query.now)) (graph_of graph.now)) (fulfils_at links.now) alive.now table.now }
    requires lapped { IsLapped links.now (carries_at (closure_of (cores_in query.now)) (graph_of graph.now)) (fulfils_at links.now) (length (closure_of (cores_in query.now))) alive.now begun.old walk.old.items }
    ensures { IfOk result (λ start. IsClosed links.now (carries_at (closure_of (cores_in query.now)) (graph_of graph.now)) (fulfils_at links.now) (length (closure_of (cores_in query.now))) alive.now walk.new.items start) }
{
    'laps: loop {
        let length = walk.len();
        let last = walk[length - 1] as usize;
        if begun[last] > 0 {
            return Ok(begun[last] - 1);
        }
        begun[last] = length;
        lap(query, graph, links, alive, table, walk)?;
    }
}

/// Places, the last of which is that at `start`.
#[derive(Drop)]
pub(crate) struct ClosedWalk {
    pub(crate) places: Vec<u32>,
    pub(crate) start: usize,
}

/// A walk from the root through a surviving set that closes to a loop on which each until is
/// served.
pub(crate) fn closed_walk(
    alloc: Global,
    query: &Query,
    graph: &Graph,
    links: &[Edges],
    alive: &[bool],
) -> Result<ClosedWalk, Memory>
    requires few { length links.now < 2 ^ 32 }
    requires some { 0 < length links.now }
    requires size { length links.now ≡ length (graph_of graph.now) }
    requires range { InRange links.now }
    requires survives { PlacesSurvive links.now (carries_at (closure_of (cores_in query.now)) (graph_of graph.now)) (fulfils_at links.now) alive.now }
    ensures { IfOk result (λ w. IsClosed links.now (carries_at (closure_of (cores_in query.now)) (graph_of graph.now)) (fulfils_at links.now) (length (closure_of (cores_in query.now))) alive.now w.places.items w.start) }
{
    let table = level_table(alloc, query, graph, links, alive)?;
    let mut begun = vec![in alloc; 0usize; links.len()]?;
    let mut places = vec![in alloc; 0u32; 1]?;
    let start = laps(query, graph, links, alive, &table, &mut begun, &mut places)?;
    Ok(ClosedWalk { places, start })
}
