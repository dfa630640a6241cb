//! Levels of places towards the fulfilment of each until of a query, for walks that go down them.
//! They are brought close to the lengths of shortest paths, so that lassos are short.

ghost use Rattle.std.specs.Prelude.{◌≡◌, ℕ, ◌-◌, ◌<◌, ◌^◌, ◌⊎◌, length, get_or, IfOk, IsTrue, true, false};
ghost use Rattle.std.specs.List.{AllByRecursion};
ghost use Rattle.formula_table.specs.Closures.{closure_of};
ghost use Rattle.tableau_rules.specs.QueryView.{cores_in};
ghost use Rattle.tableau_rules.specs.GraphView.{graph_of};
ghost use Rattle.tableau_rules.specs.Links.{kids_of, fulfils_at, carries_at, InRange};
ghost use Rattle.tableau_rules.specs.Levels.{HasLevels, PlacesSurvive, Alive, alive_at, levelled_at, head_is, some_is};
ghost use Rattle.lasso_builder.specs.LevelTables.{LevelsFor, AllLevels, IsLevelFor};

use crate::kid::{is_first_alive, lower_kid};
use source_sink::Memory;
use std::alloc::Global;
use tableau_rules::{Edges, Graph, Kids, Query, does_carry, does_fulfil, levels};

// 0 where the place fulfils in a living kid, else one more than the level of the lowest kid.
fn best_level(
    links: &[Edges],
    until: u16,
    alive: &[bool],
    levels: &[u32],
    kids: Kids,
    place: usize,
) -> u32
    requires inside { place < length levels.now }
    requires small { get_or levels.now place 0 < 2 ^ 32 - 1 }
    requires levels { length levels.now ≡ length alive.now }
    requires range { AllByRecursion (λ p. p < length alive.now) (kids_of kids) }
    requires some { (fulfils_at links.now until place ≡ false) ⊎ (head_is (alive_at alive.now) (kids_of kids) ≡ false)
        → some_is (levelled_at alive.now levels.now (get_or levels.now place 0)) (kids_of kids) ≡ true }
    ensures { IsLevelFor (fulfils_at links.now until) alive.now levels.now (kids_of kids) place result }
{
    if does_fulfil(links, until, place) && is_first_alive(kids, alive) {
        return 0;
    }
    let kid = lower_kid(kids, alive, levels, levels[place]);
    levels[kid as usize] + 1
}

// Lowers levels, in one pass from the last place to the first.
fn polish(links: &[Edges], until: u16, alive: &[bool], levels: &mut [u32])
    requires few { length links.now < 2 ^ 32 }
    requires alive { length alive.now ≡ length links.now }
    requires range { InRange links.now }
    requires levels { HasLevels links.now (fulfils_at links.now until) alive.now levels.old }
    ensures { HasLevels links.now (fulfils_at links.now until) alive.now levels.new }
{
    let count = links.len() as u32;
    'places: for place in (0..links.len()).rev() {
        let own = levels[place];
        if own < count {
            let best = best_level(links, until, alive, levels, links[place].kids, place);
            if best < own {
                levels[place] = best;
            }
        }
    }
}

/// Levels that are close to the lengths of shortest paths. A second pass shortens the paths that
/// lead to earlier places, which the first comes to last.
pub(crate) fn near_levels(
    alloc: Global,
    links: &[Edges],
    until: u16,
    alive: &[bool],
) -> Result<Vec<u32>, Memory>
    requires few { length links.now < 2 ^ 32 }
    requires alive { length alive.now ≡ length links.now }
    requires range { InRange links.now }
    ensures { IfOk result (λ v. HasLevels links.now (fulfils_at links.now until) alive.now v.items) }
{
    let mut near = levels(alloc, links, until, alive)?;
    polish(links, until, alive, &mut near);
    polish(links, until, alive, &mut near);
    Ok(near)
}

/// Whether the formula is an until that the node at the place carries.
#[tactic(auto, unfolding(tableau_rules::specs::Links::carries_at))]
pub(crate) fn is_pending(query: &Query, graph: &Graph, formula: u16, place: usize) -> bool
    requires formula { formula < length (closure_of (cores_in query.now)) }
    requires place { place < length (graph_of graph.now) }
    ensures { result ≡ carries_at (closure_of (cores_in query.now)) (graph_of graph.now) formula place }
{
    query.is_until(formula) && does_carry(query, graph, formula, place)
}

// Whether the formula is an until that some living place carries.
#[tactic(auto, unfolding(tableau_rules::specs::Links::carries_at))]
fn is_carried(query: &Query, graph: &Graph, formula: u16, alive: &[bool]) -> bool
    requires formula { formula < length (closure_of (cores_in query.now)) }
    requires alive { length alive.now ≡ length (graph_of graph.now) }
    ensures { result ≡ false → (k : ℕ) → k < length alive.now → Alive alive.now k
        → carries_at (closure_of (cores_in query.now)) (graph_of graph.now) formula k ≡ false }
{
    if !query.is_until(formula) {
        return false;
    }
    'places: for place in 0..alive.len() {
        if alive[place] && does_carry(query, graph, formula, place) {
            return true;
        }
    }
    false
}

// The levels towards an until, and none for a formula that needs none.
fn levels_for(
    alloc: Global,
    query: &Query,
    graph: &Graph,
    links: &[Edges],
    formula: u16,
    alive: &[bool],
) -> Result<Vec<u32>, Memory>
    requires few { length links.now < 2 ^ 32 }
    requires size { length links.now ≡ length (graph_of graph.now) }
    requires range { InRange links.now }
    requires formula { formula < length (closure_of (cores_in query.now)) }
    requires survives { PlacesSurvive links.now (carries_at (closure_of (cores_in query.now)) (graph_of graph.now)) (fulfils_at links.now) alive.now }
    ensures { IfOk result (λ v. LevelsFor links.now (carries_at (closure_of (cores_in query.now)) (graph_of graph.now)) (fulfils_at links.now) alive.now formula v.items) }
{
    if is_carried(query, graph, formula, alive) {
        near_levels(alloc, links, formula, alive)
    } else {
        Ok(Vec::new(alloc))
    }
}

/// The levels towards each until of the query, by its number, inside a surviving set.
pub(crate) fn level_table(
    alloc: Global,
    query: &Query,
    graph: &Graph,
    links: &[Edges],
    alive: &[bool],
) -> Result<Vec<Vec<u32>>, Memory>
    requires few { length links.now < 2 ^ 32 }
    requires size { length links.now ≡ length (graph_of graph.now) }
    requires range { InRange links.now }
    requires survives { PlacesSurvive links.now (carries_at (closure_of (cores_in query.now)) (graph_of graph.now)) (fulfils_at links.now) alive.now }
    ensures levels { IfOk result (λ v. AllLevels links.now (carries_at (closure_of (cores_in query.now)) (graph_of graph.now)) (fulfils_at links.now) alive.now v.items) }
    ensures size { IfOk result (λ v. length v.items ≡ length (closure_of (cores_in query.now))) }
{
    let mut table = Vec::new(alloc);
    'formulas: for formula in 0..query.len() {
        table.push(levels_for(alloc, query, graph, links, formula, alive)?)?;
    }
    Ok(table)
}
