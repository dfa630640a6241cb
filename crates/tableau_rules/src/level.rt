//! Levels of places towards the fulfilment of an until. A place with a level leads to a fulfilment
//! among the living, and one without leads to none, whatever path is taken: the plain form is the
//! path itself (`ComesTo` of specs/Levels.antt). It takes as many passes as levels need to settle,
//! few in practice, as a pass goes from the last place to the first and most kids stand behind
//! their node.

ghost use Rattle.std.specs.Prelude.{◌≡◌, ◌<◌, ◌≤◌, ◌^◌, length, IfOk};
ghost use Rattle.std.specs.List.{AllByRecursion};
ghost use Rattle.tableau_rules.specs.Links.{kids_of, fulfils_at, InRange};
ghost use Rattle.tableau_rules.specs.Levels.{head_is, some_is, alive_at, levelled_at, can_go, Levelling, HasLevels};

use crate::edges::{Edges, Kids};
use source_sink::Memory;
use std::alloc::Global;

/// Whether the until is fulfilled in the first kid of the node at the place. A place past the last
/// fulfils none.
#[tactic(auto, unfolding(crate::specs::Links::fulfils_at))]
pub fn does_fulfil(links: &[Edges], until: u16, place: usize) -> bool
    ensures { result ≡ fulfils_at links.now until place }
{
    match links.get(place) {
        Some(link) => match link.fulfils {
            Some(given) => until == given,
            None => false,
        },
        None => false,
    }
}

// Whether the first kid is alive.
fn is_head_alive(kids: Kids, alive: &[bool]) -> bool
    requires { AllByRecursion (λ p. p < length alive.now) (kids_of kids) }
    ensures { result ≡ head_is (alive_at alive.now) (kids_of kids) }
{
    match kids {
        Kids::Leaf => false,
        Kids::One(a) => alive[a as usize],
        Kids::Two(a, _) => alive[a as usize],
    }
}

// Whether some kid is alive and has a level.
fn is_some_levelled(kids: Kids, alive: &[bool], levels: &[u32], count: u32) -> bool
    requires size { length levels.now ≡ length alive.now }
    requires kids { AllByRecursion (λ p. p < length alive.now) (kids_of kids) }
    ensures { result ≡ some_is (levelled_at alive.now levels.now count) (kids_of kids) }
{
    match kids {
        Kids::Leaf => false,
        Kids::One(a) => alive[a as usize] && levels[a as usize] < count,
        Kids::Two(a, b) => {
            (alive[a as usize] && levels[a as usize] < count)
                || (alive[b as usize] && levels[b as usize] < count)
        }
    }
}

// Whether the place can take a level.
fn can_take(links: &[Edges], until: u16, alive: &[bool], levels: &[u32], place: usize) -> bool
    requires inside { place < length links.now }
    requires few { length links.now < 2 ^ 32 }
    requires alive { length alive.now ≡ length links.now }
    requires levels { length levels.now ≡ length links.now }
    requires in_range { InRange links.now }
    ensures { result ≡ can_go links.now (fulfils_at links.now until) alive.now levels.now place }
{
    let kids = links[place].kids;
    alive[place]
        && ((does_fulfil(links, until, place) && is_head_alive(kids, alive))
            || is_some_levelled(kids, alive, levels, links.len() as u32))
}

// One pass, the last place first: each that can take a level takes it, one of its own above all
// that are given, so that the way down is lower at each step. Answers how many are without.
fn sweep(links: &[Edges], until: u16, alive: &[bool], levels: &mut [u32], left: u32) -> u32
    requires few { length links.now < 2 ^ 32 }
    requires alive { length alive.now ≡ length links.now }
    requires in_range { InRange links.now }
    requires levels { Levelling links.now (fulfils_at links.now until) alive.now levels.old left }
    ensures levels { Levelling links.now (fulfils_at links.now until) alive.now levels.new result }
    ensures less { result ≤ left }
    ensures whole { result ≡ left → HasLevels links.now (fulfils_at links.now until) alive.now levels.new }
{
    let count = links.len() as u32;
    let mut rest = left;
    'places: for place in (0..links.len()).rev() {
        if levels[place] >= count && can_take(links, until, alive, levels, place) {
            levels[place] = count - rest;
            rest -= 1;
        }
    }
    rest
}

/// A level for each place that leads, among the living, to one that fulfils the until in a living
/// kid: it fulfils so itself, or some living kid has a lower level. The level of each other place is
/// the number of places, or more. The kids of each place are places, and `alive` has one test for
/// each. It fails only where memory does.
pub fn levels(
    alloc: Global,
    links: &[Edges],
    until: u16,
    alive: &[bool],
) -> Result<Vec<u32>, Memory>
    requires few { length links.now < 2 ^ 32 }
    requires alive { length alive.now ≡ length links.now }
    requires in_range { InRange links.now }
    ensures { IfOk result (λ v. HasLevels links.now (fulfils_at links.now until) alive.now v.items) }
{
    let count = links.len() as u32;
    let mut levels = vec![in alloc; count; links.len()]?;
    let mut rest = count;
    'passes: loop {
        let now = sweep(links, until, alive, &mut levels, rest);
        if now == rest {
            return Ok(levels);
        }
        rest = now;
    }
}
