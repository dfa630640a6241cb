//! Whether proposed marks are right: each place that is gone is looked at with its kids alone, in
//! one pass. The plain form of a right mark is `IsRight` of specs/Marks.antt. Marks that fail are
//! dropped whole, and rounds begin from none; so nothing rests on the walk. On the graph of a
//! counter of 123,711 nodes rounds alone took about 1.1 s, and elimination with the walk and this
//! test 0.11 s (docs/ARCHITECTURE.md).

ghost use Rattle.std.specs.Prelude.{◌≡◌, ◌<◌, ◌&&◌, length, get_or, true, IsTrue, IsFalse};
ghost use Rattle.std.specs.List.{AllByRecursion};
ghost use Rattle.tableau_rules.specs.GraphView.{graph_of};
ghost use Rattle.tableau_rules.specs.Links.{kids_of, kids_at, fulfils_at, InRange};
ghost use Rattle.tableau_rules.specs.Levels.{head_is, some_is};
ghost use Rattle.tableau_elimination.specs.Marks.{carrying_in, cause_at, living, IsReady, AreMarked, IsRight, is_late, is_apart, are_joined, IsWaiting};

use crate::cause::Cause;
use crate::linked_graph::LinkedGraph;
use crate::marks::Marks;
use crate::place::is_some_alive;
use tableau_rules::{Edges, Kids, does_carry, does_fulfil};

// Whether both wait for one until.
fn are_joined(a: Cause, b: Cause) -> bool
    ensures { result ≡ are_joined a b }
{
    match (a, b) {
        (Cause::Wait(first), Cause::Wait(second)) => first == second,
        _ => false,
    }
}

// Whether the place went no earlier than the rank says.
fn is_late(ranks: &[u32], rank: u32, place: u32) -> bool
    requires { place < length ranks.now }
    ensures { result ≡ is_late ranks.now rank place }
{
    ranks[place as usize] >= rank
}

// Whether the place went neither earlier nor for the same until at the same time.
fn is_apart(ranks: &[u32], causes: &[Cause], rank: u32, cause: Cause, place: u32) -> bool
    requires ranks { place < length ranks.now }
    requires causes { place < length causes.now }
    ensures { result ≡ is_apart ranks.now causes.now rank cause place }
{
    is_late(ranks, rank, place)
        && !(ranks[place as usize] == rank && are_joined(cause, causes[place as usize]))
}

// Whether there is no kid.
fn is_leaf(kids: Kids) -> bool
    ensures { IsFalse result → 0 < length (kids_of kids) }
{
    matches!(kids, Kids::Leaf)
}

// Whether some kid went neither earlier nor for the same until at the same time.
fn is_some_apart(ranks: &[u32], causes: &[Cause], rank: u32, cause: Cause, kids: Kids) -> bool
    requires ranks { AllByRecursion (λ p. p < length ranks.now) (kids_of kids) }
    requires causes { AllByRecursion (λ p. p < length causes.now) (kids_of kids) }
    ensures { result ≡ some_is (is_apart ranks.now causes.now rank cause) (kids_of kids) }
{
    match kids {
        Kids::Leaf => false,
        Kids::One(a) => is_apart(ranks, causes, rank, cause, a),
        Kids::Two(a, b) => {
            is_apart(ranks, causes, rank, cause, a) || is_apart(ranks, causes, rank, cause, b)
        }
    }
}

// Whether there is a first kid that went no earlier.
fn is_head_late(ranks: &[u32], rank: u32, kids: Kids) -> bool
    requires { AllByRecursion (λ p. p < length ranks.now) (kids_of kids) }
    ensures { result ≡ head_is (is_late ranks.now rank) (kids_of kids) }
{
    match kids {
        Kids::Leaf => false,
        Kids::One(a) | Kids::Two(a, _) => is_late(ranks, rank, a),
    }
}

// Whether the place carries the until, if that is one.
fn is_carried(linked_graph: &LinkedGraph<'_>, until: u16, place: usize) -> bool
    requires ready { IsReady linked_graph.now }
    requires inside { place < length linked_graph.now.links.now }
    ensures { IsTrue result → carrying_in linked_graph.now until place ≡ true }
{
    until < linked_graph.query.len()
        && linked_graph.query.is_until(until)
        && does_carry(linked_graph.query, linked_graph.graph, until, place)
}

// Whether the place fulfils the until in a first kid that went no earlier. Such a kid may carry the
// until again, so to wait with it is no reason: `always next eventually p` would be eliminated.
fn is_fulfilled_late(links: &[Edges], until: u16, ranks: &[u32], place: usize) -> bool
    requires in_range { InRange links.now }
    requires inside { place < length links.now }
    requires ranks { length ranks.now ≡ length links.now }
    ensures { result ≡ (fulfils_at links.now until place && head_is (is_late ranks.now (get_or ranks.now place 0)) (kids_at links.now place)) }
{
    does_fulfil(links, until, place) && is_head_late(ranks, ranks[place], links[place].kids)
}

// Whether the place has a kid and carries the until, and does not fulfil it in a first kid that went
// no earlier.
fn is_waiting(linked_graph: &LinkedGraph<'_>, until: u16, ranks: &[u32], place: usize) -> bool
    requires ready { IsReady linked_graph.now }
    requires inside { place < length linked_graph.now.links.now }
    requires ranks { length ranks.now ≡ length linked_graph.now.links.now }
    ensures { IsTrue result → IsWaiting linked_graph.now.links.now (carrying_in linked_graph.now) (fulfils_at linked_graph.now.links.now) ranks.now until place }
{
    if is_leaf(linked_graph.links[place].kids) || !is_carried(linked_graph, until, place) {
        return false;
    }
    !is_fulfilled_late(linked_graph.links, until, ranks, place)
}

// Whether the mark of a place that is gone is right.
fn is_right(linked_graph: &LinkedGraph<'_>, ranks: &[u32], causes: &[Cause], place: usize) -> bool
    requires ready { IsReady linked_graph.now }
    requires inside { place < length linked_graph.now.links.now }
    requires ranks { length ranks.now ≡ length linked_graph.now.links.now }
    requires causes { length causes.now ≡ length linked_graph.now.links.now }
    ensures { IsTrue result → IsRight linked_graph.now.links.now (carrying_in linked_graph.now) (fulfils_at linked_graph.now.links.now) ranks.now causes.now place (cause_at causes.now place) }
{
    let cause = causes[place];
    if is_some_apart(
        ranks,
        causes,
        ranks[place],
        cause,
        linked_graph.links[place].kids,
    ) {
        return false;
    }
    match cause {
        Cause::Dead => true,
        Cause::Wait(until) => is_waiting(linked_graph, until, ranks, place),
    }
}

// How many places are alive.
fn living(alive: &[bool]) -> usize
    ensures { result ≡ living alive.now }
{
    let mut count = 0;
    'places: for place in 0..alive.len() {
        if alive[place] {
            count += 1;
        }
    }
    count
}

// Whether the marks of all places that are gone are right, where so many are alive.
fn all_right(
    linked_graph: &LinkedGraph<'_>,
    alive: &[bool],
    ranks: &[u32],
    causes: &[Cause],
    left: u32,
) -> bool
    requires ready { IsReady linked_graph.now }
    requires alive { length alive.now ≡ length linked_graph.now.links.now }
    requires ranks { length ranks.now ≡ length linked_graph.now.links.now }
    requires causes { length causes.now ≡ length linked_graph.now.links.now }
    requires left { living alive.now ≡ left }
    ensures { IsTrue result → AreMarked linked_graph.now.links.now (carrying_in linked_graph.now) (fulfils_at linked_graph.now.links.now) alive.now ranks.now causes.now left }
{
    let gone = alive.len().saturating_sub(left as usize);
    'places: for place in 0..alive.len() {
        if !alive[place]
            && (is_some_alive(linked_graph.links[place].kids, alive)
                || ranks[place] as usize >= gone
                || !is_right(linked_graph, ranks, causes, place))
        {
            return false;
        }
    }
    true
}

/// Whether the marks are right of all places that are gone, and tell how many are alive.
pub(crate) fn are_right(linked_graph: &LinkedGraph<'_>, marks: &Marks) -> bool
    requires ready { IsReady linked_graph.now }
    ensures { IsTrue result → AreMarked linked_graph.now.links.now (carrying_in linked_graph.now) (fulfils_at linked_graph.now.links.now) marks.now.alive.items marks.now.ranks.items marks.now.causes.items marks.now.left }
{
    let count = linked_graph.links.len();
    marks.alive.len() == count
        && marks.ranks.len() == count
        && marks.causes.len() == count
        && living(&marks.alive) == marks.left as usize
        && all_right(
            linked_graph,
            &marks.alive,
            &marks.ranks,
            &marks.causes,
            marks.left,
        )
}
