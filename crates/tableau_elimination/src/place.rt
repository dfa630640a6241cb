//! A place and its kids, as the searches ask for them. A place past the last has no kid and is not
//! alive, so that the walk, which proves nothing of its places, can ask for any.

ghost use Rattle.std.specs.Prelude.{◌≡◌};
ghost use Rattle.tableau_rules.specs.Links.{kids_of, kids_at};
ghost use Rattle.tableau_rules.specs.Levels.{head_is, some_is, alive_at};

use tableau_rules::{Edges, Kids};

/// The kids of a place. A place past the last has none.
pub(crate) fn kids_at(links: &[Edges], place: u32) -> Kids
    ensures { kids_of result ≡ kids_at links.now place }
{
    match links.get(place as usize) {
        Some(link) => link.kids,
        None => Kids::Leaf,
    }
}

/// Whether the place is alive. A place past the last is not.
pub(crate) fn is_alive(alive: &[bool], place: u32) -> bool
    ensures { result ≡ alive_at alive.now place }
{
    match alive.get(place as usize) {
        Some(test) => *test,
        None => false,
    }
}

/// Whether some kid is alive.
pub(crate) fn is_some_alive(kids: Kids, alive: &[bool]) -> bool
    ensures { result ≡ some_is (alive_at alive.now) (kids_of kids) }
{
    match kids {
        Kids::Leaf => false,
        Kids::One(a) => is_alive(alive, a),
        Kids::Two(a, b) => is_alive(alive, a) || is_alive(alive, b),
    }
}

/// Whether there is a first kid, which is alive.
pub(crate) fn is_head_alive(kids: Kids, alive: &[bool]) -> bool
    ensures { result ≡ head_is (alive_at alive.now) (kids_of kids) }
{
    match kids {
        Kids::Leaf => false,
        Kids::One(a) | Kids::Two(a, _) => is_alive(alive, a),
    }
}
