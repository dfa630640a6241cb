//! The marks of a graph's places: which are alive, and of the others when each went and why. Marks
//! of rounds are right at any time; those that a walk proposes are so only once right.rt has passed
//! them.

ghost use Rattle.std.specs.Prelude.{◌≡◌, ◌<◌, ◌^◌, ℕ, Bool, List, length, IfOk};
ghost use Rattle.tableau_rules.specs.declared.edges.Edges.{Edges as EdgesView};
ghost use Rattle.tableau_elimination.specs.Marks.{AreMarked};

use crate::cause::Cause;
use source_sink::Memory;
use std::alloc::Global;

/// A mark for each place of a graph.
#[derive(Drop)]
pub(crate) struct Marks {
    /// Whether the place is alive.
    pub(crate) alive: Vec<bool>,
    /// How many places were gone when the place went, if it did.
    pub(crate) ranks: Vec<u32>,
    /// Why it went, if it did.
    pub(crate) causes: Vec<Cause>,
    /// How many places are alive.
    pub(crate) left: u32,
}

/// The marks of so many places, all of which are alive.
pub(crate) fn unmarked(alloc: Global, count: u32) -> Result<Marks, Memory>
    ensures { (links : List EdgesView) (carrying fulfilling : ℕ → ℕ → Bool) → length links ≡ count
        → IfOk result (λ m. AreMarked links carrying fulfilling m.alive.items m.ranks.items m.causes.items m.left) }
{
    Ok(Marks {
        alive: vec![in alloc; true; count as usize]?,
        ranks: vec![in alloc; 0u32; count as usize]?,
        causes: vec![in alloc; Cause::Dead; count as usize]?,
        left: count,
    })
}
