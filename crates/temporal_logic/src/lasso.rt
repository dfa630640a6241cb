//! Lassos: a prefix of states, and a loop of states that is repeated for ever. A loop is never
//! empty, so that there is a state at each position.

ghost use Rattle.std.specs.Prelude.{◌≡◌, ℕ, ◌<◌, ◌↔◌, [], length, IsTrue, IfOk, Err};
ghost use Rattle.state_space.specs.Spaces.{sizes};
ghost use Rattle.temporal_logic.specs.Rows.{AllFit};

use state_space::{Space, State};

/// A trace that ends in a loop. `Lasso::new` makes those of a space.
#[derive(Debug, Drop)]
pub struct Lasso {
    /// The states at the first positions.
    pub prefix: Vec<State>,
    /// The states from then on, over and over; at least one.
    pub cycle: Vec<State>,
    ghost loops: { 0 < length cycle.items },
}

/// Why two lists of states make no lasso of a space.
#[derive(Clone, Copy, PartialEq, Eq, Debug)]
pub enum LassoRefusal {
    /// The loop has no state.
    EmptyLoop,
    /// The loop has a state, but some state does not fit the space.
    StateOutOfSpace,
}

// Whether each of the states fits the space.
fn all_fit(space: &Space, states: &[State]) -> bool
    ensures fit { IsTrue result ↔ AllFit (sizes space.now) states.now }
{
    states.iter().all(|s| s.fits(space))
}

impl Lasso {
    ghost use Rattle.temporal_logic.specs.Traces.{TraceFits};
    ghost use Rattle.temporal_logic.specs.Lassos.{values_at, trace_of, IsOfSpace};

    /// The lasso of a prefix and a loop. It takes no memory. `EmptyLoop` comes where the loop has
    /// no state, and else `StateOutOfSpace` where some state does not fit the space.
    pub fn new(space: &Space, prefix: Vec<State>, cycle: Vec<State>) -> Result<Lasso, LassoRefusal>
        ensures prefix { IfOk result (λ l. l.prefix.items ≡ prefix.items) }
        ensures cycle { IfOk result (λ l. l.cycle.items ≡ cycle.items) }
        ensures of_space { IfOk result (λ l. IsOfSpace (sizes space.now) l) }
        ensures fits { IfOk result (λ l. TraceFits (sizes space.now) (trace_of l)) }
        ensures empty { (result ≡ Err LassoRefusal.EmptyLoop) ↔ (cycle.items ≡ []) }
        ensures out { (result ≡ Err LassoRefusal.StateOutOfSpace)
            ↔ (0 < length cycle.items
            × ¬ (AllFit (sizes space.now) prefix.items × AllFit (sizes space.now) cycle.items)) }
    {
        if cycle.is_empty() {
            return Err(LassoRefusal::EmptyLoop);
        }
        if !all_fit(space, &prefix) || !all_fit(space, &cycle) {
            return Err(LassoRefusal::StateOutOfSpace);
        }
        Ok(Lasso { prefix, cycle })
    }

    /// The state at a position, from 0, however great: from the prefix's end on one of the loop.
    pub fn state_at(&self, position: u64) -> &State
        ensures values { result.now.values.items ≡ values_at self.now position }
    {
        let start = self.prefix.len() as u64;
        if position < start {
            &self.prefix[position as usize]
        } else {
            let step = (position - start) % self.cycle.len() as u64;
            &self.cycle[step as usize]
        }
    }
}
