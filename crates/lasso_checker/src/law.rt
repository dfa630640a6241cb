//! A law of truth on lassos, as the contract of a function that does nothing, so that the check
//! proves it.

ghost use Rattle.std.specs.Prelude.{ℕ, ◌+◌, ◌≤◌, ◌↔◌, length};
ghost use Rattle.temporal_logic.specs.declared.lasso.Lasso.{Lasso};
ghost use Rattle.temporal_logic.specs.Ltl.{Ltl};
ghost use Rattle.temporal_logic.specs.Truth.{Truth};
ghost use Rattle.temporal_logic.specs.Lassos.{trace_of};

/// From the prefix's end on, a formula is true at a position exactly where it is true a whole turn
/// of the loop later.
pub fn law_of_the_loop()
    ensures repeats { (l : Lasso) (f : Ltl) (i : ℕ) → length l.prefix.items ≤ i
        → Truth (trace_of l) f i ↔ Truth (trace_of l) f (i + length l.cycle.items) }
{}
