//! The law of grounding, as the contract of a function that does nothing, so that the check proves
//! it: what the plain formula says is what the written one does.

ghost use Rattle.std.specs.Prelude.{◌≡◌, ◌↔◌, ℕ, List, []};
ghost use Rattle.temporal_logic.specs.Truth.{Trace, Truth};
ghost use Rattle.entity_types.specs.WrittenTrees.{WrittenTree};
ghost use Rattle.entity_types.specs.WrittenTruth.{WrittenTruth};
ghost use Rattle.entity_types.specs.Rows.{Rows, HasMembers};
ghost use Rattle.entity_types.specs.Grounding.{ground_of};
ghost use Rattle.entity_types.specs.Fits.{Fits};

/// At each position of each trace the plain formula of a written one is true where that is.
pub fn law_of_grounding()
    ensures { (rows : Rows) → HasMembers rows → (f : WrittenTree) → Fits rows [] f → (t : Trace) (i : ℕ)
        → Truth t (ground_of rows [] f) i ↔ WrittenTruth rows t [] f i }
{}
