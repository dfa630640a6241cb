//! What obstructions and candidates mean, as the contracts of functions that do nothing, so that the check proves them.

ghost use Rattle.std.specs.Prelude.{◌≡◌, ◌↔◌, ◌<◌, ℕ, true, List, Contains, All, length};
ghost use Rattle.temporal_logic.specs.Ltl.{Ltl};
ghost use Rattle.temporal_logic.specs.Truth.{Trace, Truth, Meets};
ghost use Rattle.temporal_logic.specs.Traces.{IsPeriodic};
ghost use Rattle.temporal_logic.specs.Fits.{Fits};
ghost use Rattle.bound_unfolding.specs.CoreForm.{CoreForm, CoreTruth};
ghost use Rattle.goal_model.specs.declared.item.Wanted.TheVariants.{NoTrace, SomeTrace};
ghost use Rattle.goal_model.specs.Models.{ModelForm, sizes_of, PartsFit};
ghost use Rattle.goal_model.specs.Conditions.{Stands};
ghost use Rattle.goal_model.specs.Items.{obstructs_item, possible_item, covered_item};
ghost use Rattle.operationalisation.specs.Operationalisations.{goal_at, IsOfDomain};
ghost use Rattle.obstacle_regression.specs.Replacements.{replaced};
ghost use Rattle.obstacle_regression.specs.Candidates.{DomainCores, is_small, candidates};
ghost use Rattle.obstacle_regression.specs.Derivations.{IsDerived};
ghost use Rattle.obstacle_regression.specs.Regressions.{regression_through, goal_regression};
ghost use Rattle.obstacle_regression.specs.Obstructions.{Obstructs, IsPossible, Cover};

/// The demands of an obstruction stand where each obstacle obstructs the goal and is possible, and where the obstacles cover the goal (van
/// Lamsweerde and Letier 2000).
pub fn law_of_obstructions()
    ensures obstructs { (m : ModelForm) (statement goal obstacle : ℕ)
        → Stands m NoTrace (obstructs_item m statement goal obstacle).parts ↔ Obstructs m obstacle goal }
    ensures possible { (m : ModelForm) (statement goal obstacle : ℕ)
        → Stands m SomeTrace (possible_item m statement goal obstacle).parts ↔ IsPossible m obstacle }
    ensures covered { (m : ModelForm) (statement goal : ℕ) (obstacles : List ℕ)
        → Stands m NoTrace (covered_item m statement goal obstacles).parts ↔ Cover m obstacles goal }
{}

/// Where K is true at no position without L, a core with K in place of L is true at none without the core.
pub fn law_of_replacement()
    ensures truth { (t : Trace) (l k : CoreForm)
        → ((i : ℕ) → CoreTruth t k i → CoreTruth t l i)
        → (c : CoreForm) (i : ℕ) → CoreTruth t (replaced l k c) i → CoreTruth t c i }
{}

/// Each candidate is derived from the first one, and small enough to be asked about. A candidate obstructs the goal: on each trace that meets the rules and makes the candidate
/// true at its start, the goal is false. Over the model's own rules these are the traces that meet the domain properties.
pub fn law_of_regression()
    ensures derived { (d : DomainCores) (first : CoreForm) (depth : ℕ) (c : CoreForm)
        → Contains (candidates d first depth).list c → IsDerived d.rules first c }
    ensures small { (d : DomainCores) (first : CoreForm) (depth : ℕ) → All (λ c. is_small d.beside c ≡ true) (candidates d first depth).list }
    ensures through { (m : ModelForm) → PartsFit m
        → (goal depth : ℕ) → goal < length m.goals
        → (rules beside : List Ltl) → All (Fits m.ranges) rules
        → (c : CoreForm) → Contains (regression_through m goal rules beside depth).list c
        → (t : Trace) → IsPeriodic (sizes_of m) t → Meets t rules → CoreTruth t c 0 → Truth t (goal_at m goal) 0 → ⊥ }
    ensures obstructs { (m : ModelForm) → PartsFit m
        → (goal depth : ℕ) → goal < length m.goals
        → (c : CoreForm) → Contains (goal_regression m goal depth).list c
        → (t : Trace) → IsOfDomain m t → CoreTruth t c 0 → Truth t (goal_at m goal) 0 → ⊥ }
{}
