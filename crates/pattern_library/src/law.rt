//! Laws of patterns and their instances, as contracts of functions that do nothing, so that the check proves them.

ghost use Rattle.std.specs.Prelude.{◌≡◌, ℕ, ◌↔◌, List, ◌++◌, length, replicate, Some};
ghost use Rattle.temporal_logic.specs.Ltl.{Ltl};
ghost use Rattle.temporal_logic.specs.Truth.{Trace, Truth, Meets};
ghost use Rattle.temporal_logic.specs.Traces.{IsPeriodic};
ghost use Rattle.tableau_rules.specs.Queries.{MeetsAll};
ghost use Rattle.goal_model.specs.declared.pattern.PatternKind.{PatternKind};
ghost use Rattle.goal_model.specs.Patterns.{pattern_named};
ghost use Rattle.pattern_library.specs.Patterns.{PatternForm, pattern_of, pattern_list, broken_by};
ghost use Rattle.pattern_library.specs.PatternNames.{pattern_name};
ghost use Rattle.pattern_library.specs.PatternQueries.{pattern_cores, AreInstance};
ghost use Rattle.pattern_library.specs.Instances.{instance_of, IsOverPlaceholders, IsPattern, AllOccur, Matches, placeholder_sizes, Shows};

/// An instance of a pattern's formula is true where that formula is on the trace of its placeholders, which an ultimately periodic trace
/// has. So where no such trace over the placeholders has a pattern's subgoals and not its parent, no trace of a model has those of an
/// instance, whatever is asked of it besides. A pattern whose placeholders all occur has one binding at most.
pub fn law_of_instances()
    ensures substitution { (formulas : List Ltl) (shown seen : Trace) → Shows formulas shown seen
        → (f : Ltl) → IsOverPlaceholders (length formulas) f → (i : ℕ)
        → Truth shown f i ↔ Truth seen (instance_of formulas f) i }
    ensures shown { (sizes : List ℕ) (seen : Trace) → IsPeriodic sizes seen → (formulas : List Ltl)
        → (shown : Trace) × IsPeriodic (replicate (length formulas) 2) shown × Shows formulas shown seen }
    ensures refuted { (p : PatternForm) → IsPattern p
        → ((shown : Trace) → IsPeriodic (placeholder_sizes p) shown → ¬ (Meets shown (pattern_list p)))
        → (parent : Ltl) (subgoals formulas : List Ltl) → Matches p parent subgoals formulas
        → (sizes : List ℕ) (t : Trace) → IsPeriodic sizes t
        → (others : List Ltl) → ¬ (Meets t (broken_by (others ++ subgoals) parent)) }
    ensures unique { (p : PatternForm) → IsPattern p → AllOccur p
        → (parent : Ltl) (subgoals f g : List Ltl) → Matches p parent subgoals f → Matches p parent subgoals g → f ≡ g }
{}

/// Each of the five patterns is one over its placeholders, which all occur, and has the name by which a model names it. No trace has its
/// subgoals and not its parent, so that no ultimately periodic trace of the placeholders meets its query, and none of a model has the subgoals
/// of an instance and not its parent, whatever is asked of it besides.
pub fn law_of_library()
    ensures pattern { (kind : PatternKind) → IsPattern (pattern_of kind) }
    ensures occur { (kind : PatternKind) → AllOccur (pattern_of kind) }
    ensures named { (kind : PatternKind) → pattern_named (pattern_name kind) ≡ Some kind }
    ensures refuted { (kind : PatternKind) (t : Trace) → ¬ (Meets t (pattern_list (pattern_of kind))) }
    ensures query { (kind : PatternKind) (t : Trace) → IsPeriodic (placeholder_sizes (pattern_of kind)) t → ¬ (MeetsAll t (pattern_cores (pattern_of kind))) }
    ensures instances { (kind : PatternKind) (list : List Ltl) → AreInstance kind list
        → (sizes : List ℕ) (t : Trace) → IsPeriodic sizes t → (others : List Ltl) → ¬ (Meets t (others ++ list)) }
{}
