//! Laws of truth and of lassos. Each is the contract of a function that does nothing, so that the
//! check proves it.

ghost use Rattle.std.specs.Prelude.{◌≡◌, ℕ, ◌<◌, ◌↔◌, List, length, true};
ghost use Rattle.temporal_logic.specs.declared.lasso.Lasso.{Lasso};
ghost use Rattle.temporal_logic.specs.Ltl.{Ltl};
ghost use Rattle.temporal_logic.specs.Shapes.{is_state_of, VariablesBelow};
ghost use Rattle.temporal_logic.specs.Truth.{Trace, Truth};
ghost use Rattle.temporal_logic.specs.Traces.{Loops, IsPeriodic};
ghost use Rattle.temporal_logic.specs.Rows.{from_lists, IsGiven};
ghost use Rattle.temporal_logic.specs.Lassos.{trace_of, IsOfSpace};

/// On a trace that ends in a loop, whether a formula is true at a position is decided.
pub fn law_of_decision()
    ensures decided { (t : Trace) (start turn : ℕ) → Loops t start turn
        → (f : Ltl) (i : ℕ) → Dec (Truth t f i) }
{}

/// A lasso's trace loops from its prefix on, with the length of its loop; and where its states are
/// of a space, its trace is an ultimately periodic one of the space.
pub fn law_of_lassos()
    ensures loops { (l : Lasso)
        → Loops (trace_of l) (length l.prefix.items) (length l.cycle.items) }
    ensures periodic { (sizes : List ℕ) (l : Lasso) → IsOfSpace sizes l
        → IsPeriodic sizes (trace_of l) }
{}

/// Each ultimately periodic trace is that of a prefix and a loop, as far as its variables go; and
/// what a formula of these variables says is true of the one where it is of the other.
pub fn law_of_traces()
    ensures given { (sizes : List ℕ) (t : Trace) → IsPeriodic sizes t → IsGiven sizes t }
    ensures truth { (sizes : List ℕ) (t : Trace) (lists : IsGiven sizes t) (f : Ltl)
        → VariablesBelow (length sizes) f → (i : ℕ)
        → Truth t f i ↔ Truth (from_lists lists.prefix lists.cycle) f i }
{}

/// A formula has the same truth on traces that agree on the variables that it names. A state
/// formula has it at any two positions with the same values of these, be it of other traces.
pub fn law_of_agreement()
    ensures along { (n : ℕ) (f : Ltl) → VariablesBelow n f → (t u : Trace)
        → ((i x : ℕ) → x < n → t i x ≡ u i x) → (i : ℕ) → Truth t f i ↔ Truth u f i }
    ensures state { (n : ℕ) (f : Ltl) → VariablesBelow n f → is_state_of f ≡ true
        → (t u : Trace) (i j : ℕ) → ((x : ℕ) → x < n → t i x ≡ u j x)
        → Truth t f i ↔ Truth u f j }
{}
