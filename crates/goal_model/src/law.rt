//! The laws of resolution, as contracts of functions that do nothing, so that the check proves them: each is what a reader expects of the
//! definitions, or what a caller has to know to use them.

ghost use Rattle.std.specs.Prelude.{◌≡◌, ◌↔◌, ◌≤◌, ℕ, true, List, All, length};
ghost use Rattle.model_text.specs.Statements.{StatementForm};
ghost use Rattle.model_text.specs.Readability.{IsReadable};
ghost use Rattle.goal_model.specs.declared.refusal.RefusalKind.{RefusalKind};
ghost use Rattle.goal_model.specs.Models.{LinkForm, ModelForm};
ghost use Rattle.goal_model.specs.WholeDrafts.{IsShallow};
ghost use Rattle.goal_model.specs.Reachability.{IsCyclic, closes_cycle};
ghost use Rattle.goal_model.specs.Resolution.{made, refuses, outcome_of};

/// The statements of a readable text are at most 2000, and no formula of them has over 100 levels.
#[tactic(auto, using(crate::proofs::WithinLimits::few_statements, crate::proofs::WithinLimits::shallow_statements))]
pub fn law_of_limits()
    ensures few { (bytes : List ℕ) (ss : List StatementForm) → IsReadable bytes ss → length ss ≤ 2000 }
    ensures shallow { (bytes : List ℕ) (ss : List StatementForm) → IsReadable bytes ss → All IsShallow ss }
{}

/// Statements make one model at most, or have one refusal, and never both.
#[tactic(auto, using(crate::proofs::Outcomes::one_model, crate::proofs::Outcomes::one_refusal, crate::proofs::Outcomes::not_both))]
pub fn law_of_outcomes()
    ensures model { (ss : List StatementForm) (m n : ModelForm) → outcome_of ss ≡ made m → outcome_of ss ≡ made n → m ≡ n }
    ensures refusal { (ss : List StatementForm) (kind other : RefusalKind) (statement number : ℕ) (x y : List ℕ) → outcome_of ss ≡ refuses kind statement x
        → outcome_of ss ≡ refuses other number y → (kind ≡ other) × (statement ≡ number) × (x ≡ y) }
    ensures either { (ss : List StatementForm) (m : ModelForm) (kind : RefusalKind) (statement : ℕ) (x : List ℕ) → outcome_of ss ≡ made m
        → outcome_of ss ≡ refuses kind statement x → ⊥ }
{}

/// A refinement closes a cycle exactly where its parent is among its subgoals, or reached from one of them over earlier refinements.
#[tactic(auto, using(crate::proofs::Cycles::cycle_tested, crate::proofs::Cycles::cycle_test))]
pub fn law_of_cycles()
    ensures { (links : List LinkForm) (parent : ℕ) (subgoals : List ℕ) → (closes_cycle links parent subgoals ≡ true) ↔ IsCyclic links parent subgoals }
{}
