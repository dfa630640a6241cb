//! What the demands of a conflict mean, as the contract of a function that does nothing, so that the check proves it.

ghost use Rattle.std.specs.Prelude.{◌↔◌, ℕ, ◌++◌, List};
ghost use Rattle.goal_model.specs.declared.item.Wanted.TheVariants.{NoTrace, SomeTrace};
ghost use Rattle.goal_model.specs.Models.{ModelForm};
ghost use Rattle.goal_model.specs.Conditions.{Stands};
ghost use Rattle.goal_model.specs.Items.{diverges_item, without_item, feasible_item};
ghost use Rattle.boundary_conflicts.specs.Conflicts.{Diverge, Coexist, IsFeasible};

/// The demands of a conflict stand where its condition is a boundary condition of its goals (van Lamsweerde, Darimont and Letier 1998): they
/// diverge under it, any of them left out they do not, and it can come about.
pub fn law_of_conflicts()
    ensures diverges { (m : ModelForm) (link statement : ℕ) (name : List ℕ) (goals : List ℕ)
        → Stands m NoTrace (diverges_item link statement name goals).parts ↔ Diverge m link goals }
    ensures without { (m : ModelForm) (link statement : ℕ) (name : List ℕ) (before : List ℕ) (goal : ℕ) (behind : List ℕ)
        → Stands m SomeTrace (without_item m link statement name before goal behind).parts ↔ Coexist m link (before ++ behind) }
    ensures feasible { (m : ModelForm) (link statement : ℕ) (name : List ℕ)
        → Stands m SomeTrace (feasible_item link statement name).parts ↔ IsFeasible m link }
{}
