//! What requirements and operationalisations mean on traces, as the contracts of functions that do nothing, so that the check proves them.

ghost use Rattle.std.specs.Prelude.{◌↔◌, ℕ, Bool, List};
ghost use Rattle.temporal_logic.specs.Truth.{Trace, Truth, Meets};
ghost use Rattle.goal_model.specs.declared.item.Part.{Part};
ghost use Rattle.goal_model.specs.declared.item.Wanted.TheVariants.{NoTrace, SomeTrace};
ghost use Rattle.goal_model.specs.Models.{RequirementForm, ModelForm};
ghost use Rattle.goal_model.specs.Conditions.{MeetsRequirement, MeetsParts, Stands};
ghost use Rattle.goal_model.specs.Items.{requirement_formula, list_of, operation_complete_item, operation_consistent_item, exact_item};
ghost use Rattle.operationalisation.specs.Operationalisations.{Achieves, HasOperation, Forces};

/// The formula of a requirement is true at the start of a trace exactly where the trace meets the requirement.
pub fn law_of_requirements()
    ensures met { (m : ModelForm) (t : Trace) (r : RequirementForm) → Truth t (requirement_formula m r) 0 ↔ MeetsRequirement m t r }
{}

/// A trace meets the formulas of a list of parts exactly where it meets the domain properties and the parts, requirements among them.
pub fn law_of_conditions()
    ensures met { (m : ModelForm) (t : Trace) (parts : List (Part × Bool)) → Meets t (list_of m parts) ↔ MeetsParts m t parts }
{}

/// The demands of an operationalisation stand where it is complete, consistent and exact (Letier and van Lamsweerde 2002): the goal is true
/// on each trace of the operations, there is such a trace, and each trace that makes the goal true meets the requirement.
pub fn law_of_operationalisations()
    ensures complete { (m : ModelForm) (statement goal : ℕ) (requirements : List ℕ)
        → Stands m NoTrace (operation_complete_item m statement goal requirements).parts ↔ Achieves m requirements goal }
    ensures consistent { (m : ModelForm) (statement goal : ℕ) (requirements : List ℕ)
        → Stands m SomeTrace (operation_consistent_item m statement goal requirements).parts ↔ HasOperation m requirements }
    ensures exact { (m : ModelForm) (statement goal requirement : ℕ)
        → Stands m NoTrace (exact_item m statement goal requirement).parts ↔ Forces m goal requirement }
{}
