//! The formula that a requirement stands for in a list of formulas.

ghost use Rattle.std.specs.Prelude.{◌≡◌, ◌<◌, ◌↔◌, length, slice_index_or, IfOk};
ghost use Rattle.temporal_logic.specs.Trees.{tree_of};
ghost use Rattle.temporal_logic.specs.Truth.{Trace, Truth};
ghost use Rattle.goal_model.specs.declared.item.Part.TheVariants.{Requirement};
ghost use Rattle.goal_model.specs.ModelViews.{model_of};
ghost use Rattle.goal_model.specs.Items.{no_requirement, part_formula};
ghost use Rattle.goal_model.specs.Conditions.{MeetsRequirement};

use goal_model::{Model, requirement_tree};
use source_sink::Memory;
use std::alloc::Global;
use temporal_logic::Formula;

/// The formula of the requirement at a place of the model's requirements. It is true at the start of a trace exactly where the trace meets
/// the requirement: the operation is applied where its `DomPre` is true, and its `DomPost` at the next position.
pub fn requirement_formula(alloc: Global, model: &Model, place: usize) -> Result<Formula, Memory>
    requires place { place < length (model_of model.now).requirements }
    ensures formula { IfOk result (λ f. tree_of f ≡ part_formula (model_of model.now) (Requirement place)) }
    ensures met { IfOk result (λ f. (t : Trace) → Truth t (tree_of f) 0 ↔ MeetsRequirement (model_of model.now) t (slice_index_or (model_of model.now).requirements place no_requirement)) }
{
    let requirement = &model.requirements()[place];
    let operation = &model.operations()[requirement.operation];
    requirement_tree(
        alloc,
        requirement.role,
        &operation.dompre,
        &operation.dompost,
        &requirement.formula,
    )
}
