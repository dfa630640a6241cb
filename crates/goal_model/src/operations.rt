//! The statements that declare operations and requirements on them.

ghost use Rattle.std.specs.Prelude.{◌≡◌, ◌≤◌};
ghost use Rattle.model_text.specs.Limits.{depth_of};
ghost use Rattle.model_text.specs.RawView.{raw_tree};
ghost use Rattle.goal_model.specs.Refusals.{Gives};
ghost use Rattle.goal_model.specs.Drafts.{draft_of};
ghost use Rattle.goal_model.specs.WholeDrafts.{IsDraft};
ghost use Rattle.goal_model.specs.Resolution.{operation_taken, requirement_taken};

use crate::contents::{Operation, Requirement};
use crate::draft::Draft;
use crate::namespace::Kind;
use crate::refusal::{RefusalKind, Stop, refused};
use model_text::{RawFormula, Role};
use state_space::Name;
use std::alloc::Global;

/// `operation NAME by NAME dompre FORMULA dompost FORMULA`
pub(crate) fn take_operation(
    alloc: Global,
    draft: &mut Draft,
    number: u32,
    name: &Name,
    agent: &Name,
    dompre: &RawFormula,
    dompost: &RawFormula,
) -> Result<(), Stop>
    requires draft { IsDraft (draft_of draft.old) }
    requires dompre { depth_of (raw_tree dompre.now) ≤ 100 }
    requires dompost { depth_of (raw_tree dompost.now) ≤ 100 }
    ensures { Gives (λ _. draft_of draft.new) result (operation_taken (draft_of draft.old) number name.now agent.now (raw_tree dompre.now) (raw_tree dompost.now)) }
{
    let scope = draft.scope();
    scope.fresh(alloc, name)?;
    let agent = scope.used(alloc, Kind::Agent, agent)?;
    let (dompre, dompost) = draft.two_formulas(alloc, number, name, dompre, dompost)?;
    if !dompre.is_state() || !dompost.is_state() {
        return refused(alloc, RefusalKind::NotState, name);
    }
    let place = draft.contents.operations.len();
    let name = draft.declare(alloc, name, Kind::Operation, place)?;
    draft.contents.operations.push(Operation {
        name,
        agent,
        dompre,
        dompost,
    })?;
    Ok(())
}

/// `require NAME on NAME pre FORMULA`, or `trig` or `post`
pub(crate) fn take_requirement(
    alloc: Global,
    draft: &mut Draft,
    number: u32,
    name: &Name,
    operation: &Name,
    role: Role,
    body: &RawFormula,
) -> Result<(), Stop>
    requires draft { IsDraft (draft_of draft.old) }
    requires shallow { depth_of (raw_tree body.now) ≤ 100 }
    ensures { Gives (λ _. draft_of draft.new) result (requirement_taken (draft_of draft.old) number name.now operation.now role (raw_tree body.now)) }
{
    let scope = draft.scope();
    scope.fresh(alloc, name)?;
    let operation = scope.used(alloc, Kind::Operation, operation)?;
    let formula = draft.one_formula(alloc, number, name, body)?;
    if !formula.is_state() {
        return refused(alloc, RefusalKind::NotState, name);
    }
    let place = draft.contents.requirements.len();
    let name = draft.declare(alloc, name, Kind::Requirement, place)?;
    draft.contents.requirements.push(Requirement {
        name,
        operation,
        role,
        formula,
    })?;
    Ok(())
}
