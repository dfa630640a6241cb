//! From statements to a model: statements are taken in order, and the first fault is answered.

ghost use Rattle.std.specs.Prelude.{◌+◌, ◌<◌, ◌≤◌, [], Err, All, length, vec_len, IfOk, OnOk};
ghost use Rattle.model_text.specs.Statements.{statement_of, statements_of};
ghost use Rattle.goal_model.specs.Refusals.{Resolved, Gives};
ghost use Rattle.goal_model.specs.ModelViews.{model_of};
ghost use Rattle.goal_model.specs.Drafts.{DraftForm, draft_of, finished as finished_form};
ghost use Rattle.goal_model.specs.WholeDrafts.{IsDraft, IsShallow};
ghost use Rattle.goal_model.specs.Declarations.{DeclaresApart, UsesDeclared};
ghost use Rattle.goal_model.specs.Resolution.{Outcome, taken, goes_on, outcome_of, made};
ghost use Rattle.goal_model.specs.Outcomes.{sized_all, Refuses, AnswersBy};

use crate::agents::take_agent;
use crate::draft::Draft;
use crate::links::{
    take_assignment, take_conflict, take_expectation, take_obstruction, take_operationalisation,
    take_refinement,
};
use crate::model::Model;
use crate::operations::{take_operation, take_requirement};
use crate::properties::{take_domain, take_goal, take_obstacle, take_rule};
use crate::refusal::{ModelRefusal, Stop};
use crate::traces::{finished, take_trace};
use crate::variables::{take_attribute, take_entity_type, take_variable};
use model_text::{RawModel, StatementKind};
use std::alloc::Global;

// Takes a statement into a draft.
fn take(alloc: Global, draft: &mut Draft, number: u32, kind: &StatementKind) -> Result<(), Stop>
    requires draft { IsDraft (draft_of draft.old) }
    requires few { length (draft_of draft.old).model.members < 2000 }
    requires shallow { IsShallow (statement_of kind.now) }
    ensures { Gives (λ _. draft_of draft.new) result (taken (draft_of draft.old) number (statement_of kind.now)) }
{
    match kind {
        StatementKind::Version(version) => {
            draft.version = *version;
            Ok(())
        }
        StatementKind::Var(x, range) => take_variable(alloc, draft, x, range),
        StatementKind::Entity(x, members) => take_entity_type(alloc, draft, x, members),
        StatementKind::Attr(x, entity, range) => take_attribute(alloc, draft, x, entity, range),
        StatementKind::Domain(x, body) => take_domain(alloc, draft, number, x, body),
        StatementKind::Rule(x, cause, effect) => take_rule(alloc, draft, number, x, cause, effect),
        StatementKind::Goal(x, body) => take_goal(alloc, draft, number, x, body),
        StatementKind::Obstacle(x, body) => take_obstacle(alloc, draft, number, x, body),
        StatementKind::Refine(x, subgoals, pattern) => {
            take_refinement(alloc, draft, number, x, subgoals, pattern)
        }
        StatementKind::Obstruct(x, obstacles) => {
            take_obstruction(alloc, draft, number, x, obstacles)
        }
        StatementKind::Conflict(x, goals, boundary) => {
            take_conflict(alloc, draft, number, x, goals, boundary)
        }
        StatementKind::Agent(x, monitored, controlled) => {
            take_agent(alloc, draft, x, monitored, controlled)
        }
        StatementKind::Assign(x, y) => take_assignment(alloc, draft, number, x, y),
        StatementKind::Expect(x, y) => take_expectation(alloc, draft, x, y),
        StatementKind::Operation(x, y, dompre, dompost) => {
            take_operation(alloc, draft, number, x, y, dompre, dompost)
        }
        StatementKind::Require(x, y, role, body) => {
            take_requirement(alloc, draft, number, x, y, *role, body)
        }
        StatementKind::Operationalise(x, requirements, exact) => {
            take_operationalisation(alloc, draft, number, x, requirements, *exact)
        }
        StatementKind::Trace(x, prefix, cycle) => take_trace(alloc, draft, x, prefix, cycle),
    }
}

// The refusal of a statement.
fn refusal(stop: Stop, number: u32) -> ModelRefusal
    ensures { (o : Resolved DraftForm) (rest : DraftForm → Outcome) → Gives (λ d. d) (Err stop) o → Refuses result (goes_on number o rest) }
{
    match stop {
        Stop::Fault(fault) => ModelRefusal::Refused {
            kind: fault.kind,
            statement: number,
            name: fault.name,
        },
        Stop::Memory => ModelRefusal::Memory,
    }
}

// Takes the statement of a number, or refuses it.
fn step(
    alloc: Global,
    draft: &mut Draft,
    number: u32,
    kind: &StatementKind,
) -> Result<(), ModelRefusal>
    requires draft { IsDraft (draft_of draft.old) }
    requires few { length (draft_of draft.old).model.members < 2000 }
    requires shallow { IsShallow (statement_of kind.now) }
    ensures answer { (rest : DraftForm → Outcome) → AnswersBy (λ _. rest (draft_of draft.new)) result (goes_on number (taken (draft_of draft.old) number (statement_of kind.now)) rest) }
    ensures draft { OnOk result (IsDraft (draft_of draft.new)) }
    ensures few { OnOk result (length (draft_of draft.new).model.members ≤ length (draft_of draft.old).model.members + 1) }
{
    match take(alloc, draft, number, kind) {
        Ok(()) => Ok(()),
        Err(stop) => Err(refusal(stop, number)),
    }
}

// The draft that all statements make.
fn walk(alloc: Global, raw: &RawModel) -> Result<Draft, ModelRefusal>
    requires few { vec_len raw.now.statements ≤ 2000 }
    requires shallow { All IsShallow (statements_of raw.now) }
    ensures answer { AnswersBy (λ d. sized_all (finished_form (draft_of d).model)) result (outcome_of (statements_of raw.now)) }
    ensures draft { IfOk result (λ d. IsDraft (draft_of d)) }
{
    let mut draft = Draft::new(alloc);
    'statements: for (place, statement) in raw.statements.iter().enumerate() {
        step(alloc, &mut draft, place as u32 + 1, &statement.kind)?;
    }
    Ok(draft)
}

/// The model that at most 2000 statements make, in whose formulas operators and quantifiers stand at most 100 deep, or their first
/// refusal: the first fault of the first statement that has one, or else `TooLarge` for the first demand that is too large to be answered.
pub fn resolve(alloc: Global, raw: &RawModel) -> Result<Model, ModelRefusal>
    requires few { vec_len raw.now.statements ≤ 2000 }
    requires shallow { All IsShallow (statements_of raw.now) }
    ensures exact { AnswersBy (λ m. made (model_of m)) result (outcome_of (statements_of raw.now)) }
    ensures declared_once { IfOk result (λ _. DeclaresApart (statements_of raw.now)) }
    ensures used_after { IfOk result (λ _. UsesDeclared [] [] (statements_of raw.now)) }
{
    let draft = walk(alloc, raw)?;
    let contents = finished(draft.contents)?;
    Model::of_contents(alloc, contents)
}
