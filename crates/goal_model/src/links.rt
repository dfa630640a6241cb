//! The statements that say something of goals: each goal, obstacle, requirement or agent in them was declared before.

ghost use Rattle.std.specs.Prelude.{◌≡◌, ◌<◌, ◌≤◌, map, length, Option};
ghost use Rattle.model_text.specs.Limits.{depth_of};
ghost use Rattle.model_text.specs.RawView.{raw_tree};
ghost use Rattle.goal_model.specs.Refusals.{Gives};
ghost use Rattle.goal_model.specs.Models.{goal_of, link_of};
ghost use Rattle.goal_model.specs.Drafts.{draft_of, expected_at};
ghost use Rattle.goal_model.specs.WholeDrafts.{IsDraft};
ghost use Rattle.goal_model.specs.Resolution.{refinement_taken, obstruction_taken, conflict_taken, operationalisation_taken, assignment_taken, expectation_taken};

use crate::contents::{Goal, Link};
use crate::draft::Draft;
use crate::namespace::Kind;
use crate::pattern::pattern;
use crate::reachability::closes_cycle;
use crate::refusal::{RefusalKind, Stop, refused};
use model_text::RawFormula;
use state_space::Name;
use std::alloc::Global;

/// `refine NAME by NAMES`, with the pattern behind `using`
pub(crate) fn take_refinement(
    alloc: Global,
    draft: &mut Draft,
    number: u32,
    parent: &Name,
    subgoals: &[Name],
    named: &Option<Name>,
) -> Result<(), Stop>
    requires { IsDraft (draft_of draft.old) }
    ensures { Gives (λ _. draft_of draft.new) result (refinement_taken (draft_of draft.old) number parent.now subgoals.now named.now) }
{
    let scope = draft.scope();
    let goal = scope.used(alloc, Kind::Goal, parent)?;
    let subgoals = scope.places(alloc, Kind::Goal, subgoals)?;
    let pattern = pattern(alloc, named)?;
    let count = draft.contents.goals.len();
    if closes_cycle(alloc, &draft.contents.links, count, goal, &subgoals)? {
        return refused(alloc, RefusalKind::Cycle, parent);
    }
    draft.contents.links.push(Link::Refine {
        statement: number,
        parent: goal,
        subgoals,
        pattern,
    })?;
    Ok(())
}

/// `obstruct NAME by NAMES`
pub(crate) fn take_obstruction(
    alloc: Global,
    draft: &mut Draft,
    number: u32,
    goal: &Name,
    obstacles: &[Name],
) -> Result<(), Stop>
    ensures { Gives (λ _. draft_of draft.new) result (obstruction_taken (draft_of draft.old) number goal.now obstacles.now) }
{
    let scope = draft.scope();
    let goal = scope.used(alloc, Kind::Goal, goal)?;
    let obstacles = scope.places(alloc, Kind::Obstacle, obstacles)?;
    draft.contents.links.push(Link::Obstruct {
        statement: number,
        goal,
        obstacles,
    })?;
    Ok(())
}

/// `conflict NAME: NAMES boundary FORMULA`
pub(crate) fn take_conflict(
    alloc: Global,
    draft: &mut Draft,
    number: u32,
    name: &Name,
    goals: &[Name],
    boundary: &RawFormula,
) -> Result<(), Stop>
    requires draft { IsDraft (draft_of draft.old) }
    requires shallow { depth_of (raw_tree boundary.now) ≤ 100 }
    ensures { Gives (λ _. draft_of draft.new) result (conflict_taken (draft_of draft.old) number name.now goals.now (raw_tree boundary.now)) }
{
    let scope = draft.scope();
    scope.fresh(alloc, name)?;
    let goals = scope.places(alloc, Kind::Goal, goals)?;
    let boundary = draft.one_formula(alloc, number, name, boundary)?;
    let place = draft.contents.links.len();
    let name = draft.declare(alloc, name, Kind::Conflict, place)?;
    draft.contents.links.push(Link::Conflict {
        statement: number,
        name,
        goals,
        boundary,
    })?;
    Ok(())
}

/// `operationalise NAME by NAMES`, and whether `exact` stands at the end
pub(crate) fn take_operationalisation(
    alloc: Global,
    draft: &mut Draft,
    number: u32,
    goal: &Name,
    requirements: &[Name],
    exact: bool,
) -> Result<(), Stop>
    ensures { Gives (λ _. draft_of draft.new) result (operationalisation_taken (draft_of draft.old) number goal.now requirements.now exact) }
{
    let scope = draft.scope();
    let goal = scope.used(alloc, Kind::Goal, goal)?;
    let requirements = scope.places(alloc, Kind::Requirement, requirements)?;
    draft.contents.links.push(Link::Operationalise {
        statement: number,
        goal,
        requirements,
        exact,
    })?;
    Ok(())
}

/// `assign NAME to NAME`
pub(crate) fn take_assignment(
    alloc: Global,
    draft: &mut Draft,
    number: u32,
    goal: &Name,
    agent: &Name,
) -> Result<(), Stop>
    ensures { Gives (λ _. draft_of draft.new) result (assignment_taken (draft_of draft.old) number goal.now agent.now) }
{
    let scope = draft.scope();
    let goal = scope.used(alloc, Kind::Goal, goal)?;
    let agent = scope.used(alloc, Kind::Agent, agent)?;
    draft.contents.links.push(Link::Assign {
        statement: number,
        goal,
        agent,
    })?;
    Ok(())
}

// Notes that a goal is expected.
fn expect(goals: &mut [Goal], place: usize)
    requires { place < length goals.old }
    ensures { map goal_of goals.new ≡ expected_at place (map goal_of goals.old) }
{
    goals[place].expected = true;
}

/// `expect NAME of NAME`
pub(crate) fn take_expectation(
    alloc: Global,
    draft: &mut Draft,
    goal: &Name,
    agent: &Name,
) -> Result<(), Stop>
    requires { IsDraft (draft_of draft.old) }
    ensures { Gives (λ _. draft_of draft.new) result (expectation_taken (draft_of draft.old) goal.now agent.now) }
{
    let scope = draft.scope();
    let goal = scope.used(alloc, Kind::Goal, goal)?;
    scope.used(alloc, Kind::Agent, agent)?;
    expect(&mut draft.contents.goals, goal);
    Ok(())
}
