//! Agents, and the variables that they monitor and control: no variable has two controllers.

ghost use Rattle.std.specs.Prelude.{◌≡◌, ◌<◌, ◌==◌, length, map, All};
ghost use Rattle.std.specs.Int.{bit_at};
ghost use Rattle.state_space.specs.Spaces.{names};
ghost use Rattle.goal_model.specs.Refusals.{Gives};
ghost use Rattle.goal_model.specs.Models.{agent_of};
ghost use Rattle.goal_model.specs.Drafts.{draft_of};
ghost use Rattle.goal_model.specs.WholeDrafts.{IsDraft};
ghost use Rattle.goal_model.specs.Resolution.{set_of as set_form, is_controlled as is_controlled_form, uncontrolled as uncontrolled_form, agent_taken};

use crate::contents::Agent;
use crate::draft::Draft;
use crate::namespace::Kind;
use crate::refusal::{RefusalKind, Stop, refused};
use crate::variable_list::variables;
use state_space::{Name, Space, Values, VarId};
use std::alloc::Global;

// The set of some variables.
fn set_of(variables: &[VarId]) -> Values
    requires { All (λ x. x.0 < 64) variables.now }
    ensures { result.0 ≡ set_form 0 (map (λ x. x.0) variables.now) }
{
    let mut set = Values::none();
    'variables: for variable in variables {
        set = set.with(variable.0);
    }
    set
}

// Whether the agent controls a variable.
fn controls(agent: &Agent, variable: VarId) -> bool
    requires { variable.0 < 64 }
    ensures { result ≡ (bit_at agent.now.controls.0 variable.0 == 1) }
{
    agent.controls.contains(variable.0)
}

// Whether an agent controls a variable.
fn is_controlled(agents: &[Agent], variable: VarId) -> bool
    requires { variable.0 < 64 }
    ensures { result ≡ is_controlled_form (map agent_of agents.now) variable.0 }
{
    'agents: for agent in agents {
        if controls(agent, variable) {
            return true;
        }
    }
    false
}

// None of the variables may be one that an agent controls; the first that is one is refused by its own name.
fn uncontrolled(
    alloc: Global,
    agents: &[Agent],
    space: &Space,
    variables: &[VarId],
) -> Result<(), Stop>
    requires inside { All (λ x. x.0 < length (names space.now)) variables.now }
    ensures { Gives (λ _. tt) result (uncontrolled_form (map agent_of agents.now) (names space.now) (map (λ x. x.0) variables.now)) }
{
    'variables: for variable in variables {
        if is_controlled(agents, *variable) {
            return refused(alloc, RefusalKind::TwoControllers, space.name_of(*variable));
        }
    }
    Ok(())
}

/// `agent NAME monitors NAMES controls NAMES`
pub(crate) fn take_agent(
    alloc: Global,
    draft: &mut Draft,
    name: &Name,
    monitored: &[Name],
    controlled: &[Name],
) -> Result<(), Stop>
    requires { IsDraft (draft_of draft.old) }
    ensures { Gives (λ _. draft_of draft.new) result (agent_taken (draft_of draft.old) name.now monitored.now controlled.now) }
{
    let scope = draft.scope();
    scope.fresh(alloc, name)?;
    let monitors = variables(alloc, &scope, monitored)?;
    let controls = variables(alloc, &scope, controlled)?;
    uncontrolled(
        alloc,
        &draft.contents.agents,
        &draft.contents.space,
        &controls,
    )?;
    let place = draft.contents.agents.len();
    let name = draft.declare(alloc, name, Kind::Agent, place)?;
    draft.contents.agents.push(Agent {
        name,
        monitors: set_of(&monitors),
        controls: set_of(&controls),
    })?;
    Ok(())
}
