//! Coverage: the first variable that an agent lacks for a goal.

ghost use Rattle.std.specs.Prelude.{◌≡◌, ◌<◌, ◌∷◌, [], ◌++◌, length, option_map};
ghost use Rattle.temporal_logic.specs.Shapes.{variables_of};
ghost use Rattle.temporal_logic.specs.Trees.{tree_of};
ghost use Rattle.goal_model.specs.Models.{agent_of};
ghost use Rattle.goal_model.specs.ModelViews.{model_of};
ghost use Rattle.agent_capabilities.specs.Coverage.{is_in, first_with, cover_of, reaction_coverage, other_coverage, coverage_at};

use goal_model::{Agent, Model};
use state_space::{Values, VarId};
use temporal_logic::Formula;

/// Whether an agent's variables are enough for a goal, and else the first one in the order of the goal's text that it lacks.
#[derive(Clone, Copy, Debug, PartialEq, Eq)]
pub enum Cover {
    /// Nothing is lacking.
    Covered,
    /// The agent neither monitors nor controls the variable.
    NotMonitored(VarId),
    /// The agent does not control the variable.
    NotControlled(VarId),
}

// Whether a variable is one of a set, which is given by the number whose bits are the members.
fn is_member(set: u64, x: u8) -> bool
    ensures { result ≡ is_in set x }
{
    x < 64 && Values(set).contains(x)
}

// The variable itself, if it is in a set, or if it is not.
fn itself(set: Values, inside: bool, x: VarId) -> Option<VarId>
    ensures { option_map (λ y. y.0) result ≡ first_with set.0 inside (x.0 ∷ []) }
{
    if is_member(set.0, x.0) == inside {
        Some(x)
    } else {
        None
    }
}

// The first variable of a formula, in the order of its text, that is in a set, or that is not.
#[cycle(variables)]
fn first(set: Values, inside: bool, f: &Formula) -> Option<VarId>
    ensures { option_map (λ x. x.0) result ≡ first_with set.0 inside (variables_of (tree_of f.now)) }
{
    match f {
        Formula::True | Formula::False => None,
        Formula::Flag(x) | Formula::Is(x, _, _) | Formula::Among(x, _) => itself(set, inside, *x),
        Formula::Same(x, _, y) => itself(set, inside, *x).or(itself(set, inside, *y)),
        Formula::Not(a)
        | Formula::Next(a)
        | Formula::Eventually(a)
        | Formula::Always(a)
        | Formula::EventuallyWithin(_, a)
        | Formula::AlwaysWithin(_, a) => first(set, inside, a),
        Formula::And(a, b)
        | Formula::Or(a, b)
        | Formula::Implies(a, b)
        | Formula::Iff(a, b)
        | Formula::Entails(a, b)
        | Formula::Until(a, b)
        | Formula::Unless(a, b)
        | Formula::Release(a, b)
        | Formula::UntilWithin(_, a, b)
        | Formula::UnlessWithin(_, a, b)
        | Formula::ReleaseWithin(_, a, b) => first_of_both(set, inside, a, b),
    }
}

// The first such variable of two formulas, those of the first one before those of the second.
#[cycle(variables)]
fn first_of_both(set: Values, inside: bool, a: &Formula, b: &Formula) -> Option<VarId>
    ensures { option_map (λ x. x.0) result ≡ first_with set.0 inside (variables_of (tree_of a.now) ++ variables_of (tree_of b.now)) }
{
    first(set, inside, a).or(first(set, inside, b))
}

// Of `cause entails effect`: the agent sees each variable of the cause, and controls each of the effect.
fn reaction_cover(agent: &Agent, cause: &Formula, effect: &Formula) -> Cover
    ensures { cover_of result ≡ reaction_coverage (agent_of agent.now) (tree_of cause.now) (tree_of effect.now) }
{
    let seen = agent.monitors.join(agent.controls);
    if let Some(x) = first(seen, false, cause) {
        return Cover::NotMonitored(x);
    }
    match first(agent.controls, false, effect) {
        Some(x) => Cover::NotControlled(x),
        None => Cover::Covered,
    }
}

// Of any other goal: the agent sees each variable, and controls one of them.
fn other_cover(agent: &Agent, goal: &Formula) -> Cover
    ensures { cover_of result ≡ other_coverage (agent_of agent.now) (tree_of goal.now) }
{
    let seen = agent.monitors.join(agent.controls);
    if let Some(x) = first(seen, false, goal) {
        return Cover::NotMonitored(x);
    }
    if first(agent.controls, true, goal).is_some() {
        return Cover::Covered;
    }
    match first(agent.controls, false, goal) {
        Some(x) => Cover::NotControlled(x),
        None => Cover::Covered,
    }
}

/// Whether what an agent of a model monitors and controls is enough for a goal, each given by its place. It has to see each variable of
/// the goal, which is to monitor or to control it. Of `A entails C` it has to control each variable of C and to see those of A alone; of
/// any other goal that has a variable, it has to control one of them. (This project's reading of responsibility assignments, after
/// Letier's thesis.)
pub fn coverage(model: &Model, goal: usize, agent: usize) -> Cover
    requires goal { goal < length (model_of model.now).goals }
    requires agent { agent < length (model_of model.now).agents }
    ensures cover { cover_of result ≡ coverage_at (model_of model.now) goal agent }
{
    let agent = &model.agents()[agent];
    match &model.goals()[goal].formula {
        Formula::Entails(cause, effect) => reaction_cover(agent, cause, effect),
        formula => other_cover(agent, formula),
    }
}
