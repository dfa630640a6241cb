//! What items are put together from, whatever their link: the names of their labels, their lists of parts, and an item of both.

ghost use Rattle.std.specs.Prelude.{◌≡◌, ◌<◌, ◌+◌, ◌++◌, ◌∷◌, [], true, false, length, take, drop, IfOk, OnOk};
ghost use Rattle.goal_model.specs.Models.{contents_of};
ghost use Rattle.goal_model.specs.Items as items;
ghost use Rattle.goal_model.specs.Items.{item_of, all_as, name_of_goal, name_of_obstacle, name_of_requirement, name_of_agent};
ghost use Rattle.goal_model.specs.declared.item.Part.TheVariants.{Goal as GoalPart, Obstacle as ObstaclePart, Requirement as RequirementPart};

use crate::contents::Contents;
use crate::item::{Item, Label, LabelKind, Part, Wanted};
use source_sink::Memory;
use state_space::Name;
use std::alloc::Global;

/// The name of the goal at a place.
pub(crate) fn goal_name(contents: &Contents, place: usize) -> &Name
    requires { place < length (contents_of contents.now).goals }
    ensures { result.now ≡ name_of_goal (contents_of contents.now) place }
{
    &contents.goals[place].name
}

/// The name of the obstacle at a place.
pub(crate) fn obstacle_name(contents: &Contents, place: usize) -> &Name
    requires { place < length (contents_of contents.now).obstacles }
    ensures { result.now ≡ name_of_obstacle (contents_of contents.now) place }
{
    &contents.obstacles[place].name
}

/// The name of the requirement at a place.
pub(crate) fn requirement_name(contents: &Contents, place: usize) -> &Name
    requires { place < length (contents_of contents.now).requirements }
    ensures { result.now ≡ name_of_requirement (contents_of contents.now) place }
{
    &contents.requirements[place].name
}

/// The name of the agent at a place.
pub(crate) fn agent_name(contents: &Contents, place: usize) -> &Name
    requires { place < length (contents_of contents.now).agents }
    ensures { result.now ≡ name_of_agent (contents_of contents.now) place }
{
    &contents.agents[place].name
}

/// A list of one name.
pub(crate) fn one(alloc: Global, name: &Name) -> Result<Vec<Name>, Memory>
    ensures { IfOk result (λ ns. ns.items ≡ name.now ∷ []) }
{
    let mut names = Vec::new(alloc);
    names.push(name.clone(alloc)?)?;
    Ok(names)
}

/// A list of two names.
pub(crate) fn two(alloc: Global, first: &Name, second: &Name) -> Result<Vec<Name>, Memory>
    ensures { IfOk result (λ ns. ns.items ≡ first.now ∷ second.now ∷ []) }
{
    let mut names = one(alloc, first)?;
    names.push(second.clone(alloc)?)?;
    Ok(names)
}

/// A list of parts.
pub(crate) type Parts = Vec<(Part, bool)>;

/// Appends goals to a list of parts, as they are.
pub(crate) fn push_goals(parts: &mut Parts, goals: &[usize]) -> Result<(), Memory>
    ensures { OnOk result (parts.new.items ≡ parts.old.items ++ all_as GoalPart true goals.now) }
{
    'goals: for goal in goals {
        parts.push((Part::Goal(*goal), true))?;
    }
    Ok(())
}

/// Appends obstacles to a list of parts, negated.
pub(crate) fn push_obstacles(parts: &mut Parts, obstacles: &[usize]) -> Result<(), Memory>
    ensures { OnOk result (parts.new.items ≡ parts.old.items ++ all_as ObstaclePart false obstacles.now) }
{
    'obstacles: for obstacle in obstacles {
        parts.push((Part::Obstacle(*obstacle), false))?;
    }
    Ok(())
}

/// Appends requirements to a list of parts, as they are.
pub(crate) fn push_requirements(parts: &mut Parts, requirements: &[usize]) -> Result<(), Memory>
    ensures { OnOk result (parts.new.items ≡ parts.old.items ++ all_as RequirementPart true requirements.now) }
{
    'requirements: for requirement in requirements {
        parts.push((Part::Requirement(*requirement), true))?;
    }
    Ok(())
}

/// Appends all goals of a list but the one at a place, as they are.
pub(crate) fn push_others(parts: &mut Parts, goals: &[usize], at: usize) -> Result<(), Memory>
    requires { at < length goals.now }
    ensures { OnOk result (parts.new.items ≡ parts.old.items ++ all_as GoalPart true (take at goals.now ++ drop (at + 1) goals.now)) }
{
    push_goals(parts, &goals[..at])?;
    push_goals(parts, &goals[at + 1..])
}

/// An item of these parts.
pub(crate) fn labelled(
    kind: LabelKind,
    statement: u32,
    names: Vec<Name>,
    parts: Parts,
    wanted: Option<Wanted>,
) -> Item
    ensures { item_of result ≡ items.item kind statement names.items parts.items wanted }
{
    Item {
        label: Label {
            kind,
            statement,
            names,
        },
        parts,
        wanted,
    }
}
