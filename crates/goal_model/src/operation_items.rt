//! The items of an operationalisation: its requirements entail the goal and have a trace; if it is exact, the goal entails each of them.

ghost use Rattle.std.specs.Prelude.{◌≡◌, ◌<◌, ◌++◌, true, map, length, IfOk, OnOk, All};
ghost use Rattle.goal_model.specs.Models.{contents_of};
ghost use Rattle.goal_model.specs.Items as items;
ghost use Rattle.goal_model.specs.Items.{item_of, exact_items};

use crate::contents::Contents;
use crate::item::{Item, LabelKind, Part, Wanted};
use crate::parts::{goal_name, labelled, one, push_requirements, requirement_name, two};
use source_sink::Memory;
use std::alloc::Global;

// That the requirements entail the goal.
fn operation_complete_item(
    alloc: Global,
    contents: &Contents,
    statement: u32,
    goal: usize,
    requirements: &[usize],
) -> Result<Item, Memory>
    requires goal { goal < length (contents_of contents.now).goals }
    ensures { IfOk result (λ i. item_of i ≡ items.operation_complete_item (contents_of contents.now) statement goal requirements.now) }
{
    let names = one(alloc, goal_name(contents, goal))?;
    let mut parts = Vec::new(alloc);
    push_requirements(&mut parts, requirements)?;
    parts.push((Part::Goal(goal), false))?;
    Ok(labelled(
        LabelKind::OperationComplete,
        statement,
        names,
        parts,
        Some(Wanted::NoTrace),
    ))
}

// That the requirements have a trace.
fn operation_consistent_item(
    alloc: Global,
    contents: &Contents,
    statement: u32,
    goal: usize,
    requirements: &[usize],
) -> Result<Item, Memory>
    requires goal { goal < length (contents_of contents.now).goals }
    ensures { IfOk result (λ i. item_of i ≡ items.operation_consistent_item (contents_of contents.now) statement goal requirements.now) }
{
    let names = one(alloc, goal_name(contents, goal))?;
    let mut parts = Vec::new(alloc);
    push_requirements(&mut parts, requirements)?;
    Ok(labelled(
        LabelKind::OperationConsistent,
        statement,
        names,
        parts,
        Some(Wanted::SomeTrace),
    ))
}

// That the goal entails a requirement.
fn exact_item(
    alloc: Global,
    contents: &Contents,
    statement: u32,
    goal: usize,
    requirement: usize,
) -> Result<Item, Memory>
    requires goal { goal < length (contents_of contents.now).goals }
    requires requirement { requirement < length (contents_of contents.now).requirements }
    ensures { IfOk result (λ i. item_of i ≡ items.exact_item (contents_of contents.now) statement goal requirement) }
{
    let names = two(
        alloc,
        goal_name(contents, goal),
        requirement_name(contents, requirement),
    )?;
    let mut parts = Vec::new(alloc);
    parts.push((Part::Goal(goal), true))?;
    parts.push((Part::Requirement(requirement), false))?;
    Ok(labelled(
        LabelKind::Exact,
        statement,
        names,
        parts,
        Some(Wanted::NoTrace),
    ))
}

// Appends what is asked of each requirement that the goal is to entail.
fn push_exact(
    alloc: Global,
    items: &mut Vec<Item>,
    contents: &Contents,
    statement: u32,
    goal: usize,
    requirements: &[usize],
) -> Result<(), Memory>
    requires goal { goal < length (contents_of contents.now).goals }
    requires requirements { All (λ r. r < length (contents_of contents.now).requirements) requirements.now }
    ensures { OnOk result (map item_of items.new.items ≡ map item_of items.old.items ++ exact_items (contents_of contents.now) statement goal true requirements.now) }
{
    'requirements: for &requirement in requirements {
        items.push(exact_item(alloc, contents, statement, goal, requirement)?)?;
    }
    Ok(())
}

/// The items of an operationalisation.
pub(crate) fn operation_items(
    alloc: Global,
    contents: &Contents,
    statement: u32,
    goal: usize,
    requirements: &[usize],
    exact: bool,
) -> Result<Vec<Item>, Memory>
    requires goal { goal < length (contents_of contents.now).goals }
    requires requirements { All (λ r. r < length (contents_of contents.now).requirements) requirements.now }
    ensures { IfOk result (λ is. map item_of is.items ≡ items.operation_items (contents_of contents.now) statement goal requirements.now exact) }
{
    let mut items = Vec::new(alloc);
    items.push(operation_complete_item(alloc, contents, statement, goal, requirements)?)?;
    items.push(operation_consistent_item(alloc, contents, statement, goal, requirements)?)?;
    if exact {
        push_exact(alloc, &mut items, contents, statement, goal, requirements)?;
    }
    Ok(items)
}
