//! The items of an obstruction: each obstacle excludes the goal and has a trace, and the goal follows where none of them occurs.

ghost use Rattle.std.specs.Prelude.{◌≡◌, ◌<◌, ◌++◌, map, length, IfOk, OnOk, All};
ghost use Rattle.goal_model.specs.Models.{contents_of};
ghost use Rattle.goal_model.specs.Items as items;
ghost use Rattle.goal_model.specs.Items.{item_of, hindrance_items};

use crate::contents::Contents;
use crate::item::{Item, LabelKind, Part, Wanted};
use crate::parts::{goal_name, labelled, obstacle_name, one, push_obstacles, two};
use source_sink::Memory;
use std::alloc::Global;

// That an obstacle excludes the goal.
fn obstructs_item(
    alloc: Global,
    contents: &Contents,
    statement: u32,
    goal: usize,
    obstacle: usize,
) -> Result<Item, Memory>
    requires goal { goal < length (contents_of contents.now).goals }
    requires obstacle { obstacle < length (contents_of contents.now).obstacles }
    ensures { IfOk result (λ i. item_of i ≡ items.obstructs_item (contents_of contents.now) statement goal obstacle) }
{
    let names = two(
        alloc,
        goal_name(contents, goal),
        obstacle_name(contents, obstacle),
    )?;
    let mut parts = Vec::new(alloc);
    parts.push((Part::Obstacle(obstacle), true))?;
    parts.push((Part::Goal(goal), true))?;
    Ok(labelled(
        LabelKind::Obstructs,
        statement,
        names,
        parts,
        Some(Wanted::NoTrace),
    ))
}

// That an obstacle has a trace.
fn possible_item(
    alloc: Global,
    contents: &Contents,
    statement: u32,
    goal: usize,
    obstacle: usize,
) -> Result<Item, Memory>
    requires goal { goal < length (contents_of contents.now).goals }
    requires obstacle { obstacle < length (contents_of contents.now).obstacles }
    ensures { IfOk result (λ i. item_of i ≡ items.possible_item (contents_of contents.now) statement goal obstacle) }
{
    let names = two(
        alloc,
        goal_name(contents, goal),
        obstacle_name(contents, obstacle),
    )?;
    let mut parts = Vec::new(alloc);
    parts.push((Part::Obstacle(obstacle), true))?;
    Ok(labelled(
        LabelKind::Possible,
        statement,
        names,
        parts,
        Some(Wanted::SomeTrace),
    ))
}

// That the goal follows where no obstacle occurs.
fn covered_item(
    alloc: Global,
    contents: &Contents,
    statement: u32,
    goal: usize,
    obstacles: &[usize],
) -> Result<Item, Memory>
    requires goal { goal < length (contents_of contents.now).goals }
    ensures { IfOk result (λ i. item_of i ≡ items.covered_item (contents_of contents.now) statement goal obstacles.now) }
{
    let names = one(alloc, goal_name(contents, goal))?;
    let mut parts = Vec::new(alloc);
    push_obstacles(&mut parts, obstacles)?;
    parts.push((Part::Goal(goal), false))?;
    Ok(labelled(
        LabelKind::ObstaclesCovered,
        statement,
        names,
        parts,
        Some(Wanted::NoTrace),
    ))
}

// Appends what is asked of each obstacle.
fn push_hindrances(
    alloc: Global,
    items: &mut Vec<Item>,
    contents: &Contents,
    statement: u32,
    goal: usize,
    obstacles: &[usize],
) -> Result<(), Memory>
    requires goal { goal < length (contents_of contents.now).goals }
    requires obstacles { All (λ o. o < length (contents_of contents.now).obstacles) obstacles.now }
    ensures { OnOk result (map item_of items.new.items ≡ map item_of items.old.items ++ hindrance_items (contents_of contents.now) statement goal obstacles.now) }
{
    'obstacles: for &obstacle in obstacles {
        items.push(obstructs_item(alloc, contents, statement, goal, obstacle)?)?;
        items.push(possible_item(alloc, contents, statement, goal, obstacle)?)?;
    }
    Ok(())
}

/// The items of an obstruction.
pub(crate) fn obstruction_items(
    alloc: Global,
    contents: &Contents,
    statement: u32,
    goal: usize,
    obstacles: &[usize],
) -> Result<Vec<Item>, Memory>
    requires goal { goal < length (contents_of contents.now).goals }
    requires obstacles { All (λ o. o < length (contents_of contents.now).obstacles) obstacles.now }
    ensures { IfOk result (λ is. map item_of is.items ≡ items.obstruction_items (contents_of contents.now) statement goal obstacles.now) }
{
    let mut items = Vec::new(alloc);
    push_hindrances(alloc, &mut items, contents, statement, goal, obstacles)?;
    items.push(covered_item(alloc, contents, statement, goal, obstacles)?)?;
    Ok(items)
}
