//! The items of a conflict: its boundary condition excludes the goals together, but has a trace with all but any one of them, and by itself.

ghost use Rattle.std.specs.Prelude.{◌≡◌, ◌<◌, ◌+◌, ◌++◌, [], map, length, take, drop, slice_index, IfOk, OnOk, All};
ghost use Rattle.goal_model.specs.Models.{contents_of};
ghost use Rattle.goal_model.specs.Items as items;
ghost use Rattle.goal_model.specs.Items.{item_of, each_of, without_item as without_form};

use crate::contents::Contents;
use crate::item::{Item, LabelKind, Part, Wanted};
use crate::parts::{goal_name, labelled, one, push_goals, push_others, two};
use source_sink::Memory;
use state_space::Name;
use std::alloc::Global;

// That the boundary condition excludes the goals together.
fn diverges_item(
    alloc: Global,
    place: usize,
    statement: u32,
    name: &Name,
    goals: &[usize],
) -> Result<Item, Memory>
    ensures { IfOk result (λ i. item_of i ≡ items.diverges_item place statement name.now goals.now) }
{
    let names = one(alloc, name)?;
    let mut parts = Vec::new(alloc);
    parts.push((Part::Boundary(place), true))?;
    push_goals(&mut parts, goals)?;
    Ok(labelled(
        LabelKind::Diverges,
        statement,
        names,
        parts,
        Some(Wanted::NoTrace),
    ))
}

// That the others have a trace with the boundary condition, without the goal at a place.
fn without_item(
    alloc: Global,
    contents: &Contents,
    place: usize,
    statement: u32,
    name: &Name,
    goals: &[usize],
    at: usize,
) -> Result<Item, Memory>
    requires place { at < length goals.now }
    requires goal { slice_index goals.now at < length (contents_of contents.now).goals }
    ensures { IfOk result (λ i. item_of i ≡ items.without_item (contents_of contents.now) place statement name.now (take at goals.now) (slice_index goals.now at) (drop (at + 1) goals.now)) }
{
    let names = two(alloc, name, goal_name(contents, goals[at]))?;
    let mut parts = Vec::new(alloc);
    parts.push((Part::Boundary(place), true))?;
    push_others(&mut parts, goals, at)?;
    Ok(labelled(
        LabelKind::Without,
        statement,
        names,
        parts,
        Some(Wanted::SomeTrace),
    ))
}

// That the boundary condition has a trace.
fn feasible_item(alloc: Global, place: usize, statement: u32, name: &Name) -> Result<Item, Memory>
    ensures { IfOk result (λ i. item_of i ≡ items.feasible_item place statement name.now) }
{
    let names = one(alloc, name)?;
    let mut parts = Vec::new(alloc);
    parts.push((Part::Boundary(place), true))?;
    Ok(labelled(
        LabelKind::Feasible,
        statement,
        names,
        parts,
        Some(Wanted::SomeTrace),
    ))
}

// Appends what is asked of a conflict without each of its goals.
fn push_without(
    alloc: Global,
    items: &mut Vec<Item>,
    contents: &Contents,
    place: usize,
    statement: u32,
    name: &Name,
    goals: &[usize],
) -> Result<(), Memory>
    requires goals { All (λ g. g < length (contents_of contents.now).goals) goals.now }
    ensures { OnOk result (map item_of items.new.items ≡ map item_of items.old.items ++ each_of (without_form (contents_of contents.now) place statement name.now) [] goals.now) }
{
    'goals: for at in 0..goals.len() {
        items.push(without_item(alloc, contents, place, statement, name, goals, at)?)?;
    }
    Ok(())
}

/// The items of the conflict at a place of the links.
pub(crate) fn conflict_items(
    alloc: Global,
    contents: &Contents,
    place: usize,
    statement: u32,
    name: &Name,
    goals: &[usize],
) -> Result<Vec<Item>, Memory>
    requires goals { All (λ g. g < length (contents_of contents.now).goals) goals.now }
    ensures { IfOk result (λ is. map item_of is.items ≡ items.conflict_items (contents_of contents.now) place statement name.now goals.now) }
{
    let mut items = Vec::new(alloc);
    items.push(diverges_item(alloc, place, statement, name, goals)?)?;
    push_without(alloc, &mut items, contents, place, statement, name, goals)?;
    items.push(feasible_item(alloc, place, statement, name)?)?;
    Ok(items)
}
