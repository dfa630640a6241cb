//! The items of a refinement: its subgoals entail the parent, they have a trace, and none of them can be left out.

ghost use Rattle.std.specs.Prelude.{◌≡◌, ◌<◌, ◌+◌, ◌++◌, [], map, length, take, drop, slice_index, IfOk, OnOk, All};
ghost use Rattle.goal_model.specs.Models.{contents_of};
ghost use Rattle.goal_model.specs.Items as items;
ghost use Rattle.goal_model.specs.Items.{item_of, each_of, minimal_item as minimal_form};

use crate::contents::Contents;
use crate::item::{Item, LabelKind, Part, Wanted};
use crate::parts::{goal_name, labelled, one, push_goals, push_others, two};
use source_sink::Memory;
use std::alloc::Global;

// That the subgoals entail the parent.
fn complete_item(
    alloc: Global,
    contents: &Contents,
    statement: u32,
    goal: usize,
    subgoals: &[usize],
) -> Result<Item, Memory>
    requires goal { goal < length (contents_of contents.now).goals }
    ensures { IfOk result (λ i. item_of i ≡ items.complete_item (contents_of contents.now) statement goal subgoals.now) }
{
    let names = one(alloc, goal_name(contents, goal))?;
    let mut parts = Vec::new(alloc);
    push_goals(&mut parts, subgoals)?;
    parts.push((Part::Goal(goal), false))?;
    Ok(labelled(
        LabelKind::Complete,
        statement,
        names,
        parts,
        Some(Wanted::NoTrace),
    ))
}

// That the subgoals have a trace.
fn consistent_item(
    alloc: Global,
    contents: &Contents,
    statement: u32,
    goal: usize,
    subgoals: &[usize],
) -> Result<Item, Memory>
    requires goal { goal < length (contents_of contents.now).goals }
    ensures { IfOk result (λ i. item_of i ≡ items.consistent_item (contents_of contents.now) statement goal subgoals.now) }
{
    let names = one(alloc, goal_name(contents, goal))?;
    let mut parts = Vec::new(alloc);
    push_goals(&mut parts, subgoals)?;
    Ok(labelled(
        LabelKind::Consistent,
        statement,
        names,
        parts,
        Some(Wanted::SomeTrace),
    ))
}

// That the parent does not follow without the subgoal at a place.
fn minimal_item(
    alloc: Global,
    contents: &Contents,
    statement: u32,
    goal: usize,
    subgoals: &[usize],
    at: usize,
) -> Result<Item, Memory>
    requires goal { goal < length (contents_of contents.now).goals }
    requires place { at < length subgoals.now }
    requires subgoal { slice_index subgoals.now at < length (contents_of contents.now).goals }
    ensures { IfOk result (λ i. item_of i ≡ items.minimal_item (contents_of contents.now) statement goal (take at subgoals.now) (slice_index subgoals.now at) (drop (at + 1) subgoals.now)) }
{
    let names = two(
        alloc,
        goal_name(contents, goal),
        goal_name(contents, subgoals[at]),
    )?;
    let mut parts = Vec::new(alloc);
    push_others(&mut parts, subgoals, at)?;
    parts.push((Part::Goal(goal), false))?;
    Ok(labelled(
        LabelKind::Minimal,
        statement,
        names,
        parts,
        Some(Wanted::SomeTrace),
    ))
}

// Appends what is asked of a refinement without each of its subgoals.
fn push_minimal(
    alloc: Global,
    items: &mut Vec<Item>,
    contents: &Contents,
    statement: u32,
    goal: usize,
    subgoals: &[usize],
) -> Result<(), Memory>
    requires goal { goal < length (contents_of contents.now).goals }
    requires subgoals { All (λ g. g < length (contents_of contents.now).goals) subgoals.now }
    ensures { OnOk result (map item_of items.new.items ≡ map item_of items.old.items ++ each_of (minimal_form (contents_of contents.now) statement goal) [] subgoals.now) }
{
    'subgoals: for at in 0..subgoals.len() {
        items.push(minimal_item(alloc, contents, statement, goal, subgoals, at)?)?;
    }
    Ok(())
}

/// The items of a refinement.
pub(crate) fn refinement_items(
    alloc: Global,
    contents: &Contents,
    statement: u32,
    goal: usize,
    subgoals: &[usize],
) -> Result<Vec<Item>, Memory>
    requires goal { goal < length (contents_of contents.now).goals }
    requires subgoals { All (λ g. g < length (contents_of contents.now).goals) subgoals.now }
    ensures { IfOk result (λ is. map item_of is.items ≡ items.refinement_items (contents_of contents.now) statement goal subgoals.now) }
{
    let mut items = Vec::with_capacity(alloc, subgoals.len() + 2)?;
    items.push(complete_item(alloc, contents, statement, goal, subgoals)?)?;
    items.push(consistent_item(alloc, contents, statement, goal, subgoals)?)?;
    push_minimal(alloc, &mut items, contents, statement, goal, subgoals)?;
    Ok(items)
}
