//! The item of an assignment: the agent monitors and controls what the goal names. It asks nothing of traces.

ghost use Rattle.std.specs.Prelude.{◌≡◌, ◌<◌, ◌∷◌, [], map, length, IfOk};
ghost use Rattle.goal_model.specs.Models.{contents_of};
ghost use Rattle.goal_model.specs.Items as items;
ghost use Rattle.goal_model.specs.Items.{item_of};

use crate::contents::Contents;
use crate::item::{Item, LabelKind};
use crate::parts::{agent_name, goal_name, labelled, two};
use source_sink::Memory;
use std::alloc::Global;

// That the agent monitors and controls what the goal names.
fn assigned_item(
    alloc: Global,
    contents: &Contents,
    statement: u32,
    goal: usize,
    agent: usize,
) -> Result<Item, Memory>
    requires goal { goal < length (contents_of contents.now).goals }
    requires agent { agent < length (contents_of contents.now).agents }
    ensures { IfOk result (λ i. item_of i ≡ items.assigned_item (contents_of contents.now) statement goal agent) }
{
    let names = two(
        alloc,
        goal_name(contents, goal),
        agent_name(contents, agent),
    )?;
    let parts = Vec::new(alloc);
    Ok(labelled(LabelKind::Assigned, statement, names, parts, None))
}

/// The item of an assignment, in a list.
pub(crate) fn assignment_items(
    alloc: Global,
    contents: &Contents,
    statement: u32,
    goal: usize,
    agent: usize,
) -> Result<Vec<Item>, Memory>
    requires goal { goal < length (contents_of contents.now).goals }
    requires agent { agent < length (contents_of contents.now).agents }
    ensures { IfOk result (λ is. map item_of is.items ≡ items.assigned_item (contents_of contents.now) statement goal agent ∷ []) }
{
    let mut items = Vec::new(alloc);
    items.push(assigned_item(alloc, contents, statement, goal, agent)?)?;
    Ok(items)
}
