//! The items of a report before their formulas are written out: the domain item, and then those of each link in statement order. The
//! report, its checks and the test of sizes go over this one table. The items of a link are made in the file of its kind:
//! `refinement_items`, `obstruction_items`, `conflict_items`, `operation_items` or `assignment_items`, from what `parts` has.

ghost use Rattle.std.specs.Prelude.{◌≡◌, ◌<◌, map, length, slice_index_or, IfOk};
ghost use Rattle.goal_model.specs.Models.{contents_of, link_of, LinkIsOf};
ghost use Rattle.goal_model.specs.ModelViews.{model_of};
ghost use Rattle.goal_model.specs.Items.{item_of, no_link, link_items_of};

use crate::assignment_items::assignment_items;
use crate::conflict_items::conflict_items;
use crate::contents::{Contents, Link};
use crate::model::Model;
use crate::obstruction_items::obstruction_items;
use crate::operation_items::operation_items;
use crate::refinement_items::refinement_items;
use source_sink::Memory;
use state_space::Name;
use std::alloc::Global;

/// What an item asks.
#[derive(Clone, Copy, Debug, PartialEq, Eq)]
pub enum LabelKind {
    /// Whether the domain properties have a trace.
    Domain,
    /// Whether the subgoals entail the parent.
    Complete,
    /// Whether the subgoals have a trace.
    Consistent,
    /// Whether the parent does not follow without a subgoal.
    Minimal,
    /// Whether an obstacle excludes the goal.
    Obstructs,
    /// Whether an obstacle has a trace.
    Possible,
    /// Whether the goal follows where no obstacle occurs.
    ObstaclesCovered,
    /// Whether the boundary condition excludes the goals together.
    Diverges,
    /// Whether the others have a trace with the boundary condition, without a goal.
    Without,
    /// Whether the boundary condition has a trace.
    Feasible,
    /// Whether the requirements entail the goal.
    OperationComplete,
    /// Whether the requirements have a trace.
    OperationConsistent,
    /// Whether the goal entails a requirement.
    Exact,
    /// Whether the agent monitors and controls what the goal names.
    Assigned,
}

/// The label of an item. The statement is the link's, and 0 for the domain item.
#[derive(Debug, Drop)]
pub struct Label {
    pub kind: LabelKind,
    pub statement: u32,
    pub names: Vec<Name>,
}

/// What makes a demand hold.
#[derive(Clone, Copy, Debug, PartialEq, Eq)]
pub enum Wanted {
    /// That no trace meets its list.
    NoTrace,
    /// That some trace meets its list.
    SomeTrace,
}

/// A part of a demand's list, by its place in the model's list of its kind; a boundary by the place of its conflict among the links.
#[derive(Clone, Copy, Debug, PartialEq, Eq)]
pub enum Part {
    Goal(usize),
    Obstacle(usize),
    Requirement(usize),
    Boundary(usize),
}

/// An item: its label, the parts of its list behind the domain properties, each as it is (true) or negated, and what is wanted. An
/// assignment wants nothing of traces.
#[derive(Debug, Drop)]
pub struct Item {
    pub label: Label,
    pub parts: Vec<(Part, bool)>,
    pub wanted: Option<Wanted>,
}

/// The items of the link at a place, in the order of the report.
pub(crate) fn items_of_link(
    alloc: Global,
    contents: &Contents,
    place: usize,
    link: &Link,
) -> Result<Vec<Item>, Memory>
    requires { LinkIsOf (contents_of contents.now) (link_of link.now) }
    ensures { IfOk result (λ is. map item_of is.items ≡ link_items_of (contents_of contents.now) place (link_of link.now)) }
{
    match link {
        Link::Refine {
            statement,
            parent,
            subgoals,
            ..
        } => refinement_items(alloc, contents, *statement, *parent, subgoals),
        Link::Obstruct {
            statement,
            goal,
            obstacles,
        } => obstruction_items(alloc, contents, *statement, *goal, obstacles),
        Link::Conflict {
            statement,
            name,
            goals,
            ..
        } => conflict_items(alloc, contents, place, *statement, name, goals),
        Link::Operationalise {
            statement,
            goal,
            requirements,
            exact,
        } => operation_items(alloc, contents, *statement, *goal, requirements, *exact),
        Link::Assign {
            statement,
            goal,
            agent,
        } => assignment_items(alloc, contents, *statement, *goal, *agent),
    }
}

/// The items of the link of a model at a place, in the order of the report.
pub fn link_items(alloc: Global, model: &Model, link: usize) -> Result<Vec<Item>, Memory>
    requires { link < length (model_of model.now).links }
    ensures { IfOk result (λ is. map item_of is.items ≡ link_items_of (model_of model.now) link (slice_index_or (model_of model.now).links link no_link)) }
{
    items_of_link(alloc, &model.contents, link, &model.contents.links[link])
}
