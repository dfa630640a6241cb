//! What is asked of a model, in the order of the report: the demands of its links on traces, each with the pattern that decides it if one
//! does, and of each assignment whether the agent covers the goal, which is answered here.

ghost use Rattle.std.specs.Prelude.{◌≡◌, ◌<◌, ◌≤◌, ℕ, All, map, length, slice_index_or, IfOk, OnOk};
ghost use Rattle.std.specs.List.{AllZip};
ghost use Rattle.goal_model.specs.ModelViews.{model_of};
ghost use Rattle.goal_model.specs.Items.{no_link};
ghost use Rattle.goal_model.specs.Models.{link_of};
ghost use Rattle.verdict_report.specs.Reports.{named_for as named_for_form, link_questions, questions_of};
ghost use Rattle.kaos_program.specs.Asking.{IsAsked, Poses, PosesMore, AsksMore, IsAssignmentOf};

use agent_capabilities::{Cover, coverage};
use goal_model::{
    Demand, Label, LabelKind, Link, Model, PatternKind, domain_demand, link_demands, link_items,
};
use pattern_library::are_instance;
use source_sink::Memory;
use std::alloc::Global;

/// What an entry of the report answers.
#[derive(Drop)]
pub(crate) enum Asked {
    /// A demand that its own list decides.
    Demand(Demand),
    /// A demand that a pattern decides, since it is that of an instance.
    Instance(Demand, PatternKind),
    /// An assignment, and what its agent lacks for the goal.
    Assignment(Label, Cover),
}

// The pattern that a refinement names, for whether it is complete.
fn named_for(link: &Link, kind: LabelKind) -> Option<PatternKind>
    ensures { result ≡ named_for_form (link_of link.now) kind }
{
    match (link, kind) {
        (Link::Refine { pattern, .. }, LabelKind::Complete) => *pattern,
        _ => None,
    }
}

// A demand, with the pattern that is named for it if that decides it.
fn posed(
    alloc: Global,
    model: &Model,
    named: Option<PatternKind>,
    demand: Demand,
) -> Result<Asked, Memory>
    requires { length (model_of model.now).domains ≤ length demand.list.items }
    ensures { IfOk result (Poses (model_of model.now) named demand) }
{
    let Some(kind) = named else {
        return Ok(Asked::Demand(demand));
    };
    if are_instance(alloc, kind, &demand.list[model.domains().len()..])? {
        Ok(Asked::Instance(demand, kind))
    } else {
        Ok(Asked::Demand(demand))
    }
}

// The demands of a link are asked.
fn push_demands(
    alloc: Global,
    asked: &mut Vec<Asked>,
    model: &Model,
    link: &Link,
    demands: Vec<Demand>,
) -> Result<(), Memory>
    requires { All (λ d. length (model_of model.now).domains ≤ length d.list.items) demands.items }
    ensures { OnOk result (PosesMore (model_of model.now) (link_of link.now) demands.items asked.old.items asked.new.items) }
{
    'demands: for demand in demands {
        let named = named_for(link, demand.label.kind);
        asked.push(posed(alloc, model, named, demand)?)?;
    }
    Ok(())
}

// The assignment of a goal to an agent is asked, which is the link at a place.
fn push_assignment(
    alloc: Global,
    asked: &mut Vec<Asked>,
    model: &Model,
    link: usize,
    goal: usize,
    agent: usize,
) -> Result<(), Memory>
    requires link { link < length (model_of model.now).links }
    requires assignment { IsAssignmentOf goal agent (slice_index_or (model_of model.now).links link no_link) }
    requires goal { goal < length (model_of model.now).goals }
    requires agent { agent < length (model_of model.now).agents }
    ensures { OnOk result (AsksMore (model_of model.now) (link_questions (model_of model.now) link (slice_index_or (model_of model.now).links link no_link)) asked.old.items asked.new.items) }
{
    let cover = coverage(model, goal, agent);
    'items: for item in link_items(alloc, model, link)? {
        asked.push(Asked::Assignment(item.label, cover))?;
    }
    Ok(())
}

// The questions of the link at a place are asked.
fn push_link(
    alloc: Global,
    asked: &mut Vec<Asked>,
    model: &Model,
    link: usize,
) -> Result<(), Memory>
    requires link { link < length (model_of model.now).links }
    ensures { OnOk result (AsksMore (model_of model.now) (link_questions (model_of model.now) link (slice_index_or (model_of model.now).links link no_link)) asked.old.items asked.new.items) }
{
    let named = &model.links()[link];
    match named {
        Link::Assign { goal, agent, .. } => {
            push_assignment(alloc, asked, model, link, *goal, *agent)
        }
        _ => {
            let demands = link_demands(alloc, model, link)?;
            push_demands(alloc, asked, model, named, demands)
        }
    }
}

/// All that is asked of a model.
pub(crate) fn all_asked(alloc: Global, model: &Model) -> Result<Vec<Asked>, Memory>
    ensures { IfOk result (λ v. AllZip (IsAsked (model_of model.now)) (questions_of (model_of model.now)) v.items) }
{
    let mut asked = Vec::new(alloc);
    asked.push(Asked::Demand(domain_demand(alloc, model)?))?;
    'links: for link in 0..model.links().len() {
        push_link(alloc, &mut asked, model, link)?;
    }
    Ok(asked)
}
