//! Which goals of a model are assured, by what its report says of the links: expected goals, and those that links which hold rest on such
//! goals or on requirements.

ghost use Rattle.std.specs.Prelude.{◌≡◌, ◌<◌, ℕ, map, length, All, IfOk};
ghost use Rattle.goal_model.specs.Models.{ModelForm, link_of};
ghost use Rattle.goal_model.specs.ModelViews.{model_of};
ghost use Rattle.goal_model.specs.Items.{items_of, link_items_of};
ghost use Rattle.refinement_graph.specs.Assurance.{AreAssured};
ghost use Rattle.refinement_graph.specs.Marking.{both_hold as both_hold_form, AreHeld, HasMarks, are_marked as are_marked_form, supported as supported_form, MarksSupported, IsRound};

use goal_model::{Link, Model};
use source_sink::Memory;
use std::alloc::Global;

// How many items a link has.
fn item_count(link: &Link) -> usize
    ensures { (m : ModelForm) (place : ℕ) → result ≡ length (link_items_of m place (link_of link.now)) }
{
    match link {
        Link::Refine { subgoals, .. } => subgoals.len() + 2,
        Link::Obstruct { obstacles, .. } => 2 * obstacles.len() + 1,
        Link::Conflict { goals, .. } => goals.len() + 2,
        Link::Operationalise {
            requirements,
            exact: true,
            ..
        } => requirements.len() + 2,
        Link::Operationalise { .. } => 2,
        Link::Assign { .. } => 1,
    }
}

// Whether the item at a place and the one behind it hold. The last link may have but one.
fn both_hold(holds: &[bool], first: usize) -> bool
    requires { first < length holds.now }
    ensures { result ≡ both_hold_form holds.now first }
{
    holds[first] && first + 1 < holds.len() && holds[first + 1]
}

// Whether each link is held.
fn held_links(alloc: Global, model: &Model, holds: &[bool]) -> Result<Vec<bool>, Memory>
    requires { length holds.now ≡ length (items_of (model_of model.now)) }
    ensures { IfOk result (λ held. AreHeld (model_of model.now) holds.now held.items) }
{
    let links = model.links();
    let mut held = Vec::with_capacity(alloc, links.len())?;
    // The domain item stands before those of the links.
    let mut first = 1;
    'links: for link in links {
        held.push(both_hold(holds, first))?;
        first += item_count(link);
    }
    Ok(held)
}

// Whether all of these goals are marked.
fn are_marked(marks: &[bool], goals: &[usize]) -> bool
    requires { All (λ g. g < length marks.now) goals.now }
    ensures { result ≡ are_marked_form marks.now goals.now }
{
    goals.iter().all(|goal| marks[*goal])
}

// The goal that a link supports, where those that it rests on are marked.
fn supported(link: &Link, marks: &[bool]) -> Option<usize>
    requires { HasMarks (length marks.now) (link_of link.now) }
    ensures { result ≡ supported_form marks.now (link_of link.now) }
{
    match link {
        Link::Refine {
            parent,
            subgoals,
            ..
        } if are_marked(marks, subgoals) => Some(*parent),
        Link::Operationalise { goal, .. } => Some(*goal),
        _ => None,
    }
}

// Marks the goal that a link supports, and says whether the mark is new.
fn mark_supported(link: &Link, marks: &mut [bool]) -> bool
    requires { HasMarks (length marks.old) (link_of link.now) }
    ensures { MarksSupported (link_of link.now) marks.old marks.new result }
{
    match supported(link, marks) {
        Some(goal) if !marks[goal] => {
            marks[goal] = true;
            true
        }
        _ => false,
    }
}

// Goes over all links that are held, and says whether a mark is new. A link may rest on a goal that a later one supports, so that one round
// need not be enough.
fn mark_round(model: &Model, held: &[bool], marks: &mut [bool]) -> bool
    requires links { length held.now ≡ length (model_of model.now).links }
    requires goals { length marks.old ≡ length (model_of model.now).goals }
    ensures { IsRound (model_of model.now) held.now marks.old marks.new result }
{
    let links = model.links();
    let mut is_new = false;
    'links: for (place, link) in links.iter().enumerate() {
        if held[place] && mark_supported(link, marks) {
            is_new = true;
        }
    }
    is_new
}

// A mark for each goal, set where the goal is expected of an agent.
fn expected_goals(alloc: Global, model: &Model) -> Result<Vec<bool>, Memory>
    ensures { IfOk result (λ marks. marks.items ≡ map (λ g. g.is_expected) (model_of model.now).goals) }
{
    let goals = model.goals();
    let mut marks = Vec::with_capacity(alloc, goals.len())?;
    'goals: for goal in goals {
        marks.push(goal.expected)?;
    }
    Ok(marks)
}

/// Whether each goal is assured, in the order of the goals: it is expected of an agent; or an operationalisation of it is complete and
/// consistent; or a refinement of it is, and all its subgoals are assured. `holds` says of each item of the report, in order and the domain
/// item first, whether it holds; what is withheld does not. An expectation is not looked at for what its agent can do.
pub fn assured(alloc: Global, model: &Model, holds: &[bool]) -> Result<Vec<bool>, Memory>
    requires { length holds.now ≡ length (items_of (model_of model.now)) }
    ensures { IfOk result (λ marks. AreAssured (model_of model.now) holds.now marks.items) }
{
    let held = held_links(alloc, model, holds)?;
    let mut marks = expected_goals(alloc, model)?;
    'rounds: while mark_round(model, &held, &mut marks) {}
    Ok(marks)
}
