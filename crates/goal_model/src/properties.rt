//! The statements that declare domain properties, rules, goals and obstacles.

ghost use Rattle.std.specs.Prelude.{◌≡◌, ◌≤◌, Ok};
ghost use Rattle.temporal_logic.specs.Trees.{tree_of};
ghost use Rattle.model_text.specs.Limits.{depth_of};
ghost use Rattle.model_text.specs.RawView.{raw_tree};
ghost use Rattle.goal_model.specs.Refusals.{Gives};
ghost use Rattle.goal_model.specs.Drafts.{draft_of};
ghost use Rattle.goal_model.specs.WholeDrafts.{IsDraft};
ghost use Rattle.goal_model.specs.Resolution.{with_property, domain_taken, rule_taken, goal_taken, obstacle_taken};

use crate::contents::{Goal, Obstacle, Property};
use crate::draft::Draft;
use crate::namespace::Kind;
use crate::refusal::Stop;
use model_text::RawFormula;
use state_space::Name;
use std::alloc::Global;
use temporal_logic::Formula;

// Appends a domain property or a rule.
fn push_property(
    alloc: Global,
    draft: &mut Draft,
    number: u32,
    name: &Name,
    formula: Formula,
    rule: bool,
) -> Result<(), Stop>
    ensures { Gives (λ _. draft_of draft.new) result (Ok (with_property (draft_of draft.old) number name.now rule (tree_of formula))) }
{
    let place = draft.contents.domains.len();
    let name = draft.declare(alloc, name, Kind::Property, place)?;
    draft.contents.domains.push(Property {
        statement: number,
        name,
        formula,
        rule,
    })?;
    Ok(())
}

/// `domain NAME: FORMULA`
pub(crate) fn take_domain(
    alloc: Global,
    draft: &mut Draft,
    number: u32,
    name: &Name,
    body: &RawFormula,
) -> Result<(), Stop>
    requires draft { IsDraft (draft_of draft.old) }
    requires shallow { depth_of (raw_tree body.now) ≤ 100 }
    ensures { Gives (λ _. draft_of draft.new) result (domain_taken (draft_of draft.old) number name.now (raw_tree body.now)) }
{
    draft.scope().fresh(alloc, name)?;
    let formula = draft.one_formula(alloc, number, name, body)?;
    push_property(alloc, draft, number, name, formula, false)
}

/// `rule NAME: FORMULA entails FORMULA`
pub(crate) fn take_rule(
    alloc: Global,
    draft: &mut Draft,
    number: u32,
    name: &Name,
    cause: &RawFormula,
    effect: &RawFormula,
) -> Result<(), Stop>
    requires draft { IsDraft (draft_of draft.old) }
    requires cause { depth_of (raw_tree cause.now) ≤ 100 }
    requires effect { depth_of (raw_tree effect.now) ≤ 100 }
    ensures { Gives (λ _. draft_of draft.new) result (rule_taken (draft_of draft.old) number name.now (raw_tree cause.now) (raw_tree effect.now)) }
{
    draft.scope().fresh(alloc, name)?;
    let (cause, effect) = draft.two_formulas(alloc, number, name, cause, effect)?;
    let formula = Formula::Entails(Box::new(alloc, cause)?, Box::new(alloc, effect)?);
    push_property(alloc, draft, number, name, formula, true)
}

/// `goal NAME: FORMULA`
pub(crate) fn take_goal(
    alloc: Global,
    draft: &mut Draft,
    number: u32,
    name: &Name,
    body: &RawFormula,
) -> Result<(), Stop>
    requires draft { IsDraft (draft_of draft.old) }
    requires shallow { depth_of (raw_tree body.now) ≤ 100 }
    ensures { Gives (λ _. draft_of draft.new) result (goal_taken (draft_of draft.old) number name.now (raw_tree body.now)) }
{
    draft.scope().fresh(alloc, name)?;
    let formula = draft.one_formula(alloc, number, name, body)?;
    let place = draft.contents.goals.len();
    let name = draft.declare(alloc, name, Kind::Goal, place)?;
    draft.contents.goals.push(Goal {
        statement: number,
        name,
        formula,
        expected: false,
    })?;
    Ok(())
}

/// `obstacle NAME: FORMULA`
pub(crate) fn take_obstacle(
    alloc: Global,
    draft: &mut Draft,
    number: u32,
    name: &Name,
    body: &RawFormula,
) -> Result<(), Stop>
    requires draft { IsDraft (draft_of draft.old) }
    requires shallow { depth_of (raw_tree body.now) ≤ 100 }
    ensures { Gives (λ _. draft_of draft.new) result (obstacle_taken (draft_of draft.old) number name.now (raw_tree body.now)) }
{
    draft.scope().fresh(alloc, name)?;
    let formula = draft.one_formula(alloc, number, name, body)?;
    let place = draft.contents.obstacles.len();
    let name = draft.declare(alloc, name, Kind::Obstacle, place)?;
    draft.contents.obstacles.push(Obstacle {
        statement: number,
        name,
        formula,
    })?;
    Ok(())
}
