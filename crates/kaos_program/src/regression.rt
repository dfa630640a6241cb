//! What could obstruct a goal, for `regress`: the goal of the name, its candidates, and how each stands.

ghost use Rattle.std.specs.Prelude.{◌≡◌, ◌<◌, All, map, length, bytes_eq, IfOk, IfSome};
ghost use Rattle.std.specs.List.{AllZip, list_any, position};
ghost use Rattle.bound_unfolding.specs.CoreTexts.{CoreFits};
ghost use Rattle.bound_unfolding.specs.CoreView.{core_tree_of};
ghost use Rattle.goal_model.specs.ModelViews.{model_of};
ghost use Rattle.obstacle_regression.specs.Regressions.{goal_regression};
ghost use Rattle.obstacle_regression.specs.Standings.{StandsSo};
ghost use Rattle.obstacle_regression.specs.Views.{regressed_of};
ghost use Rattle.kaos_program.specs.Regressing.{goal_named as goal_of_name, is_withheld as is_withheld_form, status_of_standings as status_of_all};

use crate::status::Status;
use goal_model::{Goal, Model};
use obstacle_regression::{Regressed, Standing, regress, standings};
use source_sink::Memory;
use std::alloc::Global;
use tableau_rules::Answerer;

/// Candidates, and a standing for each.
#[derive(Drop)]
pub(crate) struct Assessed {
    pub(crate) found: Regressed,
    pub(crate) standings: Vec<Standing>,
}

// The place of the first goal of a name.
fn place_of(goals: &[Goal], name: &[u8]) -> Option<usize>
    ensures place { result ≡ position (λ goal. bytes_eq goal.name name.now) goals.now }
    ensures inside { IfSome result (λ place. place < length goals.now) }
{
    goals.iter().position(|goal| goal.name.bytes() == name)
}

/// The place of the goal of a name.
pub(crate) fn goal_named(model: &Model, name: &str) -> Option<usize>
    ensures place { result ≡ goal_of_name (model_of model.now) name.now }
    ensures inside { IfSome result (λ place. place < length (model_of model.now).goals) }
{
    place_of(model.goals(), name.as_bytes())
}

/// The candidates for obstacles of the goal at a place, as each stands under a budget.
pub(crate) fn assess<A: Answerer>(
    alloc: Global,
    answerer: &A,
    model: &Model,
    goal: usize,
    depth: u8,
    budget: u32,
) -> Result<Assessed, Memory>
    requires goal { goal < length (model_of model.now).goals }
    ensures found { IfOk result (λ r. regressed_of r.found ≡ goal_regression (model_of model.now) goal depth) }
    ensures fits { IfOk result (λ r. All (λ c. CoreFits (model_of model.now).ranges (core_tree_of c)) r.found.list.items) }
    ensures standings { IfOk result (λ r. AllZip (StandsSo (model_of model.now) budget) (regressed_of r.found).list r.standings.items) }
{
    let found = regress(alloc, model, goal, depth)?;
    let standings = standings(alloc, answerer, model, &found.list, budget)?;
    Ok(Assessed { found, standings })
}

// Whether a candidate is withheld.
fn is_withheld(standing: Standing) -> bool
    ensures { result ≡ is_withheld_form standing }
{
    matches!(standing, Standing::Withheld(_))
}

// Whether one of them is.
fn has_withheld(standings: &[Standing]) -> bool
    ensures { result ≡ list_any is_withheld_form standings.now }
{
    standings.iter().any(|standing| is_withheld(*standing))
}

/// The status that standings give.
pub(crate) fn status_of_standings(standings: &[Standing]) -> Status
    ensures { result ≡ status_of_all standings.now }
{
    if has_withheld(standings) {
        Status::Withheld
    } else {
        Status::Held
    }
}
