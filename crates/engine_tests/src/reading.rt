//! What a row of a table stands for: the model that its text declares, the formulas of the model's
//! goals, their cores, and the query that asks for all of them.

ghost use Rattle.std.specs.Prelude.{◌≡◌, All, IfOk, IsTrue, map};
ghost use Rattle.state_space.specs.Spaces.{ranges, sizes};
ghost use Rattle.temporal_logic.specs.Fits.{Fits};
ghost use Rattle.temporal_logic.specs.Trees.{tree_of};
ghost use Rattle.bound_unfolding.specs.CoreTexts.{CoreFits};
ghost use Rattle.bound_unfolding.specs.CoreView.{core_tree_of};
ghost use Rattle.formula_table.specs.SmallLists.{AreSmall};
ghost use Rattle.tableau_rules.specs.Queries.{IsOver};
ghost use Rattle.tableau_rules.specs.QueryView.{cores_in};
ghost use Rattle.goal_model.specs.Models.{sizes_of};
ghost use Rattle.goal_model.specs.ModelViews.{model_of};

use bound_unfolding::{Core, core_depth, core_of, core_size};
use entailment::query_of;
use formula_table::distinct_size;
use goal_model::{Model, resolve};
use model_text::read_model;
use source_sink::Memory;
use state_space::Space;
use std::alloc::Global;
use std::process::Abort;
use std::test::Fail;
use tableau_rules::Query;
use temporal_logic::Formula;

/// A row's first field, and what is behind it.
pub(crate) fn cut(row: &str) -> Result<(&str, &str), Fail> {
    Ok(row.split_once(" | ").ok_or("a row with too few fields")?)
}

// The model of a text.
fn read(rt: &impl Abort, alloc: Global, text: &str) -> Result<Model, Fail> {
    let raw = read_model(alloc, text.as_bytes())?;
    assert!(rt; raw.statements.len() <= 2000, "{text}");
    Ok(resolve(alloc, &raw)?)
}

/// A row's first two fields, and what is behind them.
pub(crate) fn cut_twice(row: &str) -> Result<(&str, &str, &str), Fail> {
    let (first, rest) = cut(row)?;
    let (second, rest) = cut(rest)?;
    Ok((first, second, rest))
}

/// The model of the variables and the statements behind them.
pub(crate) fn model(
    rt: &impl Abort,
    alloc: Global,
    variables: &str,
    statements: &str,
) -> Result<Model, Fail> {
    let text = format!(in alloc; "kaos 1; {variables} {statements}")?;
    read(rt, alloc, &text)
}

/// The variables of a model.
pub(crate) fn space(model: &Model) -> &Space
    ensures ranges { ranges result.now ≡ (model_of model.now).ranges }
    ensures sizes { sizes result.now ≡ sizes_of (model_of model.now) }
{
    model.space()
}

/// The formula of a goal that a model has.
pub(crate) fn goal<'m>(rt: &impl Abort, model: &'m Model, place: usize) -> &'m Formula
    ensures fits { Fits (model_of model.now).ranges (tree_of result.now) }
{
    let goals = model.goals();
    assert!(rt; place < goals.len());
    &goals[place].formula
}

/// The formulas of a model's goals.
pub(crate) fn formulas(alloc: Global, model: &Model) -> Result<Vec<Formula>, Memory>
    ensures fit { IfOk result (λ list. All (λ f. Fits (model_of model.now).ranges (tree_of f)) list.items) }
{
    let goals = model.goals();
    let mut list = Vec::new(alloc);
    'goals: for goal in goals {
        list.push(goal.formula.clone(alloc)?)?;
    }
    Ok(list)
}

/// The core of a formula, which is not too large.
pub(crate) fn core(
    rt: &impl Abort,
    alloc: Global,
    space: &Space,
    formula: &Formula,
    positive: bool,
) -> Result<Core, Memory>
    requires fits { Fits (ranges space.now) (tree_of formula.now) }
    ensures fits { IfOk result (λ core. CoreFits (ranges space.now) (core_tree_of core)) }
{
    assert!(rt; core_size(space, formula, positive) <= 4096);
    assert!(rt; core_depth(space, formula, positive) <= 1000);
    core_of(alloc, space, formula, positive)
}

// Whether the positive cores are small enough for a query.
fn are_small(alloc: Global, space: &Space, list: &[Formula]) -> Result<bool, Memory>
    requires fit { All (λ f. Fits (ranges space.now) (tree_of f)) list.now }
    ensures small { IfOk result (λ are. IsTrue are → AreSmall (sizes space.now) (map tree_of list.now)) }
{
    'formulas: for formula in list {
        if core_depth(space, formula, true) > 1000 {
            return Ok(false);
        }
    }
    Ok(distinct_size(alloc, space, list)? <= 4096)
}

// The query of the goals of a model.
fn query(rt: &impl Abort, alloc: Global, model: &Model) -> Result<Query, Memory>
    ensures over { IfOk result (λ query. All (IsOver (sizes_of (model_of model.now))) (cores_in query)) }
{
    let list = formulas(alloc, model)?;
    let space = space(model);
    assert!(rt; are_small(alloc, space, &list)?);
    query_of(alloc, space, &list)
}

/// The model of the variables and goals, and the query of all the goals.
pub(crate) fn asked(
    rt: &impl Abort,
    alloc: Global,
    variables: &str,
    goals: &str,
) -> Result<(Model, Query), Fail>
    ensures over { IfOk result (λ asked. All (IsOver (sizes_of (model_of asked.0))) (cores_in asked.1)) }
{
    let model = model(rt, alloc, variables, goals)?;
    let query = query(rt, alloc, &model)?;
    Ok((model, query))
}
