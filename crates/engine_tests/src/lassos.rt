//! Formulas on small lassos, with a change at each seam: at the prefix's last state, at the loop's end,
//! in a loop of one state, without a prefix, and between two words of a row.

ghost use Rattle.std.specs.Prelude.{◌≤◌, ◌↔◌, All, IfOk, IsTrue};
ghost use Rattle.state_space.specs.Spaces.{sizes};
ghost use Rattle.temporal_logic.specs.Fits.{Fits};
ghost use Rattle.temporal_logic.specs.Lassos.{IsOfSpace};
ghost use Rattle.temporal_logic.specs.Trees.{tree_of};
ghost use Rattle.goal_model.specs.Models.{sizes_of};
ghost use Rattle.goal_model.specs.ModelViews.{model_of};
ghost use Rattle.lasso_checker.specs.Scratch.{scratch_of};

use crate::reading::{cut_twice, formulas, goal, model, space};
use goal_model::Model;
use lasso_checker::{first_false, scratch_len, truth_at_start};
use source_sink::Memory;
use state_space::Space;
use std::alloc::Global;
use std::process::Abort;
use std::test::Fail;
use temporal_logic::{Formula, Lasso};

const VARIABLES: &str = "var p: bool; var q: bool;";

// A goal, the states of a lasso, and whether the goal is true at its start.
const TRUTHS: &str = "\
goal g: not q; | {q = true} loop {} | false
goal g: not q; | {} loop {q = true} | true
goal g: next q; | {} loop {q = true} | true
goal g: next q; | {q = true} loop {} | false
goal g: next q; | loop {q = true} | true
goal g: next q; | loop {q = true} {} | false
goal g: next q; | loop {} {q = true} | true
goal g: eventually q; | loop {} {q = true} | true
goal g: eventually q; | {q = true} loop {} | true
goal g: eventually q; | loop {} | false
goal g: eventually q; | {} {} loop {} {q = true} | true
goal g: always q; | loop {q = true} | true
goal g: always q; | {q = true} loop {} | false
goal g: always q; | {} loop {q = true} | false
goal g: always q; | {q = true} loop {q = true} {} | false
goal g: always q; | loop {q = true} {p = true, q = true} | true
goal g: eventually within 0 q; | {q = true} loop {} | true
goal g: eventually within 0 q; | {} loop {q = true} | false
goal g: eventually within 1 q; | {} {} loop {q = true} | false
goal g: eventually within 1 q; | {} loop {q = true} | true
goal g: eventually within 2 q; | {} {} loop {q = true} | true
goal g: eventually within 2 q; | loop {} {} {} {q = true} | false
goal g: eventually within 63 q; | {} {} {} {} {} {} {} {} {} {} {} {} {} {} {} {} {} {} {} {} {} {} {} {} {} {} {} {} {} {} {} {} {} {} {} {} {} {} {} {} {} {} {} {} {} {} {} {} {} {} {} {} {} {} {} {} {} {} {} {} {} {} {} loop {q = true} | true
goal g: eventually within 63 q; | {} {} {} {} {} {} {} {} {} {} {} {} {} {} {} {} {} {} {} {} {} {} {} {} {} {} {} {} {} {} {} {} {} {} {} {} {} {} {} {} {} {} {} {} {} {} {} {} {} {} {} {} {} {} {} {} {} {} {} {} {} {} {} {} loop {q = true} | false
goal g: eventually within 64 q; | {} {} {} {} {} {} {} {} {} {} {} {} {} {} {} {} {} {} {} {} {} {} {} {} {} {} {} {} {} {} {} {} {} {} {} {} {} {} {} {} {} {} {} {} {} {} {} {} {} {} {} {} {} {} {} {} {} {} {} {} {} {} {} {} loop {q = true} | true
goal g: eventually within 64 q; | {} {} {} {} {} {} {} {} {} {} {} {} {} {} {} {} {} {} {} {} {} {} {} {} {} {} {} {} {} {} {} {} {} {} {} {} {} {} {} {} {} {} {} {} {} {} {} {} {} {} {} {} {} {} {} {} {} {} {} {} {} {} {} loop {} {} {q = true} | false
goal g: eventually within 100 q; | loop {} {} {} {q = true} | true
goal g: eventually within 100 q; | {} {} loop {} | false
goal g: always within 0 q; | {q = true} loop {} | true
goal g: always within 0 q; | {} loop {q = true} | false
goal g: always within 1 q; | {q = true} {q = true} loop {} | true
goal g: always within 1 q; | {q = true} loop {} | false
goal g: always within 2 q; | {q = true} {q = true} loop {} | false
goal g: always within 2 q; | loop {q = true} {q = true} {q = true} {} | true
goal g: always within 2 q; | loop {q = true} {q = true} {} | false
goal g: always within 100 q; | {q = true} loop {q = true} | true
goal g: always within 100 q; | loop {q = true} {q = true} {q = true} {} | false
goal g: p and q; | loop {p = true, q = true} | true
goal g: p and q; | loop {p = true} | false
goal g: p and q; | loop {q = true} | false
goal g: p or q; | loop {} | false
goal g: p or q; | loop {p = true} | true
goal g: p or q; | loop {q = true} | true
goal g: p implies q; | loop {} | true
goal g: p implies q; | loop {p = true} | false
goal g: p implies q; | loop {q = true} | true
goal g: p implies q; | loop {p = true, q = true} | true
goal g: p iff q; | loop {} | true
goal g: p iff q; | loop {p = true} | false
goal g: p iff q; | loop {q = true} | false
goal g: p iff q; | loop {p = true, q = true} | true
goal g: p entails q; | loop {} {p = true, q = true} | true
goal g: p entails q; | {} loop {p = true} | false
goal g: p entails q; | {p = true} loop {p = true, q = true} | false
goal g: p entails q; | {p = true, q = true} loop {} {p = true, q = true} {q = true} | true
goal g: p until q; | loop {q = true} | true
goal g: p until q; | loop {p = true} | false
goal g: p until q; | {p = true} loop {q = true} | true
goal g: p until q; | {p = true} {p = true} loop {} {q = true} | false
goal g: p until q; | loop {p = true} {q = true} | true
goal g: p until q; | loop {p = true} {} {q = true} | false
goal g: p unless q; | loop {p = true} | true
goal g: p unless q; | loop {p = true} {q = true} | true
goal g: p unless q; | {p = true} loop {} | false
goal g: p unless q; | loop {p = true} {} | false
goal g: p unless q; | {p = true} {p = true} loop {p = true} | true
goal g: p unless q; | loop {} | false
goal g: p release q; | loop {q = true} | true
goal g: p release q; | loop {} | false
goal g: p release q; | {q = true} loop {p = true, q = true} | true
goal g: p release q; | {q = true} loop {p = true} | false
goal g: p release q; | {p = true, q = true} loop {} | true
goal g: p release q; | {q = true} {p = true, q = true} loop {} | true
goal g: p release q; | {q = true} loop {q = true} {} | false
goal g: p until within 0 q; | {q = true} loop {} | true
goal g: p until within 0 q; | {p = true} loop {q = true} | false
goal g: p until within 1 q; | {p = true} {p = true} loop {q = true} | false
goal g: p until within 1 q; | {p = true} loop {q = true} | true
goal g: p until within 100 q; | {p = true} {p = true} loop {q = true} | true
goal g: p until within 100 q; | {p = true} loop {} {q = true} | false
goal g: p until within 100 q; | loop {p = true} | false
goal g: p unless within 0 q; | {p = true} loop {} | true
goal g: p unless within 0 q; | {} loop {p = true} | false
goal g: p unless within 1 q; | {p = true} {p = true} loop {} | true
goal g: p unless within 1 q; | {p = true} loop {} | false
goal g: p unless within 1 q; | {p = true} loop {q = true} | true
goal g: p unless within 100 q; | loop {p = true} | true
goal g: p unless within 100 q; | {p = true} {p = true} loop {} | false
goal g: p release within 0 q; | {q = true} loop {} | true
goal g: p release within 0 q; | {p = true} loop {q = true} | false
goal g: p release within 1 q; | {q = true} {q = true} loop {} | true
goal g: p release within 1 q; | {q = true} loop {} | false
goal g: p release within 1 q; | {p = true, q = true} loop {} | true
goal g: p release within 100 q; | loop {q = true} | true
goal g: p release within 100 q; | {q = true} loop {} | false
goal g: p release within 100 q; | {q = true} {p = true, q = true} loop {} | true
goal g: next next q; | {q = true} loop {} | false
goal g: next next q; | {} {q = true} loop {} | false
goal g: next next q; | {q = true} loop {} {q = true} | true
goal g: next next q; | loop {q = true} {} | true
goal g: next next q; | {} {} loop {q = true} | true
goal g: next eventually q; | {q = true} loop {} | false
goal g: next eventually q; | {q = true} loop {} {q = true} | true
goal g: next eventually q; | loop {q = true} {} {} | true
goal g: always next q; | {} loop {q = true} | true
goal g: always next q; | {} loop {q = true} {} | false
goal g: always next q; | loop {} {q = true} | false
goal g: always next q; | {} {} {} {} {} {} {} {} {} {} {} {} {} {} {} {} {} {} {} {} {} {} {} {} {} {} {} {} {} {} {} {} {} {} {} {} {} {} {} {} {} {} {} {} {} {} {} {} {} {} {} {} {} {} {} {} {} {} {} {} {} {} {} {} loop {q = true} | false
goal g: always next q; | {} loop {q = true} {q = true} {q = true} {q = true} {q = true} {q = true} {q = true} {q = true} {q = true} {q = true} {q = true} {q = true} {q = true} {q = true} {q = true} {q = true} {q = true} {q = true} {q = true} {q = true} {q = true} {q = true} {q = true} {q = true} {q = true} {q = true} {q = true} {q = true} {q = true} {q = true} {q = true} {q = true} {q = true} {q = true} {q = true} {q = true} {q = true} {q = true} {q = true} {q = true} {q = true} {q = true} {q = true} {q = true} {q = true} {q = true} {q = true} {q = true} {q = true} {q = true} {q = true} {q = true} {q = true} {q = true} {q = true} {q = true} {q = true} {q = true} {q = true} {q = true} {q = true} {q = true} {q = true} {q = true} | true
goal g: always next q; | {} loop {q = true} {q = true} {q = true} {q = true} {q = true} {q = true} {q = true} {q = true} {q = true} {q = true} {q = true} {q = true} {q = true} {q = true} {q = true} {q = true} {q = true} {q = true} {q = true} {q = true} {q = true} {q = true} {q = true} {q = true} {q = true} {q = true} {q = true} {q = true} {q = true} {q = true} {q = true} {q = true} {q = true} {q = true} {q = true} {q = true} {q = true} {q = true} {q = true} {q = true} {q = true} {q = true} {q = true} {q = true} {q = true} {q = true} {q = true} {q = true} {q = true} {q = true} {q = true} {q = true} {q = true} {q = true} {q = true} {q = true} {q = true} {q = true} {q = true} {q = true} {q = true} {q = true} {q = true} {q = true} {} | false
goal g: always (p until q); | loop {q = true} {p = true} | true
goal g: always (p until q); | loop {q = true} {} | false
goal g: always (p until q); | {p = true} loop {q = true} {p = true} | true
goal g: always (p until q); | {} loop {q = true} {p = true} | false
goal g: next (p until within 1 q); | loop {q = true} {p = true} | true
goal g: next (p until within 1 q); | loop {q = true} {p = true} {p = true} | false
goal g: next (not q until (q and next (not q until (q and next p)))); | loop {q = true} {p = true} | true
goal g: next (not q until (q and next (not q until (q and next p)))); | loop {q = true} {p = true} {} | true
goal g: next (not q until (q and next (not q until (q and next p)))); | loop {q = true} {} | false
goal g: next (not q until (q and next (not q until (q and next p)))); | loop {q = true} {} {q = true} {p = true} | false
goal g: p = q; | loop {q = true} | false
goal g: p = q; | loop {p = true, q = true} | true
goal g: p = q; | loop {p = true} | false
goal g: q = true; | {} loop {q = true} | false
goal g: q = true; | {q = true} loop {} | true
goal g: p != q; | loop {q = true} | true
goal g: p != q; | loop {p = true, q = true} | false
goal g: p != q; | loop {p = true} | true
goal g: q != true; | {} loop {q = true} | true
goal g: q != true; | {q = true} loop {} | false
goal g: p < q; | loop {q = true} | true
goal g: p < q; | loop {p = true, q = true} | false
goal g: p < q; | loop {p = true} | false
goal g: q < true; | {} loop {q = true} | true
goal g: q < true; | {q = true} loop {} | false
goal g: p <= q; | loop {q = true} | true
goal g: p <= q; | loop {p = true, q = true} | true
goal g: p <= q; | loop {p = true} | false
goal g: q <= true; | {} loop {q = true} | true
goal g: q <= true; | {q = true} loop {} | true
goal g: p > q; | loop {q = true} | false
goal g: p > q; | loop {p = true, q = true} | false
goal g: p > q; | loop {p = true} | true
goal g: q > true; | {} loop {q = true} | false
goal g: q > true; | {q = true} loop {} | false
goal g: p >= q; | loop {q = true} | false
goal g: p >= q; | loop {p = true, q = true} | true
goal g: p >= q; | loop {p = true} | true
goal g: q >= true; | {} loop {q = true} | false
goal g: q >= true; | {q = true} loop {} | true
goal g: q in {true}; | {q = true} loop {} | true
goal g: q in {true}; | {} loop {q = true} | false";

// Goals, the states of a lasso, and the place of the first goal that is false at its start.
const FIRST: &str = "\
goal a: true; goal b: eventually q; goal c: always p; | loop {p = true, q = true} | none
goal a: true; goal b: eventually q; goal c: always p; | loop {q = true} | 2
goal a: true; goal b: eventually q; goal c: always p; | loop {} | 1
 | loop {} | none";

// Whether each state of the lasso is one of the space.
fn is_of_space(space: &Space, lasso: &Lasso) -> bool
    ensures of_space { IsTrue result ↔ IsOfSpace (sizes space.now) lasso.now }
{
    let prefix = lasso.prefix.iter().all(|state| state.fits(space));
    prefix && lasso.cycle.iter().all(|state| state.fits(space))
}

// Whether so many words of scratch are enough for each formula.
fn is_enough(lasso: &Lasso, list: &[Formula], words: u64) -> bool
    ensures enough { IsTrue result → All (λ f. scratch_of lasso.now (tree_of f) ≤ words) list.now }
{
    list.iter().all(|f| scratch_len(lasso, f) <= words)
}

// The only lasso of a model.
fn lasso_of<'a>(rt: &impl Abort, model: &'a Model) -> &'a Lasso
    ensures of_space { IsOfSpace (sizes_of (model_of model.now)) result.now }
{
    let traces = model.traces();
    assert!(rt; traces.len() == 1);
    let lasso = &traces[0].lasso;
    assert!(rt; is_of_space(space(model), lasso));
    lasso
}

// The model of goals and of a lasso.
fn model_with(rt: &impl Abort, alloc: Global, goals: &str, states: &str) -> Result<Model, Fail> {
    let statements = format!(in alloc; "{goals} trace t: {states};")?;
    model(rt, alloc, VARIABLES, &statements)
}

// Whether the first goal is true on the lasso, by scratch that is full of ones.
fn truth(rt: &impl Abort, alloc: Global, model: &Model) -> Result<bool, Memory> {
    assert!(rt; model.goals().len() == 1);
    let (formula, lasso) = (goal(rt, model, 0), lasso_of(rt, model));
    let mut scratch = vec![in alloc; u64::MAX; scratch_len(lasso, formula) as usize]?;
    Ok(truth_at_start(space(model), lasso, formula, &mut scratch))
}

// Compares whether the first goal is true on the lasso.
fn compare_truth(
    rt: &impl Abort,
    alloc: Global,
    model: &Model,
    expected: bool,
    row: &str,
) -> Result<(), Fail> {
    assert_eq!(rt; truth(rt, alloc, model)?, expected, "{row}");
    Ok(())
}

// Compares whether the goal of a row is true on the row's lasso.
fn try_truth(rt: &impl Abort, alloc: Global, row: &str) -> Result<(), Fail> {
    let (goals, states, expected) = cut_twice(row)?;
    let model = model_with(rt, alloc, goals, states)?;
    compare_truth(rt, alloc, &model, expected == "true", row)
}

#[test]
fn truths(rt: HostRuntime) -> Result<(), Fail> {
    for row in TRUTHS.lines() {
        try_truth(&rt, rt.alloc(), row)?;
    }
    Ok(())
}

// The place of the first formula of the list that is false on the lasso.
fn first(
    rt: &impl Abort,
    alloc: Global,
    model: &Model,
    list: &[Formula],
) -> Result<Option<usize>, Memory>
    requires fit { All (λ f. Fits (model_of model.now).ranges (tree_of f)) list.now }
{
    let lasso = lasso_of(rt, model);
    assert!(rt; is_enough(lasso, list, 10));
    let mut scratch = vec![in alloc; u64::MAX; 10]?;
    Ok(first_false(space(model), lasso, list, &mut scratch))
}

// The place of the first goal that is false on the lasso.
fn first_goal(rt: &impl Abort, alloc: Global, model: &Model) -> Result<Option<usize>, Memory> {
    let list = formulas(alloc, model)?;
    first(rt, alloc, model, &list)
}

// Compares the place of the first goal that is false on the lasso.
fn compare_first(
    rt: &impl Abort,
    alloc: Global,
    model: &Model,
    expected: Option<usize>,
    row: &str,
) -> Result<(), Fail> {
    assert_eq!(rt; first_goal(rt, alloc, model)?, expected, "{row}");
    Ok(())
}

// Compares the place of the first goal of a row that is false on the row's lasso.
fn try_first(rt: &impl Abort, alloc: Global, row: &str) -> Result<(), Fail> {
    let (goals, states, expected) = cut_twice(row)?;
    let model = model_with(rt, alloc, goals, states)?;
    compare_first(rt, alloc, &model, expected.parse::<usize>().ok(), row)
}

#[test]
fn first_of_a_list(rt: HostRuntime) -> Result<(), Fail> {
    for row in FIRST.lines() {
        try_first(&rt, rt.alloc(), row)?;
    }
    Ok(())
}
