//! A table at its limit, and the numbers and shapes of the subformulas that cores bring.

ghost use Rattle.goal_model.specs.ModelViews.{model_of};

use crate::reading::{core, cut, formulas, goal, model, space};
use formula_table::{FormulaId, PutRefusal, Shape, Table, distinct_size};
use goal_model::Model;
use source_sink::Memory;
use std::alloc::Global;
use std::fmt::Write;
use std::process::Abort;
use std::test::Fail;

// The shapes of `eventually p` and `always not p`, by their numbers.
const SHAPES: &str = "\
True
Lit(VarId(0), Values(2))
Until(FormulaId(0), FormulaId(1))
False
Lit(VarId(0), Values(1))
Release(FormulaId(3), FormulaId(4))
";

// Puts `next` of the last formula, or `true` where there is none.
fn put_next(table: &mut Table) -> Result<FormulaId, PutRefusal> {
    match table.len().checked_sub(1) {
        None => table.put(Shape::True),
        Some(last) => table.put(Shape::Next(FormulaId(last))),
    }
}

#[test]
fn limit(rt: HostRuntime) -> Result<(), Fail> {
    let mut table = Table::new(rt.alloc());
    for number in 0..4096 {
        assert_eq!(rt; put_next(&mut table), Ok(FormulaId(number)));
    }
    assert_eq!(rt; put_next(&mut table), Err(PutRefusal::Full));
    assert_eq!(rt; table.put(Shape::True), Ok(FormulaId(0)));
    assert_eq!(rt; table.len(), 4096);
    Ok(())
}

// Puts the core of a goal, and compares its number.
fn put_goal(
    rt: &impl Abort,
    alloc: Global,
    table: &mut Table,
    model: &Model,
    place: usize,
    number: u16,
) -> Result<(), Memory> {
    let core = core(rt, alloc, space(model), goal(rt, model, place), true)?;
    assert_eq!(rt; table.put_core(&core), Ok(FormulaId(number)));
    Ok(())
}

// Puts a goal without its core's tree, and compares its number.
fn put_straight(rt: &impl Abort, table: &mut Table, model: &Model, place: usize, number: u16) {
    let put = table.put_formula(space(model), goal(rt, model, place), true);
    assert_eq!(rt; put, Ok(FormulaId(number)));
}

// The shapes of a table, a line each.
fn shapes(alloc: Global, table: &Table) -> Result<String, Fail> {
    let mut out = String::new(alloc);
    for number in 0..table.len() {
        writeln!(out, "{:?}", table.node(FormulaId(number)))?;
    }
    Ok(out)
}

// Puts the cores of two goals, the first of them again, and compares the table.
fn compare(rt: &impl Abort, alloc: Global, model: &Model) -> Result<(), Fail> {
    let mut table = Table::new(alloc);
    for (place, number) in [(0, 2), (1, 5), (0, 2)] {
        put_goal(rt, alloc, &mut table, model, place, number)?;
    }
    let text = shapes(alloc, &table)?;
    assert_eq!(rt; text.as_str(), SHAPES);
    assert!(rt; table.len() > 4);
    assert!(rt; table.tree_eq(FormulaId(2), FormulaId(2)));
    assert!(rt; !table.tree_eq(FormulaId(1), FormulaId(4)));
    Ok(())
}

// Puts both goals straight, which gives the same table, and forgets some of it.
fn compare_straight(rt: &impl Abort, alloc: Global, model: &Model) -> Result<(), Fail> {
    let mut table = Table::new(alloc);
    put_straight(rt, &mut table, model, 0, 2);
    put_straight(rt, &mut table, model, 1, 5);
    let text = shapes(alloc, &table)?;
    assert_eq!(rt; text.as_str(), SHAPES);
    assert!(rt; table.same(&table));
    table.truncate(3);
    assert_eq!(rt; table.len(), 3);
    assert!(rt; !table.same(&Table::new(alloc)));
    Ok(())
}

#[test]
fn numbers_and_shapes(rt: HostRuntime) -> Result<(), Fail> {
    let goals = "goal a: eventually p; goal b: always not p;";
    let model = model(&rt, rt.alloc(), "var p: bool;", goals)?;
    compare(&rt, rt.alloc(), &model)?;
    compare_straight(&rt, rt.alloc(), &model)
}

// The variables of the goals whose subformulas are counted.
const VARIABLES: &str =
    "var a: bool; var b: bool; var c: bool; var d: bool; var e: bool; var f: bool; var x: 0..63; var z: 0..63;";

// Goals, and how many distinct subformulas their positive cores have together: 4097 stands for more, too.
const DISTINCT: &str = "\
goal g: true; | 1
goal g: always a; | 3
goal g: eventually within 100 a; | 201
goal g: eventually within 100 eventually within 100 a; | 401
goal g: a until within 100 b; | 302
goal g: a until within 0 b; | 1
goal g: a iff (a iff (a iff a)); | 17
goal g: always x = z; | 257
goal g: always a; goal h: eventually a; goal i: always a; | 5
goal g: next next next (always within 100 always within 100 always within 100 always within 100 a and always within 100 always within 100 always within 100 always within 100 b and always within 100 always within 100 always within 100 always within 100 c and always within 100 always within 100 always within 100 always within 100 d and always within 100 always within 100 always within 100 always within 100 e and always within 41 f); | 4096
goal g: next next next next (always within 100 always within 100 always within 100 always within 100 a and always within 100 always within 100 always within 100 always within 100 b and always within 100 always within 100 always within 100 always within 100 c and always within 100 always within 100 always within 100 always within 100 d and always within 100 always within 100 always within 100 always within 100 e and always within 41 f); | 4097
goal g: next next next next next (always within 100 always within 100 always within 100 always within 100 a and always within 100 always within 100 always within 100 always within 100 b and always within 100 always within 100 always within 100 always within 100 c and always within 100 always within 100 always within 100 always within 100 d and always within 100 always within 100 always within 100 always within 100 e and always within 41 f); | 4097
";

fn count(rt: &impl Abort, alloc: Global, row: &str) -> Result<(), Fail> {
    let (goals, distinct) = cut(row)?;
    let model = model(rt, alloc, VARIABLES, goals)?;
    let list = formulas(alloc, &model)?;
    let size = distinct_size(alloc, space(&model), &list)?;
    assert_eq!(rt; size, distinct.parse::<u64>()?, "{row}");
    Ok(())
}

#[test]
fn distinct_subformulas(rt: HostRuntime) -> Result<(), Fail> {
    for row in DISTINCT.lines() {
        count(&rt, rt.alloc(), row)?;
    }
    Ok(())
}
