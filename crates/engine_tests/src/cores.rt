//! Formulas, with the sizes, depths and texts of their positive and their negative cores.

ghost use Rattle.state_space.specs.Spaces.{ranges};
ghost use Rattle.temporal_logic.specs.Fits.{Fits};
ghost use Rattle.temporal_logic.specs.Trees.{tree_of};
ghost use Rattle.bound_unfolding.specs.CoreTexts.{CoreFits};
ghost use Rattle.bound_unfolding.specs.CoreView.{core_tree_of};
ghost use Rattle.goal_model.specs.ModelViews.{model_of};

use crate::reading::{core, cut_twice, goal, model, space};
use bound_unfolding::{Core, core_depth, core_size, core_text};
use goal_model::Model;
use source_sink::Memory;
use state_space::Space;
use std::alloc::Global;
use std::process::Abort;
use std::test::Fail;
use temporal_logic::Formula;

const VARIABLES: &str = "var p: bool; var q: bool; var x: 0..63; var y: -1..62; var z: 0..63;";

// The sign, a goal, and what is shown of its core: number of nodes, number of levels, text.
// Where the text is `..`, it is long, and any will do.
const CORES: &str = "\
+ | goal g: eventually within 1 p; | 4 3 (p or next p)
- | goal g: eventually within 1 p; | 4 3 (not p and next not p)
+ | goal g: eventually within 100 p; | 301 201 ..
+ | goal g: eventually within 100 eventually within 100 p; | 4097 401 none
+ | goal g: p unless q; | 5 3 (q release (p or q))
- | goal g: p unless q; | 5 3 (not q until (not p and not q))
+ | goal g: always x = z; | 257 66 ..
+ | goal g: y < -1; | 1 1 y in {}
+ | goal g: y in {-1}; | 1 1 y in {-1}
+ | goal g: y in {0, 1, 4}; | 1 1 y in {0, 1, 4}";

// Whether a clone of the core is the same core.
fn is_cloned(alloc: Global, core: &Core) -> Result<bool, Memory> {
    Ok(core.clone(alloc)?.is_same(core))
}

// Writes the text of a core.
fn put_core(out: &mut Vec<u8>, alloc: Global, space: &Space, core: &Core) -> Result<(), Memory>
    requires fits { CoreFits (ranges space.now) (core_tree_of core.now) }
{
    let text = core_text(alloc, space, core)?;
    out.extend_from_slice(&text)?;
    Ok(())
}

// Writes the text of a core, which a clone of it has too.
fn put_both(
    rt: &impl Abort,
    out: &mut Vec<u8>,
    alloc: Global,
    space: &Space,
    core: &Core,
) -> Result<(), Memory>
    requires fits { CoreFits (ranges space.now) (core_tree_of core.now) }
{
    assert!(rt; is_cloned(alloc, core)?);
    put_core(out, alloc, space, core)
}

// Writes the text of the core of a formula, which is not too large.
fn put_made(
    rt: &impl Abort,
    out: &mut Vec<u8>,
    alloc: Global,
    space: &Space,
    formula: &Formula,
    positive: bool,
) -> Result<(), Memory>
    requires fits { Fits (ranges space.now) (tree_of formula.now) }
{
    let core = core(rt, alloc, space, formula, positive)?;
    put_both(rt, out, alloc, space, &core)
}

// Writes the text of the core of a formula: `none` where the core is too large to be made, and `..`
// where it is long.
fn put_text(
    rt: &impl Abort,
    out: &mut Vec<u8>,
    alloc: Global,
    space: &Space,
    formula: &Formula,
    positive: bool,
    is_short: bool,
) -> Result<(), Memory>
    requires fits { Fits (ranges space.now) (tree_of formula.now) }
{
    if !is_short {
        Ok(out.extend_from_slice(b"..")?)
    } else if core_size(space, formula, positive) > 4096 {
        Ok(out.extend_from_slice(b"none")?)
    } else {
        put_made(rt, out, alloc, space, formula, positive)
    }
}

// The size and the depth of a core.
fn counts(alloc: Global, size: u64, depth: u64) -> Result<Vec<u8>, Fail> {
    Ok(format!(in alloc; "{size} {depth} ")?.into_bytes())
}

// What is shown of the core of a formula: its size, its depth and its text.
fn shown(
    rt: &impl Abort,
    alloc: Global,
    space: &Space,
    formula: &Formula,
    positive: bool,
    is_short: bool,
) -> Result<Vec<u8>, Fail>
    requires fits { Fits (ranges space.now) (tree_of formula.now) }
{
    let size = core_size(space, formula, positive);
    let depth = core_depth(space, formula, positive);
    let mut out = counts(alloc, size, depth)?;
    put_text(rt, &mut out, alloc, space, formula, positive, is_short)?;
    Ok(out)
}

// Compares what is shown of the core of a model's only goal.
fn compare(
    rt: &impl Abort,
    alloc: Global,
    model: &Model,
    positive: bool,
    expected: &str,
) -> Result<(), Fail> {
    assert!(rt; model.goals().len() == 1);
    let is_short = !expected.ends_with("..");
    let text = shown(
        rt,
        alloc,
        space(model),
        goal(rt, model, 0),
        positive,
        is_short,
    )?;
    assert!(rt; text.as_slice() == expected.as_bytes(), "{expected}");
    Ok(())
}

// Compares what is shown of the core of a row.
fn compare_row(rt: &impl Abort, alloc: Global, row: &str) -> Result<(), Fail> {
    let (sign, goals, expected) = cut_twice(row)?;
    let model = model(rt, alloc, VARIABLES, goals)?;
    compare(rt, alloc, &model, sign == "+", expected)
}

#[test]
fn cores(rt: HostRuntime) -> Result<(), Fail> {
    for row in CORES.lines() {
        compare_row(&rt, rt.alloc(), row)?;
    }
    Ok(())
}
