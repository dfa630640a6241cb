//! Candidates for obstacles: of the first goal of a text, by so many levels of rules. What is due is worked out by hand: the negated goal,
//! then for each candidate, for each of its parts from the inside out, for each rule in order, the candidate with the rule's cause in place
//! of that part, where its effect is the part or a narrower choice of values.

ghost use Rattle.std.specs.Prelude.{◌≡◌, true, All, IfOk};
ghost use Rattle.bound_unfolding.specs.CoreLists.{cores_of};
ghost use Rattle.bound_unfolding.specs.CoreTexts.{CoreFits};
ghost use Rattle.bound_unfolding.specs.CoreView.{core_tree_of};
ghost use Rattle.goal_model.specs.Models.{sizes_of};
ghost use Rattle.goal_model.specs.ModelViews.{model_of};
ghost use Rattle.obstacle_regression.specs.Candidates.{is_small};
ghost use Rattle.obstacle_regression.specs.Regressions.{total_nodes, domain_formulas};

use crate::texts::{bytes_of, compare, cut, model_in, parts_of};
use bound_unfolding::core_text;
use entailment::Engine;
use goal_model::Model;
use obstacle_regression::{Regressed, Standing, regress, standings};
use std::alloc::{AllocError, Global};
use std::process::Abort;
use std::str;
use std::test::Fail;

// The candidates of the first goal.
fn found_in(rt: &impl Abort, alloc: Global, model: &Model, depth: u8) -> Result<Regressed, Fail>
    ensures fits { IfOk result (λ r. All (λ c. CoreFits (model_of model.now).ranges (core_tree_of c)) r.list.items) }
    ensures small { IfOk result (λ r. All (λ c. is_small (total_nodes (cores_of (sizes_of (model_of model.now)) (domain_formulas (model_of model.now)))) (core_tree_of c) ≡ true) r.list.items) }
{
    assert!(rt; !model.goals().is_empty());
    Ok(regress(alloc, model, 0, depth)?)
}

fn put(out: &mut Vec<u8>, text: &str) -> Result<(), AllocError> {
    out.extend_from_slice(text.as_bytes())
}

fn put_more(out: &mut Vec<u8>, found: &Regressed) -> Result<(), AllocError> {
    put(out, if found.more { "more: yes" } else { "more: no" })
}

// The depth and the model of a row.
fn model_of_row(rt: &impl Abort, alloc: Global, row: &str) -> Result<(u8, Model), Fail> {
    let (depth, statements) = cut(row, " ")?;
    let bytes = bytes_of(alloc, "kaos 1; ", statements)?;
    Ok((depth.parse::<u8>()?, model_in(rt, alloc, &bytes)?))
}

// Each candidate, and whether one was left out.
fn listed(rt: &impl Abort, alloc: Global, row: &str) -> Result<Vec<u8>, Fail> {
    let (depth, model) = model_of_row(rt, alloc, row)?;
    let found = found_in(rt, alloc, &model, depth)?;
    let space = model.space();
    let mut out = Vec::new(alloc);
    for core in &found.list {
        let text = core_text(alloc, space, core)?;
        out.extend_from_slice(&text)?;
        put(&mut out, "; ")?;
    }
    put_more(&mut out, &found)?;
    Ok(out)
}

// How many candidates there are, and whether one was left out.
fn counted(rt: &impl Abort, alloc: Global, row: &str) -> Result<Vec<u8>, Fail> {
    let (depth, model) = model_of_row(rt, alloc, row)?;
    let found = found_in(rt, alloc, &model, depth)?;
    let mut out = Vec::new(alloc);
    let count = found.list.len();
    put(&mut out, &format!(in alloc; "{count}; ")?)?;
    put_more(&mut out, &found)?;
    Ok(out)
}

const LISTS: &str = "\
a cause of a part | 3 var moving: bool; var closed: bool; var brakefail: bool; rule R: brakefail entails moving; goal G: always (moving implies closed); | (true until (moving and not closed)); (true until (brakefail and not closed)); more: no
a narrower choice | 1 var x: 1..3; var f: bool; rule R: f entails x = 3; goal G: always x = 1; | (true until x in {2, 3}); (true until f); more: no
a wider choice | 1 var x: 1..4; var f: bool; rule R: f entails x > 1; goal G: always x < 3; | (true until x in {3, 4}); more: no
another choice | 1 var x: 1..4; var f: bool; rule R: f entails x in {1, 3}; goal G: always x < 3; | (true until x in {3, 4}); more: no
no level | 0 var a: bool; var b: bool; rule R: b entails a; goal G: always not a; | (true until a); more: no
no rule | 3 var a: bool; var b: bool; domain D: always (b implies a); goal G: always not a; | (true until a); more: no
one of two levels | 1 var a: bool; var b: bool; var c: bool; rule R: b entails a; rule S: c entails b; goal G: always not a; | (true until a); (true until b); more: no
two levels | 2 var a: bool; var b: bool; var c: bool; rule R: b entails a; rule S: c entails b; goal G: always not a; | (true until a); (true until b); (true until c); more: no
two levels, the rules the other way round | 2 var a: bool; var b: bool; var c: bool; rule S: c entails b; rule R: b entails a; goal G: always not a; | (true until a); (true until b); (true until c); more: no
two rules of one part | 1 var a: bool; var b: bool; var c: bool; rule R: b entails a; rule S: c entails a; goal G: always not a; | (true until a); (true until b); (true until c); more: no
parts before rules | 2 var a: bool; var b: bool; var d: bool; var e: bool; rule R: e entails d; rule S: b entails a; goal G: always not (a and d); | (true until (a and d)); (true until (b and d)); (true until (a and e)); (true until (b and e)); more: no
operands before the whole | 1 var a: bool; var b: bool; var d: bool; var f: bool; rule R: f entails (a and d); rule S: b entails d; goal G: always not (a and d); | (true until (a and d)); (true until (a and b)); (true until f); more: no
the whole candidate | 1 var a: bool; var f: bool; rule R: f entails eventually a; goal G: always not a; | (true until a); f; more: no
each place of a part | 1 var a: bool; var b: bool; rule R: b entails a; goal G: always not (a and next a); | (true until (a and next a)); (true until (b and next b)); more: no
a rule that matches twice | 1 var x: 1..3; var f: bool; rule R: f entails x = 3; goal G: always not (x >= 2 and next x = 3); | (true until (x in {2, 3} and next x in {3})); (true until (f and next x in {3})); (true until (x in {2, 3} and next f)); more: no
and the same by two ways | 2 var x: 1..3; var f: bool; rule R: f entails x = 3; goal G: always not (x >= 2 and next x = 3); | (true until (x in {2, 3} and next x in {3})); (true until (f and next x in {3})); (true until (x in {2, 3} and next f)); (true until (f and next f)); more: no
a cause with the part in it | 2 var a: bool; rule R: next a entails a; goal G: always not a; | (true until a); (true until next a); (true until next next a); more: no
rules that go round | 6 var a: bool; var b: bool; rule R: b entails a; rule S: a entails b; goal G: always not a; | (true until a); (true until b); more: no
the first goal alone | 1 var a: bool; var b: bool; rule R: b entails a; goal G: always not a; goal H: always a; | (true until a); (true until b); more: no
a goal of one state | 1 var a: bool; var b: bool; rule R: b entails not a; goal G: a; | not a; b; more: no";

#[test]
fn candidates(rt: HostRuntime) -> Result<(), Fail> {
    let alloc = rt.alloc();
    for row in LISTS.lines() {
        let (name, text, due) = parts_of(row)?;
        let made = listed(&rt, alloc, text)?;
        compare(&rt, name, str::from_utf8(&made)?, due);
    }
    Ok(())
}

// In the list of 200 stand the first candidate, 64 causes in this state, in the next and in the one behind, and 7 or 8 in the one behind
// that. A bound of d on a variable has 3 d + 1 nodes and 2 d + 1 levels. A rule of a cause of n nodes has n + 4, and a candidate with that
// cause n + 2.
const COUNTS: &str = "\
200 candidates | 1 var a: bool; var x: 0..63; [64 rule q#: x = # entails a;][64 rule r#: next x = # entails a;][64 rule s#: next next x = # entails a;][7 rule t#: next next next x = # entails a;]goal G: always not a; | 200; more: no
one of them twice | 1 var a: bool; var x: 0..63; [64 rule q#: x = # entails a;][64 rule r#: next x = # entails a;][64 rule s#: next next x = # entails a;][7 rule t#: next next next x = # entails a;]rule u: x = 0 entails a; goal G: always not a; | 200; more: no
201 candidates | 1 var a: bool; var x: 0..63; [64 rule q#: x = # entails a;][64 rule r#: next x = # entails a;][64 rule s#: next next x = # entails a;][8 rule t#: next next next x = # entails a;]goal G: always not a; | 200; more: yes
eight choices of two, but two of all | 6 [8 var a#: bool;][8 var b#: bool;][8 rule r#: b# entails a#;]goal G: always not (a0 and a1 and a2 and a3 and a4 and a5 and a6 and a7); | 200; more: yes
seven choices of two | 7 [7 var a#: bool;][7 var b#: bool;][7 rule r#: b# entails a#;]goal G: always not (a0 and a1 and a2 and a3 and a4 and a5 and a6); | 128; more: no
4096 nodes | 1 var a: bool; var b: bool; rule R: [6 always within 100 b and ]next always within 77 b entails a; goal G: always not a; | 2; more: no
4098 nodes | 1 var a: bool; var b: bool; rule R: [6 always within 100 b and ]next next always within 77 b entails a; goal G: always not a; | 1; more: yes
a first candidate of 30603 nodes | 1 var a: bool; var b: bool; rule R: b entails a; goal G: always eventually within 100 always within 100 a; | 0; more: yes
1000 levels | 11 var a: bool; rule R: [90 next ]a entails a; goal G: always not [8 next ]a; | 12; more: no
1001 levels | 11 var a: bool; rule R: [90 next ]a entails a; goal G: always not [9 next ]a; | 11; more: yes";

#[test]
fn numbers_of_candidates(rt: HostRuntime) -> Result<(), Fail> {
    let alloc = rt.alloc();
    for row in COUNTS.lines() {
        let (name, text, due) = parts_of(row)?;
        let made = counted(&rt, alloc, text)?;
        compare(&rt, name, str::from_utf8(&made)?, due);
    }
    Ok(())
}

fn word_of(standing: Standing) -> &'static str {
    match standing {
        Standing::Possible => "possible;",
        Standing::Impossible => "impossible;",
        Standing::Withheld(_) => "withheld;",
    }
}

// How each candidate of two levels stands, under a budget.
fn stood(rt: &impl Abort, alloc: Global, row: &str) -> Result<Vec<u8>, Fail> {
    let (budget, statements) = cut(row, " ")?;
    let bytes = bytes_of(alloc, "kaos 1; ", statements)?;
    let model = model_in(rt, alloc, &bytes)?;
    let found = found_in(rt, alloc, &model, 2)?;
    let list = standings(alloc, &Engine, &model, &found.list, budget.parse::<u32>()?)?;
    let mut out = Vec::new(alloc);
    for standing in &list {
        put(&mut out, word_of(*standing))?;
    }
    Ok(out)
}

const STANDINGS: &str = "\
each of two | 20000 var moving: bool; var closed: bool; var brakefail: bool; rule R: brakefail entails moving; goal G: always (moving implies closed); | possible;possible;
one that a property rules out | 20000 var a: bool; var b: bool; domain D: always not b; rule R: b entails a; goal G: always not a; | possible;impossible;
one behind it | 20000 var a: bool; var b: bool; var c: bool; domain D: always not b; rule R: b entails a; rule S: c entails b; goal G: always not a; | possible;impossible;impossible;
a goal that the domain has | 20000 var a: bool; domain D: always a; goal G: eventually a; | impossible;
properties without a trace | 20000 var a: bool; domain D: a; domain E: not a; goal G: always not a; | impossible;
a budget of one node | 1 var a: bool; var b: bool; rule R: b entails a; goal G: always not a; | withheld;withheld;";

#[test]
fn standings_of_candidates(rt: HostRuntime) -> Result<(), Fail> {
    let alloc = rt.alloc();
    for row in STANDINGS.lines() {
        let (name, text, due) = parts_of(row)?;
        let made = stood(&rt, alloc, text)?;
        compare(&rt, name, str::from_utf8(&made)?, due);
    }
    Ok(())
}
