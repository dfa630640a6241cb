//! Patterns, and what is an instance of one: the first goal of a text and the next ones as its subgoals, so many as a row says. The goals
//! behind them are the formulas that placeholders are due to have, in the order in which they first occur in the pattern.

use crate::texts::{bytes_of, compare, cut, holds, model_in, number, parts_of};
use entailment::Engine;
use goal_model::{Goal, Model, PatternKind};
use pattern_library::{
    Binding, are_instance, library, match_pattern, pattern_name, pattern_query, placeholder_space,
};
use source_sink::Memory;
use std::alloc::Global;
use std::process::Abort;
use std::test::Fail;
use tableau_rules::{Answer, Answerer};
use temporal_logic::Formula;

fn kind_of(word: &str) -> PatternKind {
    match word {
        "milestone" => PatternKind::Milestone,
        "cases" => PatternKind::Cases,
        "guard" => PatternKind::Guard,
        "split" => PatternKind::Split,
        _ => PatternKind::Induction,
    }
}

// The formulas of goals.
fn formulas_of(alloc: Global, goals: &[Goal]) -> Result<Vec<Formula>, Memory> {
    let mut formulas = Vec::new(alloc);
    for goal in goals {
        formulas.push(goal.formula.clone(alloc)?)?;
    }
    Ok(formulas)
}

// Whether a binding has these formulas.
fn has(binding: &Binding, due: &[Goal]) -> bool {
    let mut pairs = binding.formulas.iter().zip(due.iter());
    binding.formulas.len() == due.len()
        && pairs.all(|(formula, goal)| formula.is_same(&goal.formula))
}

// Whether subgoals and a negated parent are those of an instance.
fn are_of_instance(
    alloc: Global,
    kind: PatternKind,
    parent: &Formula,
    subgoals: &[Goal],
) -> Result<bool, Memory> {
    let mut list = formulas_of(alloc, subgoals)?;
    list.push(Formula::Not(Box::new(alloc, parent.clone(alloc)?)?))?;
    are_instance(alloc, kind, &list)
}

fn found(
    alloc: Global,
    kind: PatternKind,
    count: usize,
    model: &Model,
) -> Result<&'static str, Fail> {
    let (parent, others) = model.goals().split_first().ok_or("a row without goals")?;
    let count = count.min(others.len());
    let subgoals = formulas_of(alloc, &others[..count])?;
    let pattern = library(alloc, kind)?;
    let due = &others[count..];
    let is_instance = are_of_instance(alloc, kind, &parent.formula, &others[..count])?;
    let Some(binding) = match_pattern(alloc, &pattern, &parent.formula, &subgoals)? else {
        return Ok(if is_instance { "an instance" } else { "none" });
    };
    Ok(if is_instance && has(&binding, due) {
        "found"
    } else {
        "another"
    })
}

const VARIABLES: &str = "kaos 1; var a: bool; var b: bool; var c: bool; var d: bool; var n: 0..3; ";

const MATCHES: &str = "\
a milestone | milestone 2 goal G: a entails eventually c; goal H: a entails eventually b; goal I: b entails eventually c; goal C: a; goal T: c; goal M: b; | found
in another order | milestone 2 goal G: a entails eventually c; goal I: b entails eventually c; goal H: a entails eventually b; | none
with another target | milestone 2 goal G: a entails eventually c; goal H: a entails eventually b; goal I: b entails eventually d; | none
with another milestone | milestone 2 goal G: a entails eventually c; goal H: a entails eventually b; goal I: d entails eventually c; | none
with a bound | milestone 2 goal G: a entails eventually within 3 c; goal H: a entails eventually b; goal I: b entails eventually c; | none
with always and implies | milestone 2 goal G: always (a implies eventually c); goal H: a entails eventually b; goal I: b entails eventually c; | none
with one subgoal less | milestone 1 goal G: a entails eventually c; goal H: a entails eventually b; | none
with one more | milestone 3 goal G: a entails eventually c; goal H: a entails eventually b; goal I: b entails eventually c; goal J: a; | none
by way of itself | milestone 2 goal G: a entails eventually c; goal H: a entails eventually a; goal I: a entails eventually c; goal C: a; goal T: c; goal M: a; | found
formulas for placeholders | milestone 2 goal G: next a and n < 2 entails eventually (b until c); goal H: next a and n < 2 entails eventually not always d; goal I: not always d entails eventually (b until c); goal C: next a and n < 2; goal T: b until c; goal M: not always d; | found
and one of them another time | milestone 2 goal G: next a and n < 2 entails eventually (b until c); goal H: next a and n <= 2 entails eventually d; goal I: d entails eventually (b until c); | none
and a bound of another time | milestone 2 goal G: always within 2 a entails eventually c; goal H: always within 3 a entails eventually b; goal I: b entails eventually c; | none
two cases | cases 3 goal G: a entails eventually b; goal H: a and c entails eventually b; goal I: a and d entails eventually b; goal J: a entails c or d; goal C: a; goal T: b; goal P: c; goal Q: d; | found
a case and its opposite | cases 3 goal G: a entails eventually b; goal H: a and n = 0 entails eventually b; goal I: a and not n = 0 entails eventually b; goal J: a entails n = 0 or not n = 0; goal C: a; goal T: b; goal P: n = 0; goal Q: not n = 0; | found
cases the other way round | cases 3 goal G: a entails eventually b; goal H: a and c entails eventually b; goal I: a and d entails eventually b; goal J: a entails d or c; | none
a case before its condition | cases 3 goal G: a entails eventually b; goal H: c and a entails eventually b; goal I: a and d entails eventually b; goal J: a entails c or d; | none
a guard | guard 3 goal G: a entails eventually b; goal H: a and c entails eventually b; goal I: a entails eventually c; goal J: a entails (a unless b); goal C: a; goal T: b; goal D: c; | found
a guard with until | guard 3 goal G: a entails eventually b; goal H: a and c entails eventually b; goal I: a entails eventually c; goal J: a entails (a until b); | none
two parts | split 2 goal G: a entails always b and next c; goal H: a entails always b; goal I: a entails next c; goal C: a; goal P: always b; goal Q: next c; | found
two parts the other way round | split 2 goal G: a entails b and c; goal H: a entails c; goal I: a entails b; | none
induction | induction 2 goal G: a entails always (b or n != 1); goal H: a entails b or n != 1; goal I: b or n != 1 entails next (b or n != 1); goal C: a; goal P: b or n != 1; | found
induction of what does not begin | induction 2 goal G: a entails always b; goal H: c entails b; goal I: b entails next b; | none
another pattern's instance | split 2 goal G: a entails eventually c; goal H: a entails eventually b; goal I: b entails eventually c; | none";

#[test]
fn instances(rt: HostRuntime) -> Result<(), Fail> {
    let alloc = rt.alloc();
    for row in MATCHES.lines() {
        let (name, text, due) = parts_of(row)?;
        let (kind, text) = cut(text, " ")?;
        let (count, statements) = cut(text, " ")?;
        let model = model_in(&rt, alloc, &bytes_of(alloc, VARIABLES, statements)?)?;
        let made = found(alloc, kind_of(kind), number(count)?, &model)?;
        compare(&rt, name, made, due);
    }
    Ok(())
}

// How many nodes the certificate of an answer has.
fn nodes_of(answer: &Answer) -> Option<usize> {
    match answer {
        Answer::Empty(cert) => Some(cert.nodes.len()),
        _ => None,
    }
}

// The nodes that a certificate for the query of a pattern may have at most, and the placeholders.
const QUERIES: &str = "\
milestone | 409 | 3
cases | 377 | 4
guard | 1079 | 3
split | 29 | 3
induction | 43 | 2";

#[test]
fn queries(rt: HostRuntime) -> Result<(), Fail> {
    let alloc = rt.alloc();
    for row in QUERIES.lines() {
        let (name, nodes, placeholders) = parts_of(row)?;
        let kind = kind_of(name);
        let pattern = library(alloc, kind)?;
        let (space, query) = pattern_query(alloc, &pattern)?;
        let count = space.count() as usize;
        holds(&rt, name, count == number(placeholders)?);
        let alone = placeholder_space(alloc, pattern.placeholders)?;
        holds(&rt, name, alone.count() as usize == count);
        holds(&rt, name, pattern_name(kind) == name.as_bytes());
        let answer = Engine.answer(alloc, &space, &query, 20_000)?;
        let used = nodes_of(&answer).ok_or("a trace of a pattern")?;
        holds(&rt, name, used <= number(nodes)?);
    }
    Ok(())
}
