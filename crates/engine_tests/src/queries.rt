//! How many formulas a query has, which are untils, which come first, and which queries are the same.

use crate::reading::{asked, cut, cut_twice};
use std::alloc::Global;
use std::fmt::Write;
use std::process::Abort;
use std::test::Fail;
use tableau_rules::Query;

const VARIABLES: &str = "var p: bool;";

// Goals, the number of formulas of their query, and which of these are untils, or stand at the start.
const NUMBERS: &str = "\
goal a: eventually p; goal b: always not p; | 6: 2 is an until, 2 at the start, 5 at the start,
 | 0:";

// Goals of two queries, and whether the queries are the same.
const PAIRS: &str = "\
goal a: eventually p; goal b: always not p; | goal a: eventually p; goal b: always not p; | true
goal a: eventually p; goal b: always not p; | goal a: always not p; goal b: eventually p; | false";

// What is shown of a query: how many formulas it has, and what there is to say of each.
fn shown(alloc: Global, query: &Query) -> Result<String, Fail> {
    let mut out = format!(in alloc; "{}:", query.len())?;
    for number in 0..query.len() {
        if query.is_until(number) {
            write!(out, " {number} is an until,")?;
        }
        if query.start().has(number) {
            write!(out, " {number} at the start,")?;
        }
    }
    Ok(out)
}

// The query of some goals.
fn query_of(rt: &impl Abort, alloc: Global, goals: &str) -> Result<Query, Fail> {
    let (_model, query) = asked(rt, alloc, VARIABLES, goals)?;
    Ok(query)
}

// Compares what is shown of a row's query.
fn compare_row(rt: &impl Abort, alloc: Global, row: &str) -> Result<(), Fail> {
    let (goals, expected) = cut(row)?;
    let query = query_of(rt, alloc, goals)?;
    let text = shown(alloc, &query)?;
    assert_eq!(rt; text.as_str(), expected);
    Ok(())
}

#[test]
fn numbers(rt: HostRuntime) -> Result<(), Fail> {
    for row in NUMBERS.lines() {
        compare_row(&rt, rt.alloc(), row)?;
    }
    Ok(())
}

// Whether the queries of two lists of goals are the same.
fn are_same(rt: &impl Abort, alloc: Global, goals: &str, others: &str) -> Result<bool, Fail> {
    let query = query_of(rt, alloc, goals)?;
    let other = query_of(rt, alloc, others)?;
    Ok(query.same(&other))
}

#[test]
fn pairs(rt: HostRuntime) -> Result<(), Fail> {
    for row in PAIRS.lines() {
        let (goals, others, same) = cut_twice(row)?;
        assert_eq!(rt;
            are_same(&rt, rt.alloc(), goals, others)?,
            same == "true",
            "{row}"
        );
    }
    Ok(())
}
