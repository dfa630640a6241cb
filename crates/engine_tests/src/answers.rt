//! What the engine answers under budgets about the size of a tableau, and the lassos that it builds.

ghost use Rattle.std.specs.Prelude.{All};
ghost use Rattle.state_space.specs.Spaces.{sizes};
ghost use Rattle.tableau_rules.specs.Queries.{IsOver};
ghost use Rattle.tableau_rules.specs.QueryView.{cores_in};

use crate::reading::{asked, cut_twice, space};
use cert_checker::check;
use entailment::Engine;
use state_space::{Space, State};
use std::alloc::Global;
use std::fmt::Write;
use std::process::Abort;
use std::test::Fail;
use tableau_graph::{Explored, explore};
use tableau_rules::{Answer, Answerer, GraphNode, Query};
use temporal_logic::Lasso;

const VARIABLES: &str = "var p: bool; var q: bool; var x: 0..63;";

// Goals, a budget, and how what is found ends: the kids of each node, then the answer. A lasso has the
// value indexes of `p`, `q` and `x` in each state. The last rows are lassos that have to be short: they
// go to a kid near the fulfilment, serve an until only where one is carried, and have the least indexes.
const ANSWERS: &str = "\
goal a: eventually p; goal b: always not p; | 6 | whole [1] [2] [3] [4] [0], empty 5
goal a: eventually p; goal b: always not p; | 5 | whole [1] [2] [3] [4] [0], empty 5
goal a: eventually p; goal b: always not p; | 4 | over 4, withheld 4
goal a: eventually p; goal b: always not p; | 0 | over 0, withheld 0
goal a: p; | 3 | whole [1] [2] [2], found [1, 0, 0] loop [0, 0, 0]
goal a: p; | 2 | over 2, withheld 2
goal a: p; | 1 | over 1, withheld 1
goal a: always next eventually p; goal b: eventually p; | 7 | whole [1] [2] [3, 4] [5] [6] [0] [0], found loop [1, 0, 0]
goal a: always next eventually p; goal b: eventually p; | 6 | over 6, withheld 6
goal a: eventually within 100 eventually within 100 p; | 602 | over 602, withheld 602
goal a: eventually within 100 eventually within 100 p; | 603 | found [1, 0, 0] loop [0, 0, 0]
 | 1 | whole [0], found loop [0, 0, 0]
 | 0 | over 0, withheld 0
goal a: always eventually p; goal b: always eventually not p; | 20000 | found [1, 0, 0] loop [0, 0, 0] [1, 0, 0]
goal a: not p and q and x = 63; | 1000 | found [0, 1, 63] loop [0, 0, 0]
goal a: x in {1, 2}; | 1000 | found [0, 0, 1] loop [0, 0, 0]
goal a: true; goal b: (not p and next not p) or q; goal c: eventually p; | 1000 | found [1, 1, 0] loop [0, 0, 0]
goal a: true; goal b: q or (not p and next not p); goal c: eventually p; | 1000 | found [1, 1, 0] loop [0, 0, 0]
goal a: true; goal b: (q and not q) or not q; goal c: eventually p; | 1000 | found [1, 0, 0] loop [0, 0, 0]
goal a: always (q or eventually p); | 1000 | found loop [0, 1, 0]";

// Writes the kids of each node.
fn put_kids(out: &mut String, nodes: &[GraphNode]) -> Result<(), Fail> {
    for node in nodes {
        write!(out, " {:?}", node.kids.as_slice())?;
    }
    Ok(())
}

// Writes what is explored: the kids of each node, or the budget.
fn put_explored(
    out: &mut String,
    alloc: Global,
    space: &Space,
    query: &Query,
    budget: u32,
) -> Result<(), Fail> {
    match explore(alloc, space, query, budget)? {
        Explored::Over(number) => Ok(write!(out, "over {number}")?),
        Explored::Whole(graph) => {
            out.push_str("whole")?;
            put_kids(out, &graph.nodes)
        }
    }
}

// Writes the value indexes of each state.
fn put_states(out: &mut String, states: &[State]) -> Result<(), Fail> {
    for state in states {
        write!(out, " {:?}", state.values.as_slice())?;
    }
    Ok(())
}

// Writes the states of a lasso.
fn put_lasso(out: &mut String, lasso: &Lasso) -> Result<(), Fail> {
    out.push_str("found")?;
    put_states(out, &lasso.prefix)?;
    out.push_str(" loop")?;
    put_states(out, &lasso.cycle)
}

// Writes the answer: the number of nodes of a certificate, a lasso, or the budget.
fn put_answer<A: Answerer>(
    rt: &impl Abort,
    out: &mut String,
    alloc: Global,
    answerer: &A,
    space: &Space,
    query: &Query,
    budget: u32,
) -> Result<(), Fail>
    requires over { All (IsOver (sizes space.now)) (cores_in query.now) }
{
    match answerer.answer(alloc, space, query, budget)? {
        Answer::Empty(cert) => {
            assert!(rt; check(space, query, &cert).is_ok());
            Ok(write!(out, "empty {}", cert.nodes.len())?)
        }
        Answer::Found(lasso) => put_lasso(out, &lasso),
        Answer::Withheld(number) => Ok(write!(out, "withheld {number}")?),
    }
}

// What is shown of a query under a budget.
fn shown(
    rt: &impl Abort,
    alloc: Global,
    space: &Space,
    query: &Query,
    budget: u32,
) -> Result<String, Fail>
    requires over { All (IsOver (sizes space.now)) (cores_in query.now) }
{
    let mut out = String::new(alloc);
    put_explored(&mut out, alloc, space, query, budget)?;
    out.push_str(", ")?;
    put_answer(rt, &mut out, alloc, &Engine, space, query, budget)?;
    Ok(out)
}

// Compares how what is shown of a query ends.
fn compare(
    rt: &impl Abort,
    alloc: Global,
    space: &Space,
    query: &Query,
    budget: u32,
    expected: &str,
) -> Result<(), Fail>
    requires over { All (IsOver (sizes space.now)) (cores_in query.now) }
{
    let text = shown(rt, alloc, space, query, budget)?;
    assert!(rt; text.ends_with(expected), "{expected}: {text}");
    Ok(())
}

// Compares what is shown of a row's query.
fn compare_row(rt: &impl Abort, alloc: Global, row: &str) -> Result<(), Fail> {
    let (goals, budget, expected) = cut_twice(row)?;
    let budget = budget.parse::<u32>()?;
    let (model, query) = asked(rt, alloc, VARIABLES, goals)?;
    compare(rt, alloc, space(&model), &query, budget, expected)
}

#[test]
fn answers(rt: HostRuntime) -> Result<(), Fail> {
    for row in ANSWERS.lines() {
        compare_row(&rt, rt.alloc(), row)?;
    }
    Ok(())
}
