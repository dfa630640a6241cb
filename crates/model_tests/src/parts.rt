//! The parts of models: of each property, goal and refinement its statement, goals by their places, and of each trace its states, by the
//! value indexes of all variables.

use crate::texts::{bytes_of, compare, cut, model_in};
use goal_model::{Link, Model, NamedTrace};
use state_space::{Name, State};
use std::alloc::{AllocError, Global};
use std::process::Abort;
use std::str;
use std::test::Fail;

fn put(out: &mut Vec<u8>, text: &str) -> Result<(), AllocError> {
    out.extend_from_slice(text.as_bytes())
}

fn put_named(
    alloc: Global,
    out: &mut Vec<u8>,
    word: &str,
    statement: u32,
    name: &Name,
) -> Result<(), AllocError> {
    put(out, &format!(in alloc; "{word} {statement} ")?)?;
    out.extend_from_slice(name.bytes())?;
    put(out, "\n")
}

fn put_domains(alloc: Global, out: &mut Vec<u8>, model: &Model) -> Result<(), AllocError> {
    for property in model.domains() {
        put_named(alloc, out, "domain", property.statement, &property.name)?;
    }
    Ok(())
}

fn put_goals(alloc: Global, out: &mut Vec<u8>, model: &Model) -> Result<(), AllocError> {
    for goal in model.goals() {
        put_named(alloc, out, "goal", goal.statement, &goal.name)?;
    }
    Ok(())
}

fn put_link(alloc: Global, out: &mut Vec<u8>, link: &Link) -> Result<(), AllocError> {
    let Link::Refine {
        statement,
        parent,
        subgoals,
        ..
    } = link
    else {
        return put(out, "another link\n");
    };
    let subgoals = subgoals.as_slice();
    let line = format!(in alloc; "refine {statement} {parent} by {subgoals:?}\n")?;
    put(out, &line)
}

fn put_links(alloc: Global, out: &mut Vec<u8>, links: &[Link]) -> Result<(), AllocError> {
    for link in links {
        put_link(alloc, out, link)?;
    }
    Ok(())
}

fn put_states(alloc: Global, out: &mut Vec<u8>, states: &[State]) -> Result<(), AllocError> {
    for state in states {
        let values = state.values.as_slice();
        put(out, &format!(in alloc; " {values:?}")?)?;
    }
    Ok(())
}

fn put_trace(alloc: Global, out: &mut Vec<u8>, trace: &NamedTrace) -> Result<(), AllocError> {
    put(out, "trace ")?;
    out.extend_from_slice(trace.name.bytes())?;
    put_states(alloc, out, &trace.lasso.prefix)?;
    put(out, " loop")?;
    put_states(alloc, out, &trace.lasso.cycle)?;
    put(out, "\n")
}

fn put_traces(alloc: Global, out: &mut Vec<u8>, traces: &[NamedTrace]) -> Result<(), AllocError> {
    for trace in traces {
        put_trace(alloc, out, trace)?;
    }
    Ok(())
}

// The parts of a model, a line for each.
fn parts(alloc: Global, model: &Model) -> Result<Vec<u8>, AllocError> {
    let mut out = Vec::new(alloc);
    put_domains(alloc, &mut out, model)?;
    put_goals(alloc, &mut out, model)?;
    put_links(alloc, &mut out, model.links())?;
    put_traces(alloc, &mut out, model.traces())?;
    Ok(out)
}

const MODELS: &str = "
== each part has its statement and its place
kaos 1; var a: bool; domain d: always a; goal g: a unless within 3 not a;
goal h: a entails next a; goal i: eventually within 2 a iff always a; refine g by i, h;
-> domain 3 d
goal 4 g
goal 5 h
goal 6 i
refine 7 0 by [2, 1]

== states of no variable
kaos 1; trace t: {} loop {} {};
-> trace t [] loop [] []

== states in the order of the variables
kaos 1; var m: { x, y, z }; var n: -1..5; trace t: loop { n = 3, m = z } { n = -1 };
-> trace t loop [2, 4] [0, 0]

== states of a variable behind the trace
kaos 1; var a: bool; trace t: { a = true } loop {} { a = true }; var n: 2..5;
-> trace t [1, 0] loop [0, 0] [1, 0]
";

fn parts_in(rt: &impl Abort, alloc: Global, text: &str) -> Result<Vec<u8>, Fail> {
    let bytes = bytes_of(alloc, "", text)?;
    let model = model_in(rt, alloc, &bytes)?;
    Ok(parts(alloc, &model)?)
}

fn has_parts(rt: &impl Abort, alloc: Global, block: &str) -> Result<(), Fail> {
    let (asked, due) = cut(block, "\n-> ")?;
    let (name, text) = cut(asked, "\n")?;
    let parts = parts_in(rt, alloc, text)?;
    compare(rt, name, str::from_utf8(&parts)?, due);
    Ok(())
}

#[test]
fn models_have_these_parts(rt: HostRuntime) -> Result<(), Fail> {
    for block in MODELS.split("\n== ").skip(1) {
        has_parts(&rt, rt.alloc(), block)?;
    }
    Ok(())
}
