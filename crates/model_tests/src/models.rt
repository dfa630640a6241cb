//! Statements that make a model, at the limits of what makes one.

use crate::texts::{bytes_of, cut, holds, resolved};
use std::alloc::Global;
use std::process::Abort;
use std::test::Fail;

// A row has statements behind the version, and no refusal.
fn is_made(
    rt: &impl Abort,
    alloc: Global,
    version: &str,
    name: &str,
    statements: &str,
) -> Result<(), Fail> {
    let bytes = bytes_of(alloc, version, statements)?;
    holds(rt, name, resolved(rt, alloc, &bytes)?.is_ok());
    Ok(())
}

fn are_made(rt: &impl Abort, alloc: Global, version: &str, table: &str) -> Result<(), Fail> {
    for row in table.lines() {
        if !row.starts_with("# ") {
            let (name, statements) = cut(row, " | ")?;
            is_made(rt, alloc, version, name, statements)?;
        }
    }
    Ok(())
}

// The negated `always p` has 3 subformulas, the negated `p` has 1.
const STATEMENTS: &str = "\
each form | var a: bool; var n: 0..3; domain D: a; rule L: a entails a; goal P: always a; goal Q: always a; obstacle O: a; agent A monitors n controls a; operation S by A dompre not a dompost a; require R on S pre true; refine P by Q using split; obstruct P by O; conflict C: P, Q boundary false; assign P to A; expect Q of A; operationalise P by R exact; trace T: {} loop {n = 1};
values twice behind `in` | var n: 0..3; goal g: n in {1, 1};
a variable for each kind of value | var a: bool; var b: bool; var n: 0..3; var k: 0..3; var m: {x, y}; var l: {x, y}; goal g: a = b and n < k and m != l;
a value before a variable of its name | var x: {x, y}; var y: {x, y}; goal g: x = y;
two ways down | goal g: true; goal h: true; goal i: true; goal j: true; refine g by h, i; refine h by j; refine i by j;
two refinements of a goal | goal g: true; goal h: true; refine g by h; refine g by h;
a variable in two states | var a: bool; trace t: {a = true} loop {a = true} {a = false};
# There are at most 64 variables, and at most 64 values of a range.
64 variables | [64 var x#: bool;]
64 numbers | var n: -1..62;
64 names | var m: { [63 x#, ]x63 };
# A demand has at most 4,096 distinct subformulas: here 4,093 by the subgoal, and 3 by the negated parent.
4096 formulas | [7 var x#: bool;] goal g: always x6; goal h: [4 always within 100 ]x0 and [4 always within 100 ]x1 and [4 always within 100 ]x2 and [4 always within 100 ]x3 and [4 always within 100 ]x4 and always within 41 x5; refine g by h;
one of them a domain property too | [7 var x#: bool;] domain d: always within 41 x5; goal g: always x6; goal h: [4 always within 100 ]x0 and [4 always within 100 ]x1 and [4 always within 100 ]x2 and [4 always within 100 ]x3 and [4 always within 100 ]x4 and always within 41 x5; refine g by h;
a large goal that is not refined | [7 var x#: bool;] goal h: next ([4 always within 100 ]x0 and [4 always within 100 ]x1 and [4 always within 100 ]x2 and [4 always within 100 ]x3 and [4 always within 100 ]x4 and always within 41 x5);
401 formulas of 30601 nodes | var p: bool; goal g: always p; goal h: eventually within 100 eventually within 100 p; refine g by h;
60 iffs in each other | var p: bool; goal g: p; goal h: [60 p iff (]p[60 )]; refine g by h;
one bound 21 times | var a: bool; goal g: a; goal h: [20 always within 100 a and ]always within 100 a; refine g by h;
# Each core has at most 1,000 levels, and one of 1,001 is in no demand.
1000 levels | var p: bool; goal g: p; goal h: next [4 always within 100 ]always within 99 p; refine g by h;
1001 levels of an obstacle alone | var p: bool; obstacle o: [5 always within 100 ]p;
1001 levels of a goal that is expected and assigned | var p: bool; agent A; goal g: [5 always within 100 ]p; expect g of A; assign g to A;";

#[test]
fn statements_make_a_model(rt: HostRuntime) -> Result<(), Fail> {
    are_made(&rt, rt.alloc(), "kaos 1; ", STATEMENTS)
}

const ENTITIES: &str = "\
each form | entity T: {a, b}; attr f of T: bool; attr n of T: {low, high}; agent A monitors f controls n, f_a; goal g: all x: T (some y: T (f(x) iff n(y) = low)); goal h: n(a) = n(b) and n(a) in {low} and f(b); obstacle o: f_a; refine g by h; obstruct g by o; assign h to A;
names of members and values | entity a: {a, b}; entity b: {a, b}; attr x of a: {a, b}; var y: {a, b}; goal g: x(a) = a and y = a;
names of version 1 | var entity_: bool; var all_: bool; goal g: all_ and entity_;
a statement named as its bound name | entity T: {a, b}; attr f of T: bool; goal x: all x: T (f(x));
a bound name that is a member of another type | entity T: {a, b}; entity U: {c, d}; attr f of T: bool; goal g: all c: T (f(c));
64 variables | entity T: {[7 m#, ]m7}; [8 attr f# of T: bool;]
a name of 40 bytes | entity T: {a, b}; attr [38 f] of T: bool;
4096 nodes | entity T: {[7 m#, ]m7}; attr f of T: bool; domain D: not all x: T (all y: T (all z: T (f(x) and f(y) and f(z) and f(m0))));";

#[test]
fn entities_make_a_model(rt: HostRuntime) -> Result<(), Fail> {
    are_made(&rt, rt.alloc(), "kaos 2; ", ENTITIES)
}
