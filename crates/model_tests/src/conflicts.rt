//! Reports on conflicts. What holds is worked out by hand: whether the condition excludes all goals together, whether it leaves room for all
//! but one, and whether it can come about.

use crate::runs::{LINES, all_answer};
use std::test::Fail;

const CONFLICTS: &str = "
== two conditions of which one says too little
kaos 1; var a: bool; var b: bool; var c: bool; goal G1: a entails next b; goal G2: c entails next not b;
conflict K1: G1, G2 boundary eventually (a and c); conflict K2: G1, G2 boundary eventually a;
-> 1
kaos report 1 budget 20000
domain consistent: holds
conflict 7 K1 diverges: holds
conflict 7 K1 without G1: holds
conflict 7 K1 without G2: holds
conflict 7 K1 feasible: holds
conflict 8 K2 diverges: fails
conflict 8 K2 without G1: holds
conflict 8 K2 without G2: holds
conflict 8 K2 feasible: holds
total: 8 hold, 1 fail, 0 withheld

== a condition that a property excludes
kaos 1; var a: bool; var b: bool; domain D: always not a; goal G: always b; goal H: eventually b; conflict K: G, H boundary eventually a;
-> 1
kaos report 1 budget 20000
domain consistent: holds
conflict 7 K diverges: holds
conflict 7 K without G: fails
conflict 7 K without H: fails
conflict 7 K feasible: fails
total: 2 hold, 3 fail, 0 withheld

== goals that exclude each other under any condition
kaos 1; var b: bool; goal G: always b; goal H: always not b; conflict K: G, H boundary true;
-> 0
kaos report 1 budget 20000
domain consistent: holds
conflict 5 K diverges: holds
conflict 5 K without G: holds
conflict 5 K without H: holds
conflict 5 K feasible: holds
total: 5 hold, 0 fail, 0 withheld

== three goals of which two exclude each other
kaos 1; var b: bool; var c: bool; goal G: always b; goal H: always not b; goal I: always c; conflict K: G, H, I boundary true;
-> 1
kaos report 1 budget 20000
domain consistent: holds
conflict 7 K diverges: holds
conflict 7 K without G: holds
conflict 7 K without H: holds
conflict 7 K without I: fails
conflict 7 K feasible: holds
total: 5 hold, 1 fail, 0 withheld

== a condition that breaks one goal alone
kaos 1; var a: bool; var b: bool; goal G: always not a; goal H: always b; conflict K: G, H boundary eventually a;
-> 1
kaos report 1 budget 20000
domain consistent: holds
conflict 6 K diverges: holds
conflict 6 K without G: holds
conflict 6 K without H: fails
conflict 6 K feasible: holds
total: 4 hold, 1 fail, 0 withheld

== two conflicts of the same goals, behind a refinement
kaos 1; var a: bool; goal G: always a; goal H: eventually not a; refine G by H; conflict K: H, G boundary true; conflict L: G, H boundary a;
-> 1
kaos report 1 budget 20000
domain consistent: holds
refine 5 G complete: fails
refine 5 G consistent: holds
refine 5 G minimal without H: holds
conflict 6 K diverges: holds
conflict 6 K without H: holds
conflict 6 K without G: holds
conflict 6 K feasible: holds
conflict 7 L diverges: holds
conflict 7 L without G: holds
conflict 7 L without H: holds
conflict 7 L feasible: holds
total: 11 hold, 1 fail, 0 withheld
";

#[test]
fn conflicts(rt: HostRuntime) -> Result<(), Fail> {
    all_answer(&rt, rt.alloc(), LINES, CONFLICTS)
}

const SHOWN: &str = "
== traces of all but one goal
kaos 1; var a: bool; var b: bool; var c: bool; goal G1: a entails next b; goal G2: c entails next not b; conflict K: G1, G2 boundary eventually (a and c);
-> 0
kaos report 1 budget 20000
domain consistent: holds
  any trace
conflict 7 K diverges: holds
conflict 7 K without G1: holds
  G2, not G1
conflict 7 K without G2: holds
  G1, not G2
conflict 7 K feasible: holds
  any trace
total: 5 hold, 0 fail, 0 withheld

== a trace of all goals
kaos 1; var a: bool; var b: bool; goal G: always (a implies b); goal H: always (b implies a); conflict K: G, H boundary eventually a;
-> 1
kaos report 1 budget 20000
domain consistent: holds
  any trace
conflict 6 K diverges: fails
  G, H
conflict 6 K without G: holds
  H
conflict 6 K without H: holds
  G
conflict 6 K feasible: holds
  any trace
total: 4 hold, 1 fail, 0 withheld
";

#[test]
fn shown_traces(rt: HostRuntime) -> Result<(), Fail> {
    all_answer(&rt, rt.alloc(), "[check]", SHOWN)
}

// Nothing is asked of a trace where there is no property, and one node stands for that.
const WITHHELD: &str = "
== a budget of one node
kaos 1; var a: bool; goal G: always a; goal H: always not a; conflict K: G, H boundary true;
-> 6
kaos report 1 budget 1
domain consistent: holds
conflict 5 K diverges: withheld at 1
conflict 5 K without G: withheld at 1
conflict 5 K without H: withheld at 1
conflict 5 K feasible: withheld at 1
total: 1 hold, 0 fail, 4 withheld
";

#[test]
fn budgets(rt: HostRuntime) -> Result<(), Fail> {
    all_answer(
        &rt,
        rt.alloc(),
        "[check] [--form=lines] [--budget=1]",
        WITHHELD,
    )
}
