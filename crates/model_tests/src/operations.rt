//! Reports on operationalisations and assignments. What holds is worked out by hand: whether the goal is true on each trace on which the
//! operations are applied as the requirements ask, and which variables an agent monitors and controls.

use crate::runs::{LINES, all_answer};
use std::test::Fail;

const DOORS: &str = "
== doors of a train
kaos 1; var moving: bool; var door: {closed, open}; domain Init: not moving; goal Safe: always (moving implies door = closed); agent Control controls moving, door; operation Start by Control dompre not moving dompost moving; operation Open by Control dompre door = closed dompost door = open; require RStart on Start post door = closed; require ROpen on Open pre not moving; operationalise Safe by RStart, ROpen exact;
-> 1
kaos report 1 budget 20000
domain consistent: holds
  Init
operationalise 11 Safe complete: holds
operationalise 11 Safe consistent: holds
  Init, Safe
operationalise 11 Safe exact RStart: holds
operationalise 11 Safe exact ROpen: fails
  Init, Safe
total: 4 hold, 1 fail, 0 withheld

== a requirement too few
kaos 1; var moving: bool; var door: {closed, open}; domain Init: not moving; goal Safe: always (moving implies door = closed); agent Control controls moving, door; operation Start by Control dompre not moving dompost moving; require RStart on Start post door = closed; operationalise Safe by RStart;
-> 1
kaos report 1 budget 20000
domain consistent: holds
  Init
operationalise 9 Safe complete: fails
  Init, not Safe
operationalise 9 Safe consistent: holds
  Init
total: 2 hold, 1 fail, 0 withheld
";

#[test]
fn doors(rt: HostRuntime) -> Result<(), Fail> {
    all_answer(&rt, rt.alloc(), "[check]", DOORS)
}

const ROLES: &str = "
== before
kaos 1; var a: bool; var b: bool; agent A; operation S by A dompre not a dompost a; require R on S pre b; goal G: (not a and next a) entails b; operationalise G by R exact;
-> 0
kaos report 1 budget 20000
domain consistent: holds
operationalise 8 G complete: holds
operationalise 8 G consistent: holds
operationalise 8 G exact R: holds
total: 4 hold, 0 fail, 0 withheld

== a trigger
kaos 1; var a: bool; var b: bool; agent A; operation S by A dompre not a dompost a; require R on S trig b; goal G: (b and not a) entails next a; operationalise G by R exact;
-> 0
kaos report 1 budget 20000
domain consistent: holds
operationalise 8 G complete: holds
operationalise 8 G consistent: holds
operationalise 8 G exact R: holds
total: 4 hold, 0 fail, 0 withheld

== behind
kaos 1; var a: bool; var b: bool; agent A; operation S by A dompre not a dompost a; require R on S post b; goal G: (not a and next a) entails next b; operationalise G by R exact;
-> 0
kaos report 1 budget 20000
domain consistent: holds
operationalise 8 G complete: holds
operationalise 8 G consistent: holds
operationalise 8 G exact R: holds
total: 4 hold, 0 fail, 0 withheld

== before in place of behind
kaos 1; var a: bool; var b: bool; agent A; operation S by A dompre not a dompost a; require R on S pre b; goal G: (not a and next a) entails next b; operationalise G by R exact;
-> 1
kaos report 1 budget 20000
domain consistent: holds
operationalise 8 G complete: fails
operationalise 8 G consistent: holds
operationalise 8 G exact R: fails
total: 2 hold, 2 fail, 0 withheld

== behind in place of before
kaos 1; var a: bool; var b: bool; agent A; operation S by A dompre not a dompost a; require R on S post b; goal G: (not a and next a) entails b; operationalise G by R exact;
-> 1
kaos report 1 budget 20000
domain consistent: holds
operationalise 8 G complete: fails
operationalise 8 G consistent: holds
operationalise 8 G exact R: fails
total: 2 hold, 2 fail, 0 withheld

== a trigger where the operation may not be applied
kaos 1; var a: bool; var b: bool; agent A; operation S by A dompre not a dompost a; require R on S trig b; goal G: b entails next a; operationalise G by R exact;
-> 1
kaos report 1 budget 20000
domain consistent: holds
operationalise 8 G complete: fails
operationalise 8 G consistent: holds
operationalise 8 G exact R: holds
total: 3 hold, 1 fail, 0 withheld

== a trigger that is always there
kaos 1; var a: bool; var b: bool; agent A; operation S by A dompre not a dompost a; require R on S trig true; goal G: not a entails next a; operationalise G by R exact;
-> 0
kaos report 1 budget 20000
domain consistent: holds
operationalise 8 G complete: holds
operationalise 8 G consistent: holds
operationalise 8 G exact R: holds
total: 4 hold, 0 fail, 0 withheld

== applied at the last position of a loop
kaos 1; var a: bool; var b: bool; agent A; operation S by A dompre not a dompost a; require R on S post b; goal G: (not a and next a) entails next b; domain D: always (a iff next not a); operationalise G by R exact;
-> 0
kaos report 1 budget 20000
domain consistent: holds
operationalise 9 G complete: holds
operationalise 9 G consistent: holds
operationalise 9 G exact R: holds
total: 4 hold, 0 fail, 0 withheld

== applied at every second position
kaos 1; var a: bool; var b: bool; agent A; operation S by A dompre not a dompost a; require R on S post b; goal G: (always (a iff next not a) and not a) implies always (a implies b); operationalise G by R exact;
-> 1
kaos report 1 budget 20000
domain consistent: holds
operationalise 8 G complete: holds
operationalise 8 G consistent: holds
operationalise 8 G exact R: fails
total: 3 hold, 1 fail, 0 withheld

== never applied
kaos 1; var a: bool; var b: bool; agent A; operation S by A dompre not a dompost a; require R on S pre false; goal G: not a implies always not a; operationalise G by R exact;
-> 1
kaos report 1 budget 20000
domain consistent: holds
operationalise 8 G complete: holds
operationalise 8 G consistent: holds
operationalise 8 G exact R: fails
total: 3 hold, 1 fail, 0 withheld

== no trace of the operation
kaos 1; var a: bool; var b: bool; agent A; operation S by A dompre not a dompost a; require R on S pre false; goal G: a; domain D: not a and eventually a; operationalise G by R exact;
-> 1
kaos report 1 budget 20000
domain consistent: holds
operationalise 9 G complete: holds
operationalise 9 G consistent: fails
operationalise 9 G exact R: holds
total: 3 hold, 1 fail, 0 withheld
";

#[test]
fn roles(rt: HostRuntime) -> Result<(), Fail> {
    all_answer(&rt, rt.alloc(), LINES, ROLES)
}

// Of `A entails C` each variable of A is to be monitored or controlled, and each of C controlled. Of any other goal each is to be
// monitored or controlled, and one of them controlled.
const ASSIGNMENTS: &str = "
== the first of two that are not monitored
kaos 1; var x: bool; var y: bool; var z: bool; var w: bool; agent Ctl monitors x controls y; goal G: (x and z and w) entails y; assign G to Ctl;
-> 1
kaos report 1 budget 20000
domain consistent: holds
assign 8 G Ctl covered: fails, z not monitored
total: 1 hold, 1 fail, 0 withheld

== an effect that is not controlled
kaos 1; var x: bool; var y: bool; var z: bool; var w: bool; agent Ctl monitors x, z, w; goal G: (x and z and w) entails y; assign G to Ctl;
-> 1
kaos report 1 budget 20000
domain consistent: holds
assign 8 G Ctl covered: fails, y not controlled
total: 1 hold, 1 fail, 0 withheld

== a cause that is monitored and an effect that is controlled
kaos 1; var x: bool; var y: bool; agent A monitors x controls y; goal G: x entails y; assign G to A;
-> 0
kaos report 1 budget 20000
domain consistent: holds
assign 6 G A covered: holds
total: 2 hold, 0 fail, 0 withheld

== a cause that is controlled
kaos 1; var x: bool; var y: bool; agent A controls x, y; goal G: x entails y; assign G to A;
-> 0
kaos report 1 budget 20000
domain consistent: holds
assign 6 G A covered: holds
total: 2 hold, 0 fail, 0 withheld

== an effect that is monitored
kaos 1; var x: bool; var y: bool; agent A monitors x, y; goal G: x entails y; assign G to A;
-> 1
kaos report 1 budget 20000
domain consistent: holds
assign 6 G A covered: fails, y not controlled
total: 1 hold, 1 fail, 0 withheld

== the second of two effects
kaos 1; var x: bool; var y: bool; agent A monitors x controls y; goal G: x entails (y and x); assign G to A;
-> 1
kaos report 1 budget 20000
domain consistent: holds
assign 6 G A covered: fails, x not controlled
total: 1 hold, 1 fail, 0 withheld

== the order of the text
kaos 1; var x: bool; var y: bool; var z: bool; agent A controls y; goal G: (z and x) entails y; assign G to A;
-> 1
kaos report 1 budget 20000
domain consistent: holds
assign 7 G A covered: fails, z not monitored
total: 1 hold, 1 fail, 0 withheld

== a cause before an effect
kaos 1; var x: bool; var y: bool; agent A; goal G: x entails y; assign G to A;
-> 1
kaos report 1 budget 20000
domain consistent: holds
assign 6 G A covered: fails, x not monitored
total: 1 hold, 1 fail, 0 withheld

== a goal of another shape
kaos 1; var x: bool; var y: bool; agent A monitors x controls y; goal G: always (x or y); assign G to A;
-> 0
kaos report 1 budget 20000
domain consistent: holds
assign 6 G A covered: holds
total: 2 hold, 0 fail, 0 withheld

== another shape of which nothing is controlled
kaos 1; var x: bool; var y: bool; agent A monitors x, y; goal G: always (x or y); assign G to A;
-> 1
kaos report 1 budget 20000
domain consistent: holds
assign 6 G A covered: fails, x not controlled
total: 1 hold, 1 fail, 0 withheld

== another shape of which one is not monitored
kaos 1; var x: bool; var y: bool; agent A controls x; goal G: always (x or y); assign G to A;
-> 1
kaos report 1 budget 20000
domain consistent: holds
assign 6 G A covered: fails, y not monitored
total: 1 hold, 1 fail, 0 withheld

== an entailment below a negation
kaos 1; var x: bool; var y: bool; agent A monitors x controls y; goal G: not (y entails x); assign G to A;
-> 0
kaos report 1 budget 20000
domain consistent: holds
assign 6 G A covered: holds
total: 2 hold, 0 fail, 0 withheld

== an implication
kaos 1; var x: bool; var y: bool; agent A monitors y controls x; goal G: x implies y; assign G to A;
-> 0
kaos report 1 budget 20000
domain consistent: holds
assign 6 G A covered: holds
total: 2 hold, 0 fail, 0 withheld

== a goal without variables
kaos 1; var x: bool; agent A; goal G: always true; assign G to A;
-> 0
kaos report 1 budget 20000
domain consistent: holds
assign 5 G A covered: holds
total: 2 hold, 0 fail, 0 withheld

== an agent without variables
kaos 1; var x: bool; agent A; goal G: always x; assign G to A;
-> 1
kaos report 1 budget 20000
domain consistent: holds
assign 5 G A covered: fails, x not monitored
total: 1 hold, 1 fail, 0 withheld

== two variables that are compared
kaos 1; var n: 0..3; var m: 0..3; agent A controls n; goal G: always n = m; assign G to A;
-> 1
kaos report 1 budget 20000
domain consistent: holds
assign 6 G A covered: fails, m not monitored
total: 1 hold, 1 fail, 0 withheld

== an attribute
kaos 2; entity T: {a, b}; attr f of T: bool; agent A monitors f; goal G: f(a) entails f(b); assign G to A;
-> 1
kaos report 1 budget 20000
domain consistent: holds
assign 6 G A covered: fails, f_b not controlled
total: 1 hold, 1 fail, 0 withheld

== a quantifier
kaos 2; entity T: {a, b}; attr f of T: bool; attr g of T: bool; agent A monitors f controls g; goal G: (all x: T (f(x))) entails (all x: T (g(x))); assign G to A;
-> 0
kaos report 1 budget 20000
domain consistent: holds
assign 7 G A covered: holds
total: 2 hold, 0 fail, 0 withheld

== links of each kind between two assignments
kaos 1; var a: bool; var b: bool; agent A controls a; agent B monitors a controls b; domain Init: not a; goal G: (not a and next a) entails next b; goal H: always b; assign G to A; operation S by A dompre not a dompost a; require R on S post b; operationalise G by R; refine G by H; assign H to B;
-> 1
kaos report 1 budget 20000
domain consistent: holds
assign 9 G A covered: fails, b not controlled
operationalise 12 G complete: holds
operationalise 12 G consistent: holds
refine 13 G complete: holds
refine 13 G consistent: holds
refine 13 G minimal without H: holds
assign 14 H B covered: holds
total: 7 hold, 1 fail, 0 withheld
";

#[test]
fn assignments(rt: HostRuntime) -> Result<(), Fail> {
    all_answer(&rt, rt.alloc(), LINES, ASSIGNMENTS)
}
