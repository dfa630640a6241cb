//! Reports on obstructions. What holds is worked out by hand: whether the goal is false on each trace of the obstacle, whether the
//! obstacle has a trace, and whether the goal is true on each trace without any of the obstacles.

use crate::runs::{LINES, all_answer};
use std::test::Fail;

const OBSTRUCTIONS: &str = "
== the goal's own negation
kaos 1; var r: bool; var d: bool; goal G: r entails eventually d; obstacle O: eventually (r and always not d); obstruct G by O;
-> 0
kaos report 1 budget 20000
domain consistent: holds
obstruct 6 G O obstructs: holds
obstruct 6 G O possible: holds
obstruct 6 G covered: holds
total: 4 hold, 0 fail, 0 withheld

== an obstacle that is never true
kaos 1; var r: bool; var d: bool; goal G: r entails eventually d; obstacle O: r and not r; obstruct G by O;
-> 1
kaos report 1 budget 20000
domain consistent: holds
obstruct 6 G O obstructs: holds
obstruct 6 G O possible: fails
obstruct 6 G covered: fails
total: 2 hold, 2 fail, 0 withheld

== an obstacle that a property excludes
kaos 1; var r: bool; var d: bool; domain D: always d; goal G: r entails eventually d; obstacle O: eventually (r and always not d); obstruct G by O;
-> 1
kaos report 1 budget 20000
domain consistent: holds
obstruct 7 G O obstructs: holds
obstruct 7 G O possible: fails
obstruct 7 G covered: holds
total: 3 hold, 1 fail, 0 withheld

== an obstacle beside the goal
kaos 1; var a: bool; var b: bool; goal G: always a; obstacle O: eventually b; obstruct G by O;
-> 1
kaos report 1 budget 20000
domain consistent: holds
obstruct 6 G O obstructs: fails
obstruct 6 G O possible: holds
obstruct 6 G covered: fails
total: 2 hold, 2 fail, 0 withheld

== two obstacles, the second declared one first
kaos 1; var a: bool; var b: bool; goal G: always (a and b); obstacle O: eventually not a; obstacle P: eventually not b; obstruct G by P, O;
-> 0
kaos report 1 budget 20000
domain consistent: holds
obstruct 7 G P obstructs: holds
obstruct 7 G P possible: holds
obstruct 7 G O obstructs: holds
obstruct 7 G O possible: holds
obstruct 7 G covered: holds
total: 6 hold, 0 fail, 0 withheld

== one obstacle of two
kaos 1; var a: bool; var b: bool; goal G: always (a and b); obstacle O: eventually not a; obstruct G by O;
-> 1
kaos report 1 budget 20000
domain consistent: holds
obstruct 6 G O obstructs: holds
obstruct 6 G O possible: holds
obstruct 6 G covered: fails
total: 3 hold, 1 fail, 0 withheld

== a property excludes the other obstacle
kaos 1; var a: bool; var b: bool; domain D: always (a implies b); goal G: always (a and b); obstacle O: eventually not a; obstruct G by O;
-> 0
kaos report 1 budget 20000
domain consistent: holds
obstruct 7 G O obstructs: holds
obstruct 7 G O possible: holds
obstruct 7 G covered: holds
total: 4 hold, 0 fail, 0 withheld

== a property brings the obstacle to the goal
kaos 1; var a: bool; var b: bool; domain D: always (b implies not a); goal G: always a; obstacle O: eventually b; obstruct G by O;
-> 1
kaos report 1 budget 20000
domain consistent: holds
obstruct 7 G O obstructs: holds
obstruct 7 G O possible: holds
obstruct 7 G covered: fails
total: 3 hold, 1 fail, 0 withheld

== properties without a trace
kaos 1; var a: bool; domain D: always a; domain E: not a; goal G: always a; obstacle O: eventually not a; obstruct G by O;
-> 1
kaos report 1 budget 20000
domain consistent: fails
obstruct 7 G O obstructs: holds
obstruct 7 G O possible: fails
obstruct 7 G covered: holds
total: 2 hold, 2 fail, 0 withheld

== between refinements, one obstacle of two goals
kaos 1; var a: bool; var b: bool; goal G: always (a and b); goal H: always a; goal I: always b; obstacle O: eventually not a; refine G by H, I; obstruct H by O; obstruct G by O;
-> 1
kaos report 1 budget 20000
domain consistent: holds
refine 8 G complete: holds
refine 8 G consistent: holds
refine 8 G minimal without H: holds
refine 8 G minimal without I: holds
obstruct 9 H O obstructs: holds
obstruct 9 H O possible: holds
obstruct 9 H covered: holds
obstruct 10 G O obstructs: holds
obstruct 10 G O possible: holds
obstruct 10 G covered: fails
total: 10 hold, 1 fail, 0 withheld
";

#[test]
fn obstructions(rt: HostRuntime) -> Result<(), Fail> {
    all_answer(&rt, rt.alloc(), LINES, OBSTRUCTIONS)
}
