//! The truth of goals on the traces of a text, by hand from the definition of truth.

use crate::runs::all_answer;
use std::test::Fail;

const TRUTHS: &str = "
== no trace
kaos 1; var p: bool; goal G: eventually p;
-> 0
kaos trace 1

== no goal
kaos 1; var p: bool; trace T: loop {p = true};
-> 0
kaos trace 1

== an until that wraps round
kaos 1; var p: bool; var q: bool; goal G: always (p until q); trace W: loop {q = true} {p = true};
-> 0
kaos trace 1
trace W G: true

== two bounds
kaos 1; var q: bool; goal E1: eventually within 1 q; goal E2: eventually within 2 q; trace B: {} {} loop {q = true};
-> 1
kaos trace 1
trace B E1: false
trace B E2: true

== two traces
kaos 1; var p: bool; goal G1: eventually p; goal G2: always eventually p;
trace T: {p = true} loop {p = false}; trace U: loop {p = true} {p = false};
-> 1
kaos trace 1
trace T G1: true
trace T G2: false
trace U G1: true
trace U G2: true

== values of each kind
kaos 1; var n: -1..2; var m: {up, down}; goal G: always (n = 2 and m = down); goal H: always n < 0;
trace T: loop {m = down, n = 2};
-> 1
kaos trace 1
trace T G: true
trace T H: false

== a variable behind the trace
kaos 1; var p: bool; trace T: loop {p = true}; var q: bool; goal G: always (p and not q);
-> 0
kaos trace 1
trace T G: true

== a value wins over a variable of its name
kaos 1; var y: { x, y }; var z: { x, y }; goal g: z = y;
trace xx: loop {}; trace xy: loop {z = y}; trace yx: loop {y = y}; trace yy: loop {y = y, z = y};
-> 1
kaos trace 1
trace xx g: false
trace xy g: true
trace yx g: false
trace yy g: true

== a variable where no value has the name
kaos 1; var w: { x, y }; var z: { x, y }; goal g: z <= w;
trace xx: loop {}; trace xy: loop {z = y}; trace yx: loop {w = y}; trace yy: loop {w = y, z = y};
-> 1
kaos trace 1
trace xx g: true
trace xy g: false
trace yx g: true
trace yy g: true

== some values, one of them twice
kaos 1; var n: 2..5; goal g: n in { 5, 2, 5 };
trace two: loop {n = 2}; trace three: loop {n = 3}; trace four: loop {n = 4}; trace five: loop {n = 5};
-> 1
kaos trace 1
trace two g: true
trace three g: false
trace four g: false
trace five g: true

== the second of two variables
kaos 1; var a: bool; var b: bool; goal g: b;
trace none: loop {}; trace first: loop {a = true}; trace second: loop {b = true}; trace both: loop {a = true, b = true};
-> 1
kaos trace 1
trace none g: false
trace first g: false
trace second g: true
trace both g: true

== all members, some member, and two that are alike
kaos 2; entity T: {a, b}; attr f of T: bool; goal All: always all x: T (f(x)); goal One: always some x: T (f(x));
goal Same: always f(a) = f(b);
trace none: loop {}; trace first: loop {f_a = true}; trace both: loop {f_a = true, f_b = true};
-> 1
kaos trace 1
trace none All: false
trace none One: false
trace none Same: true
trace first All: false
trace first One: true
trace first Same: false
trace both All: true
trace both One: true
trace both Same: true
";

#[test]
fn truths_on_traces(rt: HostRuntime) -> Result<(), Fail> {
    all_answer(&rt, rt.alloc(), "[trace]", TRUTHS)
}
