//! Reports, with all evidence where the traces are looked at, and else without any. Which demands hold is worked out by hand: whether
//! the subgoals have a trace, whether the parent follows from them, and whether it follows without each.

use crate::runs::{LINES, all_answer, answers, gives};
use crate::texts::{bytes_of, cut};
use std::alloc::Global;
use std::process::Abort;
use std::test::Fail;

const REFINEMENTS: &str = "
== a subgoal on another variable
kaos 1; var a: bool; var b: bool; goal P: always a; goal Q: always b; refine P by Q;
-> 1
kaos report 1 budget 20000
domain consistent: holds
refine 6 P complete: fails
refine 6 P consistent: holds
refine 6 P minimal without Q: holds
total: 3 hold, 1 fail, 0 withheld

== a subgoal on the same variable
kaos 1; var a: bool; var b: bool; goal P: always a; goal Q: always a; refine P by Q;
-> 0
kaos report 1 budget 20000
domain consistent: holds
refine 6 P complete: holds
refine 6 P consistent: holds
refine 6 P minimal without Q: holds
total: 4 hold, 0 fail, 0 withheld

== blanks and comments
kaos\t1\r\n;var a#b: bool;\n:bool;\t#\n\ngoal P:always(a);goal\rQ\r:\ralways((a));refine P by#;\nQ;#
-> 0
kaos report 1 budget 20000
domain consistent: holds
refine 5 P complete: holds
refine 5 P consistent: holds
refine 5 P minimal without Q: holds
total: 4 hold, 0 fail, 0 withheld

== a second subgoal that the first has
kaos 1; var a: bool; var b: bool; goal P: always a; goal Q1: always (a and b); goal Q2: always b; refine P by Q1, Q2;
-> 1
kaos report 1 budget 20000
domain consistent: holds
refine 7 P complete: holds
refine 7 P consistent: holds
refine 7 P minimal without Q1: holds
refine 7 P minimal without Q2: fails
total: 4 hold, 1 fail, 0 withheld

== subgoals that exclude each other
kaos 1; var a: bool; var b: bool; goal P: always a; goal Q: always b; goal R: eventually not b; refine P by Q, R;
-> 1
kaos report 1 budget 20000
domain consistent: holds
refine 7 P complete: holds
refine 7 P consistent: fails
refine 7 P minimal without Q: holds
refine 7 P minimal without R: holds
total: 4 hold, 1 fail, 0 withheld

== a property rescues
kaos 1; var a: bool; var b: bool; domain D: always (b implies a); goal P: always a; goal Q: always b;
refine P by Q;
-> 0
kaos report 1 budget 20000
domain consistent: holds
refine 7 P complete: holds
refine 7 P consistent: holds
refine 7 P minimal without Q: holds
total: 4 hold, 0 fail, 0 withheld

== a property brings the parent
kaos 1; var a: bool; var b: bool; domain D: always a; goal P: always a; goal Q: always b; refine P by Q;
-> 1
kaos report 1 budget 20000
domain consistent: holds
refine 7 P complete: holds
refine 7 P consistent: holds
refine 7 P minimal without Q: fails
total: 3 hold, 1 fail, 0 withheld

== a property excludes the subgoal
kaos 1; var a: bool; var b: bool; domain D: always not b; goal P: always a; goal Q: eventually b; refine P by Q;
-> 1
kaos report 1 budget 20000
domain consistent: holds
refine 7 P complete: holds
refine 7 P consistent: fails
refine 7 P minimal without Q: holds
total: 3 hold, 1 fail, 0 withheld

== two properties rescue, one of them stated last
kaos 1; var a: bool; var b: bool; var c: bool; domain D: always (b implies c); goal P: always a; goal Q: always b;
refine P by Q; domain E: always (c implies a);
-> 0
kaos report 1 budget 20000
domain consistent: holds
refine 8 P complete: holds
refine 8 P consistent: holds
refine 8 P minimal without Q: holds
total: 4 hold, 0 fail, 0 withheld

== several parents and subgoals
kaos 1; var a: bool; var b: bool; goal P: always (a and b); goal Q: always a; goal R: always b;
refine P by R, Q; refine Q by R; refine P by Q;
-> 1
kaos report 1 budget 20000
domain consistent: holds
refine 7 P complete: holds
refine 7 P consistent: holds
refine 7 P minimal without R: holds
refine 7 P minimal without Q: holds
refine 8 Q complete: fails
refine 8 Q consistent: holds
refine 8 Q minimal without R: holds
refine 9 P complete: fails
refine 9 P consistent: holds
refine 9 P minimal without Q: holds
total: 9 hold, 2 fail, 0 withheld

== a goal below two others
kaos 1; var a: bool; goal P: always a; goal Q: always a; goal R: always a; goal S: always a;
refine P by Q, R; refine Q by S; refine R by S; refine P by S;
-> 1
kaos report 1 budget 20000
domain consistent: holds
refine 7 P complete: holds
refine 7 P consistent: holds
refine 7 P minimal without Q: fails
refine 7 P minimal without R: fails
refine 8 Q complete: holds
refine 8 Q consistent: holds
refine 8 Q minimal without S: holds
refine 9 R complete: holds
refine 9 R consistent: holds
refine 9 R minimal without S: holds
refine 10 P complete: holds
refine 10 P consistent: holds
refine 10 P minimal without S: holds
total: 12 hold, 2 fail, 0 withheld

== a rule is a property
kaos 1; var a: bool; var b: bool; goal P: always b; goal Q: always a; refine P by Q; rule R: a entails b;
-> 0
kaos report 1 budget 20000
domain consistent: holds
refine 6 P complete: holds
refine 6 P consistent: holds
refine 6 P minimal without Q: holds
total: 4 hold, 0 fail, 0 withheld

== obstacles, agents, operations and requirements are in no demand
kaos 1; var a: bool; var b: bool; obstacle O: eventually not b; agent A monitors b controls a;
operation S by A dompre not a dompost a; require R on S trig b; goal P: b entails next a; goal Q: always a;
expect Q of A; refine P by Q;
-> 0
kaos report 1 budget 20000
domain consistent: holds
refine 11 P complete: holds
refine 11 P consistent: holds
refine 11 P minimal without Q: holds
total: 4 hold, 0 fail, 0 withheld

== a goal of all members, by a goal of each
kaos 2; entity Track: {t1, t2}; attr red of Track: bool; attr busy of Track: bool;
goal Safe: always (all x: Track (busy(x) implies red(x))); goal S1: busy_t1 entails red_t1; goal S2: busy_t2 entails red_t2;
refine Safe by S1, S2;
-> 0
kaos report 1 budget 20000
domain consistent: holds
refine 8 Safe complete: holds
refine 8 Safe consistent: holds
refine 8 Safe minimal without S1: holds
refine 8 Safe minimal without S2: holds
total: 5 hold, 0 fail, 0 withheld

== a goal of some member, by a goal of one
kaos 2; entity Track: {t1, t2}; attr red of Track: bool; goal Some: eventually some x: Track (red(x));
goal S2: eventually red(t2); refine Some by S2;
-> 0
kaos report 1 budget 20000
domain consistent: holds
refine 6 Some complete: holds
refine 6 Some consistent: holds
refine 6 Some minimal without S2: holds
total: 4 hold, 0 fail, 0 withheld
";

#[test]
fn refinements(rt: HostRuntime) -> Result<(), Fail> {
    all_answer(&rt, rt.alloc(), LINES, REFINEMENTS)
}

// With all evidence: the traces show what they are there for.
const SHOWN: &str = "
== every state with the subgoal has the parent
kaos 1; var a: bool; var b: bool; goal P: always (a or b); goal Q: always a; refine P by Q;
-> 0
kaos report 1 budget 20000
domain consistent: holds
  any trace
refine 6 P complete: holds
refine 6 P consistent: holds
  Q
refine 6 P minimal without Q: holds
  not P
total: 4 hold, 0 fail, 0 withheld

== some state with the subgoal has not the parent
kaos 1; var a: bool; var b: bool; goal P: always a; goal Q: always (a or b); refine P by Q;
-> 1
kaos report 1 budget 20000
domain consistent: holds
  any trace
refine 6 P complete: fails
  Q, not P
refine 6 P consistent: holds
  Q
refine 6 P minimal without Q: holds
  not P
total: 3 hold, 1 fail, 0 withheld

== one property is too little
kaos 1; var a: bool; var b: bool; var c: bool; domain D: always (b implies c); goal P: always a; goal Q: always b;
refine P by Q;
-> 1
kaos report 1 budget 20000
domain consistent: holds
  D
refine 8 P complete: fails
  D, Q, not P
refine 8 P consistent: holds
  D, Q
refine 8 P minimal without Q: holds
  D, not P
total: 3 hold, 1 fail, 0 withheld

== a variable behind the refinement
kaos 1; var b: bool; goal P: always b; goal Q: always true; refine P by Q; var a: bool;
-> 1
kaos report 1 budget 20000
domain consistent: holds
  any trace
refine 5 P complete: fails
  Q, not P
refine 5 P consistent: holds
  Q
refine 5 P minimal without Q: holds
  not P
total: 3 hold, 1 fail, 0 withheld

== no variable
kaos 1; goal P: always false; goal Q: always true; refine P by Q;
-> 1
kaos report 1 budget 20000
domain consistent: holds
  any trace
refine 4 P complete: fails
  Q, not P
refine 4 P consistent: holds
  Q
refine 4 P minimal without Q: holds
  not P
total: 3 hold, 1 fail, 0 withheld

== a goal of all members, by a goal of one
kaos 2; entity Track: {t1, t2}; attr red of Track: bool; attr busy of Track: bool;
goal Safe: always (all x: Track (busy(x) implies red(x))); goal S2: busy(t2) entails red(t2); refine Safe by S2;
-> 1
kaos report 1 budget 20000
domain consistent: holds
  any trace
refine 7 Safe complete: fails
  S2, not Safe
refine 7 Safe consistent: holds
  S2
refine 7 Safe minimal without S2: holds
  not Safe
total: 3 hold, 1 fail, 0 withheld
";

#[test]
fn shown_traces(rt: HostRuntime) -> Result<(), Fail> {
    all_answer(&rt, rt.alloc(), "[check]", SHOWN)
}

// With all evidence, by hand from the definition of truth.
const OPERATORS_OF_TIME: &str = "
== both steps to a milestone
kaos 1; var c: bool; var m: bool; var t: bool; goal G: c entails eventually t; goal S1: c entails eventually m;
goal S2: m entails eventually t; refine G by S1, S2;
-> 0
kaos report 1 budget 20000
domain consistent: holds
  any trace
refine 8 G complete: holds
refine 8 G consistent: holds
  S1, S2
refine 8 G minimal without S1: holds
  S2, not G
refine 8 G minimal without S2: holds
  S1, not G
total: 5 hold, 0 fail, 0 withheld

== the first step alone
kaos 1; var c: bool; var m: bool; var t: bool; goal G: c entails eventually t; goal S1: c entails eventually m;
goal S2: m entails eventually t; refine G by S1;
-> 1
kaos report 1 budget 20000
domain consistent: holds
  any trace
refine 8 G complete: fails
  S1, not G
refine 8 G consistent: holds
  S1
refine 8 G minimal without S1: holds
  not G
total: 3 hold, 1 fail, 0 withheld

== unless does not bring what until waits for
kaos 1; var p: bool; var q: bool; goal U: p until q; goal W: p unless q; refine U by W;
-> 1
kaos report 1 budget 20000
domain consistent: holds
  any trace
refine 6 U complete: fails
  W, not U
refine 6 U consistent: holds
  W
refine 6 U minimal without W: holds
  not U
total: 3 hold, 1 fail, 0 withheld

== the other values are excluded
kaos 1; var x: 1..3; goal T: always x = 3; goal A: always x != 1; goal B: always x != 2; refine T by A, B;
-> 0
kaos report 1 budget 20000
domain consistent: holds
  any trace
refine 6 T complete: holds
refine 6 T consistent: holds
  A, B
refine 6 T minimal without A: holds
  B, not T
refine 6 T minimal without B: holds
  A, not T
total: 5 hold, 0 fail, 0 withheld

== a bound is reached exactly
kaos 1; var a: bool; var b: bool; goal S: a entails next next b; goal G2: a entails eventually within 2 b;
goal G1: a entails eventually within 1 b; refine G2 by S; refine G1 by S; goal G0: always eventually within 0 b;
goal B: always b; refine G0 by B;
-> 1
kaos report 1 budget 20000
domain consistent: holds
  any trace
refine 7 G2 complete: holds
refine 7 G2 consistent: holds
  S
refine 7 G2 minimal without S: holds
  not G2
refine 8 G1 complete: fails
  S, not G1
refine 8 G1 consistent: holds
  S
refine 8 G1 minimal without S: holds
  not G1
refine 11 G0 complete: holds
refine 11 G0 consistent: holds
  B
refine 11 G0 minimal without B: holds
  not G0
total: 9 hold, 1 fail, 0 withheld

== two variables of 64 values
kaos 1; var x: 0..63; var y: 0..63; goal P: always x = y; goal Q: always y = x; refine P by Q;
-> 0
kaos report 1 budget 20000
domain consistent: holds
  any trace
refine 6 P complete: holds
refine 6 P consistent: holds
  Q
refine 6 P minimal without Q: holds
  not P
total: 4 hold, 0 fail, 0 withheld

== properties that no trace has
kaos 1; var a: bool; domain D1: always a; domain D2: eventually not a; goal P: always a; goal Q: eventually a;
refine P by Q;
-> 1
kaos report 1 budget 20000
domain consistent: fails
refine 7 P complete: holds
refine 7 P consistent: fails
refine 7 P minimal without Q: fails
total: 1 hold, 3 fail, 0 withheld
";

#[test]
fn operators_of_time(rt: HostRuntime) -> Result<(), Fail> {
    all_answer(&rt, rt.alloc(), "[check]", OPERATORS_OF_TIME)
}

// With all evidence: whether a trace has all domain properties.
const PROPERTIES: &str = "
== a state
kaos 1; var p: bool; domain D: p;
-> 0
kaos report 1 budget 20000
domain consistent: holds
  D
total: 1 hold, 0 fail, 0 withheld

== a state that comes again
kaos 1; var p: bool; domain D1: always next eventually p; domain D2: eventually p;
-> 0
kaos report 1 budget 20000
domain consistent: holds
  D1, D2
total: 1 hold, 0 fail, 0 withheld

== a state that comes and never comes
kaos 1; var p: bool; domain D1: eventually p; domain D2: always not p;
-> 1
kaos report 1 budget 20000
domain consistent: fails
total: 0 hold, 1 fail, 0 withheld

== two states that come again and again
kaos 1; var p: bool; domain D1: always eventually p; domain D2: always eventually not p;
-> 0
kaos report 1 budget 20000
domain consistent: holds
  D1, D2
total: 1 hold, 0 fail, 0 withheld

== two variables of 64 values that are alike
kaos 1; var x: 0..63; var y: 0..63; domain D: always x = y;
-> 0
kaos report 1 budget 20000
domain consistent: holds
  D
total: 1 hold, 0 fail, 0 withheld

== no state
kaos 1; domain D: false;
-> 1
kaos report 1 budget 20000
domain consistent: fails
total: 0 hold, 1 fail, 0 withheld

== a rule that nothing meets
kaos 1; var a: bool; rule R: true entails a and not a;
-> 1
kaos report 1 budget 20000
domain consistent: fails
total: 0 hold, 1 fail, 0 withheld
";

#[test]
fn properties(rt: HostRuntime) -> Result<(), Fail> {
    all_answer(&rt, rt.alloc(), "[check]", PROPERTIES)
}

// Each block has its words before its name. The tableau of `p` has three nodes: `p` is to be met, it is met, and nothing is to be met. That
// of no formula is its root alone, and so is that of a list that begins with `false`.
const BUDGETS: &str = "
== [check] [--budget] [3] [--form] [lines]
as many nodes as the budget
kaos 1; var p: bool; domain D: p;
-> 0
kaos report 1 budget 3
domain consistent: holds
total: 1 hold, 0 fail, 0 withheld

== [check] [--budget] [2] [--form] [lines]
one node more than the budget
kaos 1; var p: bool; domain D: p;
-> 6
kaos report 1 budget 2
domain consistent: withheld at 2
total: 0 hold, 0 fail, 1 withheld

== [check] [--budget] [2]
a withheld demand shows nothing
kaos 1; var p: bool; domain D: p;
-> 6
kaos report 1 budget 2
domain consistent: withheld at 2
total: 0 hold, 0 fail, 1 withheld

== [check] [--budget] [2] [--form] [lines]
one demand fails and one is withheld
kaos 1; var p: bool; goal P: p; goal Q: false; refine P by Q;
-> 1
kaos report 1 budget 2
domain consistent: holds
refine 5 P complete: holds
refine 5 P consistent: fails
refine 5 P minimal without Q: withheld at 2
total: 2 hold, 1 fail, 1 withheld
";

#[test]
fn budgets(rt: HostRuntime) -> Result<(), Fail> {
    for block in BUDGETS.split("\n== ").skip(1) {
        let (words, block) = cut(block, "\n")?;
        answers(&rt, rt.alloc(), words, block)?;
    }
    Ok(())
}

const BOUNDS: &str = "
== 100 parentheses
kaos 1; var a: bool; goal P: always [100 (]a[100 )]; goal Q: always a; refine P by Q;
-> 0
kaos report 1 budget 20000
domain consistent: holds
refine 5 P complete: holds
refine 5 P consistent: holds
refine 5 P minimal without Q: holds
total: 4 hold, 0 fail, 0 withheld

== 98 operators within always
kaos 1; var a: bool; goal P: always [97 not ]a; goal Q: always a; refine P by Q;
-> 1
kaos report 1 budget 20000
domain consistent: holds
refine 5 P complete: fails
refine 5 P consistent: holds
refine 5 P minimal without Q: holds
total: 3 hold, 1 fail, 0 withheld

== twelve variables
kaos 1;[12 var x#: bool;]goal P: always x11; goal Q: always x10; refine P by Q;
-> 1
kaos report 1 budget 20000
domain consistent: holds
refine 16 P complete: fails
refine 16 P consistent: holds
refine 16 P minimal without Q: holds
total: 3 hold, 1 fail, 0 withheld

== sixty-four variables
kaos 1;[64 var x#: bool;]goal P: always x11; goal Q: always x10; refine P by Q;
-> 1
kaos report 1 budget 20000
domain consistent: holds
refine 68 P complete: fails
refine 68 P consistent: holds
refine 68 P minimal without Q: holds
total: 3 hold, 1 fail, 0 withheld
";

#[test]
fn bounds(rt: HostRuntime) -> Result<(), Fail> {
    all_answer(&rt, rt.alloc(), LINES, BOUNDS)
}

// The checked build of "rt try" has too little stack for this text.
const DEEPEST: &str = "
== 500 operators and parentheses
kaos 1; var a: bool; goal P: always [499 (]a[499 )]; goal Q: always a; refine P by Q;
-> 0
kaos report 1 budget 20000
domain consistent: holds
refine 5 P complete: holds
refine 5 P consistent: holds
refine 5 P minimal without Q: holds
total: 4 hold, 0 fail, 0 withheld
";

#[test]
fn the_deepest_text(rt: HostRuntime) -> Result<(), Fail> {
    all_answer(&rt, rt.alloc(), LINES, DEEPEST)
}

// Texts of which nothing is asked but whether a trace has the domain properties, and there is one.
const NOTHING_ASKED: &str = "\
no statement | kaos 1;
no demand | kaos 1; var a: bool; goal P: always a; goal Q: always a;
no link | kaos 1; var a: bool; rule L: a entails a; obstacle O: a; agent A controls a; goal P: a; expect P of A; operation S by A dompre a dompost a; require R on S pre a;
an agent alone | kaos 1; agent A;
a zero before the version | kaos 01;
the second version | kaos 2;
names that are keywords of the second version | kaos 1; var all: bool; domain entity: all; goal some: all; goal attr: true;
odd bytes | kaos 1;#~~\0~
a name of 40 bytes | kaos 1; var [40 n]: bool;
a text of 1048576 bytes | kaos 1;[1048569  ]
a long comment | kaos 1;#[1048568 ~]";

const EMPTY: &str = "0
kaos report 1 budget 20000
domain consistent: holds
total: 1 hold, 0 fail, 0 withheld
";

fn is_empty(rt: &impl Abort, alloc: Global, name: &str, text: &str) -> Result<(), Fail> {
    let bytes = bytes_of(alloc, "", text)?;
    gives(rt, alloc, name, LINES, &bytes, EMPTY)
}

#[test]
fn nothing_asked(rt: HostRuntime) -> Result<(), Fail> {
    for row in NOTHING_ASKED.lines() {
        let (name, text) = cut(row, " | ")?;
        is_empty(&rt, rt.alloc(), name, text)?;
    }
    Ok(())
}
