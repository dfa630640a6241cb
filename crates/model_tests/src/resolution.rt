//! Statements that make no model, with the kind, the statement and the name of the refusal, by hand from the rules of names and values.
//! Statements are counted from 1, and `kaos 1;` is the first.

use crate::refusals::come_to;
use std::test::Fail;

// A name of each kind, in 14 statements.
const KINDS: &str =
    "kaos 1; var a: bool; var n: 0..3; var m: {low, high}; domain D: true; rule L: a entails a; \
    goal P: always a; goal Q: always a; obstacle O: a; agent A controls a; operation S by A dompre not a dompost a; \
    require R on S pre true; conflict C: P, Q boundary false; trace T: loop {}; ";

const NAMES: &str = "\
# A name is declared once, whatever it names.
a goal's, of a variable | var P: bool; | refused: statement 15: DuplicateName P
a variable's, of a property | domain a: true; | refused: statement 15: DuplicateName a
a property's, of a rule | rule D: a entails a; | refused: statement 15: DuplicateName D
a rule's, of a goal | goal L: true; | refused: statement 15: DuplicateName L
a goal's, of an obstacle | obstacle Q: true; | refused: statement 15: DuplicateName Q
an obstacle's, of an agent | agent O; | refused: statement 15: DuplicateName O
an agent's, of an operation | operation A by A dompre a dompost a; | refused: statement 15: DuplicateName A
an operation's, of a requirement | require S on S pre a; | refused: statement 15: DuplicateName S
a requirement's, of a conflict | conflict R: P, Q boundary a; | refused: statement 15: DuplicateName R
a conflict's, of a trace | trace C: loop {}; | refused: statement 15: DuplicateName C
a trace's, of a goal | goal T: true; | refused: statement 15: DuplicateName T
a goal's, of a goal | goal P: always a; | refused: statement 15: DuplicateName P
values stand apart | var low: bool; goal low: a; | refused: statement 16: DuplicateName low
patterns stand apart | goal split: a; var split: bool; | refused: statement 16: DuplicateName split
# Used as a variable.
an unknown name | goal G: always z; | refused: statement 15: UnknownName z
declared behind it | goal G: always z; var z: bool; | refused: statement 15: UnknownName z
the statement's own name | goal G: always G; | refused: statement 15: UnknownName G
a goal in a formula | goal G: P; | refused: statement 15: WrongKind P
a value alone | goal G: low; | refused: statement 15: UnknownName low
a trace compared | goal G: T = true; | refused: statement 15: WrongKind T
an unknown name compared | goal G: z = true; | refused: statement 15: UnknownName z
an unknown name before values | goal G: z in {1}; | refused: statement 15: UnknownName z
an agent before values | goal G: A in {1}; | refused: statement 15: WrongKind A
in a property | domain E: z; | refused: statement 15: UnknownName z
in the cause of a rule | rule E: z entails a; | refused: statement 15: UnknownName z
in the effect of a rule | rule E: a entails O; | refused: statement 15: WrongKind O
in an obstacle | obstacle E: D; | refused: statement 15: WrongKind D
in a boundary | conflict K: P, Q boundary z; | refused: statement 15: UnknownName z
in a condition before | operation U by A dompre z dompost a; | refused: statement 15: UnknownName z
in a condition behind | operation U by A dompre a dompost S; | refused: statement 15: WrongKind S
in a requirement | require U on S post R; | refused: statement 15: WrongKind R
monitored, unknown | agent B monitors a, z; | refused: statement 15: UnknownName z
monitored, of another kind | agent B monitors A; | refused: statement 15: WrongKind A
monitored, the agent | agent B monitors B; | refused: statement 15: UnknownName B
controlled, unknown | agent B controls z; | refused: statement 15: UnknownName z
controlled, of another kind | agent B controls n, L; | refused: statement 15: WrongKind L
set, unknown | trace U: loop {z = true}; | refused: statement 15: UnknownName z
set, of another kind | trace U: loop {} {C = true}; | refused: statement 15: WrongKind C
# Used as a goal, an obstacle, an agent, an operation, a requirement.
a parent, unknown | refine z by Q; | refused: statement 15: UnknownName z
a parent, a variable | refine a by Q; | refused: statement 15: WrongKind a
a parent, an obstacle | refine O by Q; | refused: statement 15: WrongKind O
a subgoal, unknown | refine P by Q, z; | refused: statement 15: UnknownName z
a subgoal, a variable | refine P by a; | refused: statement 15: WrongKind a
a subgoal, a property | refine P by D; | refused: statement 15: WrongKind D
obstructed, unknown | obstruct z by O; | refused: statement 15: UnknownName z
obstructed, an obstacle | obstruct O by O; | refused: statement 15: WrongKind O
an obstacle, unknown | obstruct P by z; | refused: statement 15: UnknownName z
an obstacle, a goal | obstruct P by O, Q; | refused: statement 15: WrongKind Q
in a conflict, unknown | conflict K: P, z boundary a; | refused: statement 15: UnknownName z
in a conflict, itself | conflict K: P, K boundary a; | refused: statement 15: UnknownName K
in a conflict, a conflict | conflict K: C, P boundary a; | refused: statement 15: WrongKind C
assigned, unknown | assign z to A; | refused: statement 15: UnknownName z
assigned, an obstacle | assign O to A; | refused: statement 15: WrongKind O
assigned to an unknown name | assign P to z; | refused: statement 15: UnknownName z
assigned to an operation | assign P to S; | refused: statement 15: WrongKind S
expected, unknown | expect z of A; | refused: statement 15: UnknownName z
expected, a requirement | expect R of A; | refused: statement 15: WrongKind R
expected of an unknown name | expect P of z; | refused: statement 15: UnknownName z
expected of a variable | expect P of a; | refused: statement 15: WrongKind a
an operation by an unknown name | operation U by z dompre a dompost a; | refused: statement 15: UnknownName z
an operation by a goal | operation U by P dompre a dompost a; | refused: statement 15: WrongKind P
required on an unknown name | require U on z pre a; | refused: statement 15: UnknownName z
required on an agent | require U on A trig a; | refused: statement 15: WrongKind A
operationalised, unknown | operationalise z by R; | refused: statement 15: UnknownName z
operationalised, an operation | operationalise S by R; | refused: statement 15: WrongKind S
by an unknown requirement | operationalise P by R, z; | refused: statement 15: UnknownName z
by an operation | operationalise P by S exact; | refused: statement 15: WrongKind S
# Used as a pattern.
an unknown pattern | refine P by Q using zigzag; | refused: statement 15: UnknownName zigzag
a goal as a pattern | refine P by Q using Q; | refused: statement 15: UnknownName Q
a pattern as a goal | refine P by split; | refused: statement 15: UnknownName split
# A name stands once in its list.
a value | var x: {up, down, up}; | refused: statement 15: DuplicateName up
monitored twice | agent B monitors a, n, a; | refused: statement 15: DuplicateName a
controlled twice | agent B controls n, m, m; | refused: statement 15: DuplicateName m
in two lists | agent B monitors n controls n; agent B; | refused: statement 16: DuplicateName B
a subgoal | refine P by Q, Q; | refused: statement 15: DuplicateName Q
an obstacle | obstruct P by O, O; | refused: statement 15: DuplicateName O
a goal of a conflict | conflict K: P, Q, P boundary a; | refused: statement 15: DuplicateName P
a requirement | operationalise P by R, R; | refused: statement 15: DuplicateName R
in one state | trace U: loop {a = true, n = 1, a = true}; | refused: statement 15: DuplicateName a
in a state before the loop | trace U: {n = 1, n = 1} loop {}; | refused: statement 15: DuplicateName n
in two states | trace U: {n = 1} loop {n = 1} {n = 2}; trace U: loop {}; | refused: statement 16: DuplicateName U";

#[test]
fn names(rt: HostRuntime) -> Result<(), Fail> {
    come_to(&rt, rt.alloc(), KINDS, NAMES)
}

const VALUES: &str = "\
# A variable alone is a truth value.
a number | goal G: n; | refused: statement 15: BadValue n
an enumeration | goal G: not m; | refused: statement 15: BadValue m
# A value is of the range of the variable before it.
over the range | goal G: n = 4; | refused: statement 15: BadValue n
under the range | goal G: n > -1; | refused: statement 15: BadValue n
a truth value for a number | goal G: n = true; | refused: statement 15: BadValue n
a truth value for a name | goal G: m != false; | refused: statement 15: BadValue m
a number for a name | goal G: m = 0; | refused: statement 15: BadValue m
a number for a truth value | goal G: a = 1; | refused: statement 15: BadValue a
a number of a set | goal G: n in {1, 4}; | refused: statement 15: BadValue n
a truth value of a set | goal G: m in {low, true}; | refused: statement 15: BadValue m
an unknown name of a set | goal G: m in {low, z}; | refused: statement 15: BadValue m
a variable of a set | goal G: m in {m}; | refused: statement 15: BadValue m
values twice in a set | goal G: n in {1, 1}; goal G: a; | refused: statement 16: DuplicateName G
in a state | trace U: loop {n = 4}; | refused: statement 15: BadValue n
in a state before the loop | trace U: {m = mid} loop {}; | refused: statement 15: BadValue m
a variable in a state | trace U: loop {a = a}; | refused: statement 15: BadValue a
# A name behind a comparison is a value, or else a variable of the same range.
an unknown name | goal G: m = mid; | refused: statement 15: UnknownName mid
a goal | goal G: a = P; | refused: statement 15: WrongKind P
itself | goal G: m = G; | refused: statement 15: UnknownName G
another kind of range | goal G: a = n; | refused: statement 15: BadValue a
a truth value and two numbers | var k: 0..1; goal G: a = k; | refused: statement 16: BadValue a
a higher end | var k: 0..4; goal G: k = n; | refused: statement 16: BadValue k
a lower end | var k: -1..3; goal G: n < k; | refused: statement 16: BadValue n
another order | var k: {high, low}; goal G: m = k; | refused: statement 16: BadValue m
more names | var k: {low, high, off}; goal G: m = k; | refused: statement 16: BadValue m
a value of a goal's name | var k: {P, Q}; goal G: k = P; goal G: a; | refused: statement 17: DuplicateName G
# A range has 1 to 64 values, and there are 64 variables.
65 numbers | var x: 0..64; | refused: statement 15: BadRange x
65 numbers to 0 | var x: -64..0; | refused: statement 15: BadRange x
the widest range | var x: -1000000000..1000000000; | refused: statement 15: BadRange x
upside down | var x: 1..0; | refused: statement 15: BadRange x
65 names | var x: {[64 v#, ]v64}; | refused: statement 15: BadRange x
64 names | var x: {[63 v#, ]v63}; var x: bool; | refused: statement 16: DuplicateName x
64 numbers | var x: -63..0; var x: bool; | refused: statement 16: DuplicateName x
the 65th variable | [62 var x#: bool;] | refused: statement 76: TooManyVars x61
a goal behind 64 variables | [61 var x#: bool;]goal x60: a; | refused: statement 76: DuplicateName x60";

#[test]
fn values(rt: HostRuntime) -> Result<(), Fail> {
    come_to(&rt, rt.alloc(), KINDS, VALUES)
}

const WHOLE_STATEMENTS: &str = "\
# Conditions and requirements speak of one state.
next, before | operation U by A dompre next a dompost a; | refused: statement 15: NotState U
entails, before | operation U by A dompre a entails a dompost a; | refused: statement 15: NotState U
always, behind | operation U by A dompre a dompost not always a; | refused: statement 15: NotState U
until, required before | require U on S pre a until a; | refused: statement 15: NotState U
within, as a trigger | require U on S trig eventually within 0 a; | refused: statement 15: NotState U
next, required behind | require U on S post a and next a; | refused: statement 15: NotState U
operators of one state | require U on S pre not (a and a or a implies a iff true); require U on S pre a; | refused: statement 16: DuplicateName U
# A variable is controlled by one agent.
one variable | agent B controls a; | refused: statement 15: TwoControllers a
behind others | agent B controls n, a; | refused: statement 15: TwoControllers a
the first of two | agent B controls n, m; agent E controls m, n, a; | refused: statement 16: TwoControllers m
of the agent before last | agent B controls n; agent E; agent F controls n; | refused: statement 17: TwoControllers n
monitored by two | agent B monitors a; agent E monitors a; agent B; | refused: statement 17: DuplicateName B
# No goal rests on itself.
by itself | refine P by P; | refused: statement 15: Cycle P
among others | refine P by Q, P; | refused: statement 15: Cycle P
by two | refine P by Q; refine Q by P; | refused: statement 16: Cycle Q
by three | goal G: a; refine P by Q; refine Q by G; refine G by P; | refused: statement 18: Cycle G
by the second subgoal of a link | goal G: a; refine P by G, Q; refine Q by P; | refused: statement 17: Cycle Q
by the second link of a goal | goal G: a; refine P by G; refine P by Q; refine Q by P; | refused: statement 18: Cycle Q
closed in the middle | goal G: a; refine P by Q; refine G by P; refine Q by G; | refused: statement 18: Cycle Q
by a link with a pattern | refine P by Q using split; refine Q by P; | refused: statement 16: Cycle Q
with a pattern itself | refine P by Q; refine Q by P using cases; | refused: statement 16: Cycle Q
two ways down | goal G: a; goal H: a; refine P by Q, G; refine Q by H; refine G by H; goal P: a; | refused: statement 20: DuplicateName P";

#[test]
fn whole_statements(rt: HostRuntime) -> Result<(), Fail> {
    come_to(&rt, rt.alloc(), KINDS, WHOLE_STATEMENTS)
}

// Two faults, of which the first from left to right is named, and what a whole statement has behind those.
const TWO_FAULTS: &str = "\
# In one statement.
declared, and unknown | goal P: z; | refused: statement 15: DuplicateName P
declared, and out of range | var a: 3..0; | refused: statement 15: DuplicateName a
declared, and a value twice | var a: {v, v}; | refused: statement 15: DuplicateName a
declared, and by an unknown name | operation S by z dompre a dompost a; | refused: statement 15: DuplicateName S
declared, and set | trace P: loop {z = true}; | refused: statement 15: DuplicateName P
declared, and a goal twice | conflict a: P, P boundary a; | refused: statement 15: DuplicateName a
unknown, and of another kind | goal G: z and P; | refused: statement 15: UnknownName z
of another kind, and unknown | goal G: P and z; | refused: statement 15: WrongKind P
unknown, and alone | goal G: z until n; | refused: statement 15: UnknownName z
alone, and unknown | goal G: n until z; | refused: statement 15: BadValue n
a value, and unknown | goal G: n = 9 implies z; | refused: statement 15: BadValue n
unknown, and a value | goal G: z implies n = 9; | refused: statement 15: UnknownName z
a value of a set, and unknown | goal G: n in {9} or z; | refused: statement 15: BadValue n
unknown, and a value for it | goal G: z = 9; | refused: statement 15: UnknownName z
cause, and effect | rule E: P entails z; | refused: statement 15: WrongKind P
parent, and subgoal | refine z by y; | refused: statement 15: UnknownName z
subgoal, and subgoal | refine P by D, z; | refused: statement 15: WrongKind D
subgoal twice, and unknown | refine P by Q, Q, z; | refused: statement 15: DuplicateName Q
unknown, and subgoal twice | refine P by z, Q, Q; | refused: statement 15: UnknownName z
unknown twice | refine P by z, z; | refused: statement 15: UnknownName z
subgoal, and pattern | refine P by z using zigzag; | refused: statement 15: UnknownName z
subgoal twice, and pattern | refine P by Q, Q using zigzag; | refused: statement 15: DuplicateName Q
obstructed, and obstacle | obstruct z by Q; | refused: statement 15: UnknownName z
goals, and boundary | conflict K: P, P boundary z; | refused: statement 15: DuplicateName P
goal, and agent | assign A to P; | refused: statement 15: WrongKind A
expected, and agent | expect z of y; | refused: statement 15: UnknownName z
agent, and condition | operation U by z dompre y dompost a; | refused: statement 15: UnknownName z
conditions | operation U by A dompre y dompost z; | refused: statement 15: UnknownName y
operation, and formula | require U on z pre y; | refused: statement 15: UnknownName z
goal, and requirement | operationalise z by S; | refused: statement 15: UnknownName z
monitored, and controlled | agent B monitors z controls P; | refused: statement 15: UnknownName z
monitored twice, and controlled | agent B monitors a, a controls z; | refused: statement 15: DuplicateName a
a state, and a state | trace U: {n = 9} loop {z = true}; | refused: statement 15: BadValue n
a value, and a variable | trace U: loop {n = 9, z = true}; | refused: statement 15: BadValue n
a variable, and a value | trace U: loop {z = true, n = 9}; | refused: statement 15: UnknownName z
a value, and set again | trace U: loop {n = 9, n = 1}; | refused: statement 15: BadValue n
set again, and a value | trace U: loop {n = 1, n = 9}; | refused: statement 15: DuplicateName n
# A whole statement behind its names.
a value twice, of 65 | var x: {v, [63 v#, ]v}; | refused: statement 15: DuplicateName v
a range, and the 65th variable | [61 var x#: bool;]var y: 0..64; | refused: statement 76: BadRange y
a value twice, and the 65th variable | [61 var x#: bool;]var y: {v, v}; | refused: statement 76: DuplicateName v
two states, and unknown | operation U by A dompre next a dompost z; | refused: statement 15: UnknownName z
two states, and unknown, required | require U on S pre next a and z; | refused: statement 15: UnknownName z
controlled, and unknown | agent B controls a, z; | refused: statement 15: UnknownName z
controlled, and twice | agent B controls a, a; | refused: statement 15: DuplicateName a
a cycle, and unknown | refine P by P, z; | refused: statement 15: UnknownName z
a cycle, and twice | refine P by P, P; | refused: statement 15: DuplicateName P
a cycle, and a pattern | refine P by P using zigzag; | refused: statement 15: UnknownName zigzag
# In two statements.
a later one | goal G: z; goal H: y; | refused: statement 15: UnknownName z
a later one, of a name declared | refine P by P; goal P: a; | refused: statement 15: Cycle P
a later one, of a range | goal G: n = 9; var x: 0..64; | refused: statement 15: BadValue n
an earlier one, of a range | var x: 0..64; goal G: z; | refused: statement 15: BadRange x
behind sound ones | goal G: a; refine P by G; agent B; goal H: n = 9; goal I: z; | refused: statement 18: BadValue n";

#[test]
fn two_faults(rt: HostRuntime) -> Result<(), Fail> {
    come_to(&rt, rt.alloc(), KINDS, TWO_FAULTS)
}

// Two goals, in 4 statements.
const TWO_GOALS: &str = "kaos 1; var a: bool; goal A: always a; goal B: eventually a; ";

const LINKS: &str = "\
each by the other | refine A by B; refine B by A; | refused: statement 6: Cycle B
a subgoal twice | refine A by B, B; | refused: statement 5: DuplicateName B
an unknown subgoal | refine A by X; | refused: statement 5: UnknownName X
a goal by itself | refine A by A; | refused: statement 5: Cycle A
# A pattern has a name of its own, and the refinement need not be an instance of it.
a pattern | refine A by B using split; | accepted
a pattern of a goal's name | goal split: a; refine A by split using split; | accepted
links of all kinds | agent C; assign B to C; operation S by C dompre a dompost not a; require R on S pre a; operationalise A by R; conflict C1: A, B boundary a; obstacle O: a; obstruct A by O; refine A by B using guard; | accepted
before an unknown name | refine A by B using milestone; goal G: b; | refused: statement 6: UnknownName b
before a cycle | conflict C: A, B boundary a; refine A by A; | refused: statement 6: Cycle A";

#[test]
fn links(rt: HostRuntime) -> Result<(), Fail> {
    come_to(&rt, rt.alloc(), TWO_GOALS, LINKS)
}

// Two small goals, in 5 statements.
const SMALL_GOALS: &str = "kaos 1; var a: bool; var b: bool; goal g: a; goal h: b; ";

// `always within d p` has a core of 2d levels more than p, so five of them within 100 have one of 1,001.
const LARGE_DEMANDS: &str = "\
# The domain properties come first, and the first of them is named.
a property | domain d: [5 always within 100 ]a; | refused: statement 6: TooLarge d
a rule | rule r: b entails [5 always within 100 ]a; | refused: statement 6: TooLarge r
a property behind a small one | domain d: a; domain e: [5 always within 100 ]a; | refused: statement 6: TooLarge d
a property behind a small rule | rule r: a entails b; domain e: [5 always within 100 ]a; | refused: statement 6: TooLarge r
a small property behind it | domain d: [5 always within 100 ]a; domain e: a; | refused: statement 6: TooLarge d
a property behind a link | goal k: [5 always within 100 ]a; refine g by k; domain d: [5 always within 100 ]b; | refused: statement 8: TooLarge d
# Then each link, in the order of the statements, with its own name.
a subgoal | goal k: [5 always within 100 ]a; refine g by h, k; | refused: statement 7: TooLarge g
a parent | goal k: [5 always within 100 ]a; refine k by g; | refused: statement 7: TooLarge k
the first of two | goal k: [5 always within 100 ]a; refine g by h; refine h by k; refine g by k; | refused: statement 8: TooLarge h
a pattern that matches | goal p: a entails b; goal q: a entails [5 always within 100 ]a; goal k: a entails b and [5 always within 100 ]a; refine k by p, q using split; | refused: statement 9: TooLarge k
an obstacle | obstacle o: [5 always within 100 ]a; obstruct g by o; | refused: statement 7: TooLarge g
the second obstacle | obstacle o: a; obstacle p: [5 always within 100 ]a; obstruct g by o, p; | refused: statement 8: TooLarge g
an obstructed goal | goal k: [5 always within 100 ]a; obstacle o: a; obstruct k by o; | refused: statement 8: TooLarge k
a boundary | conflict K: g, h boundary [5 always within 100 ]a; | refused: statement 6: TooLarge K
a goal of a conflict | goal k: [5 always within 100 ]a; conflict K: g, k boundary a; | refused: statement 7: TooLarge K
an operationalised goal | goal k: [5 always within 100 ]a; agent A; operation s by A dompre a dompost b; require r on s pre a; operationalise k by r; | refused: statement 10: TooLarge k
an assigned goal is in no list | goal k: [5 always within 100 ]a; agent A; assign k to A; | accepted
# In the order of the statements, whatever links they are.
a conflict before a refinement | goal k: [5 always within 100 ]a; conflict K: g, k boundary a; refine g by k; | refused: statement 7: TooLarge K
a refinement before a conflict | goal k: [5 always within 100 ]a; refine g by k; conflict K: g, k boundary a; | refused: statement 7: TooLarge g
behind a link with a pattern | goal k: [5 always within 100 ]a; refine g by h using split; refine g by k; | refused: statement 8: TooLarge g
before a link with a pattern | goal k: [5 always within 100 ]a; refine g by k; refine g by h using split; | refused: statement 7: TooLarge g
before an unknown name | goal k: [5 always within 100 ]a; refine g by k; goal l: z; | refused: statement 8: UnknownName z
before a cycle | goal k: [5 always within 100 ]a; refine g by k; refine h by h; | refused: statement 8: Cycle h
# A core has at most 1,000 levels, in the list or negated.
1001 levels | goal k: next next [4 always within 100 ]always within 99 a; refine g by k; | refused: statement 7: TooLarge g
1001 levels of the parent | goal k: next next [4 always within 100 ]always within 99 a; refine k by g; | refused: statement 7: TooLarge k
1000 levels | goal k: next [4 always within 100 ]always within 99 a; refine g by k; | accepted";

#[test]
fn large_demands(rt: HostRuntime) -> Result<(), Fail> {
    come_to(&rt, rt.alloc(), SMALL_GOALS, LARGE_DEMANDS)
}

// `always within d p` has a core of 2d distinct subformulas more than p. Of x = y over 64 values the core and its opposite have 64 terms
// each: 64 literals of x, 64 of y that are the same in every comparison with y, 64 times `and` and 63 times `or`.
const LARGE_LISTS: &str = "\
# 4,096 distinct subformulas are allowed; most rows have one more. Here 4,093 are of the subgoal, and 3 of the negated parent.
a property besides | [7 var x#: bool;]goal g: always x6; goal h: [4 always within 100 ]x0 and [4 always within 100 ]x1 and [4 always within 100 ]x2 and [4 always within 100 ]x3 and [4 always within 100 ]x4 and always within 41 x5; refine g by h; domain d: x6; | refused: statement 11: TooLarge g
a subgoal besides | [7 var x#: bool;]goal g: always x6; goal h: [4 always within 100 ]x0 and [4 always within 100 ]x1 and [4 always within 100 ]x2 and [4 always within 100 ]x3 and [4 always within 100 ]x4 and always within 41 x5; goal i: x6; refine g by h, i; | refused: statement 12: TooLarge g
the negated parent | [7 var x#: bool;]goal g: always next x6; goal h: [4 always within 100 ]x0 and [4 always within 100 ]x1 and [4 always within 100 ]x2 and [4 always within 100 ]x3 and [4 always within 100 ]x4 and always within 41 x5; refine g by h; | refused: statement 11: TooLarge g
the second of three | [7 var x#: bool;]goal g: always x6; goal h: next ([4 always within 100 ]x0 and [4 always within 100 ]x1 and [4 always within 100 ]x2 and [4 always within 100 ]x3 and [4 always within 100 ]x4 and always within 41 x5); goal i: x6; refine g by i; refine g by h; refine i by h; | refused: statement 13: TooLarge g
before an unknown name | [7 var x#: bool;]goal g: always x6; goal h: next ([4 always within 100 ]x0 and [4 always within 100 ]x1 and [4 always within 100 ]x2 and [4 always within 100 ]x3 and [4 always within 100 ]x4 and always within 41 x5); refine g by h; goal i: q; | refused: statement 12: UnknownName q
each bound of another operand | [21 var x#: bool;]domain d: [20 always within 100 x# and ]always within 100 x20; | refused: statement 23: TooLarge d
bounds of one operand | var a: bool; goal g: a; goal h: [20 always within 100 a and ]always within 100 a; refine g by h; | accepted
# Obstacles that are small each: 4,005 by five of them, 91 by the sixth, and 1 of the negated goal.
obstacles together | [7 var x#: bool;]goal g: x6; obstacle o0: [4 always within 100 ]x0; obstacle o1: [4 always within 100 ]x1; obstacle o2: [4 always within 100 ]x2; obstacle o3: [4 always within 100 ]x3; obstacle o4: [4 always within 100 ]x4; obstacle o5: always within 45 x5; obstruct g by o0, o1, o2, o3, o4, o5; | refused: statement 16: TooLarge g
with the literal of the goal | [7 var x#: bool;]goal g: x5; obstacle o0: [4 always within 100 ]x0; obstacle o1: [4 always within 100 ]x1; obstacle o2: [4 always within 100 ]x2; obstacle o3: [4 always within 100 ]x3; obstacle o4: [4 always within 100 ]x4; obstacle o5: always within 45 x5; obstruct g by o0, o1, o2, o3, o4, o5; | accepted
# Goals of a conflict: 4,094, and 3 or 2 of the boundary.
goals together | [7 var x#: bool;]goal g0: [4 always within 100 ]x0; goal g1: [4 always within 100 ]x1; goal g2: [4 always within 100 ]x2; goal g3: [4 always within 100 ]x3; goal g4: [4 always within 100 ]x4; goal g5: always within 44 x5; conflict K: g0, g1, g2, g3, g4, g5 boundary eventually x6; | refused: statement 15: TooLarge K
with one formula less | [7 var x#: bool;]goal g0: [4 always within 100 ]x0; goal g1: [4 always within 100 ]x1; goal g2: [4 always within 100 ]x2; goal g3: [4 always within 100 ]x3; goal g4: [4 always within 100 ]x4; goal g5: always within 44 x5; conflict K: g0, g1, g2, g3, g4, g5 boundary next x6; | accepted
# A requirement stands for a formula over its operation's conditions.
a condition before | [21 var x#: 0..63;]var y: 0..63; agent A; operation s by A dompre [21 x# = y and ]true dompost true; require r on s post true; goal g: true; operationalise g by r; | refused: statement 28: TooLarge g
a condition behind | [21 var x#: 0..63;]var y: 0..63; agent A; operation s by A dompre true dompost [21 x# = y and ]true; require r on s trig true; goal g: true; operationalise g by r; | refused: statement 28: TooLarge g
the required formula | [21 var x#: 0..63;]var y: 0..63; agent A; operation s by A dompre true dompost true; require r on s pre [21 x# = y and ]true; goal g: true; operationalise g by r; | refused: statement 28: TooLarge g
smaller conditions | [20 var x#: 0..63;]var y: 0..63; agent A; operation s by A dompre [20 x# = y and ]true dompost true; require r on s post true; goal g: true; operationalise g by r; | accepted";

#[test]
fn large_lists(rt: HostRuntime) -> Result<(), Fail> {
    come_to(&rt, rt.alloc(), "kaos 1; ", LARGE_LISTS)
}
