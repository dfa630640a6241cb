//! Reports on refinements that name a pattern: answered by the pattern where the goals have its form, and else by their own formulas. How
//! many nodes the tableau of each pattern has is worked out apart from this program.

use crate::runs::{LINES, all_answer, given_for};
use crate::texts::{bytes_of, compare, cut, number, parts_of};
use std::alloc::Global;
use std::test::Fail;

const PATTERNS: &str = "
== a milestone
kaos 1; var c: bool; var m: bool; var t: bool; goal G: c entails eventually t; goal S1: c entails eventually m; goal S2: m entails eventually t;
refine G by S1, S2 using milestone;
-> 0
kaos report 1 budget 20000
domain consistent: holds
refine 8 G complete: holds by milestone
refine 8 G consistent: holds
refine 8 G minimal without S1: holds
refine 8 G minimal without S2: holds
total: 5 hold, 0 fail, 0 withheld

== without its name
kaos 1; var c: bool; var m: bool; var t: bool; goal G: c entails eventually t; goal S1: c entails eventually m; goal S2: m entails eventually t;
refine G by S1, S2;
-> 0
kaos report 1 budget 20000
domain consistent: holds
refine 8 G complete: holds
refine 8 G consistent: holds
refine 8 G minimal without S1: holds
refine 8 G minimal without S2: holds
total: 5 hold, 0 fail, 0 withheld

== in another order
kaos 1; var c: bool; var m: bool; var t: bool; goal G: c entails eventually t; goal S1: c entails eventually m; goal S2: m entails eventually t;
refine G by S2, S1 using milestone;
-> 0
kaos report 1 budget 20000
domain consistent: holds
refine 8 G complete: holds
refine 8 G consistent: holds
refine 8 G minimal without S2: holds
refine 8 G minimal without S1: holds
total: 5 hold, 0 fail, 0 withheld

== by the name of another pattern
kaos 1; var a: bool; var b: bool; goal P: always (a or b); goal Q: always a; refine P by Q using split;
-> 0
kaos report 1 budget 20000
domain consistent: holds
refine 6 P complete: holds
refine 6 P consistent: holds
refine 6 P minimal without Q: holds
total: 4 hold, 0 fail, 0 withheld

== of no pattern's form, and not complete
kaos 1; var a: bool; var b: bool; goal P: always a; goal Q: always (a or b); refine P by Q using induction;
-> 1
kaos report 1 budget 20000
domain consistent: holds
refine 6 P complete: fails
refine 6 P consistent: holds
refine 6 P minimal without Q: holds
total: 3 hold, 1 fail, 0 withheld

== formulas for placeholders
kaos 1; var a: bool; var b: bool; var c: bool; var d: bool; var n: 0..3; goal G: next a and n < 2 entails eventually (b until c);
goal H: next a and n < 2 entails eventually not always d; goal I: not always d entails eventually (b until c); refine G by H, I using milestone;
-> 0
kaos report 1 budget 20000
domain consistent: holds
refine 10 G complete: holds by milestone
refine 10 G consistent: holds
refine 10 G minimal without H: holds
refine 10 G minimal without I: holds
total: 5 hold, 0 fail, 0 withheld

== cases, a guard, two parts and an induction
kaos 1; var a: bool; var b: bool; var n: 0..3; goal G: a entails eventually b;
goal C1: a and n = 0 entails eventually b; goal C2: a and not n = 0 entails eventually b; goal C3: a entails n = 0 or not n = 0;
refine G by C1, C2, C3 using cases;
goal D1: a and n > 1 entails eventually b; goal D2: a entails eventually n > 1; goal D3: a entails (a unless b);
refine G by D1, D2, D3 using guard;
goal E: a entails (always b and next n = 3); goal E1: a entails always b; goal E2: a entails next n = 3;
refine E by E1, E2 using split;
goal F: a entails always (b or n != 1); goal F1: a entails (b or n != 1); goal F2: (b or n != 1) entails next (b or n != 1);
refine F by F1, F2 using induction;
-> 1
kaos report 1 budget 20000
domain consistent: holds
refine 9 G complete: holds by cases
refine 9 G consistent: holds
refine 9 G minimal without C1: holds
refine 9 G minimal without C2: holds
refine 9 G minimal without C3: fails
refine 13 G complete: holds by guard
refine 13 G consistent: holds
refine 13 G minimal without D1: holds
refine 13 G minimal without D2: holds
refine 13 G minimal without D3: holds
refine 17 E complete: holds by split
refine 17 E consistent: holds
refine 17 E minimal without E1: holds
refine 17 E minimal without E2: holds
refine 21 F complete: holds by induction
refine 21 F consistent: holds
refine 21 F minimal without F1: holds
refine 21 F minimal without F2: holds
total: 18 hold, 1 fail, 0 withheld

== subgoals that cannot be met
kaos 1; var a: bool; var b: bool; domain D: eventually (a and not b); goal E: a entails (b and b); goal E1: a entails b; goal E2: a entails next b;
refine E by E1, E2 using split; goal F: a entails (b and next b); refine F by E1, E2 using split;
-> 1
kaos report 1 budget 20000
domain consistent: holds
refine 8 E complete: holds
refine 8 E consistent: fails
refine 8 E minimal without E1: holds
refine 8 E minimal without E2: fails
refine 10 F complete: holds by split
refine 10 F consistent: fails
refine 10 F minimal without E1: holds
refine 10 F minimal without E2: fails
total: 5 hold, 4 fail, 0 withheld
";

#[test]
fn patterns(rt: HostRuntime) -> Result<(), Fail> {
    all_answer(&rt, rt.alloc(), LINES, PATTERNS)
}

// A pattern, the nodes of its tableau, and goals of its form whose own list has another tableau.
const SIZES: &str = "\
milestone | 409 | goal P: a entails eventually c; goal Q: a entails eventually b; goal R: b entails eventually c; refine P by Q, R using milestone;
cases | 377 | goal P: a entails eventually b; goal Q: a and c entails eventually b; goal R: a and d entails eventually b; goal S: a entails c or d; refine P by Q, R, S using cases;
guard | 1079 | goal P: a entails eventually b; goal Q: a and c entails eventually b; goal R: a entails eventually c; goal S: a entails (a unless b); refine P by Q, R, S using guard;
split | 29 | goal P: next next a entails b and eventually c; goal Q: next next a entails b; goal R: next next a entails eventually c; refine P by Q, R using split;
induction | 43 | goal P: next next a entails always b; goal Q: next next a entails b; goal R: b entails next b; refine P by Q, R using induction;";

// The line of the demand `complete` under a budget.
fn complete(alloc: Global, statements: &str, budget: usize) -> Result<String, Fail> {
    let front = "kaos 1; var a: bool; var b: bool; var c: bool; var d: bool; ";
    let bytes = bytes_of(alloc, front, statements)?;
    let words = format!(in alloc; "[check] [--form] [lines] [--budget] [{budget}]")?;
    let given = given_for(alloc, &words, &bytes)?;
    let (_, behind) = cut(&given.answer, " complete: ")?;
    let (line, _) = cut(behind, "\n")?;
    Ok(String::from_str(alloc, line)?)
}

// The pattern's tableau is within a budget of its nodes, and beyond one that is smaller.
#[test]
fn sizes(rt: HostRuntime) -> Result<(), Fail> {
    let alloc = rt.alloc();
    for row in SIZES.lines() {
        let (name, nodes, text) = parts_of(row)?;
        let nodes = number(nodes)?;
        let by_name = format!(in alloc; "holds by {name}")?;
        compare(&rt, name, &complete(alloc, text, nodes)?, &by_name);
        let fewer = nodes.saturating_sub(1);
        let withheld = format!(in alloc; "withheld at {fewer}")?;
        compare(&rt, name, &complete(alloc, text, fewer)?, &withheld);
    }
    Ok(())
}
