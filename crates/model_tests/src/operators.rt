//! Refinements of one goal by another, over three truth variables: a parent, a subgoal, and whether the parent follows, though it may
//! follow from a subgoal that no state has, or without one. Both are asked of every state, so that the tables of truth decide.

use crate::runs::gives;
use crate::texts::parts_of;
use std::alloc::Global;
use std::process::Abort;
use std::test::Fail;

const HOLDS: &str = "0
kaos report 1 budget 20000
domain consistent: holds
  any trace
refine 7 P complete: holds
refine 7 P consistent: holds
  Q
refine 7 P minimal without Q: holds
  not P
total: 4 hold, 0 fail, 0 withheld
";

const FAILS: &str = "1
kaos report 1 budget 20000
domain consistent: holds
  any trace
refine 7 P complete: fails
  Q, not P
refine 7 P consistent: holds
  Q
refine 7 P minimal without Q: holds
  not P
total: 3 hold, 1 fail, 0 withheld
";

// No state has the subgoal.
const INCONSISTENT: &str = "1
kaos report 1 budget 20000
domain consistent: holds
  any trace
refine 7 P complete: holds
refine 7 P consistent: fails
refine 7 P minimal without Q: holds
  not P
total: 3 hold, 1 fail, 0 withheld
";

// Every state has the parent.
const NEEDLESS: &str = "1
kaos report 1 budget 20000
domain consistent: holds
  any trace
refine 7 P complete: holds
refine 7 P consistent: holds
  Q
refine 7 P minimal without Q: fails
total: 3 hold, 1 fail, 0 withheld
";

const OPERATORS: &str = "\
true | a | needless
a | false | inconsistent
a | true | fails
false | c | fails
not a | true | fails
not not a | a | holds
a or b | a | holds
a | a or b | fails
a | a and b | holds
a and b | a | fails
a implies b | b | holds
a implies b | true | fails
b | a implies b | fails
a iff b | a and b | holds
a iff b | true | fails
a and b | a iff b | fails
a = true | a | holds
a != b | a = b | fails
a <= b | a < b | holds
a < b | a <= b | fails
a > false | b in {true} | fails
a in {true, false} | true | needless";

// Each row would have another answer if the operators were grouped the other way.
const GROUPS: &str = "\
not a and b | true | fails
not a or b | true | fails
false | not a implies b | fails
a or b and c | a | holds
a and b or c | c | holds
a or b implies c | a | fails
a and b implies c | true | fails
a implies b and c | true | fails
a implies b implies c | true | fails
false | a iff b implies c | fails
a implies b iff c | true | fails
a or b iff c | a | fails
a and b iff c | true | fails
(a or b) and c | a | fails
not (a and b) | true | fails
(a implies b) implies c | true | fails
not (a implies b) | true | fails
(a iff b) implies c | b and not a | holds";

fn report_of(answer: &str) -> &'static str {
    match answer {
        "holds" => HOLDS,
        "fails" => FAILS,
        "inconsistent" => INCONSISTENT,
        _ => NEEDLESS,
    }
}

fn is_answered(
    rt: &impl Abort,
    alloc: Global,
    parent: &str,
    subgoal: &str,
    due: &str,
) -> Result<(), Fail> {
    let text = format!(in alloc;
        "kaos 1; var a: bool; var b: bool; var c: bool; goal P: always ({parent}); goal Q: always ({subgoal}); refine P by Q;"
    )?;
    gives(rt, alloc, &text, "[check]", text.as_bytes(), due)
}

fn are_answered(rt: &impl Abort, alloc: Global, table: &str) -> Result<(), Fail> {
    for row in table.lines() {
        let (parent, subgoal, answer) = parts_of(row)?;
        is_answered(rt, alloc, parent, subgoal, report_of(answer))?;
    }
    Ok(())
}

#[test]
fn operators(rt: HostRuntime) -> Result<(), Fail> {
    are_answered(&rt, rt.alloc(), OPERATORS)
}

#[test]
fn groups(rt: HostRuntime) -> Result<(), Fail> {
    are_answered(&rt, rt.alloc(), GROUPS)
}
