//! What `regress` prints: each candidate with its number, its text and how it stands, and whether one was left out. Which candidates there
//! are is worked out by hand as in the tests of regression.

use crate::runs::{all_answer, given_for};
use crate::texts::{bytes_of, compare, parts_of};
use std::alloc::{AllocError, Global};
use std::process::Abort;
use std::test::Fail;

const REGRESSIONS: &str = "
== a cause of a part
kaos 1; var moving: bool; var closed: bool; var brakefail: bool; rule R: brakefail entails moving; goal G: always (moving implies closed);
-> 0
kaos regress 1 budget 20000
candidate 1: (true until (moving and not closed)): possible
candidate 2: (true until (brakefail and not closed)): possible
more: no

== a narrower choice of values
kaos 1; var x: 1..3; var f: bool; rule R: f entails x = 3; goal G: always x = 1;
-> 0
kaos regress 1 budget 20000
candidate 1: (true until x in {2, 3}): possible
candidate 2: (true until f): possible
more: no

== a candidate that a property rules out
kaos 1; var a: bool; var b: bool; domain D: always not b; rule R: b entails a; goal G: always not a;
-> 0
kaos regress 1 budget 20000
candidate 1: (true until a): possible
candidate 2: (true until b): impossible
more: no

== a goal that the domain has
kaos 1; var a: bool; domain D: always a; goal G: eventually a;
-> 0
kaos regress 1 budget 20000
candidate 1: (false release not a): impossible
more: no

== the goal of the name alone
kaos 1; var a: bool; var b: bool; rule R: b entails a; goal F: always a; goal G: always not a; goal H: eventually a;
-> 0
kaos regress 1 budget 20000
candidate 1: (true until a): possible
candidate 2: (true until b): possible
more: no

== a goal that is too large
kaos 1; var a: bool; goal G: always eventually within 100 always within 100 a;
-> 0
kaos regress 1 budget 20000
more: yes

== a text that is refused
kaos 1; goal G: a;
-> 2
refused: statement 2: UnknownName a
";

#[test]
fn regressions(rt: HostRuntime) -> Result<(), Fail> {
    all_answer(&rt, rt.alloc(), "[regress] [--goal] [G]", REGRESSIONS)
}

const WITHHELD: &str = "
== no candidate within the budget
kaos 1; var a: bool; var b: bool; rule R: b entails a; goal G: always not a;
-> 6
kaos regress 1 budget 1
candidate 1: (true until a): withheld at 1
candidate 2: (true until b): withheld at 1
more: no
";

#[test]
fn withheld_candidates(rt: HostRuntime) -> Result<(), Fail> {
    all_answer(
        &rt,
        rt.alloc(),
        "[regress] [--budget=1] [--goal=G]",
        WITHHELD,
    )
}

const NO_GOALS: &str = "\
another name | [regress] [--goal] [H] | H
another case | [regress] [--goal=g] | g
the name of a property | [regress] [--goal=D] | D
no name | [regress] [--goal=] | 
an empty word | [regress] [--goal] [] | 
a name with a sign | [regress] [--goal] [G=G] | G=G
the first sign alone | [regress] [--goal=G=G] | G=G
a name that looks like an option | [regress] [--goal] [--depth] | --depth";

#[test]
fn goals_that_are_not_there(rt: HostRuntime) -> Result<(), Fail> {
    let alloc = rt.alloc();
    for row in NO_GOALS.lines() {
        let (name, words, goal) = parts_of(row)?;
        let given = given_for(alloc, words, b"kaos 1; domain D: true; goal G: true;")?;
        let due = format!(in alloc; "2\nrefused: no goal {goal}\n")?;
        compare(&rt, name, &given.answer, &due);
    }
    Ok(())
}

// The lines of an answer, with a count in the place of the candidates.
fn summary(alloc: Global, answer: &str) -> Result<String, AllocError> {
    let mut kept = String::new(alloc);
    let mut count = 0_u32;
    for line in answer.lines() {
        if line.starts_with("candidate ") {
            count = count.saturating_add(1);
        } else {
            kept.push_str(line)?;
            kept.push_str("; ")?;
        }
    }
    kept.push_str(&format!(in alloc; "{count}")?)?;
    Ok(kept)
}

fn all_sum_up(rt: &impl Abort, alloc: Global, text: &str, table: &str) -> Result<(), Fail> {
    for row in table.lines() {
        let (name, words, due) = parts_of(row)?;
        let given = given_for(alloc, words, &bytes_of(alloc, "kaos 1; ", text)?)?;
        compare(rt, name, &summary(alloc, &given.answer)?, due);
    }
    Ok(())
}

// A cause of each cause: as many candidates as levels, and the first.
const CHAIN: &str =
    "var a: bool; var b: bool; var c: bool; var d: bool; var e: bool; var f: bool; var g: bool; var h: bool; \
rule R1: b entails a; rule R2: c entails b; rule R3: d entails c; rule R4: e entails d; rule R5: f entails e; rule R6: g entails f; \
rule R7: h entails g; goal G: always not a;";

const DEPTHS: &str = "\
no option but the goal | [regress] [--budget=1] [--goal] [G] | 6; kaos regress 1 budget 1; more: no; 4
one level | [regress] [--budget=1] [--goal] [G] [--depth] [1] | 6; kaos regress 1 budget 1; more: no; 2
six levels | [regress] [--goal=G] [--depth=6] [--budget=1] | 6; kaos regress 1 budget 1; more: no; 7
zeros before a depth | [regress] [--depth=005] [--budget] [01] [--goal] [G] | 6; kaos regress 1 budget 1; more: no; 6";

#[test]
fn depths(rt: HostRuntime) -> Result<(), Fail> {
    all_sum_up(&rt, rt.alloc(), CHAIN, DEPTHS)
}

// Each of eight parts may have its cause in its place: 256 candidates at depth 8, and 247 at depth 6.
const CHOICES: &str = "[8 var a#: bool;][8 var b#: bool;][8 rule r#: b# entails a#;]\
goal G: always not (a0 and a1 and a2 and a3 and a4 and a5 and a6 and a7);";

const NUMBERS: &str = "\
one level of eight causes | [regress] [--goal] [G] [--budget=1] [--depth=1] | 6; kaos regress 1 budget 1; more: no; 9
two levels | [regress] [--goal] [G] [--budget=1] [--depth=2] | 6; kaos regress 1 budget 1; more: no; 37
six levels, and 200 candidates | [regress] [--goal] [G] [--budget=1] [--depth=6] | 6; kaos regress 1 budget 1; more: yes; 200";

#[test]
fn numbers(rt: HostRuntime) -> Result<(), Fail> {
    all_sum_up(&rt, rt.alloc(), CHOICES, NUMBERS)
}
