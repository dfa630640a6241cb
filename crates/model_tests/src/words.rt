//! The words behind the program's name: the budget and the form that they ask for, with the bytes of each form, and words of no command.

use crate::runs::{given_by, given_for};
use crate::texts::{compare, cut, holds, parts_of};
use source_sink::SteadySource;
use std::alloc::Global;
use std::process::Abort;
use std::test::Fail;

// No trace has both properties, and the tableau has five nodes. The subformulas are `true` 0, `p` 1, `eventually p` 2, `false` 3, `not p` 4
// and `always not p` 5.
const TEXT: &str = "kaos 1; var p: bool; domain D1: eventually p; domain D2: always not p;";

// At each node `eventually p` is waited for, and the walk comes back to the first.
const FULL: &str = "  certificate 5
  0 wait 2 todo 2,5 now - next - kids 1
  0 wait 2 todo 2,4 now - next 5 kids 2
  0 wait 2 todo 2 now 0=0 next 5 kids 3
  0 wait 2 todo 0 now 0=0 next 2,5 kids 4
  0 wait 2 todo - now 0=0 next 2,5 kids 0
";

const BRIEF: &str = "  certificate of 5 nodes, highest rank 0\n";

// The words, the budget, and the form.
const WORDS: &str = "\
no option | [check] | 20000 full
a budget | [check] [--budget] [5] | 5 full
a budget in one word | [check] [--budget=6] | 6 full
zeros before a budget | [check] [--budget=007] | 7 full
six digits | [check] [--budget] [000005] | 5 full
the greatest budget | [check] [--budget=200000] | 200000 full
all evidence | [check] [--form] [full] | 20000 full
brief evidence | [check] [--form] [brief] | 20000 brief
no evidence | [check] [--form] [lines] | 20000 lines
a form in one word | [check] [--form=lines] | 20000 lines
a budget and a form | [check] [--budget=5] [--form] [brief] | 5 brief
a form and a budget | [check] [--form=lines] [--budget] [5] | 5 lines";

fn evidence_in(form: &str) -> &'static str {
    match form {
        "full" => FULL,
        "brief" => BRIEF,
        _ => "",
    }
}

fn is_accepted(rt: &impl Abort, alloc: Global, row: &str) -> Result<(), Fail> {
    let (name, words, asked) = parts_of(row)?;
    let (budget, form) = cut(asked, " ")?;
    let evidence = evidence_in(form);
    let due = format!(in alloc;
        "1\nkaos report 1 budget {budget}\ndomain consistent: fails\n{evidence}total: 0 hold, 1 fail, 0 withheld\n"
    )?;
    let given = given_for(alloc, words, TEXT.as_bytes())?;
    compare(rt, name, &given.answer, &due);
    Ok(())
}

#[test]
fn budgets_and_forms(rt: HostRuntime) -> Result<(), Fail> {
    for row in WORDS.lines() {
        is_accepted(&rt, rt.alloc(), row)?;
    }
    Ok(())
}

const OTHER_WORDS: &str = "\
no word | none
an empty word | []
another word | [report]
another case | [Check]
a longer word | [checks]
the word twice | [check] [check]
the word and another | [check] [-]
two commands | [trace] [check]
a value of the command | [check=5]
an option before the command | [--form=lines] [check]
help | [--help]
help on a command | [check] [-h]
two dashes alone | [check] [--]
no node | [check] [--budget] [0]
a budget over the greatest | [check] [--budget=200001]
seven digits | [check] [--budget] [0000005]
a sign before a budget | [check] [--budget=+5]
a letter behind a budget | [check] [--budget=5k]
an empty budget | [check] [--budget=]
a budget that is an empty word | [check] [--budget] []
a budget that is missing | [check] [--budget]
a budget twice | [check] [--budget] [1] [--budget] [1]
a budget in each spelling | [check] [--budget=1] [--budget] [1]
an unknown form | [check] [--form] [json]
another case of a form | [check] [--form=Lines]
two signs before a form | [check] [--form==lines]
a form that is missing | [check] [--form=lines] [--form]
a form twice | [check] [--form] [lines] [--budget=5] [--form=full]
an unknown option | [check] [--workers] [1]
one dash | [check] [-form] [lines]
an option of another command | [trace] [--budget] [1]
a goal of a check | [check] [--goal] [G]
a depth of a check | [check] [--form=lines] [--depth=3]
a regression of no goal | [regress]
a depth alone | [regress] [--depth=2]
a goal without its option | [regress] [G]
a goal that is missing | [regress] [--depth=2] [--goal]
a goal twice | [regress] [--goal=G] [--goal] [G]
a form of a regression | [regress] [--goal=G] [--form=lines]
no level | [regress] [--goal=G] [--depth=0]
a depth over the greatest | [regress] [--goal=G] [--depth] [7]
seven digits of a depth | [regress] [--goal=G] [--depth=0000003]
a depth that is no number | [regress] [--goal=G] [--depth=two]
an empty depth | [regress] [--goal=G] [--depth=]
a depth twice | [regress] [--depth=2] [--goal=G] [--depth=2]
a budget of no node for a regression | [regress] [--goal=G] [--budget=0]
a goal behind a trace | [trace] [--goal=G]";

const USAGE: &str =
    "3\nusage: kaos check [--budget N] [--form full|brief|lines]\n       kaos regress --goal NAME [--depth N] [--budget N]\n       kaos trace\n";

const REPORT: &str = "1
kaos report 1 budget 5
domain consistent: fails
total: 0 hold, 1 fail, 0 withheld
";

fn are_refused(
    rt: &impl Abort,
    alloc: Global,
    name: &str,
    words: &str,
    source: &mut SteadySource,
) -> Result<(), Fail> {
    let given = given_by(alloc, words, source)?;
    compare(rt, name, &given.answer, USAGE);
    holds(rt, name, given.report.is_none());
    Ok(())
}

fn leave_the_source(rt: &impl Abort, alloc: Global, name: &str, words: &str) -> Result<(), Fail> {
    let mut source = SteadySource::new(Vec::from_slice(alloc, TEXT.as_bytes())?);
    are_refused(rt, alloc, name, words, &mut source)?;
    let given = given_by(alloc, "[check] [--budget=5] [--form=lines]", &mut source)?;
    compare(rt, name, &given.answer, REPORT);
    Ok(())
}

// Words that are not accepted leave the source as it is: a second run reads all of it.
#[test]
fn other_words(rt: HostRuntime) -> Result<(), Fail> {
    for row in OTHER_WORDS.lines() {
        let (name, words) = cut(row, " | ")?;
        leave_the_source(&rt, rt.alloc(), name, words)?;
    }
    Ok(())
}
