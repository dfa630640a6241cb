//! Texts that are no statements, or exceed a limit, with the line for each, by hand from the rules of the language. Both commands refuse a
//! text alike.

use crate::runs::given_for;
use crate::texts::{bytes_of, compare, holds, parts_of};
use std::alloc::Global;
use std::process::Abort;
use std::test::Fail;

fn refuses(
    rt: &impl Abort,
    alloc: Global,
    name: &str,
    words: &str,
    bytes: &[u8],
    due: &str,
) -> Result<(), Fail> {
    let given = given_for(alloc, words, bytes)?;
    compare(rt, name, &given.answer, due);
    holds(rt, name, given.report.is_none());
    Ok(())
}

fn both_refuse(
    rt: &impl Abort,
    alloc: Global,
    name: &str,
    bytes: &[u8],
    line: &str,
) -> Result<(), Fail> {
    let due = format!(in alloc; "2\n{line}\n")?;
    refuses(rt, alloc, name, "[check]", bytes, &due)?;
    refuses(rt, alloc, name, "[trace]", bytes, &due)
}

// What is left to refuse of a text that is accepted is the name of a goal that it has not.
fn is_accepted(rt: &impl Abort, alloc: Global, name: &str, bytes: &[u8]) -> Result<(), Fail> {
    let words = "[regress] [--goal] [nothing]";
    refuses(
        rt,
        alloc,
        name,
        words,
        bytes,
        "2\nrefused: no goal nothing\n",
    )
}

fn comes_to(rt: &impl Abort, alloc: Global, front: &str, row: &str) -> Result<(), Fail> {
    let (name, text, line) = parts_of(row)?;
    let bytes = bytes_of(alloc, front, text)?;
    if line == "accepted" {
        return is_accepted(rt, alloc, name, &bytes);
    }
    both_refuse(rt, alloc, name, &bytes, line)
}

/// Each row has a text, behind a front that may be empty, and its line, or `accepted`. A row that begins with `# ` is a heading.
pub(crate) fn come_to(
    rt: &impl Abort,
    alloc: Global,
    front: &str,
    table: &str,
) -> Result<(), Fail> {
    for row in table.lines() {
        if !row.starts_with("# ") {
            comes_to(rt, alloc, front, row)?;
        }
    }
    Ok(())
}

// A text of one variable and two goals, of 57 bytes, behind which more statements can stand.
const FRONT: &str = "kaos 1; var a: bool; goal P: always a; goal Q: always a; ";

const SYNTAX: &str = "\
a second version | kaos 1; | refused: syntax at byte 57
two iffs | goal R: always (a iff a iff a); | refused: syntax at byte 81
a missing semicolon | goal R: always a | refused: syntax at byte 73
a missing colon | goal R always a; | refused: syntax at byte 64
a missing formula | goal R: always; | refused: syntax at byte 71
an open parenthesis | goal R: always (a; | refused: syntax at byte 74
a missing name | refine P by Q,; | refused: syntax at byte 71
a keyword as a name | goal goal: always a; | refused: syntax at byte 62
a word that begins with a digit | goal 1a: always a; | refused: syntax at byte 62
a semicolon alone | ; | refused: syntax at byte 57
a sign that is no token | ! | refused: syntax at byte 57
a byte of no token | goal R: always \u{e4}; | refused: bad byte at 72";

#[test]
fn faults_of_syntax(rt: HostRuntime) -> Result<(), Fail> {
    come_to(&rt, rt.alloc(), FRONT, SYNTAX)
}

const WHOLE_TEXTS: &str = "\
no byte | [0 .] | refused: syntax at byte 0
no version | kaos; | refused: syntax at byte 4
no semicolon | kaos 1 | refused: syntax at byte 6
another case | Kaos 1; | refused: syntax at byte 0
all in a comment | # kaos 1; | refused: syntax at byte 9
a bad byte | kaos 1; $ | refused: bad byte at 8
a formula that is cut off | kaos 1; var a: bool; goal G: always (a or | refused: syntax at byte 41
a text cut off behind a parenthesis | kaos 1; var a: bool; var b: bool; goal P: always (a or b) | refused: syntax at byte 57
a text without its last semicolon | kaos 1; var a: bool; var b: bool; goal P: always (a or b); goal Q: always a; refine P by Q | refused: syntax at byte 90
another version | kaos 3; | refused: syntax at byte 5
a keyword of the second version as a name | kaos 2; var all: bool; | refused: syntax at byte 12
an entity type in the first version | kaos 1; entity E: { e }; | refused: syntax at byte 8
501 operators and parentheses | kaos 1; var a: bool; goal P: always [500 (]a[500 )]; goal Q: always a; refine P by Q; | refused: limit Operators
500 operators | kaos 1; var a: bool; goal P: always [499 not ]a; goal Q: always a; refine P by Q; | refused: limit Depth
501 operators | kaos 1; var a: bool; goal P: always [500 not ]a; goal Q: always a; refine P by Q; | refused: limit Operators
a range of 65 values | kaos 1; var x: 0..64; | refused: statement 2: BadRange x
a name of 41 bytes | kaos 1; var [41 n]: bool; | refused: limit NameLength
a text of 1048577 bytes | kaos 1;[1048570  ] | refused: longer than 1048576 bytes";

#[test]
fn whole_texts(rt: HostRuntime) -> Result<(), Fail> {
    come_to(&rt, rt.alloc(), "", WHOLE_TEXTS)
}
