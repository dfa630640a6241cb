//! Texts that are refused, by hand from the grammar and the limits: where a fault stands, which
//! limit is passed, and which of two causes is answered.

use crate::cells::{halves, same};
use model_text::{TextRefusal, read_model};
use std::alloc::Global;
use std::process::Abort;
use std::test::Fail;

// In each of these tables an `@` stands at the place of the fault, and is no part of the text. A
// text without one is read.

// Tokens, and texts of both versions.
const TEXTS: &str = "\
@
kaos 01; goal g: n!=-5;
kaos 1; # goal
kaos 1; #
kaos 1; # é
kaos 02; entity T: {a, b}; attr f of T: bool; goal g: all x: T (f(x) = f (a));
kaos @3;
kaos 1; @entity T: {a, b};
kaos 1; goal g: f@(x);
kaos 2; var @all: bool;
kaos 2; goal g: f (x@;
kaos 2; goal g: all x: T @f;
kaos 2; goal g: not (a) @(b);
kaos 2; goal g: all x:@
kaos 1; goal @1a: true;
kaos 1; var n: 1@.5;
kaos 1; goal g: n @! 5;
kaos 1; goal g: n = @- 5;
kaos 1; goal g: n = @-a;
kaos 1; var a: bool; goal G: always (a or@
";

// Formulas.
const FORMULAS: &str = "\
@
not@
a and@
(a@
a =@
a @b
a@)
@3 and a
a and @or b
eventually within @a
a until within @b
a until b @until c
a iff b @iff c
a entails b @entails c
(a entails b@
a in @b
a in { @}
a in { b, @}
a in { b @c }
a = @(b)
a = @= b
a = @goal
a and @! b
";

// Statements.
const STATEMENTS: &str = "\
@;
@entails
@agents a
var x @bool
var x: { @}
var x: 1 @5
rule r: a@
refine g by@
refine g by a using@
conflict c: a @boundary p
assign g @of a
operation o by a @dompost q
require r on o @p
trace t: { x = @}
trace t: { x = 1, @}
trace t: { } loop@
";

// The text of a row of marks, and its refusal.
fn marked(alloc: Global, front: &str, row: &str) -> Result<(String, Option<TextRefusal>), Fail> {
    match row.split_once('@') {
        None => Ok((format!(in alloc; "{front}{row}")?, None)),
        Some((before, behind)) => {
            let place = front.len().saturating_add(before.len()) as u64;
            let text = format!(in alloc; "{front}{before}{behind}")?;
            Ok((text, Some(TextRefusal::Syntax(place))))
        }
    }
}

// Reads each row of marks behind a text.
fn read_marked(rt: &impl Abort, alloc: Global, front: &str, rows: &str) -> Result<(), Fail> {
    for row in rows.lines() {
        let (text, refusal) = marked(alloc, front, row)?;
        let read = read_model(alloc, text.as_bytes());
        assert_eq!(rt; read.err(), refusal, "{row}");
    }
    Ok(())
}

#[test]
fn faults(rt: HostRuntime) -> Result<(), Fail> {
    read_marked(&rt, rt.alloc(), "", TEXTS)?;
    read_marked(&rt, rt.alloc(), "kaos 1; goal g: ", FORMULAS)?;
    read_marked(&rt, rt.alloc(), "kaos 2; goal g: ", FORMULAS)?;
    read_marked(&rt, rt.alloc(), "kaos 1; ", STATEMENTS)?;
    read_marked(&rt, rt.alloc(), "kaos 2; ", STATEMENTS)?;
    Ok(())
}

// What stands behind the version, and what comes of it. A part in square brackets stands as often
// as the number before it says.
const LIMITS: &str = "\
$ | BadByte(8)
aéé | BadByte(9)
goal g: [501 not ]$ | BadByte(2020)
goal g: [500 not ] | Syntax(2016)
goal g: [501 not ] | Limit(Operators)
[1999 var a: bool; ] | read
[2000 var a: bool; ] | Limit(Statements)
[512 assign a to b; ] | read
[513 assign a to b; ] | Limit(Links)
refine g by a[15 , a]; | read
refine g by a[16 , a]; | Limit(Parts)
conflict c: a[15 , a] boundary a; | read
conflict c: a[16 , a] boundary a; | Limit(Parts)
goal [40 a]: true; | read
goal [41 a]: true; | Limit(NameLength)
goal g: [40 a]; | read
goal g: [41 a]; | Limit(NameLength)
goal g: [99 not ]a; | read
goal g: [100 not ]a; | Limit(Depth)
var n: 0..1000000000; | read
var n: -0001000000000..0; | read
var n: 0..1000000001; | Limit(Number)
var n: -1000000001..0; | Limit(Number)
goal g: a <= 99999999999999999999; | Limit(Number)
goal g: always within 100 a; | read
goal g: always within -0 a; | read
goal g: always within 101 a; | Limit(Bound)
goal g: always within -1 a; | Limit(Bound)
goal g: eventually within 101 a; | Limit(Bound)
goal g: eventually within 300 a; | Limit(Bound)
goal g: a until within -1 b; | Limit(Bound)
goal g: a and (b until within 101 c); | Limit(Bound)
rule r: a entails always within 101 b; | Limit(Bound)
";

// What stands behind the version where two causes are there, and what comes of it.
const ORDER: &str = "\
goal g: [501 not ]x y | Limit(Operators)
[2000 var a: bool; ]x | Syntax(26008)
[2000 assign a to b; ] | Limit(Statements)
[513 refine g by a, a, a, a, a, a, a, a, a, a, a, a, a, a, a, a, a;] | Limit(Links)
refine g by a[16 , a]; goal a23456789012345678901234567890123456789_1: true; | Limit(Parts)
var a23456789012345678901234567890123456789_1: 0..1000000001; | Limit(NameLength)
goal g: always within 9999999999 a; | Limit(Number)
goal g: always within 101 [100 not ]a; | Limit(Bound)
";

// The same of version 2.
const SECOND: &str = "\
goal g: [125 all x: T (f (a)) and ] | Syntax(2641)
goal g: [125 all x: T (f (a)) and ]not | Limit(Operators)
goal g: [251 all x: T (] | Limit(Operators)
goal g: [251 some x: T (] | Limit(Operators)
";

// The text of a row behind another one, with its part as often as the row says.
fn repeated(alloc: Global, front: &str, row: &str) -> Result<String, Fail> {
    let Some((before, rest)) = row.split_once('[') else {
        return Ok(format!(in alloc; "{front}{row}")?);
    };
    let (inner, behind) = rest.split_once(']').ok_or("a part without an end")?;
    let (count, part) = inner.split_once(' ').ok_or("a part without a count")?;
    let parts = part.repeat(alloc, count.parse::<usize>()?)?;
    Ok(format!(in alloc; "{front}{before}{parts}{behind}")?)
}

// What comes of reading a text.
fn answer(alloc: Global, text: &str) -> Result<String, Fail> {
    match read_model(alloc, text.as_bytes()) {
        Ok(_) => Ok(String::from_str(alloc, "read")?),
        Err(refusal) => Ok(format!(in alloc; "{refusal:?}")?),
    }
}

// What comes of a row behind another text.
fn row_answer(alloc: Global, front: &str, row: &str) -> Result<String, Fail> {
    let text = repeated(alloc, front, row)?;
    answer(alloc, &text)
}

// Reads each row behind a text.
fn read_repeated(rt: &impl Abort, alloc: Global, front: &str, rows: &str) -> Result<(), Fail> {
    for row in rows.lines() {
        let (text, expected) = halves(row)?;
        let answer = row_answer(alloc, front, text)?;
        same(rt, answer.as_bytes(), expected, row);
    }
    Ok(())
}

#[test]
fn limits(rt: HostRuntime) -> Result<(), Fail> {
    read_repeated(&rt, rt.alloc(), "kaos 1; ", LIMITS)?;
    read_repeated(&rt, rt.alloc(), "kaos 1; ", ORDER)?;
    read_repeated(&rt, rt.alloc(), "kaos 2; ", LIMITS)?;
    read_repeated(&rt, rt.alloc(), "kaos 2; ", ORDER)?;
    read_repeated(&rt, rt.alloc(), "kaos 2; ", SECOND)?;
    Ok(())
}

// Bytes that are no text.
#[test]
fn bad_bytes(rt: HostRuntime) {
    for (bytes, refusal) in [
        (b"kaos 1;#\xff\n".as_slice(), None),
        (b"kaos 1;\na\xff\xff", Some(TextRefusal::BadByte(9))),
    ] {
        assert_eq!(rt; read_model(rt.alloc(), bytes).err(), refusal);
    }
}
