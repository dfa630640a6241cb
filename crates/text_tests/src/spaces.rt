//! Names, keywords, variables, states and value sets at the ends of their limits, and the texts of
//! values.

use crate::cells::{cell, halves, number, same};
use model_text::{StatementKind, read_model};
use state_space::{
    AddRefusal, Keyword, Name, NameRefusal, Range, Space, State, Values, VarId, has_name_form,
    keyword_of,
};
use std::alloc::Global;
use std::process::Abort;
use std::test::Fail;

/// The name and the range that a `var` statement declares.
pub(crate) fn declared(alloc: Global, statement: &str) -> Result<(Name, Range), Fail> {
    let text = format!(in alloc; "kaos 1; {statement}")?;
    let raw = read_model(alloc, text.as_bytes())?;
    let last = raw.statements.last().ok_or("no statement")?;
    match &last.kind {
        StatementKind::Var(name, range) => Ok((name.clone(alloc)?, range.clone(alloc)?)),
        _ => Err("no variable")?,
    }
}

/// The space of the variables that the lines of a text declare.
pub(crate) fn space_of(alloc: Global, lines: &str) -> Result<Space, Fail> {
    let mut space = Space::new(alloc);
    for line in lines.lines() {
        let (name, range) = declared(alloc, line)?;
        space.add(name, range)?;
    }
    Ok(space)
}

// Bytes, and whether they are a name.
const NAMES: &str = "\
a | name
 | none
Door_2 | name
all | name
a234567890123456789012345678901234567890 | name
a2345678901234567890123456789012345678901 | none
2door | none
_door | none
door-2 | none
dör | none
always | none
Always | name
";

// A keyword, and its spelling.
const KEYWORDS: [(Keyword, &str); 5] = [
    (Keyword::Kaos, "kaos"),
    (Keyword::Operationalise, "operationalise"),
    (Keyword::Dompost, "dompost"),
    (Keyword::Unless, "unless"),
    (Keyword::False, "false"),
];

#[test]
fn names(rt: HostRuntime) -> Result<(), Fail> {
    for row in NAMES.lines() {
        let (word, expected) = halves(row)?;
        let refusal = Name::new(rt.alloc(), word.as_bytes()).err();
        let is_name = refusal != Some(NameRefusal::NotAName);
        assert!(rt; is_name == (expected == "name"), "{row}");
    }
    let name = Name::new(rt.alloc(), b"door")?;
    assert!(rt; name.clone(rt.alloc())?.is_same(&name));
    Ok(())
}

#[test]
fn keywords(rt: HostRuntime) {
    for (keyword, word) in KEYWORDS {
        same(&rt, keyword.spelling(), word, word);
        assert!(rt; keyword_of(word.as_bytes()) == Some(keyword), "{word}");
        assert!(rt; has_name_form(word.as_bytes()), "{word}");
    }
}

// The answer that a cell says: the variable's number, or a refusal.
fn added(cell: &str) -> Result<Result<VarId, AddRefusal>, Fail> {
    match cell {
        "DuplicateVar" => Ok(Err(AddRefusal::DuplicateVar)),
        "BadRange" => Ok(Err(AddRefusal::BadRange)),
        "TooManyVars" => Ok(Err(AddRefusal::TooManyVars)),
        number => Ok(Ok(VarId(number.parse::<u8>()?))),
    }
}

// Adds what a statement declares.
fn add(
    alloc: Global,
    space: &mut Space,
    statement: &str,
) -> Result<Result<VarId, AddRefusal>, Fail> {
    let (name, range) = declared(alloc, statement)?;
    Ok(space.add(name, range))
}

// Adds what each row declares, for the answer behind it.
fn add_rows(rt: &impl Abort, alloc: Global, space: &mut Space, rows: &str) -> Result<(), Fail> {
    for row in rows.lines() {
        let (statement, answer) = halves(row)?;
        let expected = added(answer)?;
        let answer = add(alloc, space, statement)?;
        assert!(rt; answer == expected, "{row}");
    }
    Ok(())
}

const FIRST_VARIABLES: &str = "\
var x: 0..63; | 0
var x: 0..1; | DuplicateVar
var x: 0..64; | DuplicateVar
var y: 0..64; | BadRange
var y: 1..0; | BadRange
var y: -1..-1; | 1
var door: {shut, shut}; | BadRange
var door: {shut, open}; | 2
";

// These come when 64 variables are there.
const LAST_VARIABLES: &str = "\
var door: 1..0; | DuplicateVar
var last: 1..0; | BadRange
var last: 0..1; | TooManyVars
";

// Adds variables of two values up to 64.
fn fill(rt: &impl Abort, alloc: Global, space: &mut Space) -> Result<(), Fail> {
    for index in 3..64u8 {
        let name = Name::new(alloc, &[b'v', b'a' + index / 8, b'a' + index % 8])?;
        assert_eq!(rt; space.add(name, Range::Bool), Ok(VarId(index)));
    }
    Ok(())
}

// A space of 64 variables.
fn full_space(rt: &impl Abort, alloc: Global) -> Result<Space, Fail> {
    let mut space = Space::new(alloc);
    add_rows(rt, alloc, &mut space, FIRST_VARIABLES)?;
    fill(rt, alloc, &mut space)?;
    add_rows(rt, alloc, &mut space, LAST_VARIABLES)?;
    Ok(space)
}

#[test]
fn variables(rt: HostRuntime) -> Result<(), Fail> {
    let space = full_space(&rt, rt.alloc())?;
    assert!(rt; space.count() == 64);
    assert!(rt; space.find(b"door") == Some(VarId(2)));
    assert!(rt; space.find(b"last") == None);
    assert!(rt; space.name_of(VarId(2)).bytes() == b"door".as_slice());
    assert!(rt; space.size_of(VarId(0)) == 64 && space.size_of(VarId(1)) == 1);
    assert!(rt; space.full().first().copied() == Some(Values(u64::MAX)));
    Ok(())
}

// A range may be as wide as numbers are, and is refused then.
#[test]
fn widest_range(rt: HostRuntime) -> Result<(), Fail> {
    let widest = Range::Span {
        lo: i64::MIN,
        hi: i64::MAX,
    };
    let name = Name::new(rt.alloc(), b"y")?;
    let added = Space::new(rt.alloc()).add(name, widest);
    assert!(rt; added == Err(AddRefusal::BadRange));
    Ok(())
}

// A state of a digit for each variable.
fn state(alloc: Global, digits: &str) -> Result<State, Fail> {
    let mut values = Vec::new(alloc);
    for byte in digits.bytes() {
        values.push(byte.wrapping_sub(b'0'))?;
    }
    Ok(State { values })
}

/// The states of a text, each written as a `.` and a digit for each variable.
pub(crate) fn states(alloc: Global, text: &str) -> Result<Vec<State>, Fail> {
    let mut states = Vec::new(alloc);
    for digits in text.split('.').skip(1) {
        states.push(state(alloc, digits)?)?;
    }
    Ok(states)
}

// States, and whether they fit a space of one truth variable.
const STATES: &str = "\
.0.1 | fit
.2 | no
. | no
.00 | no
";

// Whether all states of a text fit a space.
fn all_fit(alloc: Global, space: &Space, text: &str) -> Result<bool, Fail> {
    let mut fit = true;
    for state in states(alloc, text)? {
        let clone = state.clone(alloc)?;
        fit = fit && clone.fits(space);
    }
    Ok(fit)
}

#[test]
fn states_of_a_space(rt: HostRuntime) -> Result<(), Fail> {
    let space = space_of(rt.alloc(), "var lit: bool;")?;
    for row in STATES.lines() {
        let (text, expected) = halves(row)?;
        let fit = all_fit(rt.alloc(), &space, text)?;
        assert!(rt; fit == (expected == "fit"), "{row}");
    }
    Ok(())
}

// A set as its number, the size of a range, the least member, the others below the size, and both
// together.
const SETS: &str = "\
0 | 64 | none | 18446744073709551615 | 18446744073709551615
0 | 1 | none | 1 | 1
1 | 64 | 0 | 18446744073709551614 | 18446744073709551615
1 | 1 | 0 | 0 | 1
9223372036854775808 | 64 | 63 | 9223372036854775807 | 18446744073709551615
9223372036854775808 | 1 | 63 | 1 | 9223372036854775809
18446744073709551615 | 64 | 0 | 0 | 18446744073709551615
";

// Looks at a set of which the others below a size, and both together, are given.
fn look(rt: &impl Abort, set: Values, size: u64, others: u64, both: u64) {
    assert!(rt; size <= 64);
    let rest = set.complement(size as u8);
    assert!(rt; rest.0 == others && set.join(rest).0 == both);
    assert!(rt; set.meet(rest).is_empty());
    assert!(rt; set.contains(63) == (set.0 > u64::MAX / 2));
}

#[test]
fn value_sets(rt: HostRuntime) -> Result<(), Fail> {
    for row in SETS.lines() {
        let (set, size) = (Values(number(row, 0)?), number(row, 1)?);
        let least = cell(row, 2)?.parse::<u8>().ok();
        assert!(rt; set.least() == least, "{row}");
        look(&rt, set, size, number(row, 3)?, number(row, 4)?);
    }
    assert!(rt; Values::none().0 == 0 && Values::none().with(0).0 == 1);
    assert!(rt; Values::none().with(63).0 == 1 << 63);
    Ok(())
}

// The text of a value, and of the set of the first and the last value.
fn value_texts(rt: &impl Abort, alloc: Global, range: &Range, index: u64) -> Result<Vec<u8>, Fail> {
    let size = range.size();
    assert!(rt; index < size && size <= 64);
    let mut out = Vec::new(alloc);
    range.put_value(&mut out, index as u8)?;
    out.extend_from_slice(b" of ")?;
    range.put_set(&mut out, Values::none().with(0).with(size as u8 - 1))?;
    Ok(out)
}

// A range, the index of a value, its text, and that of the set of the first and the last value.
const TEXTS: &str = "\
var v: bool; | 0 | false of {false, true}
var v: bool; | 1 | true of {false, true}
var v: {shut, ajar, open}; | 1 | ajar of {shut, open}
var v: -2..61; | 0 | -2 of {-2, 61}
var v: -2..61; | 2 | 0 of {-2, 61}
";

// The texts of a row, whose range is the same as its clone.
fn row_texts(rt: &impl Abort, alloc: Global, row: &str) -> Result<Vec<u8>, Fail> {
    let (statement, index) = (cell(row, 0)?, number(row, 1)?);
    let (_, range) = declared(alloc, statement)?;
    let clone = range.clone(alloc)?;
    assert!(rt; clone.is_same(&range));
    value_texts(rt, alloc, &clone, index)
}

#[test]
fn texts_of_values(rt: HostRuntime) -> Result<(), Fail> {
    for row in TEXTS.lines() {
        let expected = cell(row, 2)?;
        let texts = row_texts(&rt, rt.alloc(), row)?;
        same(&rt, &texts, expected, row);
    }
    let (lo, hi) = (i64::MIN, i64::MIN);
    let texts = value_texts(&rt, rt.alloc(), &Range::Span { lo, hi }, 0)?;
    let expected = "-9223372036854775808 of {-9223372036854775808}";
    same(&rt, &texts, expected, "the lowest number");
    Ok(())
}
