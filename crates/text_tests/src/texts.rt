//! Statements as they are read and written again, by hand from the grammar and the rules of
//! spacing.

use crate::cells::same;
use model_text::{TextRefusal, model_text, read_model};
use model_tokens::lex;
use std::alloc::Global;
use std::process::Abort;
use std::test::Fail;

// A statement of each form but the version, as it is written.
const FORMS: &str = "\
var a: bool;
var door: bool;
var m: {u, v};
var mode: {idle, busy, down};
var n: -2..5;
domain d: always a;
rule r: a iff b entails eventually c;
goal g: a entails b;
obstacle o: eventually not a;
refine g by h, k;
refine g by h, k using milestone;
refine g by h, k, l using milestone;
obstruct g by o;
conflict c: g, h boundary a and b;
agent p;
agent p monitors a, b controls c;
agent p controls c;
assign g to p;
expect g of p;
operation o by p dompre a dompost not a;
operation o by p dompre a dompost b;
require r on o pre a;
require r on o trig a;
require r on o post a;
operationalise g by r, s;
operationalise g by r exact;
trace t: loop {};
trace t: {a = true, n = -3} {} loop {m = u};
trace t: {x = 1, y = true} {} loop {x = up} {x = -3};
";

// Statements, and how they are written where that is another text.
const SPACES: &str = "\
var n : -5 .. 3; | var n: -5..3;
var n: -5..-3;
var m:{u , v}; | var m: {u, v};
agent h controls u,v; | agent h controls u, v;
refine g by h , k using milestone; | refine g by h, k using milestone;
trace T:{a=true}loop{a=false,n=3}{}; | trace T: {a = true} loop {a = false, n = 3} {};
goal g:x   in{u,v} ; | goal g: x in {u, v};
goal g: n<=007; | goal g: n <= 7;
goal g: n!=-5; | goal g: n != -5;
goal g: n<=5 and n>=3; | goal g: n <= 5 and n >= 3;
goal g: n<5 and n>3; | goal g: n < 5 and n > 3;
";

// Formulas with more parentheses than they need, and how they are written.
const FORMULAS: &str = "\
goal g: a or (b and c); | goal g: a or b and c;
goal g: (a and b) or c; | goal g: a and b or c;
goal g: (a or b) or c; | goal g: a or b or c;
goal g: (a and b) and c; | goal g: a and b and c;
goal g: a and (b and c);
goal g: a and (b or c);
goal g: a implies (b implies c); | goal g: a implies b implies c;
goal g: (a implies b) implies c;
goal g: (a implies b) implies true;
goal g: (a iff b) entails c; | goal g: a iff b entails c;
goal g: (not a) and b; | goal g: not a and b;
goal g: (not (a)) or b; | goal g: not a or b;
goal g: not (a or b);
goal g: (always a) or b; | goal g: always a or b;
goal g: eventually (next a); | goal g: eventually next a;
goal g: (a until b) and c; | goal g: a until b and c;
goal g: a unless (not b); | goal g: a unless not b;
goal g: (a release b) or c; | goal g: a release b or c;
goal g: (a until within 2 b) and (c entails d); | goal g: a until within 2 b and (c entails d);
goal g: (a); | goal g: a;
goal g: always within 3 (p); | goal g: always within 3 p;
";

// Bounds, comparisons and values.
const ATOMS: &str = "\
goal g: always within 0 a;
goal g: always within 100 a;
goal g: eventually within 2 a;
goal g: a until within 12 b;
goal g: a unless within -0 b; | goal g: a unless within 0 b;
goal g: a release within 007 b; | goal g: a release within 7 b;
goal g: a = b;
goal g: a != -5;
goal g: a < 1000000000;
goal g: a <= -1000000000;
goal g: a > true;
goal g: a >= false;
goal g: a in { b, 3, true }; | goal g: a in {b, 3, true};
goal g: not (a in { b }); | goal g: not a in {b};
goal g: true or false;
";

// What only version 2 has.
const SECOND: &str = "\
entity T: {a, b};
entity U:{c,d , e}; | entity U: {c, d, e};
attr f of T: bool;
attr h of U: {u, v};
attr n of T: -2..5;
goal g: f (a);
goal g: all x: T (f (x));
goal g: some x: T (not f (x));
goal g: all x: T (f(x) = f (a)); | goal g: all x: T (f (x) = f (a));
goal g:all x:T(some y:U(f( x )!=h(y))); | goal g: all x: T (some y: U (f (x) != h (y)));
goal g: n (x) <= -3 or n (x) > true;
goal g: a = f (b);
goal g: h(x)in{u,3,true}; | goal g: h (x) in {u, 3, true};
goal g: not all x: T (f (x));
goal g: (all x: T (f (x))) until p; | goal g: all x: T (f (x)) until p;
goal g: all x: T (f (x) and p) and q;
goal g: all x: T ((f (x) entails p)); | goal g: all x: T (f (x) entails p);
domain d: some x: T (f (x));
rule r: all x: T (f (x)) entails some y: U (h (y));
conflict c: g, h boundary some x: T (f (x));
operation o by p dompre f (a) dompost not f (b);
require r on o trig some x: T (f (x));
";

// Version 1 has the keywords of version 2 as names.
const NAMES_OF_THE_FIRST: &str = "\
var all: bool;
var some: {entity, attr};
domain entity: always (all implies some = attr);
goal all: some = entity entails eventually all;
agent attr monitors all controls some;
";

// Whole texts of version 2, and how they are written, one statement a line.
const WHOLE: &str = "\
entity Track: {t1, t2}; attr red of Track: bool; attr busy of Track: bool; goal Safe: always (all x: Track (busy(x) implies red(x))); goal S1: busy_t1 entails red_t1; goal S2: busy_t2 entails red_t2; refine Safe by S1, S2; | entity Track: {t1, t2}; attr red of Track: bool; attr busy of Track: bool; goal Safe: always all x: Track (busy (x) implies red (x)); goal S1: busy_t1 entails red_t1; goal S2: busy_t2 entails red_t2; refine Safe by S1, S2;
entity T: {a};
entity T: {a, b}; var f_a: bool; attr f of T: bool;
entity T: {a, b, c, d, e, g, h, i}; attr f of T: bool; domain D: all w: T (all x: T (all y: T (all z: T (f(z))))); | entity T: {a, b, c, d, e, g, h, i}; attr f of T: bool; domain D: all w: T (all x: T (all y: T (all z: T (f (z)))));
";

// The written form of a text.
fn rewritten(alloc: Global, version: &str, statements: &str) -> Result<Vec<u8>, Fail> {
    let text = format!(in alloc; "{version} {statements}")?;
    let raw = read_model(alloc, text.as_bytes())?;
    Ok(model_text(alloc, &raw)?)
}

// Reads a text and writes it again, which is to give the version and a second text.
fn rewrite(
    rt: &impl Abort,
    alloc: Global,
    version: &str,
    text: &str,
    written: &str,
) -> Result<(), Fail> {
    let expected = format!(in alloc; "{version}\n{written}\n")?;
    let told = rewritten(alloc, version, text)?;
    same(rt, &told, &expected, text);
    Ok(())
}

// Rewrites each row's text to the written form behind it, and that to itself. A row of one cell
// is its own written form.
fn rewrite_rows(rt: &impl Abort, alloc: Global, version: &str, rows: &str) -> Result<(), Fail> {
    for row in rows.lines() {
        let (text, written) = row.split_once(" | ").unwrap_or((row, row));
        rewrite(rt, alloc, version, text, written)?;
        rewrite(rt, alloc, version, written, written)?;
    }
    Ok(())
}

// Rewrites texts of several statements.
fn rewrite_texts(rt: &impl Abort, alloc: Global, rows: &str) -> Result<(), Fail> {
    for row in rows.lines() {
        let (text, written) = row.split_once(" | ").unwrap_or((row, row));
        let written = written.replace(alloc, "; ", ";\n")?;
        rewrite(rt, alloc, "kaos 2;", text, &written)?;
        rewrite(rt, alloc, "kaos 2;", &written, &written)?;
    }
    Ok(())
}

// What version 1 has, version 2 has too.
#[test]
fn statements(rt: HostRuntime) -> Result<(), Fail> {
    for rows in [FORMS, SPACES, FORMULAS, ATOMS] {
        rewrite_rows(&rt, rt.alloc(), "kaos 1;", rows)?;
        rewrite_rows(&rt, rt.alloc(), "kaos 2;", rows)?;
    }
    rewrite_rows(&rt, rt.alloc(), "kaos 1;", NAMES_OF_THE_FIRST)?;
    rewrite_rows(&rt, rt.alloc(), "kaos 2;", SECOND)?;
    rewrite_texts(&rt, rt.alloc(), WHOLE)?;
    rewrite(&rt, rt.alloc(), "kaos 1;", FORMS, FORMS.trim_end())
}

// Cuts a text behind each of its tokens: what comes next is missing at the end, unless the token
// ends a statement.
fn read_cut(rt: &impl Abort, alloc: Global, version: &str, statement: &str) -> Result<(), Fail> {
    let text = format!(in alloc; "{version} {statement}")?;
    for token in lex(alloc, text.as_bytes())? {
        let front = text
            .get(..token.at)
            .ok_or("a token outside its text")?
            .trim_end();
        let refusal = if front.ends_with(';') {
            None
        } else {
            Some(TextRefusal::Syntax(front.len() as u64))
        };
        assert_eq!(rt;
            read_model(alloc, front.as_bytes()).err(),
            refusal,
            "{front}"
        );
    }
    Ok(())
}

#[test]
fn cut_statements(rt: HostRuntime) -> Result<(), Fail> {
    for statement in FORMS.lines() {
        read_cut(&rt, rt.alloc(), "kaos 1;", statement)?;
        read_cut(&rt, rt.alloc(), "kaos 2;", statement)?;
    }
    for row in SECOND.lines() {
        let (text, _) = row.split_once(" | ").unwrap_or((row, row));
        read_cut(&rt, rt.alloc(), "kaos 2;", text)?;
    }
    Ok(())
}
