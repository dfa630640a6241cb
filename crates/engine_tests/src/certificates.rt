//! Texts of certificates that are read and written again, texts that are none, and what the check
//! says of certificates: a good one, and one or more that are bad for each cause.

use crate::reading::{asked, cut, model, space};
use cert_checker::{BadMark, check, check_range};
use elimination_cert::{CertRefusal, cert_text, read_cert};
use state_space::{Space, Values};
use std::alloc::Global;
use std::process::Abort;
use std::test::Fail;
use tableau_rules::{Cert, Query};

const VARIABLES: &str = "var p: bool;";

// The goals that WAITING shows to have no trace.
const CONTRADICTION: &str = "goal a: eventually p; goal b: always not p;";

// The nodes of a certificate of the contradiction.
const WAITING: &str = "\
0 wait 2 todo 2,5 now - next - kids 1
0 wait 2 todo 2,4 now - next 5 kids 2
0 wait 2 todo 2 now 0=0 next 5 kids 3
0 wait 2 todo 0 now 0=0 next 2,5 kids 4
0 wait 2 todo - now 0=0 next 2,5 kids 0
";

// The same, where the third node has a higher rank.
const RAISED: &str = "\
0 wait 2 todo 2,5 now - next - kids 1
0 wait 2 todo 2,4 now - next 5 kids 2
1 wait 2 todo 2 now 0=0 next 5 kids 3
0 wait 2 todo 0 now 0=0 next 2,5 kids 4
0 wait 2 todo - now 0=0 next 2,5 kids 0
";

// These goals carry the eventuality again after each fulfilment.
const AGAIN: &str = "goal a: always next eventually p; goal b: eventually p;";

// The nodes of a certificate that says falsely of each node of theirs that it waits: its spelling is
// right.
const CARRIED_AGAIN: &str = "\
0 wait 3 todo 3,5 now - next - kids 1
0 wait 3 todo 3,4 now - next 5 kids 2
0 wait 3 todo 3 now - next 3,5 kids 3,4
0 wait 3 todo 2 now - next 3,5 kids 5
0 wait 3 todo 1 now - next 3,5 kids 6
0 wait 3 todo - now 0=1 next 3,5 kids 0
0 wait 3 todo - now - next 3,5 kids 0
";

// Texts, in which `/` stands for a line feed and `*` for the nodes of WAITING, and the number of nodes
// that are read, or the refusal.
const TEXTS: &str = "\
certificate 5/* | 5
certificate 0/ | 0
certificate 1/7 clash todo - now 0= next 65535 kids 4294967295,0/ | 1
certificate 1/0 dead todo 0,63,64 now 0=1 next - kids -/ | 1
 | Syntax(0)
certificate 0/x/ | Syntax(14)
certificate 0 | Syntax(0)
certificate 1/ | Syntax(14)
certificate 01/ | Syntax(0)
certificate 200000/ | Syntax(19)
certificate 200001/ | TooMany(200001)
certificate 200001 | Syntax(0)
certificate 4294967296/ | Syntax(0)
certificate 1/0 clash todo 1,2 now 0= next - kids -/ | 1
certificate 1/0 clash todo 2,1 now - next - kids -/ | Syntax(14)
certificate 1/0 clash todo 1,1 now - next - kids -/ | Syntax(14)
certificate 1/0 clash todo 1 now 0=0+1 next - kids -/ | Syntax(14)
certificate 1/0 clash todo 1 now 1=0 next - kids -/ | Syntax(14)
certificate 1/0 clash todo 1 now 0=2 next - kids -/ | Syntax(14)
certificate 1/0 clash todo 1 now - next - kids 0,1,2/ | Syntax(14)
certificate 1/00 clash todo 1 now - next - kids -/ | Syntax(14)
certificate 1/0 clash todo 65536 now - next - kids -/ | Syntax(14)
certificate 1/0 clash todo 1 now - next - kids - | Syntax(14)
certificate 1/0 clash todo 1 now - next - kids -// | Syntax(49)
certificate 1// | Syntax(14)";

// Certificates in the same form, and what the check says of them: that they pass, or the first bad
// node and its first cause.
const CHECKS: &str = "\
certificate 5/* | passes
certificate 0/ | 0 NoRoot
certificate 1/0 wait 2 todo 2 now - next - kids 0/ | 0 NotRoot
certificate 2/0 wait 2 todo 2,5 now - next - kids 1/0 wait 2 todo 2,4 now - next - kids 1/ | 0 WrongKid(0)
certificate 6/*0 wait 2 todo 6 now - next 2,5 kids 0/ | 5 BadShape
certificate 6/*0 wait 2 todo 0 now 0=0 next 2,5 kids -/ | 5 KidCount
certificate 6/*0 wait 2 todo 0 now 0=0 next 2,5 kids 4,4/ | 5 KidCount
certificate 6/*0 wait 2 todo 0 now 0=0 next 2,5 kids 6/ | 5 KidPlace(0)
certificate 6/*0 wait 2 todo 0 now 0=0 next 2,5 kids 3/ | 5 WrongKid(0)
certificate 6/*0 clash todo 0 now 0=0 next 2,5 kids 4/ | 5 NotClash
certificate 6/*0 dead todo 0 now 0=0 next 2,5 kids 4/ | 5 NotLower(0)
certificate 6/*0 wait 5 todo 0 now 0=0 next 2,5 kids 4/ | 5 NotUntil
certificate 6/*0 wait 9 todo 0 now 0=0 next 2,5 kids 4/ | 5 NotUntil
certificate 6/*0 dead todo 3 now - next 2 kids -/ | 5 NotLower(0)
certificate 6/*0 wait 2 todo 3 now - next 2 kids -/ | 5 NotUntil
certificate 6/*0 wait 2 todo - now - next - kids 5/ | 5 NotCarried";

// The text of a row: line feeds for `/`, and nodes for `*`.
fn spelled(alloc: Global, row: &str, nodes: &str) -> Result<String, Fail> {
    let lines = row.replace(alloc, "/", "\n")?;
    Ok(lines.replace(alloc, "*", nodes)?)
}

// The certificate of a text, which is the same when it is written again.
fn read_again(
    rt: &impl Abort,
    alloc: Global,
    space: &Space,
    text: &str,
) -> Result<Cert, CertRefusal> {
    let cert = read_cert(alloc, space, text.as_bytes())?;
    let again = cert_text(alloc, space, &cert)?;
    assert!(rt; again.as_slice() == text.as_bytes(), "{text}");
    Ok(cert)
}

// Shows how many nodes are read of a text, or the refusal.
fn shown_reading(
    rt: &impl Abort,
    alloc: Global,
    space: &Space,
    text: &str,
) -> Result<String, Fail> {
    match read_again(rt, alloc, space, text) {
        Ok(cert) => Ok(format!(in alloc; "{}", cert.nodes.len())?),
        Err(refusal) => Ok(format!(in alloc; "{refusal:?}")?),
    }
}

// Compares what is read of a row.
fn compare_reading(rt: &impl Abort, alloc: Global, space: &Space, row: &str) -> Result<(), Fail> {
    let (text, expected) = cut(row)?;
    let text = spelled(alloc, text, WAITING)?;
    let shown = shown_reading(rt, alloc, space, &text)?;
    assert_eq!(rt; shown.as_str(), expected, "{row}");
    Ok(())
}

// Compares what is read of all rows.
fn compare_readings(rt: &impl Abort, alloc: Global, space: &Space) -> Result<(), Fail> {
    for row in TEXTS.lines() {
        compare_reading(rt, alloc, space, row)?;
    }
    Ok(())
}

#[test]
fn texts(rt: HostRuntime) -> Result<(), Fail> {
    let model = model(&rt, rt.alloc(), VARIABLES, "")?;
    compare_readings(&rt, rt.alloc(), space(&model))
}

// Compares what a check says: that a certificate passes, or the first bad node with its first cause.
fn compare(
    rt: &impl Abort,
    alloc: Global,
    answer: Result<(), BadMark>,
    expected: &str,
) -> Result<(), Fail> {
    let shown = match answer {
        Ok(()) => format!(in alloc; "passes")?,
        Err(bad) => format!(in alloc; "{} {:?}", bad.node, bad.why)?,
    };
    assert_eq!(rt; shown.as_str(), expected);
    Ok(())
}

// Compares what the check says of a row.
fn compare_check(
    rt: &impl Abort,
    alloc: Global,
    space: &Space,
    query: &Query,
    nodes: &str,
    row: &str,
) -> Result<(), Fail> {
    let (text, expected) = cut(row)?;
    let text = spelled(alloc, text, nodes)?;
    let cert = read_again(rt, alloc, space, &text)?;
    assert!(rt; cert.nodes.len() < 10);
    compare(rt, alloc, check(space, query, &cert), expected)
}

// Compares what the check says of all rows of a table.
fn compare_rows(
    rt: &impl Abort,
    alloc: Global,
    space: &Space,
    query: &Query,
    nodes: &str,
    table: &str,
) -> Result<(), Fail> {
    for row in table.lines() {
        compare_check(rt, alloc, space, query, nodes, row)?;
    }
    Ok(())
}

// Compares what the check says of a table of certificates that the goals have no trace.
fn compare_checks(
    rt: &impl Abort,
    alloc: Global,
    goals: &str,
    nodes: &str,
    table: &str,
) -> Result<(), Fail> {
    let (model, query) = asked(rt, alloc, VARIABLES, goals)?;
    compare_rows(rt, alloc, space(&model), &query, nodes, table)
}

#[test]
fn checks(rt: HostRuntime) -> Result<(), Fail> {
    let alloc = rt.alloc();
    compare_checks(&rt, alloc, CONTRADICTION, WAITING, CHECKS)?;
    compare_checks(
        &rt,
        alloc,
        CONTRADICTION,
        RAISED,
        "certificate 5/* | 1 KidLeaves(0)",
    )?;
    compare_checks(
        &rt,
        alloc,
        AGAIN,
        CARRIED_AGAIN,
        "certificate 7/* | 2 FulfilNotLower",
    )
}

// Compares what checks of ranges say of a certificate of six nodes, the third of which has a higher
// rank. Then its last set is changed in a way that no text spells: to one of an index outside the
// variable's range.
fn compare_ranges(
    rt: &impl Abort,
    alloc: Global,
    space: &Space,
    query: &Query,
    cert: &mut Cert,
) -> Result<(), Fail> {
    assert!(rt; cert.nodes.len() == 6);
    for (from, to, expected) in [
        (0, 0, "passes"),
        (0, 1, "passes"),
        (0, 2, "1 KidLeaves(0)"),
        (1, 5, "1 KidLeaves(0)"),
        (2, 5, "passes"),
        (2, 6, "passes"),
    ] {
        compare(
            rt,
            alloc,
            check_range(space, query, cert, from, to),
            expected,
        )?;
    }
    cert.nodes[5].node.now = vec![in alloc; Values(4)]?;
    compare(
        rt,
        alloc,
        check_range(space, query, cert, 2, 6),
        "5 BadShape",
    )
}

// Reads the certificate for the checks of ranges.
fn try_ranges(rt: &impl Abort, alloc: Global, space: &Space, query: &Query) -> Result<(), Fail> {
    let row = "certificate 6/*0 wait 2 todo 0 now 0=0 next 2,5 kids 4/";
    let text = spelled(alloc, row, RAISED)?;
    let mut cert = read_cert(alloc, space, text.as_bytes())?;
    compare_ranges(rt, alloc, space, query, &mut cert)
}

#[test]
fn ranges(rt: HostRuntime) -> Result<(), Fail> {
    let (model, query) = asked(&rt, rt.alloc(), VARIABLES, CONTRADICTION)?;
    try_ranges(&rt, rt.alloc(), space(&model), &query)
}
