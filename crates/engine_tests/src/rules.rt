//! The rules of nodes and their kids. Nodes are written as in a line of a certificate.

ghost use Rattle.std.specs.Prelude.{◌≡◌, ◌<◌, length, IsTrue};
ghost use Rattle.formula_table.specs.Closures.{closure_of};
ghost use Rattle.tableau_rules.specs.NodeView.{AreNumbersBelow};
ghost use Rattle.tableau_rules.specs.QueryView.{cores_in};

use crate::reading::{asked, cut, space};
use elimination_cert::read_cert;
use state_space::Space;
use std::alloc::Global;
use std::process::Abort;
use std::test::Fail;
use tableau_rules::{Bits, Cert, CertNode, Node, Query, is_kid, is_root, kid, root, rule};

const VARIABLES: &str = "var p: bool; var q: bool;";

// Goals, and below them a line for each node, the root of their query first: the kind of its rule,
// the node, and its kids.
const RULES: &str = "\
goal a: p or not p; goal b: eventually p; goal c: always not p;
One | todo 2,4,6 now - next - | todo 1,2,4 now - next 6
One | todo 0 now - next - | todo - now 0=1 next -
One | todo 0 now 0=1 next - | todo - now 0=1 next -
One | todo 1 now - next - | todo - now 0=0 next -
One | todo 1 now 0=1 next - | todo - now 0= next -
Two | todo 2 now - next - | todo 0 now - next - | todo 1 now - next -
One | todo 2 now 0=1 next - | todo - now 0=1 next -
FulfilOrWait(4) | todo 4 now - next - | todo 0 now - next - | todo 3 now - next 4
FulfilOnly(4) | todo 4 now 0=1 next - | todo 0 now 0=1 next -
WaitOnly(4) | todo 4 now 0=0 next - | todo 3 now 0=0 next 4
One | todo 6 now - next - | todo 1 now - next 6
One | todo 6 now 0=1 next - | todo 1 now 0=1 next 6
One | todo 3 now - next 4 | todo - now - next 4
Clash | todo 5 now - next -
Clash | todo 4 now 0= next -
Step | todo - now 0=1 next 4,6 | todo 4,6 now - next -

goal a: eventually p; goal b: always not p;
One | todo 2,5 now - next - | todo 2,4 now - next 5

goal a: q and next p; goal b: q release p; goal c: q or p;
One | todo 3,4,5 now - next - | todo 0,2,4,5 now - next -
One | todo 2 now - next - | todo - now - next 1
Two | todo 4 now - next - | todo 0,1 now - next - | todo 1 now - next 4
One | todo 4 now 1=1 next - | todo 0,1 now 1=1 next -
One | todo 4 now 1=0 next - | todo 1 now 1=0 next 4
One | todo 5 now 1=0 next - | todo 1 now 1=0 next -
One | todo 5 now 0=0 next - | todo 0 now 0=0 next -";

// The nodes of a row, as those of a certificate.
fn nodes(alloc: Global, space: &Space, row: &str) -> Result<Cert, Fail> {
    let count = row.split(" | ").count();
    let lines = row.replace(alloc, " | ", " kids -\n0 clash ")?;
    let text = format!(in alloc; "certificate {count}\n0 clash {lines} kids -\n")?;
    Ok(read_cert(alloc, space, text.as_bytes())?)
}

// Whether each number of the set is below the bound.
#[tactic(auto, using(crate::proofs::Numbers::all_below))]
fn are_below(set: &Bits, bound: u16) -> bool
    ensures below { IsTrue result → AreNumbersBelow bound set.now }
{
    match set.least_from(bound) {
        Some(_) => false,
        None => true,
    }
}

// Compares the kids of a node with those of a row.
fn compare_kids(
    rt: &impl Abort,
    alloc: Global,
    space: &Space,
    query: &Query,
    entry: &CertNode,
    kids: &[CertNode],
) -> Result<(), Fail>
    requires todo { AreNumbersBelow (length (closure_of (cores_in query.now))) entry.now.node.todo }
{
    let count = rule(query, &entry.node).kid_count();
    assert_eq!(rt; kids.len(), usize::from(count));
    for which in 0..count {
        let made = kid(alloc, space, query, &entry.node, which)?;
        assert!(rt; made == kids[usize::from(which)].node, "kid {which}");
        assert!(rt;
            is_kid(space, query, &entry.node, which, &made),
            "kid {which}"
        );
        assert!(rt;
            !is_kid(space, query, &entry.node, which + 1, &made),
            "kid {which}"
        );
    }
    Ok(())
}

// Compares a node's rule, and whether the node is the root.
fn compare_rule(
    rt: &impl Abort,
    alloc: Global,
    space: &Space,
    query: &Query,
    node: &Node,
    kind: &str,
    is_first: bool,
) -> Result<(), Fail>
    requires todo { AreNumbersBelow (length (closure_of (cores_in query.now))) node.now.todo }
{
    let text = format!(in alloc; "{:?}", rule(query, node))?;
    assert_eq!(rt; text.as_str(), kind);
    assert_eq!(rt; is_root(space, query, node), is_first);
    assert_eq!(rt; *node == root(alloc, space, query)?, is_first);
    Ok(())
}

// Compares the rule and the kids of a row's node. The first row has the root.
fn compare(
    rt: &impl Abort,
    alloc: Global,
    space: &Space,
    query: &Query,
    row: &str,
    is_first: bool,
) -> Result<(), Fail> {
    let (kind, row) = cut(row)?;
    let cert = nodes(alloc, space, row)?;
    let (entry, kids) = cert.nodes.split_first().ok_or("a row without a node")?;
    assert!(rt; are_below(&entry.node.todo, query.len()), "{row}");
    compare_rule(rt, alloc, space, query, &entry.node, kind, is_first)?;
    compare_kids(rt, alloc, space, query, entry, kids)
}

// Compares the rows of one query.
fn compare_rows(
    rt: &impl Abort,
    alloc: Global,
    space: &Space,
    query: &Query,
    rows: &str,
) -> Result<(), Fail> {
    for (place, row) in rows.lines().enumerate() {
        compare(rt, alloc, space, query, row, place == 0)?;
    }
    Ok(())
}

// Compares the rows of a part of the table.
fn compare_part(rt: &impl Abort, alloc: Global, part: &str) -> Result<(), Fail> {
    let (goals, rows) = part.split_once("\n").ok_or("goals without a row")?;
    let (model, query) = asked(rt, alloc, VARIABLES, goals)?;
    compare_rows(rt, alloc, space(&model), &query, rows)
}

#[test]
fn rules_and_kids(rt: HostRuntime) -> Result<(), Fail> {
    for part in RULES.split("\n\n") {
        compare_part(&rt, rt.alloc(), part)?;
    }
    Ok(())
}
