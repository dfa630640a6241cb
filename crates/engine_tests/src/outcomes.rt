//! What elimination leaves of whole graphs: the places that stay, or a certificate, whose ranks tell
//! in which order the places went.

ghost use Rattle.std.specs.Prelude.{◌≡◌, ◌≤◌, All, length};
ghost use Rattle.state_space.specs.Spaces.{sizes};
ghost use Rattle.tableau_rules.specs.CertView.{cert_of};
ghost use Rattle.tableau_rules.specs.Graphs.{IsWhole};
ghost use Rattle.tableau_rules.specs.GraphView.{graph_of};
ghost use Rattle.tableau_rules.specs.QueryView.{cores_in};

use crate::reading::{asked, space};
use elimination_cert::cert_text;
use state_space::Space;
use std::alloc::Global;
use std::process::Abort;
use std::test::Fail;
use tableau_elimination::{Outcome, eliminate};
use tableau_graph::{Explored, explore};
use tableau_rules::{Cert, Graph, Query};

const VARIABLES: &str = "var p: bool; var q: bool;";

// Goals, and below them the outcome.
const OUTCOMES: &str = "\
# nothing is asked
stays [true]

goal a: false;
certificate 1
0 clash todo 0 now - next - kids -

goal a: eventually p;
stays [true, true, true, true, true, true]

goal a: p or (q and not q);
stays [true, true, false, true, false, true, false, false]

goal a: eventually p; goal b: always not p;
certificate 5
0 wait 2 todo 2,5 now - next - kids 1
0 wait 2 todo 2,4 now - next 5 kids 2
0 wait 2 todo 2 now 0=0 next 5 kids 3
0 wait 2 todo 0 now 0=0 next 2,5 kids 4
0 wait 2 todo - now 0=0 next 2,5 kids 0

goal a: (eventually p and always not p) or (q and not q);
certificate 11
10 dead todo 10 now - next - kids 1,2
5 dead todo 6 now - next - kids 3
9 dead todo 9 now - next - kids 4
0 wait 2 todo 2,5 now - next - kids 5
8 dead todo 7,8 now - next - kids 6
0 wait 2 todo 2,4 now - next 5 kids 7
7 dead todo 8 now 1=1 next - kids 8
0 wait 2 todo 2 now 0=0 next 5 kids 9
6 clash todo - now 1= next - kids -
0 wait 2 todo 0 now 0=0 next 2,5 kids 10
0 wait 2 todo - now 0=0 next 2,5 kids 3";

// The text of a certificate over the space.
fn text_of(alloc: Global, space: &Space, cert: &Cert) -> Result<String, Fail>
    requires over { All (λ c. length c.node.now ≡ length (sizes space.now)) (cert_of cert.now) }
{
    Ok(String::from_utf8(cert_text(alloc, space, cert)?)?)
}

// What is shown of the outcome: the certificate, or the places that stay.
fn shown(alloc: Global, space: &Space, query: &Query, graph: &Graph) -> Result<String, Fail>
    requires few { length (graph_of graph.now) ≤ 1000 }
    requires whole { IsWhole (sizes space.now) (cores_in query.now) (graph_of graph.now) }
{
    match eliminate(alloc, query, graph)? {
        Outcome::RootGone(cert) => text_of(alloc, space, &cert),
        Outcome::RootStays(stays) => Ok(format!(in alloc; "stays {:?}", stays.as_slice())?),
    }
}

// What is shown of the outcome for a query whose graph has at most 1,000 nodes.
fn outcome(alloc: Global, space: &Space, query: &Query) -> Result<String, Fail> {
    match explore(alloc, space, query, 1000)? {
        Explored::Over(_) => Ok(String::new(alloc)),
        Explored::Whole(graph) => shown(alloc, space, query, &graph),
    }
}

// Compares the outcome for a query.
fn compare(
    rt: &impl Abort,
    alloc: Global,
    space: &Space,
    query: &Query,
    expected: &str,
) -> Result<(), Fail> {
    let text = outcome(alloc, space, query)?;
    assert_eq!(rt; text.trim_end(), expected);
    Ok(())
}

// Compares the outcome for the query of a part of the table.
fn compare_part(rt: &impl Abort, alloc: Global, part: &str) -> Result<(), Fail> {
    let (goals, expected) = part.split_once("\n").ok_or("goals without an outcome")?;
    let (model, query) = asked(rt, alloc, VARIABLES, goals)?;
    compare(rt, alloc, space(&model), &query, expected)
}

#[test]
fn outcomes(rt: HostRuntime) -> Result<(), Fail> {
    for part in OUTCOMES.split("\n\n") {
        compare_part(&rt, rt.alloc(), part)?;
    }
    Ok(())
}
