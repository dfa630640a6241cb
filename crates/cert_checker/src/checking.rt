//! The check of a certificate, node by node, in one order: shape, number of kids, their places, the
//! kids there, the reason. A later test relies on those before it, so that none reads past an end.
//! Any part of the nodes can be checked apart, since no node's test needs that of another.

ghost use Rattle.std.specs.Prelude.{◌≡◌, ℕ, ◌^◌, ◌≤◌, ◌<◌, List, ◌↔◌, None, Some, IsOk, OnOk, IfErr, IsNone, length, slice_get};
ghost use Rattle.temporal_logic.specs.Truth.{Trace};
ghost use Rattle.temporal_logic.specs.Traces.{TraceFits};
ghost use Rattle.state_space.specs.Members.{full_of};
ghost use Rattle.state_space.specs.Spaces.{sizes};
ghost use Rattle.formula_table.specs.Closures.{closure_of};
ghost use Rattle.tableau_rules.specs.Nodes.{kids, root_of};
ghost use Rattle.tableau_rules.specs.NodeView.{node_of, AreNumbersBelow};
ghost use Rattle.tableau_rules.specs.QueryView.{cores_in};
ghost use Rattle.tableau_rules.specs.Queries.{MeetsAll};
ghost use Rattle.tableau_rules.specs.CertView.{cert_node_of, cert_of};
ghost use Rattle.tableau_rules.specs.Certificates.{CertNodeForm, IsValid};
ghost use Rattle.cert_checker.specs.Causes.{cause, shape_cause, count_cause, places_cause};
ghost use Rattle.cert_checker.specs.Entries.{entry_by, entries_of, IsAscending, fault_of, fault_in};

use crate::kids::{bad_place, wrong_kid};
use crate::node_shape::{has_shape, root_cause};
use crate::reason::reason_cause;
use crate::why::{BadMark, Why};
use state_space::Space;
use tableau_rules::{Cert, CertNode, Mark, Node, Query, rule};

// The first cause from the places of the kids on.
fn places_cause(
    space: &Space,
    query: &Query,
    cert: &[CertNode],
    node: &Node,
    places: &[u32],
    mark: Mark,
) -> Option<Why>
    requires todo { AreNumbersBelow (length (closure_of (cores_in query.now))) node.now.todo }
    requires few { length places.now ≤ 255 }
    requires count { length places.now ≡ length (kids (closure_of (cores_in query.now)) (full_of (sizes space.now)) (node_of node.now)) }
    ensures { result ≡ places_cause (closure_of (cores_in query.now)) (full_of (sizes space.now)) (entries_of cert.now) (entry_by node.entry.now places.now mark) }
{
    if let Some(why) = bad_place(cert.len(), places) {
        return Some(why);
    }
    if let Some(why) = wrong_kid(space, query, cert, node, places) {
        return Some(why);
    }
    reason_cause(query, cert, node, places, mark)
}

// The first cause from the number of kids on.
fn count_cause(
    space: &Space,
    query: &Query,
    cert: &[CertNode],
    node: &Node,
    places: &[u32],
    mark: Mark,
) -> Option<Why>
    requires todo { AreNumbersBelow (length (closure_of (cores_in query.now))) node.now.todo }
    ensures { result ≡ count_cause (closure_of (cores_in query.now)) (full_of (sizes space.now)) (entries_of cert.now) (entry_by node.entry.now places.now mark) }
{
    if places.len() != usize::from(rule(query, node).kid_count()) {
        return Some(Why::KidCount);
    }
    places_cause(space, query, cert, node, places, mark)
}

// The first cause from the shape on. Sets of numbers are kept in ascending order.
fn shape_cause(
    space: &Space,
    query: &Query,
    cert: &[CertNode],
    node: &Node,
    places: &[u32],
    mark: Mark,
) -> Option<Why>
    ensures cause { result ≡ shape_cause (closure_of (cores_in query.now)) (full_of (sizes space.now)) (entries_of cert.now) (entry_by node.entry.now places.now mark) }
    ensures ascending { IsNone result → IsAscending (node_of node.entry.now) }
{
    if !has_shape(space, query, node) {
        return Some(Why::BadShape);
    }
    count_cause(space, query, cert, node, places, mark)
}

// The first cause for which the node at `place` is bad.
fn cause_of(
    space: &Space,
    query: &Query,
    cert: &[CertNode],
    place: usize,
    entry: &CertNode,
) -> Option<Why>
    ensures cause { result ≡ cause (closure_of (cores_in query.now)) (full_of (sizes space.now)) (root_of (closure_of (cores_in query.now)) (full_of (sizes space.now)) (cores_in query.now)) (entries_of cert.now) place (cert_node_of entry.now) }
    ensures ascending { IsNone result → IsAscending (node_of entry.now.node) }
{
    match root_cause(space, query, place, &entry.node) {
        Some(why) => Some(why),
        None => shape_cause(
            space,
            query,
            cert,
            &entry.node,
            entry.kids.as_slice(),
            entry.mark,
        ),
    }
}

// Whether all nodes from `from` on up to, but not with, `to` are as they are to be, or else the first
// bad one with its first cause.
fn check_nodes(
    space: &Space,
    query: &Query,
    cert: &[CertNode],
    from: usize,
    to: usize,
) -> Result<(), BadMark>
    requires few { length cert.now < 2 ^ 32 }
    requires range { from ≤ to }
    requires inside { to ≤ length cert.now }
    ensures ok { OnOk result (fault_in (full_of (sizes space.now)) (cores_in query.now) (entries_of cert.now) from to ≡ None) }
    ensures err { IfErr result (λ bad. fault_in (full_of (sizes space.now)) (cores_in query.now) (entries_of cert.now) from to ≡ Some (bad.node, bad.why)) }
    ensures ascending { OnOk result ((j : ℕ) (c : CertNodeForm) → from ≤ j → j < to → slice_get (entries_of cert.now) j ≡ Some c → IsAscending c.node) }
{
    'places: for place in from..to {
        if let Some(why) = cause_of(space, query, cert, place, &cert[place]) {
            return Err(BadMark {
                node: place as u32,
                why,
            });
        }
    }
    Ok(())
}

/// Whether the nodes of a certificate from `from` on up to, but not with, `to` are as they are to
/// be, or else the first bad one of them, with the first cause for which it is bad. The range lies
/// in the certificate. It takes no memory.
pub fn check_range(
    space: &Space,
    query: &Query,
    cert: &Cert,
    from: u32,
    to: u32,
) -> Result<(), BadMark>
    requires few { length (cert_of cert.now) < 2 ^ 32 }
    requires range { from ≤ to }
    requires inside { to ≤ length (cert_of cert.now) }
    ensures ok { OnOk result (fault_in (full_of (sizes space.now)) (cores_in query.now) (cert_of cert.now) from to ≡ None) }
    ensures err { IfErr result (λ bad. fault_in (full_of (sizes space.now)) (cores_in query.now) (cert_of cert.now) from to ≡ Some (bad.node, bad.why)) }
{
    check_nodes(space, query, &cert.nodes, from as usize, to as usize)
}

/// Whether the certificate shows that no trace of the space meets the query, or else its first bad
/// node, with the first cause for which it is bad. It takes no memory.
pub fn check(space: &Space, query: &Query, cert: &Cert) -> Result<(), BadMark>
    requires { length (cert_of cert.now) < 2 ^ 32 }
    ensures exact { IsOk result ↔ IsValid (sizes space.now) (cores_in query.now) (cert_of cert.now) }
    ensures err { IfErr result (λ bad. fault_of (full_of (sizes space.now)) (cores_in query.now) (cert_of cert.now) ≡ Some (bad.node, bad.why)) }
    ensures refuted { OnOk result ((t : Trace) → TraceFits (sizes space.now) t → ¬ (MeetsAll t (cores_in query.now))) }
{
    if cert.nodes.is_empty() {
        return Err(BadMark {
            node: 0,
            why: Why::NoRoot,
        });
    }
    check_nodes(space, query, &cert.nodes, 0, cert.nodes.len())
}
