//! The places of a node's kids, and what a certificate has there: each is to be the kid that the
//! rule makes. A kid is told from the node that is there, and never made, so that no memory is
//! taken.

ghost use Rattle.std.specs.Prelude.{◌≡◌, ℕ, ◌≤◌, ◌<◌, nat_lt, length, slice_index};
ghost use Rattle.state_space.specs.Members.{full_of};
ghost use Rattle.state_space.specs.Spaces.{sizes};
ghost use Rattle.formula_table.specs.Closures.{closure_of};
ghost use Rattle.tableau_rules.specs.Nodes.{kids};
ghost use Rattle.tableau_rules.specs.NodeView.{node_of, AreNumbersBelow};
ghost use Rattle.tableau_rules.specs.QueryView.{cores_in};
ghost use Rattle.cert_checker.specs.declared.why.Why.TheVariants.{KidPlace};
ghost use Rattle.cert_checker.specs.Causes.{first_bad, first_wrong};
ghost use Rattle.cert_checker.specs.Entries.{entries_of};

use crate::why::Why;
use state_space::Space;
use tableau_rules::{CertNode, Node, Query, is_kid};

/// The first kid whose place is not below the count.
pub(crate) fn bad_place(count: usize, kids: &[u32]) -> Option<Why>
    requires { length kids.now ≤ 255 }
    ensures { result ≡ first_bad (λ p. nat_lt p count) KidPlace 0 kids.now }
{
    for (k, p) in kids.iter().enumerate() {
        if *p as usize >= count {
            return Some(Why::KidPlace(k as u8));
        }
    }
    None
}

/// The first kid that is not at its place.
pub(crate) fn wrong_kid(
    space: &Space,
    query: &Query,
    cert: &[CertNode],
    node: &Node,
    places: &[u32],
) -> Option<Why>
    requires todo { AreNumbersBelow (length (closure_of (cores_in query.now))) node.now.todo }
    requires few { length places.now ≤ 255 }
    requires count { length places.now ≡ length (kids (closure_of (cores_in query.now)) (full_of (sizes space.now)) (node_of node.now)) }
    requires places { (k : ℕ) → k < length places.now → slice_index places.now k < length cert.now }
    ensures { result ≡ first_wrong (entries_of cert.now) 0 places.now (kids (closure_of (cores_in query.now)) (full_of (sizes space.now)) (node_of node.entry.now)) }
{
    for k in 0..places.len() {
        let held = &cert[places[k] as usize];
        if !is_kid(space, query, node, k as u8, &held.node) {
            return Some(Why::WrongKid(k as u8));
        }
    }
    None
}
