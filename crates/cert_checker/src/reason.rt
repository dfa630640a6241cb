//! Whether the reason holds for which a node is eliminated, from its own rule and the marks of its
//! kids alone: each kid was eliminated before the node, or waits with it for the same until. The
//! one in which that until is fulfilled may not wait with it.

ghost use Rattle.std.specs.Prelude.{◌≡◌, ℕ, ◌==◌, ◌&&◌, ◌≤◌, ◌<◌, length, slice_get};
ghost use Rattle.formula_table.specs.Closures.{formula_at, closure_of};
ghost use Rattle.tableau_rules.specs.Certificates.{is_until};
ghost use Rattle.tableau_rules.specs.Rules.{Rule, is_clash, fulfils};
ghost use Rattle.tableau_rules.specs.NodeView.{AreNumbersBelow};
ghost use Rattle.tableau_rules.specs.QueryView.{cores_in};
ghost use Rattle.tableau_rules.specs.Kinds.{kind_of};
ghost use Rattle.tableau_rules.specs.CertView.{reason_of};
ghost use Rattle.cert_checker.specs.declared.why.Why.TheVariants.{NotLower, KidLeaves};
ghost use Rattle.cert_checker.specs.Causes.{first_bad, is_wait, is_lower, stays, is_first_lower, reason_cause};
ghost use Rattle.cert_checker.specs.Entries.{entry_by, entries_of};

use crate::why::Why;
use tableau_rules::{CertNode, Mark, Node, Query, Reason, RuleKind, rule};

// Whether what stands at the place is eliminated before the rank.
fn is_lower(cert: &[CertNode], rank: u32, place: u32) -> bool
    ensures { result ≡ is_lower rank (slice_get (entries_of cert.now) place) }
{
    match cert.get(place as usize) {
        Some(held) => held.mark.rank < rank,
        None => true,
    }
}

// The first kid that is not eliminated before the rank.
fn not_lower(cert: &[CertNode], rank: u32, kids: &[u32]) -> Option<Why>
    requires { length kids.now ≤ 255 }
    ensures { result ≡ first_bad (λ p. is_lower rank (slice_get (entries_of cert.now) p)) NotLower 0 kids.now }
{
    for (k, p) in kids.iter().enumerate() {
        if !is_lower(cert, rank, *p) {
            return Some(Why::NotLower(k as u8));
        }
    }
    None
}

// Whether the until of this number is put off.
fn is_wait(reason: Reason, e: u16) -> bool
    ensures { result ≡ is_wait e (reason_of reason) }
{
    match reason {
        Reason::Wait(f) => f == e,
        _ => false,
    }
}

// Whether what stands at the place is eliminated before the rank, or waits at it for the same until.
fn stays(cert: &[CertNode], rank: u32, e: u16, place: u32) -> bool
    ensures { result ≡ stays rank e (slice_get (entries_of cert.now) place) }
{
    match cert.get(place as usize) {
        Some(held) => {
            held.mark.rank < rank || (held.mark.rank == rank && is_wait(held.mark.reason, e))
        }
        None => true,
    }
}

// The first kid that neither is eliminated before the rank nor waits for the same until.
fn leaving(cert: &[CertNode], rank: u32, e: u16, kids: &[u32]) -> Option<Why>
    requires { length kids.now ≤ 255 }
    ensures { result ≡ first_bad (λ p. stays rank e (slice_get (entries_of cert.now) p)) KidLeaves 0 kids.now }
{
    for (k, p) in kids.iter().enumerate() {
        if !stays(cert, rank, e, *p) {
            return Some(Why::KidLeaves(k as u8));
        }
    }
    None
}

// Whether the first kid is eliminated before the rank. That is asked of a kid that fulfils an
// until: it may ask for it again later, and if it might wait too, `always next eventually p` would
// be eliminated.
fn is_first_lower(cert: &[CertNode], rank: u32, kids: &[u32]) -> bool
    ensures { result ≡ is_first_lower (entries_of cert.now) rank kids.now }
{
    if kids.is_empty() {
        true
    } else {
        is_lower(cert, rank, kids[0])
    }
}

// Whether the rule is a clash.
fn is_clashing(kind: RuleKind) -> bool
    ensures { (f : ℕ) (r : Rule) → kind ≡ kind_of f r → result ≡ is_clash r }
{
    matches!(kind, RuleKind::Clash)
}

// Whether the until of this number is what the node works on, and is fulfilled in its first kid.
fn is_fulfilling(kind: RuleKind, e: u16) -> bool
    ensures { (f : ℕ) (r : Rule) → kind ≡ kind_of f r → result ≡ (f == e && fulfils r) }
{
    match kind {
        RuleKind::FulfilOnly(f) | RuleKind::FulfilOrWait(f) => f == e,
        _ => false,
    }
}

// Whether the query has a formula of this number, and it is an until.
fn is_until(query: &Query, number: u16) -> bool
    ensures { result ≡ is_until (formula_at (closure_of (cores_in query.now)) number) }
{
    if number < query.len() {
        query.is_until(number)
    } else {
        false
    }
}

/// Why the node's reason does not hold.
pub(crate) fn reason_cause(
    query: &Query,
    cert: &[CertNode],
    node: &Node,
    kids: &[u32],
    mark: Mark,
) -> Option<Why>
    requires todo { AreNumbersBelow (length (closure_of (cores_in query.now))) node.now.todo }
    requires few { length kids.now ≤ 255 }
    ensures { result ≡ reason_cause (closure_of (cores_in query.now)) (entries_of cert.now) (entry_by node.entry.now kids.now mark) (reason_of mark.reason) }
{
    let kind = rule(query, node);
    let clash = is_clashing(kind);
    match mark.reason {
        Reason::Clash => { if clash { None } else { Some(Why::NotClash) } }
        Reason::Dead => {
            if clash {
                Some(Why::NotLower(0))
            } else {
                not_lower(cert, mark.rank, kids)
            }
        }
        Reason::Wait(e) => {
            if !is_until(query, e) || clash {
                return Some(Why::NotUntil);
            }
            if !node.todo.has(e) && !node.next.has(e) {
                return Some(Why::NotCarried);
            }
            if let Some(why) = leaving(cert, mark.rank, e, kids) {
                return Some(why);
            }
            if is_fulfilling(kind, e) && !is_first_lower(cert, mark.rank, kids) {
                return Some(Why::FulfilNotLower);
            }
            None
        }
    }
}
