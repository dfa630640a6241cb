//! Why a certificate is not valid, for whoever has to find the fault: the first bad node, and the
//! first cause in the order of these variants. Kids are counted from 0, and nodes too.

/// Why a node is bad. A number is that of a kid.
#[derive(Clone, Copy, Debug, PartialEq, Eq)]
pub enum Why {
    /// The certificate has no node.
    NoRoot,
    /// The first node is not the root of the query.
    NotRoot,
    /// A formula has no such number, or the sets are not one for each variable, of its indexes.
    BadShape,
    /// The node has more kids, or fewer.
    KidCount,
    /// The certificate ends before the kid's place.
    KidPlace(u8),
    /// At the kid's place is another node.
    WrongKid(u8),
    /// The node is said to clash, and does not.
    NotClash,
    /// The kid is not eliminated before the node, or the node clashes.
    NotLower(u8),
    /// What is said to be put off is no until, or the node clashes.
    NotUntil,
    /// The node does not carry the until.
    NotCarried,
    /// The kid is not eliminated before the node, and does not wait with it.
    KidLeaves(u8),
    /// The kid in which the until is fulfilled is not eliminated before the node.
    FulfilNotLower,
}

/// A bad node of a certificate.
#[derive(Clone, Copy, Debug, PartialEq, Eq)]
pub struct BadMark {
    /// Where the node stands.
    pub node: u32,
    /// The first cause for which it is bad.
    pub why: Why,
}
