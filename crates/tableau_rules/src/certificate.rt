//! Certificates that no trace meets a query: nodes of its tableau, each eliminated for a reason, the
//! first of them the root.

use crate::node::Node;
use smallvec::SmallVec;

/// Why a node is eliminated.
#[derive(Clone, Copy, Debug, PartialEq, Eq)]
pub enum Reason {
    /// Its own rule is a clash.
    Clash,
    /// Each of its kids is eliminated before it.
    Dead,
    /// It carries the until of this number, which is put off for ever.
    Wait(u16),
}

/// When and why a node is eliminated.
#[derive(Clone, Copy, Debug, PartialEq, Eq)]
pub struct Mark {
    /// Nodes of a lower rank are eliminated before it.
    pub rank: u32,
    /// Why it is eliminated.
    pub reason: Reason,
}

/// A node of a certificate.
#[derive(Drop)]
pub struct CertNode {
    /// What is asked.
    pub node: Node,
    /// Where in the certificate its kids stand, in their order.
    pub kids: SmallVec<u32, 2>,
    /// When and why it is eliminated.
    pub mark: Mark,
}

/// A certificate: the root of a query, and all nodes that it leads to.
#[derive(Drop)]
pub struct Cert {
    /// The nodes, the root first.
    pub nodes: Vec<CertNode>,
}
