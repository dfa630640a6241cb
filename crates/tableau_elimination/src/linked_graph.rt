//! A query's whole graph with its links, which all files of this crate read and none changes: they
//! are handed on together, as a contract speaks of all three.

use tableau_rules::{Edges, Graph, Query};

/// A whole graph of a query, with the links of its places.
#[derive(Drop)]
pub(crate) struct LinkedGraph<'a> {
    pub(crate) query: &'a Query,
    pub(crate) graph: &'a Graph,
    pub(crate) links: &'a [Edges],
}
