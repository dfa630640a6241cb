//! What an elimination answers: the root is gone or stays, each with enough to show it to somebody
//! who did not look on.

use tableau_rules::Cert;

/// Whether the root of a graph is gone, with what shows it.
#[derive(Drop)]
pub enum Outcome {
    /// No trace meets the query, as the certificate shows.
    RootGone(Cert),
    /// The places that stay, from which a lasso can be built.
    RootStays(Vec<bool>),
}
