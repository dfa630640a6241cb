//! The check of a certificate that no trace meets a query, for whoever trusts nothing else: what
//! passes is valid, and what does not has its first bad node named, with the first cause.
#![tactic(auto)]

mod checking;
mod kids;
mod node_shape;
mod reason;
mod why;

pub use checking::{check, check_range};
pub use why::{BadMark, Why};
