//! Elimination: which nodes of a query's whole graph can be part of no lasso. Either the root is
//! among them, and their ranks and reasons make a certificate that no trace meets the query, or it
//! stays, with enough others to build a lasso from. How levels towards a fulfilment are found does
//! not stand here but in tableau_rules, beside the links of a graph.
#![tactic(auto)]

mod cause;
mod certify;
mod elimination;
mod group;
mod kill;
mod linked_graph;
mod marks;
mod outcome;
mod place;
mod right;
mod round;
mod walk;

pub use elimination::eliminate;
pub use outcome::Outcome;
