//! Lassos from what an elimination left: where a surviving set of a query's graph is known, a walk
//! through it that closes to a loop, and the states along the walk. They make a lasso of the space
//! that meets the query.
#![tactic(auto)]

mod builder;
mod kid;
mod level_table;
mod states;
mod walk;

pub use builder::build;
