//! The engine: whether a list of formulas has a trace, decided by the tableau of its cores, with a
//! certificate or a lasso as evidence.
#![tactic(auto)]

mod engine;
mod law;
mod query;

pub use engine::Engine;
pub use law::law_of_queries;
pub use query::query_of;
