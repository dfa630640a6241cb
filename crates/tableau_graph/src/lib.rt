//! Exploration: all nodes that the root of a query leads to, or word that they are more than a
//! budget.
#![tactic(auto)]

mod exploration;
mod joining;

pub use exploration::{Explored, explore};
