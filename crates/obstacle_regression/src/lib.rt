//! Obstacles: the demands of an obstruction, and candidates for obstacles of a goal, found by regression over the rules of a model (van
//! Lamsweerde and Letier 2000). For whoever answers obstructions or looks for what can hinder a goal.
#![tactic(auto)]

mod candidate;
mod demand;
mod extent;
mod fingerprint;
mod law;
mod parts;
mod regression;
mod replacement;
mod rule;
mod search;
mod standing;

pub use demand::obstacle_demands;
pub use law::{law_of_obstructions, law_of_regression, law_of_replacement};
pub use regression::{Regressed, regress, regress_through};
pub use standing::{Standing, standings};
