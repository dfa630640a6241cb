//! Refinements: the demands of one, and what these mean of its goals. For whoever answers or studies the goal graph of a model.
#![tactic(auto)]

mod assurance;
mod demand;
mod law;

pub use assurance::assured;
pub use demand::refinement_demands;
pub use law::{law_of_assurance, law_of_refinements};
