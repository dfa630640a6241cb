//! Conflicts of goals: the demands of one, and what these mean of its goals and its boundary condition (van Lamsweerde, Darimont and Letier
//! 1998). For whoever answers conflicts, or looks for boundary conditions.
#![tactic(auto)]

mod demand;
mod law;

pub use demand::conflict_demands;
pub use law::law_of_conflicts;
