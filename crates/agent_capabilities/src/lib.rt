//! What agents are capable of: whether the variables that an agent monitors and controls are enough for a goal. For whoever answers or
//! studies the assignments of a model.
#![tactic(auto)]

mod cover;
mod law;

pub use cover::{Cover, coverage};
pub use law::law_of_coverage;
