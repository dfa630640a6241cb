//! Operationalisations: the demands of one, the formula of a requirement on an operation, and what these mean on traces of operations. For
//! whoever answers or studies how the operations of a model achieve its goals.
#![tactic(auto)]

mod demand;
mod law;
mod requirement;

pub use demand::operation_demands;
pub use law::{law_of_conditions, law_of_operationalisations, law_of_requirements};
pub use requirement::requirement_formula;
