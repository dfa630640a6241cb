//! Formulas of linear temporal logic, their written form, lassos, and when a formula is true at a
//! position of one.
#![tactic(auto)]

mod formula;
mod lasso;
mod law;
mod text;

pub use formula::{Cmp, Formula};
pub use lasso::{Lasso, LassoRefusal};
pub use law::{law_of_agreement, law_of_decision, law_of_lassos, law_of_traces};
pub use text::formula_text;
