//! The truth of formulas on a lasso, by tables of bits: one row for a formula, with one bit for
//! each position of the prefix and of the loop. Nothing here takes memory: the caller gives it.
#![tactic(auto)]

mod atom_rows;
mod bits;
mod bounded_rows;
mod check;
mod law;
mod layout;
mod operator_rows;
mod operators;
mod rows;
mod scratch;
mod until_rows;

pub use check::{first_false, truth_at_start};
pub use law::law_of_the_loop;
pub use scratch::scratch_len;
