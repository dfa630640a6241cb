//! Core formulas that are kept once each, by number, for whoever keeps sets of them: equal numbers
//! have equal trees, and equal trees have equal numbers. Numbers are given in the order of
//! specs/Closures.antt, on which the numbers in certificates rest.
#![tactic(auto)]

mod bounds;
mod law;
mod literals;
mod nodes;
mod notes;
mod put_formula;
mod shape;
mod size;
mod table;

pub use law::law_of_tables;
pub use shape::{FormulaId, Shape};
pub use size::distinct_size;
pub use table::{PutRefusal, Table};
