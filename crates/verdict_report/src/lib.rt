//! Reports on models: what was found of each demand and of each assignment, and the texts in which it is told. For whoever answers demands, and whoever writes a
//! report.
#![tactic(auto)]

mod form;
mod lasso_text;
mod law;
mod report;
mod text;
mod totals;
mod verdict;

pub use form::Form;
pub use law::law_of_verdicts;
pub use report::{Entry, Evidence, Report, Verdict};
pub use text::{brief_text, form_text, lines_text, report_text};
pub use totals::{Totals, counts};
pub use verdict::{assignment_entry, entry, verdict_of};
