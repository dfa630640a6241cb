//! Answers whether the links of a goal model hold, with evidence, which goals are true on the traces of a model, and what could obstruct a
//! goal: the program hands its words, a source and a sink to `run`, whose clause says what is answered.
#![tactic(auto)]

mod answer;
mod asking;
mod check;
mod command;
mod law;
mod options;
mod reading;
mod refusal_text;
mod regression;
mod regression_text;
mod running;
mod status;
mod truths;
mod truths_text;

pub use law::{law_of_answers, law_of_words};
pub use running::{Outcome, run};
pub use status::Status;
