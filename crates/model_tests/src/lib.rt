//! Tests of models and of runs, over the libraries that make them: which texts make a model and which are refused, what a model has,
//! what a run answers with which evidence, and what it does at faults. What is due is worked out by hand from the rules of the language,
//! of truth and of reports.
#![tactic(auto)]

#[cfg(test)]
mod by_pattern;
#[cfg(test)]
mod candidates;
#[cfg(test)]
mod conflicts;
#[cfg(test)]
mod entities;
#[cfg(test)]
mod evidence;
#[cfg(test)]
mod faults;
#[cfg(test)]
mod models;
#[cfg(test)]
mod obstructions;
#[cfg(test)]
mod operations;
#[cfg(test)]
mod operators;
#[cfg(test)]
mod parts;
#[cfg(test)]
mod patterns;
#[cfg(test)]
mod refusals;
#[cfg(test)]
mod regression;
#[cfg(test)]
mod reports;
#[cfg(test)]
mod resolution;
#[cfg(test)]
mod runs;
#[cfg(test)]
mod texts;
#[cfg(test)]
mod traces;
#[cfg(test)]
mod whole_models;
#[cfg(test)]
mod words;
