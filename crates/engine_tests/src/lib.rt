//! Tests of the engine: of cores, the tableau of a query, elimination, lassos and certificates. They
//! stand over the libraries, so that none of these is proved again with tests, and reach what is
//! public. Formulas, spaces and lassos are written in the model language.
#![tactic(auto)]

#[cfg(test)]
mod answers;
#[cfg(test)]
mod certificates;
#[cfg(test)]
mod cores;
#[cfg(test)]
mod lassos;
#[cfg(test)]
mod outcomes;
#[cfg(test)]
mod queries;
#[cfg(test)]
mod reading;
#[cfg(test)]
mod rules;
#[cfg(test)]
mod sets;
#[cfg(test)]
mod tables;
