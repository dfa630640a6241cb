//! Tests of the libraries from bytes to formulas: what no clause of theirs says, and that each of
//! their calls can succeed. Expected values are worked out by hand. A module is named in the plural
//! of what its library is about, since no module may have a library's name.
#![tactic(auto)]

#[cfg(test)]
mod cells;
#[cfg(test)]
mod entities;
#[cfg(test)]
mod formulas;
#[cfg(test)]
mod refusals;
#[cfg(test)]
mod sources;
#[cfg(test)]
mod spaces;
#[cfg(test)]
mod texts;
