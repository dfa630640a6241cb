//! The patterns by which goals are refined (Darimont and van Lamsweerde 1996): the five of the language, what they are instances of, and why
//! an instance is complete, whatever stands for its placeholders. For whoever answers a refinement by the pattern that it names.
#![tactic(auto)]

mod law;
mod matching;
mod pattern;
mod query;
mod shape;

pub use law::{law_of_instances, law_of_library};
pub use matching::{Binding, are_instance, match_pattern};
pub use pattern::{Pattern, library, pattern_name};
pub use query::{pattern_query, placeholder_space};
