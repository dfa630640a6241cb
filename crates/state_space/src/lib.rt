//! Variables, their finite ranges, and states: what a model speaks of, before any formula.
//! Look-ups and set operations are exact, and a refused call leaves its space as it was.
#![tactic(auto)]

mod keyword;
mod name;
mod name_index;
mod range;
mod space;
mod state;
mod value_text;
mod values;

pub use keyword::{Keyword, keyword_of, law_of_keywords};
pub use name::{Name, NameRefusal, has_name_form, is_word_byte};
pub use name_index::NameIndex;
pub use range::Range;
pub use space::{AddRefusal, Space};
pub use state::State;
pub use values::{Values, VarId};
