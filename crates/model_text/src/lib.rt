//! The model language, for whoever has bytes or statements: `read_model` gives the statements that
//! bytes spell, or the first cause for which they are refused, and `model_text` writes statements
//! so that they are read again. Data goes from lexer over version, readers and limits to text, and
//! back from writer over line. Names are not looked up here, and no formula is given a meaning.
#![tactic(auto)]

mod agent_reader;
mod cursor;
mod formula_reader;
mod formula_writer;
mod level;
mod limits;
mod line;
mod link_reader;
mod part_reader;
mod part_writer;
mod property_reader;
mod raw_formula;
mod reader;
mod sign;
mod statement;
mod text;
mod trace_reader;
mod trace_writer;
mod writer;

pub use limits::LimitKind;
pub use raw_formula::{RawFormula, RawValue};
pub use statement::{RawModel, RawState, Role, Statement, StatementKind};
pub use text::{TextRefusal, law_of_fault_places, law_of_refusals, law_of_spelling, read_model};
pub use writer::{law_of_writing, model_text};
