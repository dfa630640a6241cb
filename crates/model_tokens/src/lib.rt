//! The tokens of the model language, for whoever reads texts of it: `lex` cuts bytes into tokens, each
//! with its place, `of_version` has them as the text's version does, and `Numeral` gives the value of
//! a number. What a token is is said twice, by the walk over the bytes and in a reader's terms, and
//! law.rt says that both are the same. No name is looked up here.
#![tactic(auto)]

mod law;
mod lexer;
mod numeral;
mod token;
mod version;

pub use law::law_of_tokens;
pub use lexer::lex;
pub use numeral::Numeral;
pub use token::{Further, Sign, Token, TokenKind, Word};
pub use version::of_version;
