//! Tokens: what a reader of the model language sees in place of bytes. They borrow the text, so
//! that lexing copies no byte. A word carries that it has the form of a name and is no keyword.

ghost use Rattle.std.specs.Prelude.{◌≡◌, true, is_none};
ghost use Rattle.state_space.specs.Names.{has_name_form};
ghost use Rattle.state_space.specs.Keywords.{keyword_of};

use source_sink::Memory;
use state_space::{Keyword, Name, NameRefusal};
use std::alloc::Global;

/// A token that is neither a word nor a number.
#[derive(Clone, Copy, Debug, PartialEq, Eq)]
pub enum Sign {
    Semicolon,
    Colon,
    Comma,
    OpenParenthesis,
    CloseParenthesis,
    OpenBrace,
    CloseBrace,
    Equal,
    NotEqual,
    Below,
    AtMost,
    Above,
    AtLeast,
    Dots,
}

/// A token that only a text of version 2 has.
#[derive(Clone, Copy, Debug, PartialEq, Eq)]
pub enum Further {
    Entity,
    Attr,
    All,
    Some,
    /// A `(` directly behind a name.
    OpenArgument,
}

/// A word that begins with a letter and is no keyword, of any length.
#[derive(Clone, Copy)]
pub struct Word<'t> {
    pub bytes: &'t [u8],
    pub ghost form: { has_name_form bytes.now ≡ true },
    pub ghost free: { is_none (keyword_of bytes.now) ≡ true },
}

impl<'t> Word<'t> {
    ghost use Rattle.std.specs.Prelude.{◌≡◌, IfOk};
    ghost use Rattle.model_tokens.specs.Values.{cut_name};

    /// The name of the first 40 bytes, which are all in a text that is accepted.
    pub fn name(&self, alloc: Global) -> Result<Name, Memory>
        ensures { IfOk result (λ n. n ≡ cut_name self.now.bytes.now) }
    {
        match Name::new(alloc, &self.bytes[..self.bytes.len().min(40)]) {
            Ok(name) => Ok(name),
            Err(NameRefusal::Memory) => Err(Memory),
            Err(NameRefusal::NotAName) => unreachable!(),
        }
    }
}

/// What stands at a place of the text.
#[derive(Clone, Copy)]
pub enum TokenKind<'t> {
    /// A word that the language keeps for itself.
    Keyword(Keyword),
    /// A sign of punctuation or comparison.
    Sign(Sign),
    /// A name, but for its length.
    Name(Word<'t>),
    /// A word of digits alone, with or without a `-` directly before it.
    Number { negative: bool, digits: &'t [u8] },
    /// A token that only version 2 has.
    Further(Further),
    /// Bytes that tokens have, but that are no token here.
    Stray,
    /// A byte that no token has.
    BadByte,
}

/// A token and the place of its first byte, from 0.
#[derive(Clone, Copy)]
pub struct Token<'t> {
    pub at: usize,
    pub kind: TokenKind<'t>,
}
