//! Names: 1 to 40 bytes, a letter and then letters, digits and `_`, and no keyword.

ghost use Rattle.std.specs.Prelude.{◌≡◌, ◌↔◌, IsTrue, IfOk, OnOk};
ghost use Rattle.std.specs.List.{list_all};
ghost use Rattle.state_space.specs.Names.{IsName, is_word_byte, has_name_form};

use crate::keyword::keyword_of;
use std::alloc::{AllocError, Global};
use std::marker::Model;

/// A name of the model language, seen by contracts as the list of its bytes.
#[derive(Debug, Drop)]
pub struct Name {
    bytes: Vec<u8>,
}

impl Model for Name {
    ghost use Rattle.std.specs.Prelude.{ℕ, List};
    ghost use Rattle.state_space.specs.Names.{IsName};

    ghost Value = { List ℕ };

    ghost view = { λ n. n.bytes.items };

    ghost invariant = { λ n. IsName n.bytes.items };
}

/// Why bytes are no name.
#[derive(Clone, Copy, Debug, PartialEq, Eq)]
pub enum NameRefusal {
    /// The bytes are not 1 to 40 of the form of a name, or they are a keyword.
    NotAName,
    /// Memory ran out.
    Memory,
}

impl From<AllocError> for NameRefusal {
    ghost use Rattle.state_space.specs.declared.name.NameRefusal.TheVariants.{Memory};

    ghost from_gives = { λ _ e. e ≡ Memory };

    fn from(_: AllocError) -> NameRefusal {
        NameRefusal::Memory
    }
}

/// Whether a byte may stand in a word: a letter, a digit or `_`.
pub fn is_word_byte(byte: u8) -> bool
    ensures { result ≡ is_word_byte byte }
{
    byte.is_ascii_alphanumeric() || byte == b'_'
}

// Whether each byte may stand in a word.
fn are_word_bytes(bytes: &[u8]) -> bool
    ensures all { result ≡ list_all is_word_byte bytes.now }
{
    bytes.iter().all(|b| is_word_byte(*b))
}

/// Whether bytes are a letter and then letters, digits and `_`, however many.
#[tactic(auto, using(crate::proofs::NameForms::form_by_parts))]
pub fn has_name_form(bytes: &[u8]) -> bool
    ensures { result ≡ has_name_form bytes.now }
{
    match bytes {
        [] => false,
        [first, rest @ ..] => first.is_ascii_alphabetic() && are_word_bytes(rest),
    }
}

impl Name {
    /// The name of these bytes. `NotAName` comes exactly where they are not 1 to 40 bytes of the
    /// form of a name, or are a keyword.
    pub fn new(alloc: Global, bytes: &[u8]) -> Result<Name, NameRefusal>
        ensures name { IfOk result (λ n. n ≡ bytes.now) }
        ensures is_name { OnOk result (IsName bytes.now) }
        ensures not_a_name { (result ≡ Err NameRefusal.NotAName) ↔ ¬ (IsName bytes.now) }
    {
        if !has_name_form(bytes) || bytes.len() > 40 || keyword_of(bytes).is_some() {
            return Err(NameRefusal::NotAName);
        }
        Ok(Name {
            bytes: Vec::from_slice(alloc, bytes)?,
        })
    }

    /// The bytes.
    pub fn bytes(&self) -> &[u8]
        ensures bytes { result.now ≡ self.now }
        ensures is_name { IsName self.now }
    {
        &self.bytes
    }

    /// The same name in memory of its own.
    pub fn clone(&self, alloc: Global) -> Result<Name, AllocError>
        ensures same { IfOk result (λ n. n ≡ self.now) }
    {
        Ok(Name {
            bytes: Vec::from_slice(alloc, &self.bytes)?,
        })
    }

    /// Whether two names have the same bytes.
    pub fn is_same(&self, other: &Name) -> bool
        ensures same { IsTrue result ↔ (self.now ≡ other.now) }
    {
        self.bytes() == other.bytes()
    }
}
