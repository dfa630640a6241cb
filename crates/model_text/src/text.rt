//! The statements of a text, for whoever is given bytes: `Ok` exactly for readable bytes, with the list that they spell, and else the
//! first cause for which they are refused.

ghost use Rattle.std.specs.Prelude.{◌≡◌, true, ◌⊎◌, ◌+◌, ◌*◌, ◌-◌, ◌≤◌, ℕ, List, length, map, vec_len, slice_index_or, IfOk, IfErr};
ghost use Rattle.std.specs.List.{list_all};
ghost use Rattle.model_tokens.specs.Tokens.{TokenForm, form_of, all_placed};
ghost use Rattle.model_text.specs.Statements.{StatementForm, statements_of};
ghost use Rattle.model_text.specs.Grammar.{Spells};
ghost use Rattle.model_text.specs.Places.{BeginsText, has_token, IsFaultPlace};
ghost use Rattle.model_text.specs.Readability.{IsReadable, is_bad as is_bad_form, first_bad, Refuses};
ghost use Rattle.model_text.specs.declared.text.TextRefusal.TheVariants.{Memory as TextMemory};

use crate::cursor::{Cursor, Fault};
use crate::limits::{LimitKind, MOST_OPERATORS, most_operators, passed_limit};
use crate::reader::statements;
use crate::statement::RawModel;
use model_tokens::{Token, TokenKind, lex, of_version};
use source_sink::Memory;
use std::alloc::Global;
use thiserror::Error;

/// Why a text has no statements. Places are of bytes, from 0.
#[derive(Clone, Copy, Debug, PartialEq, Eq, Error)]
pub enum TextRefusal {
    /// A byte that no token has stands there, outside comments. It is the first one.
    #[error("bad byte at {0}")]
    BadByte(u64),
    /// The text passes a limit.
    #[error("limit {0:?}")]
    Limit(LimitKind),
    /// The bytes are no statements. The tokens up to that of the place and with it begin no text
    /// that is one, and it is the first such token; where there is none, it is the length.
    #[error("syntax at byte {0}")]
    Syntax(u64),
    /// Memory ran out.
    #[error("memory ran out")]
    Memory,
}

impl From<Memory> for TextRefusal {
    ghost from_gives = { λ _ e. e ≡ TextMemory };

    fn from(_: Memory) -> TextRefusal {
        TextRefusal::Memory
    }
}

fn is_bad(kind: TokenKind<'_>) -> bool
    ensures { result ≡ is_bad_form (form_of kind.entry) }
{
    matches!(kind, TokenKind::BadByte)
}

// The place of the first byte that no token has.
fn bad_byte(tokens: &[Token<'_>]) -> Option<usize>
    ensures { result ≡ first_bad (all_placed tokens.now) }
{
    for token in tokens {
        if is_bad(token.kind) {
            return Some(token.at);
        }
    }
    None
}

// The place of the token that so many stand behind, itself among them, or the end where it is none.
fn place_of(tokens: &[Token<'_>], left: usize, end: usize) -> usize
    ensures { result ≡ slice_index_or (map (λ t. t.at) tokens.now) (length tokens.now - left) end }
{
    match tokens.get(tokens.len().saturating_sub(left)) {
        Some(token) => token.at,
        None => end,
    }
}

/// The statements that the bytes spell, for texts of any length. Refusals come in this order: `BadByte`, with the place of the first
/// byte outside comments that no token has; `Limit(Operators)`; `Syntax`, where the bytes spell no statements; then the other limits in
/// their order. `Memory` may come at any time.
pub fn read_model(alloc: Global, bytes: &[u8]) -> Result<RawModel, TextRefusal>
    // What is read is spelled so, and passes no limit.
    ensures found { IfOk result (λ raw. IsReadable bytes.now (statements_of raw)) }
    // What is spelled so is read.
    ensures only { (ss : List StatementForm) → IsReadable bytes.now ss → IfOk result (λ raw. statements_of raw ≡ ss) }
    // What is refused is refused for its first cause.
    ensures refused { IfErr result (λ e. (e ≡ TextMemory) ⊎ Refuses bytes.now e) }
    ensures count { IfOk result (λ raw. vec_len raw.statements ≤ 3 * length bytes.now + 2) }
{
    let signs = lex(alloc, bytes)?;
    if let Some(at) = bad_byte(&signs) {
        return Err(TextRefusal::BadByte(at as u64));
    }
    let tokens = of_version(alloc, signs)?;
    if most_operators(&tokens) > MOST_OPERATORS {
        return Err(TextRefusal::Limit(LimitKind::Operators));
    }
    let mut cursor = Cursor { rest: &tokens };
    let raw = match statements(alloc, &mut cursor) {
        Ok(raw) => raw,
        Err(Fault::Syntax) => {
            let at = place_of(&tokens, cursor.rest.len(), bytes.len());
            return Err(TextRefusal::Syntax(at as u64));
        }
        Err(Fault::Memory) => return Err(TextRefusal::Memory),
    };
    match passed_limit(&tokens, &raw) {
        Some(kind) => Err(TextRefusal::Limit(kind)),
        None => Ok(raw),
    }
}

/// A text that is refused is not readable, as whatever list of statements.
pub fn law_of_refusals()
    ensures { (bytes : List ℕ) (e : TextRefusal) (ss : List StatementForm) → Refuses bytes e → IsReadable bytes ss → ⊥ }
{}

/// A text has one place of a fault, and no place without a token stands before it.
pub fn law_of_fault_places()
    ensures one { (bytes : List ℕ) (m n : ℕ) → IsFaultPlace bytes m → IsFaultPlace bytes n → m ≡ n }
    ensures tokens { (ts : List TokenForm) → BeginsText ts → list_all has_token ts ≡ true }
{}

/// No text spells two lists of statements.
pub fn law_of_spelling()
    ensures { (bytes : List ℕ) (ss rs : List StatementForm) → Spells bytes ss → Spells bytes rs → ss ≡ rs }
{}
