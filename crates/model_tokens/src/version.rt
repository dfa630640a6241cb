//! The tokens of a text as its version has them: a text of version 2 has four keywords more, and a
//! sign of its own for a `(` directly behind a name.

ghost use Rattle.std.specs.Prelude.{◌≡◌, map, false, IfOk};
ghost use Rattle.model_tokens.specs.Tokens.{form_of};
ghost use Rattle.model_tokens.specs.Versions.{further_word, second_form, is_name as is_name_form, second_forms, is_second as are_second, version_forms};

use crate::numeral::Numeral;
use crate::token::{Further, Sign, Token, TokenKind};
use source_sink::Memory;
use state_space::Keyword;
use std::alloc::Global;

// The keyword of version 2 that a word is.
#[tactic(auto, unfolding(crate::specs::Versions::further_word))]
fn further_word(word: &[u8]) -> Option<Further>
    ensures { result ≡ further_word word.now }
{
    if word == b"entity".as_slice() {
        return Some(Further::Entity);
    }
    if word == b"attr".as_slice() {
        return Some(Further::Attr);
    }
    if word == b"all".as_slice() {
        return Some(Further::All);
    }
    if word == b"some".as_slice() {
        return Some(Further::Some);
    }
    None
}

// A token as version 2 has it, behind a name or behind none.
fn second_kind<'t>(behind: bool, kind: TokenKind<'t>) -> TokenKind<'t>
    ensures { form_of result ≡ second_form behind (form_of kind.entry) }
{
    match kind {
        TokenKind::Name(word) => match further_word(word.bytes) {
            Some(further) => TokenKind::Further(further),
            None => kind,
        },
        TokenKind::Sign(Sign::OpenParenthesis) if behind => TokenKind::Further(
            Further::OpenArgument,
        ),
        _ => kind,
    }
}

fn is_name(kind: TokenKind<'_>) -> bool
    ensures { result ≡ is_name_form (form_of kind.entry) }
{
    matches!(kind, TokenKind::Name(_))
}

// The tokens as version 2 has them, each at its place.
fn second_tokens<'t>(alloc: Global, tokens: &[Token<'t>]) -> Result<Vec<Token<'t>>, Memory>
    ensures forms { IfOk result (λ ts. map (λ t. form_of t.kind) ts.items ≡ second_forms false (map (λ t. form_of t.kind) tokens.now)) }
    ensures places { IfOk result (λ ts. map (λ t. t.at) ts.items ≡ map (λ t. t.at) tokens.now) }
{
    let mut second = Vec::with_capacity(alloc, tokens.len())?;
    let mut behind = false;
    'tokens: for token in tokens {
        let kind = second_kind(behind, token.kind);
        behind = is_name(kind);
        second.push(Token { at: token.at, kind })?;
    }
    Ok(second)
}

// Whether the first two tokens are those of a text of version 2.
fn is_second(tokens: &[Token<'_>]) -> bool
    ensures { result ≡ are_second (map (λ t. form_of t.kind) tokens.now) }
{
    match tokens {
        [first, second, ..] => match (first.kind, second.kind) {
            (TokenKind::Keyword(Keyword::Kaos), TokenKind::Number { negative, digits }) => {
                Numeral { negative, digits }.is_two()
            }
            _ => false,
        },
        _ => false,
    }
}

/// The tokens of a text as its version has them, each at its place.
pub fn of_version<'t>(alloc: Global, tokens: Vec<Token<'t>>) -> Result<Vec<Token<'t>>, Memory>
    ensures forms { IfOk result (λ ts. map (λ t. form_of t.kind) ts.items ≡ version_forms (map (λ t. form_of t.kind) tokens.entry.items)) }
    ensures places { IfOk result (λ ts. map (λ t. t.at) ts.items ≡ map (λ t. t.at) tokens.entry.items) }
{
    if !is_second(&tokens) {
        return Ok(tokens);
    }
    second_tokens(alloc, &tokens)
}
