//! From bytes to tokens, in one walk over the bytes: the tokens are those of the definition.

ghost use Rattle.std.specs.Prelude.{◌≡◌, ◌==◌, ◌&&◌, ℕ, ◌+◌, ◌^◌, ◌<◌, ◌≤◌, [], ◌∷◌, ◌++◌, length, map, IfOk, OnOk, slice_index, option_to_list};
ghost use Rattle.std.specs.Char.{is_ascii_digit};
ghost use Rattle.std.specs.List.{list_all};
ghost use Rattle.state_space.specs.Names.{is_word_byte};
ghost use Rattle.model_tokens.specs.Tokens.{form_of, all_placed, Placed};
ghost use Rattle.model_tokens.specs.Lexing.{word_token as word_token_of, negative_word, lone_form, pair_of, single_of, alone_form, alone as alone_tokens, fresh, next, emitted, ended, behind as behind_sign, tokens_of};
ghost use Rattle.model_tokens.specs.LexerView.{seen, IsWithin, fresh_code};

use crate::token::{Sign, Token, TokenKind, Word};
use source_sink::Memory;
use state_space::{has_name_form, is_word_byte, keyword_of};
use std::alloc::Global;

/// What stands directly before a byte.
#[derive(Clone, Copy)]
enum State {
    Between,
    Comment,
    /// In a word that begins there.
    Word(usize),
    /// In a word behind a `-` that stands there.
    Negative(usize),
    /// Behind a sign that stands there and may have a second byte.
    Behind(usize),
}

fn are_digits(word: &[u8]) -> bool
    ensures { result ≡ list_all is_ascii_digit word.now }
{
    word.iter().all(|b| b.is_ascii_digit())
}

// The token that a word is.
#[tactic(auto, unfolding(crate::specs::Lexing::word_token))]
fn word_kind(word: &[u8]) -> TokenKind<'_>
    ensures { form_of result ≡ word_token_of word.now }
{
    if let Some(keyword) = keyword_of(word) {
        return TokenKind::Keyword(keyword);
    }
    if has_name_form(word) {
        return TokenKind::Name(Word { bytes: word });
    }
    if are_digits(word) {
        return TokenKind::Number {
            negative: false,
            digits: word,
        };
    }
    TokenKind::Stray
}

// The token that a sign of which a second byte may come is without one.
fn lone_kind<'t>(byte: u8) -> TokenKind<'t>
    ensures { form_of result ≡ lone_form byte }
{
    match byte {
        b'<' => TokenKind::Sign(Sign::Below),
        b'>' => TokenKind::Sign(Sign::Above),
        _ => TokenKind::Stray,
    }
}

fn pair_mark(first: u8, second: u8) -> Option<Sign>
    ensures { result ≡ pair_of first second }
{
    match (first, second) {
        (b'!', b'=') => Some(Sign::NotEqual),
        (b'<', b'=') => Some(Sign::AtMost),
        (b'>', b'=') => Some(Sign::AtLeast),
        (b'.', b'.') => Some(Sign::Dots),
        _ => None,
    }
}

fn single_mark(byte: u8) -> Option<Sign>
    ensures { result ≡ single_of byte }
{
    match byte {
        b';' => Some(Sign::Semicolon),
        b':' => Some(Sign::Colon),
        b',' => Some(Sign::Comma),
        b'(' => Some(Sign::OpenParenthesis),
        b')' => Some(Sign::CloseParenthesis),
        b'{' => Some(Sign::OpenBrace),
        b'}' => Some(Sign::CloseBrace),
        b'=' => Some(Sign::Equal),
        _ => None,
    }
}

// The token that a byte is by itself.
fn alone_kind<'t>(byte: u8) -> Option<TokenKind<'t>>
    ensures { map form_of (option_to_list result) ≡ alone_form (single_of byte) byte }
{
    if let Some(mark) = single_mark(byte) {
        return Some(TokenKind::Sign(mark));
    }
    if is_word_byte(byte) {
        return None;
    }
    match byte {
        b' ' | b'\t' | b'\r' | b'\n' | b'#' | b'!' | b'<' | b'>' | b'.' | b'-' => None,
        _ => Some(TokenKind::BadByte),
    }
}

// What stands before the next byte, where this one begins anew.
#[tactic(auto, unfolding(crate::specs::Lexing::fresh))]
fn fresh_state(byte: u8, at: usize) -> State
    ensures { result ≡ fresh_code byte at }
{
    if is_word_byte(byte) {
        return State::Word(at);
    }
    match byte {
        b'!' | b'<' | b'>' | b'.' | b'-' => State::Behind(at),
        b'#' => State::Comment,
        _ => State::Between,
    }
}

fn put<'t>(tokens: &mut Vec<Token<'t>>, at: usize, kind: TokenKind<'t>) -> Result<(), Memory>
    ensures { OnOk result (all_placed tokens.new.items ≡ all_placed tokens.old.items ++ (record { at = at; form = form_of kind.entry }) ∷ []) }
{
    tokens.push(Token { at, kind })?;
    Ok(())
}

// The tokens of a `-` and the word behind it.
#[tactic(auto, unfolding(crate::specs::Lexing::negative_word))]
fn put_negative<'t>(tokens: &mut Vec<Token<'t>>, from: usize, word: &'t [u8]) -> Result<(), Memory>
    requires { from + 1 < 2 ^ 64 }
    ensures { OnOk result (all_placed tokens.new.items ≡ all_placed tokens.old.items ++ negative_word from word.now) }
{
    if are_digits(word) {
        let kind = TokenKind::Number {
            negative: true,
            digits: word,
        };
        return put(tokens, from, kind);
    }
    put(tokens, from, TokenKind::Stray)?;
    put(tokens, from + 1, word_kind(word))
}

#[tactic(auto, unfolding(crate::specs::Lexing::alone))]
fn put_alone(tokens: &mut Vec<Token<'_>>, at: usize, byte: u8) -> Result<(), Memory>
    ensures { OnOk result (all_placed tokens.new.items ≡ all_placed tokens.old.items ++ alone_tokens at byte) }
{
    match alone_kind(byte) {
        Some(kind) => put(tokens, at, kind),
        None => Ok(()),
    }
}

// Takes a byte with which nothing goes on.
fn begin(tokens: &mut Vec<Token<'_>>, text: &[u8], at: usize) -> Result<State, Memory>
    requires { at < length text.now }
    ensures tokens { OnOk result (all_placed tokens.new.items ≡ all_placed tokens.old.items ++ alone_tokens at (slice_index text.now at)) }
    ensures state { IfOk result (λ s. seen text.now s (at + 1) ≡ fresh at (slice_index text.now at)) }
    ensures within { IfOk result (λ s. IsWithin s (at + 1)) }
{
    let byte = text[at];
    put_alone(tokens, at, byte)?;
    Ok(fresh_state(byte, at))
}

// Whether a byte makes a negative number of a sign.
fn is_negative(first: u8, byte: u8) -> bool
    ensures { result ≡ (first == 45 && is_word_byte byte) }
{
    first == b'-' && is_word_byte(byte)
}

// Takes a byte behind a sign that may have a second one.
fn behind(tokens: &mut Vec<Token<'_>>, text: &[u8], from: usize, at: usize) -> Result<State, Memory>
    requires place { at < length text.now }
    requires within { from + 1 ≡ at }
    ensures tokens { OnOk result (all_placed tokens.new.items ≡ all_placed tokens.old.items ++ emitted at (behind_sign from (slice_index text.now from)) (slice_index text.now at)) }
    ensures state { IfOk result (λ s. seen text.now s (at + 1) ≡ next at (behind_sign from (slice_index text.now from)) (slice_index text.now at)) }
    ensures within { IfOk result (λ s. IsWithin s (at + 1)) }
{
    if let Some(mark) = pair_mark(text[from], text[at]) {
        put(tokens, from, TokenKind::Sign(mark))?;
        return Ok(State::Between);
    }
    if is_negative(text[from], text[at]) {
        return Ok(State::Negative(from));
    }
    put(tokens, from, lone_kind(text[from]))?;
    begin(tokens, text, at)
}

// Takes the byte at a place: the tokens that end with it, and what stands before the next byte.
fn step<'t>(
    tokens: &mut Vec<Token<'t>>,
    text: &'t [u8],
    state: State,
    at: usize,
) -> Result<State, Memory>
    requires place { at < length text.now }
    requires within { IsWithin state at }
    ensures tokens { OnOk result (all_placed tokens.new.items ≡ all_placed tokens.old.items ++ emitted at (seen text.now state at) (slice_index text.now at)) }
    ensures state { IfOk result (λ s. seen text.now s (at + 1) ≡ next at (seen text.now state at) (slice_index text.now at)) }
    ensures within { IfOk result (λ s. IsWithin s (at + 1)) }
{
    let byte = text[at];
    match state {
        State::Comment => {
            if byte == b'\n' {
                return Ok(State::Between);
            }
            return Ok(State::Comment);
        }
        State::Word(from) => {
            if is_word_byte(byte) {
                return Ok(State::Word(from));
            }
            put(tokens, from, word_kind(&text[from..at]))?;
        }
        State::Negative(from) => {
            if is_word_byte(byte) {
                return Ok(State::Negative(from));
            }
            put_negative(tokens, from, &text[from + 1..at])?;
        }
        State::Behind(from) => return behind(tokens, text, from, at),
        State::Between => {}
    }
    begin(tokens, text, at)
}

// The tokens that end with the text.
fn finish<'t>(tokens: &mut Vec<Token<'t>>, text: &'t [u8], state: State) -> Result<(), Memory>
    requires { IsWithin state (length text.now) }
    ensures { OnOk result (all_placed tokens.new.items ≡ all_placed tokens.old.items ++ ended (seen text.now state (length text.now))) }
{
    match state {
        State::Between | State::Comment => Ok(()),
        State::Word(from) => put(tokens, from, word_kind(&text[from..])),
        State::Negative(from) => put_negative(tokens, from, &text[from + 1..]),
        State::Behind(from) => put(tokens, from, lone_kind(text[from])),
    }
}

/// The tokens of a text, each with its place. Only memory can be wanting.
#[tactic(auto, unfolding(crate::specs::Lexing::tokens_of))]
pub fn lex(alloc: Global, text: &[u8]) -> Result<Vec<Token<'_>>, Memory>
    ensures { IfOk result (λ v. all_placed v.items ≡ tokens_of text.now) }
{
    let mut tokens = Vec::new(alloc);
    let mut state = State::Between;
    for at in 0..text.len() {
        state = step(&mut tokens, text, state, at)?;
    }
    finish(&mut tokens, text, state)?;
    Ok(tokens)
}
