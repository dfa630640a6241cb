//! The limits of a text, tested over its tokens and its statements. The readers do not know of
//! them: a value that is too large counts as one just over its limit. So the numbers of three
//! limits stand elsewhere too: for names in the tokens and in state_space, for magnitudes and
//! bounds in the numerals of the tokens.

ghost use Rattle.std.specs.Prelude.{◌≡◌, count_by, map, nat_lt};
ghost use Rattle.std.specs.List.{list_all, list_any};
ghost use Rattle.model_tokens.specs.Tokens.{keyword, form_of};
ghost use Rattle.model_text.specs.RawView.{raw_tree};
ghost use Rattle.model_text.specs.Statements.{statement_of, statements_of, all_statements};
ghost use Rattle.model_text.specs.Limits.{is_operator as is_operator_form, is_semicolon as is_semicolon_form, most_operators as most_operators_of, is_short as is_short_form, is_small as is_small_form, is_link as is_link_form, parts_of, has_many_parts as has_many_parts_of, has_wide_bound as has_wide_bound_of, depth_of, is_deep as is_deep_of, has_formula, passed_limit as passed_limit_of};

use crate::raw_formula::RawFormula;
use crate::statement::{RawModel, Statement, StatementKind};
use model_tokens::{Further, Numeral, Sign, Token, TokenKind};
use state_space::Keyword;

/// Operators and open parentheses between two semicolons.
pub(crate) const MOST_OPERATORS: usize = 500;
/// Statements, the version among them.
const MOST_STATEMENTS: usize = 2_000;
/// Links: refinements, obstructions, conflicts, operationalisations and assignments.
const MOST_LINKS: usize = 512;
/// Names behind the `by` of a link, and goals of a conflict.
const MOST_PARTS: usize = 16;
/// Bytes of a name.
const LONGEST_NAME: usize = 40;
/// The magnitude of a number.
const GREATEST_NUMBER: u64 = 1_000_000_000;
/// Steps of a bound.
const WIDEST_BOUND: u8 = 100;
/// Levels of a formula.
const DEEPEST_FORMULA: usize = 100;

/// What there is too much of in a text, in the order in which the limits are answered.
#[derive(Clone, Copy, Debug, PartialEq, Eq)]
pub enum LimitKind {
    /// Over 500 operators, quantifiers and open parentheses between two semicolons.
    Operators,
    /// Over 2,000 statements, the version among them.
    Statements,
    /// Over 512 links.
    Links,
    /// Over 16 names behind the `by` of a link, or goals of a conflict.
    Parts,
    /// A name of over 40 bytes.
    NameLength,
    /// A number of a magnitude over 1,000,000,000.
    Number,
    /// A bound below 0 or over 100.
    Bound,
    /// A formula of over 100 levels.
    Depth,
}

fn is_operator_word(word: Keyword) -> bool
    ensures { result ≡ is_operator_form (keyword word) }
{
    matches!(
        word,
        Keyword::Entails
            | Keyword::Iff
            | Keyword::Implies
            | Keyword::Or
            | Keyword::And
            | Keyword::Until
            | Keyword::Unless
            | Keyword::Release
            | Keyword::Not
            | Keyword::Next
            | Keyword::Eventually
            | Keyword::Always
    )
}

fn is_operator(kind: TokenKind<'_>) -> bool
    ensures { result ≡ is_operator_form (form_of kind.entry) }
{
    match kind {
        TokenKind::Sign(Sign::OpenParenthesis) => true,
        TokenKind::Keyword(word) => is_operator_word(word),
        TokenKind::Further(Further::All | Further::Some | Further::OpenArgument) => true,
        _ => false,
    }
}

fn is_semicolon(kind: TokenKind<'_>) -> bool
    ensures { result ≡ is_semicolon_form (form_of kind.entry) }
{
    matches!(kind, TokenKind::Sign(Sign::Semicolon))
}

/// The greatest number of operators and open parentheses between two semicolons.
#[tactic(auto, unfolding(crate::specs::Limits::most_operators))]
pub(crate) fn most_operators(tokens: &[Token<'_>]) -> usize
    ensures { result ≡ most_operators_of 0 (map (λ t. form_of t.kind) tokens.now) }
{
    let mut most: usize = 0;
    let mut count: usize = 0;
    for token in tokens {
        if is_semicolon(token.kind) {
            most = most.max(count);
            count = 0;
        } else if is_operator(token.kind) {
            count += 1;
        }
    }
    most.max(count)
}

fn is_short(kind: TokenKind<'_>) -> bool
    ensures { result ≡ is_short_form (form_of kind.entry) }
{
    match kind {
        TokenKind::Name(word) => word.bytes.len() <= LONGEST_NAME,
        _ => true,
    }
}

/// Whether each name has at most 40 bytes.
pub(crate) fn are_names_short(tokens: &[Token<'_>]) -> bool
    ensures { result ≡ list_all is_short_form (map (λ t. form_of t.kind) tokens.now) }
{
    for token in tokens {
        if !is_short(token.kind) {
            return false;
        }
    }
    true
}

fn is_small(kind: TokenKind<'_>) -> bool
    ensures { result ≡ is_small_form (form_of kind.entry) }
{
    match kind {
        TokenKind::Number { negative, digits } => {
            Numeral { negative, digits }.magnitude() <= GREATEST_NUMBER
        }
        _ => true,
    }
}

/// Whether each number has a magnitude of at most 1,000,000,000.
pub(crate) fn are_numbers_small(tokens: &[Token<'_>]) -> bool
    ensures { result ≡ list_all is_small_form (map (λ t. form_of t.kind) tokens.now) }
{
    for token in tokens {
        if !is_small(token.kind) {
            return false;
        }
    }
    true
}

fn is_link(kind: &StatementKind) -> bool
    ensures { result ≡ is_link_form (statement_of kind.now) }
{
    matches!(
        kind,
        StatementKind::Refine(_, _, _)
            | StatementKind::Obstruct(_, _)
            | StatementKind::Conflict(_, _, _)
            | StatementKind::Operationalise(_, _, _)
            | StatementKind::Assign(_, _)
    )
}

fn link_count(statements: &[Statement]) -> usize
    ensures { result ≡ count_by is_link_form (all_statements statements.now) }
{
    let mut count: usize = 0;
    for statement in statements {
        if is_link(&statement.kind) {
            count += 1;
        }
    }
    count
}

fn part_count(kind: &StatementKind) -> usize
    ensures { result ≡ parts_of (statement_of kind.now) }
{
    match kind {
        StatementKind::Refine(_, names, _)
        | StatementKind::Obstruct(_, names)
        | StatementKind::Conflict(_, names, _)
        | StatementKind::Operationalise(_, names, _) => names.len(),
        _ => 0,
    }
}

fn has_many_parts(statements: &[Statement]) -> bool
    ensures { result ≡ list_any has_many_parts_of (all_statements statements.now) }
{
    for statement in statements {
        if part_count(&statement.kind) > MOST_PARTS {
            return true;
        }
    }
    false
}

// Whether a bound of the formula is over 100. One below 0 counts as such.
fn has_wide_bound(formula: &RawFormula) -> bool
    ensures { result ≡ has_wide_bound_of (raw_tree formula.now) }
{
    match formula {
        RawFormula::Not(a)
        | RawFormula::Next(a)
        | RawFormula::Eventually(a)
        | RawFormula::Always(a)
        | RawFormula::All(_, _, a)
        | RawFormula::Exists(_, _, a) => has_wide_bound(a),
        RawFormula::EventuallyWithin(bound, a) | RawFormula::AlwaysWithin(bound, a) => {
            *bound > WIDEST_BOUND || has_wide_bound(a)
        }
        RawFormula::And(a, b)
        | RawFormula::Or(a, b)
        | RawFormula::Implies(a, b)
        | RawFormula::Iff(a, b)
        | RawFormula::Entails(a, b)
        | RawFormula::Until(a, b)
        | RawFormula::Unless(a, b)
        | RawFormula::Release(a, b) => has_wide_bound(a) || has_wide_bound(b),
        RawFormula::UntilWithin(bound, a, b)
        | RawFormula::UnlessWithin(bound, a, b)
        | RawFormula::ReleaseWithin(bound, a, b) => {
            *bound > WIDEST_BOUND || (has_wide_bound(a) || has_wide_bound(b))
        }
        _ => false,
    }
}

// Whether the formula has more than so many levels. It looks no deeper than that.
fn is_deeper(formula: &RawFormula, levels: usize) -> bool
    ensures { result ≡ nat_lt levels (depth_of (raw_tree formula.now)) }
{
    if levels == 0 {
        return true;
    }
    match formula {
        RawFormula::Not(a)
        | RawFormula::Next(a)
        | RawFormula::Eventually(a)
        | RawFormula::Always(a)
        | RawFormula::EventuallyWithin(_, a)
        | RawFormula::AlwaysWithin(_, a)
        | RawFormula::All(_, _, a)
        | RawFormula::Exists(_, _, a) => is_deeper(a, levels - 1),
        RawFormula::And(a, b)
        | RawFormula::Or(a, b)
        | RawFormula::Implies(a, b)
        | RawFormula::Iff(a, b)
        | RawFormula::Entails(a, b)
        | RawFormula::Until(a, b)
        | RawFormula::Unless(a, b)
        | RawFormula::Release(a, b)
        | RawFormula::UntilWithin(_, a, b)
        | RawFormula::UnlessWithin(_, a, b)
        | RawFormula::ReleaseWithin(_, a, b) => {
            is_deeper(a, levels - 1) || is_deeper(b, levels - 1)
        }
        _ => false,
    }
}

fn is_deep(formula: &RawFormula) -> bool
    ensures { result ≡ is_deep_of (raw_tree formula.now) }
{
    is_deeper(formula, DEEPEST_FORMULA)
}

// Whether a bound in the statement is over 100.
fn binds_widely(kind: &StatementKind) -> bool
    ensures { result ≡ has_formula has_wide_bound_of (statement_of kind.now) }
{
    match kind {
        StatementKind::Domain(_, body)
        | StatementKind::Goal(_, body)
        | StatementKind::Obstacle(_, body)
        | StatementKind::Conflict(_, _, body)
        | StatementKind::Require(_, _, _, body) => has_wide_bound(body),
        StatementKind::Rule(_, first, second) | StatementKind::Operation(_, _, first, second) => {
            has_wide_bound(first) || has_wide_bound(second)
        }
        _ => false,
    }
}

fn has_wide_bounds(statements: &[Statement]) -> bool
    ensures { result ≡ list_any (has_formula has_wide_bound_of) (all_statements statements.now) }
{
    for statement in statements {
        if binds_widely(&statement.kind) {
            return true;
        }
    }
    false
}

// Whether a formula of the statement has over 100 levels.
fn goes_deep(kind: &StatementKind) -> bool
    ensures { result ≡ has_formula is_deep_of (statement_of kind.now) }
{
    match kind {
        StatementKind::Domain(_, body)
        | StatementKind::Goal(_, body)
        | StatementKind::Obstacle(_, body)
        | StatementKind::Conflict(_, _, body)
        | StatementKind::Require(_, _, _, body) => is_deep(body),
        StatementKind::Rule(_, first, second) | StatementKind::Operation(_, _, first, second) => {
            is_deep(first) || is_deep(second)
        }
        _ => false,
    }
}

fn has_deep_formulas(statements: &[Statement]) -> bool
    ensures { result ≡ list_any (has_formula is_deep_of) (all_statements statements.now) }
{
    for statement in statements {
        if goes_deep(&statement.kind) {
            return true;
        }
    }
    false
}

/// The first limit behind that of operators that a text passes, by its tokens and its statements.
pub(crate) fn passed_limit(tokens: &[Token<'_>], raw: &RawModel) -> Option<LimitKind>
    ensures { result ≡ passed_limit_of (map (λ t. form_of t.kind) tokens.now) (statements_of raw.now) }
{
    let statements = &raw.statements;
    if statements.len() > MOST_STATEMENTS {
        return Some(LimitKind::Statements);
    }
    if link_count(statements) > MOST_LINKS {
        return Some(LimitKind::Links);
    }
    if has_many_parts(statements) {
        return Some(LimitKind::Parts);
    }
    if !are_names_short(tokens) {
        return Some(LimitKind::NameLength);
    }
    if !are_numbers_small(tokens) {
        return Some(LimitKind::Number);
    }
    if has_wide_bounds(statements) {
        return Some(LimitKind::Bound);
    }
    if has_deep_formulas(statements) {
        return Some(LimitKind::Depth);
    }
    None
}
