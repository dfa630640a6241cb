//! From tokens to a formula, one function a rule of the grammar: each gives what the reading of
//! that rule in specs/FormulaReading.antt gives. `depth` bounds how deep constructs open, so that
//! every call ends: the number of tokens is enough.

ghost use Rattle.std.specs.Prelude.{◌≡◌, ◌≤◌, ◌<◌, ◌-◌, ℕ, length, map, option_map, IfOk, OnOk, IsErrOf, MatchResult, MatchOption};
ghost use Rattle.temporal_logic.specs.Trees.{relation_of};
ghost use Rattle.model_text.specs.RawTrees.{RawTree};
ghost use Rattle.model_text.specs.RawView.{raw_tree, written};
ghost use Rattle.model_text.specs.FormulaGrammar.{whole_level, SpellsFormula};
ghost use Rattle.model_text.specs.Reading.{Gives, left};
ghost use Rattle.model_text.specs.FormulaReading.{values_at, choice_at, bare_with, compares_with, among_with, atom_at, primary_with, head_at, simple_with, quantified_with, closed, opening_at, opened, joining_at, joined, connected, tempo_with, and_with, or_with, implies_from, prefix_at, iff_at, whole_at};
ghost use Rattle.model_text.specs.declared.cursor.Fault.TheVariants.{Memory as MemoryFault};

use crate::cursor::{Cursor, Fault};
use crate::raw_formula::{RawFormula, RawValue};
use model_tokens::{Further, Sign};
use state_space::{Keyword, Name};
use std::alloc::Global;
use temporal_logic::Cmp;

/// An operator of one operand, with its bound.
#[derive(Clone, Copy)]
enum Opening {
    Not,
    Next,
    Eventually(Option<u8>),
    Always(Option<u8>),
}

/// An operator of two operands that has no bound.
#[derive(Clone, Copy)]
enum Connective {
    And,
    Or,
    Implies,
    Iff,
    Entails,
}

/// An operator of two operands over time, with its bound.
#[derive(Clone, Copy)]
enum Joining {
    Until(Option<u8>),
    Unless(Option<u8>),
    Release(Option<u8>),
}

// value { "," value }
#[tactic(auto, unfolding(crate::specs::FormulaReading::values_at))]
fn values(alloc: Global, cursor: &mut Cursor<'_, '_>) -> Result<Vec<RawValue>, Fault>
    ensures exact { Gives (λ vs. map written vs.items) result (left cursor.new) (values_at (left cursor.old)) }
    ensures shorter { OnOk result (length (left cursor.new) < length (left cursor.old)) }
{
    let first = cursor.value(alloc)?;
    let mut values = Vec::new(alloc);
    values.push(first)?;
    'values: while cursor.take_mark(Sign::Comma) {
        let next = cursor.value(alloc)?;
        values.push(next)?;
    }
    Ok(values)
}

// "{" value { "," value } "}"
#[tactic(auto, unfolding(crate::specs::FormulaReading::choice_at))]
fn choice(alloc: Global, cursor: &mut Cursor<'_, '_>) -> Result<Vec<RawValue>, Fault>
    ensures exact { Gives (λ vs. map written vs.items) result (left cursor.new) (choice_at (left cursor.old)) }
    ensures shorter { OnOk result (length (left cursor.new) < length (left cursor.old)) }
{
    cursor.mark(Sign::OpenBrace)?;
    let values = values(alloc, cursor)?;
    cursor.mark(Sign::CloseBrace)?;
    Ok(values)
}

// A name, or an attribute and a name, alone.
fn bare(name: Name, argument: Option<Name>) -> RawFormula
    ensures { raw_tree result ≡ bare_with name (option_map (λ n. n) argument) }
{
    match argument {
        None => RawFormula::Bare(name),
        Some(argument) => RawFormula::BareOf(name, argument),
    }
}

// The same, compared.
fn compare(name: Name, argument: Option<Name>, comparison: Cmp, right: RawValue) -> RawFormula
    ensures { raw_tree result ≡ compares_with name (option_map (λ n. n) argument) (relation_of comparison) (written right) }
{
    match argument {
        None => RawFormula::Compare(name, comparison, right),
        Some(argument) => RawFormula::CompareOf(name, argument, comparison, right),
    }
}

// The same, and the values of which it is to have one.
fn among(name: Name, argument: Option<Name>, values: Vec<RawValue>) -> RawFormula
    ensures { raw_tree result ≡ among_with name (option_map (λ n. n) argument) (map written values.items) }
{
    match argument {
        None => RawFormula::Among(name, values),
        Some(argument) => RawFormula::AmongOf(name, argument, values),
    }
}

// name [ "(" name ")" ] [ cmp right | "in" choice ]
#[tactic(auto, unfolding(crate::specs::FormulaReading::atom_at))]
fn atom(alloc: Global, cursor: &mut Cursor<'_, '_>) -> Result<RawFormula, Fault>
    ensures exact { Gives raw_tree result (left cursor.new) (atom_at (left cursor.old)) }
    ensures shorter { OnOk result (length (left cursor.new) < length (left cursor.old)) }
{
    let name = cursor.name(alloc)?;
    let argument = cursor.argument(alloc)?;
    if let Some(comparison) = cursor.comparison() {
        let right = cursor.right(alloc)?;
        return Ok(compare(name, argument, comparison, right));
    }
    if cursor.take_keyword(Keyword::In) {
        let values = choice(alloc, cursor)?;
        return Ok(among(name, argument, values));
    }
    Ok(bare(name, argument))
}

// The operator of one operand that stands here, if one does.
#[tactic(auto, unfolding(crate::specs::FormulaReading::opening_at))]
fn take_opening(cursor: &mut Cursor<'_, '_>) -> Result<Option<Opening>, Fault>
    ensures exact { Gives (λ o. o) result (left cursor.new) (opening_at (left cursor.old)) }
    ensures shorter { IfOk result (λ o. MatchOption o (left cursor.new ≡ left cursor.old) (λ _. length (left cursor.new) < length (left cursor.old))) }
{
    if cursor.take_keyword(Keyword::Not) {
        return Ok(Some(Opening::Not));
    }
    if cursor.take_keyword(Keyword::Next) {
        return Ok(Some(Opening::Next));
    }
    if cursor.take_keyword(Keyword::Eventually) {
        let bound = cursor.bound()?;
        return Ok(Some(Opening::Eventually(bound)));
    }
    if cursor.take_keyword(Keyword::Always) {
        let bound = cursor.bound()?;
        return Ok(Some(Opening::Always(bound)));
    }
    Ok(None)
}

// The formula that an operator makes of its operand.
fn open(alloc: Global, opening: Opening, operand: RawFormula) -> Result<RawFormula, Fault>
    ensures { MatchResult result (λ f. raw_tree f ≡ opened opening (raw_tree operand)) (λ e. e ≡ MemoryFault) }
{
    let operand = Box::new(alloc, operand)?;
    Ok(match opening {
        Opening::Not => RawFormula::Not(operand),
        Opening::Next => RawFormula::Next(operand),
        Opening::Eventually(None) => RawFormula::Eventually(operand),
        Opening::Eventually(Some(steps)) => RawFormula::EventuallyWithin(steps, operand),
        Opening::Always(None) => RawFormula::Always(operand),
        Opening::Always(Some(steps)) => RawFormula::AlwaysWithin(steps, operand),
    })
}

// The operator of two operands over time that stands here, if one does.
#[tactic(auto, unfolding(crate::specs::FormulaReading::joining_at))]
fn take_joining(cursor: &mut Cursor<'_, '_>) -> Result<Option<Joining>, Fault>
    ensures exact { Gives (λ o. o) result (left cursor.new) (joining_at (left cursor.old)) }
    ensures shorter { IfOk result (λ o. MatchOption o (left cursor.new ≡ left cursor.old) (λ _. length (left cursor.new) < length (left cursor.old))) }
{
    if cursor.take_keyword(Keyword::Until) {
        let bound = cursor.bound()?;
        return Ok(Some(Joining::Until(bound)));
    }
    if cursor.take_keyword(Keyword::Unless) {
        let bound = cursor.bound()?;
        return Ok(Some(Joining::Unless(bound)));
    }
    if cursor.take_keyword(Keyword::Release) {
        let bound = cursor.bound()?;
        return Ok(Some(Joining::Release(bound)));
    }
    Ok(None)
}

// The formula that an operator makes of its two operands.
fn join(
    alloc: Global,
    joining: Joining,
    left: RawFormula,
    right: RawFormula,
) -> Result<RawFormula, Fault>
    ensures { MatchResult result (λ f. raw_tree f ≡ joined joining (raw_tree left) (raw_tree right)) (λ e. e ≡ MemoryFault) }
{
    let left = Box::new(alloc, left)?;
    let right = Box::new(alloc, right)?;
    Ok(match joining {
        Joining::Until(None) => RawFormula::Until(left, right),
        Joining::Until(Some(steps)) => RawFormula::UntilWithin(steps, left, right),
        Joining::Unless(None) => RawFormula::Unless(left, right),
        Joining::Unless(Some(steps)) => RawFormula::UnlessWithin(steps, left, right),
        Joining::Release(None) => RawFormula::Release(left, right),
        Joining::Release(Some(steps)) => RawFormula::ReleaseWithin(steps, left, right),
    })
}

// The formula that a connective makes of its two operands.
fn connect(
    alloc: Global,
    connective: Connective,
    left: RawFormula,
    right: RawFormula,
) -> Result<RawFormula, Fault>
    ensures { MatchResult result (λ f. raw_tree f ≡ connected connective (raw_tree left) (raw_tree right)) (λ e. e ≡ MemoryFault) }
{
    let left = Box::new(alloc, left)?;
    let right = Box::new(alloc, right)?;
    Ok(match connective {
        Connective::And => RawFormula::And(left, right),
        Connective::Or => RawFormula::Or(left, right),
        Connective::Implies => RawFormula::Implies(left, right),
        Connective::Iff => RawFormula::Iff(left, right),
        Connective::Entails => RawFormula::Entails(left, right),
    })
}

// "true" | "false" | "(" formula ")" | atom
#[tactic(auto, unfolding(crate::specs::FormulaReading::primary_with))]
#[cycle(formula)]
fn primary(alloc: Global, cursor: &mut Cursor<'_, '_>, depth: usize) -> Result<RawFormula, Fault>
    requires { length (left cursor.old) ≤ depth }
    ensures exact { Gives raw_tree result (left cursor.new) (primary_with (whole_at (depth - 1)) (left cursor.old)) }
    ensures shorter { OnOk result (length (left cursor.new) < length (left cursor.old)) }
{
    if cursor.take_keyword(Keyword::True) {
        return Ok(RawFormula::True);
    }
    if cursor.take_keyword(Keyword::False) {
        return Ok(RawFormula::False);
    }
    if cursor.take_mark(Sign::OpenParenthesis) {
        let inner = formula(alloc, cursor, depth - 1)?;
        cursor.mark(Sign::CloseParenthesis)?;
        return Ok(inner);
    }
    atom(alloc, cursor)
}

// name ":" name "("
#[tactic(auto, unfolding(crate::specs::FormulaReading::head_at))]
fn head(alloc: Global, cursor: &mut Cursor<'_, '_>) -> Result<(Name, Name), Fault>
    ensures exact { Gives (λ p. (p.0, p.1)) result (left cursor.new) (head_at (left cursor.old)) }
    ensures shorter { OnOk result (length (left cursor.new) < length (left cursor.old)) }
{
    let name = cursor.name(alloc)?;
    cursor.mark(Sign::Colon)?;
    let entity = cursor.name(alloc)?;
    cursor.further(Further::OpenArgument)?;
    Ok((name, entity))
}

// formula ")"
#[tactic(auto)]
#[cycle(formula)]
fn enclosed(alloc: Global, cursor: &mut Cursor<'_, '_>, depth: usize) -> Result<RawFormula, Fault>
    requires { length (left cursor.old) ≤ depth }
    ensures exact { Gives raw_tree result (left cursor.new) (closed (whole_at depth (left cursor.old))) }
    ensures shorter { OnOk result (length (left cursor.new) < length (left cursor.old)) }
{
    let inner = formula(alloc, cursor, depth)?;
    cursor.mark(Sign::CloseParenthesis)?;
    Ok(inner)
}

// ( "all" | "some" ) head formula ")" | primary
#[tactic(auto, unfolding(crate::specs::FormulaReading::simple_with, crate::specs::FormulaReading::quantified_with))]
#[cycle(formula)]
fn simple(alloc: Global, cursor: &mut Cursor<'_, '_>, depth: usize) -> Result<RawFormula, Fault>
    requires { length (left cursor.old) ≤ depth }
    ensures exact { Gives raw_tree result (left cursor.new) (simple_with (whole_at (depth - 1)) (left cursor.old)) }
    ensures shorter { OnOk result (length (left cursor.new) < length (left cursor.old)) }
{
    if cursor.take_further(Further::All) {
        let (name, entity) = head(alloc, cursor)?;
        let body = enclosed(alloc, cursor, depth - 1)?;
        return Ok(RawFormula::All(name, entity, Box::new(alloc, body)?));
    }
    if cursor.take_further(Further::Some) {
        let (name, entity) = head(alloc, cursor)?;
        let body = enclosed(alloc, cursor, depth - 1)?;
        return Ok(RawFormula::Exists(name, entity, Box::new(alloc, body)?));
    }
    primary(alloc, cursor, depth)
}

// operator prefix | simple
#[tactic(auto, using(crate::proofs::FormulaTurns::prefix_step), unfolding(crate::specs::FormulaReading::prefix_with))]
#[cycle(formula)]
fn prefix(alloc: Global, cursor: &mut Cursor<'_, '_>, depth: usize) -> Result<RawFormula, Fault>
    requires { length (left cursor.old) ≤ depth }
    ensures exact { Gives raw_tree result (left cursor.new) (prefix_at depth (left cursor.old)) }
    ensures shorter { OnOk result (length (left cursor.new) < length (left cursor.old)) }
{
    let Some(opening) = take_opening(cursor)? else {
        return simple(alloc, cursor, depth);
    };
    let operand = prefix(alloc, cursor, depth - 1)?;
    open(alloc, opening, operand)
}

// prefix [ operator prefix ]
#[tactic(auto, unfolding(crate::specs::FormulaReading::tempo_with))]
#[cycle(formula)]
fn tempo(alloc: Global, cursor: &mut Cursor<'_, '_>, depth: usize) -> Result<RawFormula, Fault>
    requires { length (left cursor.old) ≤ depth }
    ensures exact { Gives raw_tree result (left cursor.new) (tempo_with (prefix_at depth) (left cursor.old)) }
    ensures shorter { OnOk result (length (left cursor.new) < length (left cursor.old)) }
{
    let first = prefix(alloc, cursor, depth)?;
    let Some(joining) = take_joining(cursor)? else {
        return Ok(first);
    };
    let second = prefix(alloc, cursor, depth)?;
    join(alloc, joining, first, second)
}

// tempo { "and" tempo }
#[tactic(auto, unfolding(crate::specs::FormulaReading::and_with))]
#[cycle(formula)]
fn and(alloc: Global, cursor: &mut Cursor<'_, '_>, depth: usize) -> Result<RawFormula, Fault>
    requires { length (left cursor.old) ≤ depth }
    ensures exact { Gives raw_tree result (left cursor.new) (and_with (prefix_at depth) (left cursor.old)) }
    ensures shorter { OnOk result (length (left cursor.new) < length (left cursor.old)) }
{
    let mut formula = tempo(alloc, cursor, depth)?;
    'operands: while cursor.take_keyword(Keyword::And) {
        let right = tempo(alloc, cursor, depth)?;
        formula = connect(alloc, Connective::And, formula, right)?;
    }
    Ok(formula)
}

// and { "or" and }
#[tactic(auto, unfolding(crate::specs::FormulaReading::or_with))]
#[cycle(formula)]
fn or(alloc: Global, cursor: &mut Cursor<'_, '_>, depth: usize) -> Result<RawFormula, Fault>
    requires { length (left cursor.old) ≤ depth }
    ensures exact { Gives raw_tree result (left cursor.new) (or_with (prefix_at depth) (left cursor.old)) }
    ensures shorter { OnOk result (length (left cursor.new) < length (left cursor.old)) }
{
    let mut formula = and(alloc, cursor, depth)?;
    'operands: while cursor.take_keyword(Keyword::Or) {
        let right = and(alloc, cursor, depth)?;
        formula = connect(alloc, Connective::Or, formula, right)?;
    }
    Ok(formula)
}

// or [ "implies" implies ]
#[tactic(auto, unfolding(crate::specs::FormulaReading::implies_from))]
#[cycle(formula)]
fn implies(alloc: Global, cursor: &mut Cursor<'_, '_>, depth: usize) -> Result<RawFormula, Fault>
    requires { length (left cursor.old) ≤ depth }
    ensures exact { (n : ℕ) → length (left cursor.old) ≤ n → Gives raw_tree result (left cursor.new) (implies_from (prefix_at depth) n (left cursor.old)) }
    ensures shorter { OnOk result (length (left cursor.new) < length (left cursor.old)) }
{
    let premise = or(alloc, cursor, depth)?;
    if !cursor.take_keyword(Keyword::Implies) {
        return Ok(premise);
    }
    let conclusion = implies(alloc, cursor, depth)?;
    connect(alloc, Connective::Implies, premise, conclusion)
}

/// The formula at the front, without an `entails`.
#[tactic(auto, unfolding(crate::specs::FormulaReading::iff_at, crate::specs::FormulaReading::iff_with, crate::specs::FormulaReading::implies_with))]
#[cycle(formula)]
pub(crate) fn iff_formula(
    alloc: Global,
    cursor: &mut Cursor<'_, '_>,
    depth: usize,
) -> Result<RawFormula, Fault>
    requires { length (left cursor.old) ≤ depth }
    ensures exact { Gives raw_tree result (left cursor.new) (iff_at depth (left cursor.old)) }
    ensures shorter { OnOk result (length (left cursor.new) < length (left cursor.old)) }
{
    let first = implies(alloc, cursor, depth)?;
    if !cursor.take_keyword(Keyword::Iff) {
        return Ok(first);
    }
    let second = implies(alloc, cursor, depth)?;
    connect(alloc, Connective::Iff, first, second)
}

/// The formula at the front. `depth` bounds how deep its constructs open.
#[tactic(auto, unfolding(crate::specs::FormulaReading::whole_at, crate::specs::FormulaReading::whole_with, crate::specs::FormulaReading::iff_at))]
#[cycle(formula)]
pub(crate) fn formula(
    alloc: Global,
    cursor: &mut Cursor<'_, '_>,
    depth: usize,
) -> Result<RawFormula, Fault>
    requires { length (left cursor.old) ≤ depth }
    ensures exact { Gives raw_tree result (left cursor.new) (whole_at depth (left cursor.old)) }
    ensures shorter { OnOk result (length (left cursor.new) < length (left cursor.old)) }
{
    let first = iff_formula(alloc, cursor, depth)?;
    if !cursor.take_keyword(Keyword::Entails) {
        return Ok(first);
    }
    let second = iff_formula(alloc, cursor, depth)?;
    connect(alloc, Connective::Entails, first, second)
}
