//! Formulas, written with parentheses exactly where an operand binds less tightly than its place asks.

ghost use Rattle.std.specs.Prelude.{◌≡◌, ◌∷◌, ◌++◌, [], map, OnOk};
ghost use Rattle.temporal_logic.specs.Trees.{relation_of};
ghost use Rattle.model_tokens.specs.Tokens.{keyword, mark, name as name_form, further};
ghost use Rattle.model_tokens.specs.declared.token.Sign.TheVariants.{Colon};
ghost use Rattle.model_tokens.specs.declared.token.Further.TheVariants.{OpenArgument};
ghost use Rattle.model_text.specs.RawTrees.{compares, among, compares_of, among_of};
ghost use Rattle.model_text.specs.RawView.{written, raw_tree};
ghost use Rattle.model_text.specs.FormulaGrammar.{prefix_level, primary_level, whole_level};
ghost use Rattle.model_text.specs.Writing.{sign_of, value_token, argument_tokens, right_tokens, values_tokens, quantified_tokens, formula_tokens};
ghost use Rattle.model_text.specs.Lines.{with_token, with_tokens, behind_commas, bound_tokens, level_of, own_level};

use crate::level::Level;
use crate::line::Line;
use crate::raw_formula::{RawFormula, RawValue};
use model_tokens::{Further, Sign};
use source_sink::Memory;
use state_space::{Keyword, Name};
use temporal_logic::Cmp;

/// A value.
pub(crate) fn value(line: &mut Line, value: &RawValue) -> Result<(), Memory>
    ensures { OnOk result (line.new ≡ with_token line.old (value_token (written value.now))) }
{
    match value {
        RawValue::Word(word) => line.name(word),
        RawValue::Of(attribute, _) => line.name(attribute),
        RawValue::Number(number) => line.number(*number),
        RawValue::True => line.keyword(Keyword::True),
        RawValue::False => line.keyword(Keyword::False),
    }
}

/// A name in brackets.
fn argument(line: &mut Line, name: &Name) -> Result<(), Memory>
    ensures { OnOk result (line.new ≡ with_tokens line.old (argument_tokens name.now)) }
{
    line.further(Further::OpenArgument)?;
    line.name(name)?;
    line.mark(Sign::CloseParenthesis)
}

/// What stands behind a comparison.
fn right(line: &mut Line, other: &RawValue) -> Result<(), Memory>
    ensures { OnOk result (line.new ≡ with_tokens line.old (right_tokens (written other.now))) }
{
    match other {
        RawValue::Of(attribute, name) => {
            line.name(attribute)?;
            argument(line, name)
        }
        _ => value(line, other),
    }
}

/// The sign of a comparison.
fn sign_of(comparison: Cmp) -> Sign
    ensures { result ≡ sign_of (relation_of comparison) }
{
    match comparison {
        Cmp::Eq => Sign::Equal,
        Cmp::Ne => Sign::NotEqual,
        Cmp::Lt => Sign::Below,
        Cmp::Le => Sign::AtMost,
        Cmp::Gt => Sign::Above,
        Cmp::Ge => Sign::AtLeast,
    }
}

/// A name compared with a value.
#[tactic(auto, unfolding(crate::specs::Writing::formula_tokens))]
fn comparison(line: &mut Line, name: &Name, comparison: Cmp, other: &RawValue) -> Result<(), Memory>
    ensures { OnOk result (line.new ≡ with_tokens line.old (formula_tokens primary_level (compares name.now (relation_of comparison) (written other.now)))) }
{
    line.name(name)?;
    line.mark(sign_of(comparison))?;
    right(line, other)
}

/// An attribute and a name, compared.
#[tactic(auto, using(crate::proofs::LineLaws::with_both), unfolding(crate::specs::Writing::formula_tokens))]
fn comparison_of(
    line: &mut Line,
    attribute: &Name,
    name: &Name,
    comparison: Cmp,
    other: &RawValue,
) -> Result<(), Memory>
    ensures { OnOk result (line.new ≡ with_tokens line.old (formula_tokens primary_level (compares_of attribute.now name.now (relation_of comparison) (written other.now)))) }
{
    line.name(attribute)?;
    argument(line, name)?;
    line.mark(sign_of(comparison))?;
    right(line, other)
}

/// Values, each behind a comma.
fn more_values(line: &mut Line, values: &[RawValue]) -> Result<(), Memory>
    ensures { OnOk result (line.new ≡ with_tokens line.old (behind_commas (λ v. value_token (written v) ∷ []) values.now)) }
{
    'values: for item in values {
        line.mark(Sign::Comma)?;
        value(line, item)?;
    }
    Ok(())
}

/// Values with commas between them.
fn values(line: &mut Line, values: &[RawValue]) -> Result<(), Memory>
    ensures { OnOk result (line.new ≡ with_tokens line.old (values_tokens (map written values.now))) }
{
    match values {
        [] => Ok(()),
        [first, rest @ ..] => {
            value(line, first)?;
            more_values(line, rest)
        }
    }
}

/// A name and the values of which it is to have one.
#[tactic(auto, using(crate::proofs::LineLaws::with_both), unfolding(crate::specs::Writing::formula_tokens))]
fn choice(line: &mut Line, name: &Name, choices: &[RawValue]) -> Result<(), Memory>
    ensures { OnOk result (line.new ≡ with_tokens line.old (formula_tokens primary_level (among name.now (map written choices.now)))) }
{
    line.name(name)?;
    line.keyword(Keyword::In)?;
    line.mark(Sign::OpenBrace)?;
    values(line, choices)?;
    line.mark(Sign::CloseBrace)
}

/// An attribute and a name, and the values of which it is to have one.
#[tactic(auto, using(crate::proofs::LineLaws::with_both), unfolding(crate::specs::Writing::formula_tokens))]
fn choice_of(
    line: &mut Line,
    attribute: &Name,
    name: &Name,
    choices: &[RawValue],
) -> Result<(), Memory>
    ensures { OnOk result (line.new ≡ with_tokens line.old (formula_tokens primary_level (among_of attribute.now name.now (map written choices.now)))) }
{
    line.name(attribute)?;
    argument(line, name)?;
    line.keyword(Keyword::In)?;
    line.mark(Sign::OpenBrace)?;
    values(line, choices)?;
    line.mark(Sign::CloseBrace)
}

/// A bound in steps, where there is one.
fn bound(line: &mut Line, steps: Option<u8>) -> Result<(), Memory>
    ensures { OnOk result (line.new ≡ with_tokens line.old (bound_tokens steps)) }
{
    match steps {
        None => Ok(()),
        Some(steps) => {
            line.keyword(Keyword::Within)?;
            line.number(steps as i64)
        }
    }
}

/// An operator before its operand.
#[cycle(formula)]
#[tactic(auto, using(crate::proofs::LineLaws::with_both))]
fn prefixed(
    line: &mut Line,
    operator: Keyword,
    steps: Option<u8>,
    operand: &RawFormula,
) -> Result<(), Memory>
    ensures { OnOk result (line.new ≡ with_tokens line.old (keyword operator ∷ bound_tokens steps ++ formula_tokens prefix_level (raw_tree operand.now))) }
{
    line.keyword(operator)?;
    bound(line, steps)?;
    formula(line, Level::Prefix, operand)
}

/// An operator over the future between its operands.
#[cycle(formula)]
#[tactic(auto, using(crate::proofs::LineLaws::with_both))]
fn tempo(
    line: &mut Line,
    left: &RawFormula,
    operator: Keyword,
    steps: Option<u8>,
    right: &RawFormula,
) -> Result<(), Memory>
    ensures { OnOk result (line.new ≡ with_tokens line.old (formula_tokens prefix_level (raw_tree left.now) ++ keyword operator ∷ bound_tokens steps ++ formula_tokens prefix_level (raw_tree right.now))) }
{
    formula(line, Level::Prefix, left)?;
    line.keyword(operator)?;
    bound(line, steps)?;
    formula(line, Level::Prefix, right)
}

/// A quantifier, its bound name and its type, up to the parenthesis.
fn quantifier(line: &mut Line, word: Further, name: &Name, entity: &Name) -> Result<(), Memory>
    ensures { OnOk result (line.new ≡ with_tokens line.old (further word ∷ name_form name.now ∷ mark Colon ∷ name_form entity.now ∷ further OpenArgument ∷ [])) }
{
    line.further(word)?;
    line.name(name)?;
    line.mark(Sign::Colon)?;
    line.name(entity)?;
    line.further(Further::OpenArgument)
}

/// A formula behind a quantifier.
#[cycle(formula)]
#[tactic(auto, using(crate::proofs::LineLaws::with_both))]
fn quantified(
    line: &mut Line,
    word: Further,
    name: &Name,
    entity: &Name,
    body: &RawFormula,
) -> Result<(), Memory>
    ensures { OnOk result (line.new ≡ with_tokens line.old (quantified_tokens word name.now entity.now (formula_tokens whole_level (raw_tree body.now)))) }
{
    quantifier(line, word, name, entity)?;
    formula(line, Level::Whole, body)?;
    line.mark(Sign::CloseParenthesis)
}

/// A logical operator between its operands, each at a place that asks for a level.
#[cycle(formula)]
#[tactic(auto, using(crate::proofs::LineLaws::with_both))]
fn infix(
    line: &mut Line,
    left_level: Level,
    left: &RawFormula,
    operator: Keyword,
    right_level: Level,
    right: &RawFormula,
) -> Result<(), Memory>
    ensures { OnOk result (line.new ≡ with_tokens line.old (formula_tokens (level_of left_level) (raw_tree left.now) ++ keyword operator ∷ formula_tokens (level_of right_level) (raw_tree right.now))) }
{
    formula(line, left_level, left)?;
    line.keyword(operator)?;
    formula(line, right_level, right)
}

/// A formula without parentheses around it.
#[cycle(formula)]
#[tactic(auto, unfolding(crate::specs::Writing::formula_tokens))]
fn open_formula(line: &mut Line, formula: &RawFormula) -> Result<(), Memory>
    ensures { OnOk result (line.new ≡ with_tokens line.old (formula_tokens (own_level (raw_tree formula.now)) (raw_tree formula.now))) }
{
    match formula {
        RawFormula::True => line.keyword(Keyword::True),
        RawFormula::False => line.keyword(Keyword::False),
        RawFormula::Bare(x) => line.name(x),
        RawFormula::Compare(x, c, v) => comparison(line, x, *c, v),
        RawFormula::Among(x, vs) => choice(line, x, vs),
        RawFormula::BareOf(f, x) => {
            line.name(f)?;
            argument(line, x)
        }
        RawFormula::CompareOf(f, x, c, v) => comparison_of(line, f, x, *c, v),
        RawFormula::AmongOf(f, x, vs) => choice_of(line, f, x, vs),
        RawFormula::All(x, entity, a) => quantified(line, Further::All, x, entity, a),
        RawFormula::Exists(x, entity, a) => quantified(line, Further::Some, x, entity, a),
        RawFormula::Not(a) => prefixed(line, Keyword::Not, None, a),
        RawFormula::Next(a) => prefixed(line, Keyword::Next, None, a),
        RawFormula::Eventually(a) => prefixed(line, Keyword::Eventually, None, a),
        RawFormula::Always(a) => prefixed(line, Keyword::Always, None, a),
        RawFormula::EventuallyWithin(d, a) => prefixed(line, Keyword::Eventually, Some(*d), a),
        RawFormula::AlwaysWithin(d, a) => prefixed(line, Keyword::Always, Some(*d), a),
        RawFormula::And(a, b) => infix(line, Level::And, a, Keyword::And, Level::Tempo, b),
        RawFormula::Or(a, b) => infix(line, Level::Or, a, Keyword::Or, Level::And, b),
        RawFormula::Implies(a, b) => {
            infix(line, Level::Or, a, Keyword::Implies, Level::Implies, b)
        }
        RawFormula::Iff(a, b) => infix(line, Level::Implies, a, Keyword::Iff, Level::Implies, b),
        RawFormula::Entails(a, b) => infix(line, Level::Iff, a, Keyword::Entails, Level::Iff, b),
        RawFormula::Until(a, b) => tempo(line, a, Keyword::Until, None, b),
        RawFormula::Unless(a, b) => tempo(line, a, Keyword::Unless, None, b),
        RawFormula::Release(a, b) => tempo(line, a, Keyword::Release, None, b),
        RawFormula::UntilWithin(d, a, b) => tempo(line, a, Keyword::Until, Some(*d), b),
        RawFormula::UnlessWithin(d, a, b) => tempo(line, a, Keyword::Unless, Some(*d), b),
        RawFormula::ReleaseWithin(d, a, b) => tempo(line, a, Keyword::Release, Some(*d), b),
    }
}

/// A formula at a place that asks for a level.
#[cycle(formula)]
#[tactic(auto, using(crate::proofs::WrittenLevels::tight_enough, crate::proofs::WrittenLevels::too_loose, crate::proofs::LineLaws::with_both))]
pub(crate) fn formula(line: &mut Line, asked: Level, formula: &RawFormula) -> Result<(), Memory>
    ensures { OnOk result (line.new ≡ with_tokens line.old (formula_tokens (level_of asked) (raw_tree formula.now))) }
{
    if asked.tightness() <= Level::of(formula).tightness() {
        return open_formula(line, formula);
    }
    line.mark(Sign::OpenParenthesis)?;
    open_formula(line, formula)?;
    line.mark(Sign::CloseParenthesis)
}
