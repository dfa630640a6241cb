//! The written form of formulas, with parentheses exactly where an operand binds less tightly than
//! its place asks.

ghost use Rattle.std.specs.Prelude.{◌≡◌, ◌++◌, ◌<◌, ◌≤◌, IfOk, OnOk, length, codes};
ghost use Rattle.state_space.specs.Keywords.{spelling};
ghost use Rattle.state_space.specs.Spaces.{names, ranges};
ghost use Rattle.state_space.specs.ValueTexts.{value_text, set_text};
ghost use Rattle.temporal_logic.specs.Fits.{Fits, size_at};
ghost use Rattle.temporal_logic.specs.Tightness.{tightness, bound_text};
ghost use Rattle.temporal_logic.specs.Trees.{relation_of, tree_of};
ghost use Rattle.temporal_logic.specs.Written.{name_at, range_at, sign, prefixed, joined, written, formula_text as text_of_formula};

use crate::formula::{Cmp, Formula};
use source_sink::{Memory, put, put_decimal};
use state_space::{Keyword, Space, Values, VarId};
use std::alloc::Global;

// How tightly a formula binds.
fn tightness(f: &Formula) -> u8
    ensures { result ≡ tightness (tree_of f.now) }
{
    match f {
        Formula::Entails(_, _) => 0,
        Formula::Iff(_, _) => 1,
        Formula::Implies(_, _) => 2,
        Formula::Or(_, _) => 3,
        Formula::And(_, _) => 4,
        Formula::Until(_, _)
        | Formula::Unless(_, _)
        | Formula::Release(_, _)
        | Formula::UntilWithin(_, _, _)
        | Formula::UnlessWithin(_, _, _)
        | Formula::ReleaseWithin(_, _, _) => 5,
        Formula::Not(_)
        | Formula::Next(_)
        | Formula::Eventually(_)
        | Formula::Always(_)
        | Formula::EventuallyWithin(_, _)
        | Formula::AlwaysWithin(_, _) => 6,
        _ => 7,
    }
}

// A comparison with the spaces around it.
fn sign(comparison: Cmp) -> &'static [u8]
    ensures { result.now ≡ sign (relation_of comparison) }
{
    match comparison {
        Cmp::Eq => b" = ",
        Cmp::Ne => b" != ",
        Cmp::Lt => b" < ",
        Cmp::Le => b" <= ",
        Cmp::Gt => b" > ",
        Cmp::Ge => b" >= ",
    }
}

// A bound in steps, where there is one.
fn put_bound(out: &mut Vec<u8>, bound: Option<u8>) -> Result<(), Memory>
    ensures { OnOk result (out.new.items ≡ out.old.items ++ bound_text bound) }
{
    match bound {
        None => Ok(()),
        Some(steps) => {
            put(out, b" within ")?;
            put_decimal(out, u64::from(steps))
        }
    }
}

fn put_name(out: &mut Vec<u8>, space: &Space, x: VarId) -> Result<(), Memory>
    requires { x.0 < length (ranges space.now) }
    ensures { OnOk result (out.new.items ≡ out.old.items ++ name_at (names space.now) x.0) }
{
    put(out, space.name_of(x).bytes())
}

// A variable compared with a value that it has.
fn put_comparison(
    out: &mut Vec<u8>,
    space: &Space,
    x: VarId,
    comparison: Cmp,
    value: u8,
) -> Result<(), Memory>
    requires variable { x.0 < length (ranges space.now) }
    requires value { value < size_at (ranges space.now) x.0 }
    ensures { OnOk result (out.new.items ≡ out.old.items ++ name_at (names space.now) x.0 ++ sign (relation_of comparison) ++ value_text (range_at (ranges space.now) x.0) value) }
{
    put_name(out, space, x)?;
    put(out, sign(comparison))?;
    space.range_of(x).put_value(out, value)?;
    Ok(())
}

// A variable and a set of its values.
fn put_choice(out: &mut Vec<u8>, space: &Space, x: VarId, set: Values) -> Result<(), Memory>
    requires { x.0 < length (ranges space.now) }
    ensures { OnOk result (out.new.items ≡ out.old.items ++ name_at (names space.now) x.0 ++ codes " in " ++ set_text (range_at (ranges space.now) x.0) set.0) }
{
    put_name(out, space, x)?;
    put(out, b" in ")?;
    space.range_of(x).put_set(out, set)?;
    Ok(())
}

// Two variables compared.
fn put_relation(
    out: &mut Vec<u8>,
    space: &Space,
    x: VarId,
    comparison: Cmp,
    y: VarId,
) -> Result<(), Memory>
    requires first { x.0 < length (ranges space.now) }
    requires second { y.0 < length (ranges space.now) }
    ensures { OnOk result (out.new.items ≡ out.old.items ++ name_at (names space.now) x.0 ++ sign (relation_of comparison) ++ name_at (names space.now) y.0) }
{
    put_name(out, space, x)?;
    put(out, sign(comparison))?;
    put_name(out, space, y)
}

// An operator of one operand, with its bound, and the operand.
#[cycle(formula)]
fn put_prefixed(
    out: &mut Vec<u8>,
    space: &Space,
    operator: Keyword,
    bound: Option<u8>,
    operand: &Formula,
) -> Result<(), Memory>
    requires { Fits (ranges space.now) (tree_of operand.now) }
    ensures { OnOk result (out.new.items ≡ out.old.items ++ prefixed 0 (spelling operator ++ bound_text bound) (written (names space.now) (ranges space.now) 6 (tree_of operand.now))) }
{
    put(out, operator.spelling())?;
    put_bound(out, bound)?;
    put(out, b" ")?;
    put_formula(out, space, 6, operand)
}

// An operator over the future between its operands, with its bound.
#[cycle(formula)]
fn put_tempo(
    out: &mut Vec<u8>,
    space: &Space,
    first: &Formula,
    operator: Keyword,
    bound: Option<u8>,
    second: &Formula,
) -> Result<(), Memory>
    requires first { Fits (ranges space.now) (tree_of first.now) }
    requires second { Fits (ranges space.now) (tree_of second.now) }
    ensures { OnOk result (out.new.items ≡ out.old.items ++ joined 0 5 (written (names space.now) (ranges space.now) 6 (tree_of first.now)) (spelling operator ++ bound_text bound) (written (names space.now) (ranges space.now) 6 (tree_of second.now))) }
{
    put_formula(out, space, 6, first)?;
    put(out, b" ")?;
    put(out, operator.spelling())?;
    put_bound(out, bound)?;
    put(out, b" ")?;
    put_formula(out, space, 6, second)
}

// A logical operator between its operands, each at a place that asks for a tightness.
#[cycle(formula)]
fn put_infix(
    out: &mut Vec<u8>,
    space: &Space,
    first_asked: u8,
    first: &Formula,
    operator: Keyword,
    second_asked: u8,
    second: &Formula,
) -> Result<(), Memory>
    requires first_asked { first_asked ≤ 7 }
    requires first { Fits (ranges space.now) (tree_of first.now) }
    requires second_asked { second_asked ≤ 7 }
    requires second { Fits (ranges space.now) (tree_of second.now) }
    ensures { OnOk result (out.new.items ≡ out.old.items ++ joined 0 0 (written (names space.now) (ranges space.now) first_asked (tree_of first.now)) (spelling operator) (written (names space.now) (ranges space.now) second_asked (tree_of second.now))) }
{
    put_formula(out, space, first_asked, first)?;
    put(out, b" ")?;
    put(out, operator.spelling())?;
    put(out, b" ")?;
    put_formula(out, space, second_asked, second)
}

// A formula without parentheses around it.
#[cycle(formula)]
fn put_open(out: &mut Vec<u8>, space: &Space, f: &Formula) -> Result<(), Memory>
    requires { Fits (ranges space.now) (tree_of f.now) }
    ensures { OnOk result (out.new.items ≡ out.old.items ++ written (names space.now) (ranges space.now) 0 (tree_of f.now)) }
{
    match f {
        Formula::True => put(out, b"true"),
        Formula::False => put(out, b"false"),
        Formula::Flag(x) => put_name(out, space, *x),
        Formula::Is(x, c, value) => put_comparison(out, space, *x, *c, *value),
        Formula::Among(x, set) => put_choice(out, space, *x, *set),
        Formula::Same(x, c, y) => put_relation(out, space, *x, *c, *y),
        Formula::Not(a) => put_prefixed(out, space, Keyword::Not, None, a),
        Formula::Next(a) => put_prefixed(out, space, Keyword::Next, None, a),
        Formula::Eventually(a) => put_prefixed(out, space, Keyword::Eventually, None, a),
        Formula::Always(a) => put_prefixed(out, space, Keyword::Always, None, a),
        Formula::EventuallyWithin(d, a) => {
            put_prefixed(out, space, Keyword::Eventually, Some(*d), a)
        }
        Formula::AlwaysWithin(d, a) => put_prefixed(out, space, Keyword::Always, Some(*d), a),
        Formula::Until(a, b) => put_tempo(out, space, a, Keyword::Until, None, b),
        Formula::Unless(a, b) => put_tempo(out, space, a, Keyword::Unless, None, b),
        Formula::Release(a, b) => put_tempo(out, space, a, Keyword::Release, None, b),
        Formula::UntilWithin(d, a, b) => put_tempo(out, space, a, Keyword::Until, Some(*d), b),
        Formula::UnlessWithin(d, a, b) => put_tempo(out, space, a, Keyword::Unless, Some(*d), b),
        Formula::ReleaseWithin(d, a, b) => put_tempo(out, space, a, Keyword::Release, Some(*d), b),
        Formula::And(a, b) => put_infix(out, space, 4, a, Keyword::And, 5, b),
        Formula::Or(a, b) => put_infix(out, space, 3, a, Keyword::Or, 4, b),
        Formula::Implies(a, b) => put_infix(out, space, 3, a, Keyword::Implies, 2, b),
        Formula::Iff(a, b) => put_infix(out, space, 2, a, Keyword::Iff, 2, b),
        Formula::Entails(a, b) => put_infix(out, space, 1, a, Keyword::Entails, 1, b),
    }
}

// A formula at a place that asks for a tightness.
#[cycle(formula)]
#[tactic(auto, using(crate::proofs::Enclosures::tight_enough, crate::proofs::Enclosures::too_loose))]
fn put_formula(out: &mut Vec<u8>, space: &Space, asked: u8, f: &Formula) -> Result<(), Memory>
    requires asked { asked ≤ 7 }
    requires fits { Fits (ranges space.now) (tree_of f.now) }
    ensures { OnOk result (out.new.items ≡ out.old.items ++ written (names space.now) (ranges space.now) asked (tree_of f.now)) }
{
    if asked <= tightness(f) {
        return put_open(out, space, f);
    }
    put(out, b"(")?;
    put_open(out, space, f)?;
    put(out, b")")
}

/// The written form of a formula over the variables of a space, which it fits. Where its bounds are
/// at most 100, no set is empty, and each comparison of two variables is of equal ranges of which
/// the first has no value of the second one's name, the text of a model can have it. Only memory
/// can be wanting.
pub fn formula_text(alloc: Global, space: &Space, f: &Formula) -> Result<Vec<u8>, Memory>
    requires fits { Fits (ranges space.now) (tree_of f.now) }
    ensures text { IfOk result (λ out. out.items ≡ text_of_formula (names space.now) (ranges space.now) (tree_of f.now)) }
{
    let mut out = Vec::new(alloc);
    put_formula(&mut out, space, 0, f)?;
    Ok(out)
}
