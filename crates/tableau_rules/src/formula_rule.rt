//! The rule of one formula, by its shape in a table and the sets that the indexes now lie in. It
//! takes no memory.

ghost use Rattle.std.specs.Prelude.{◌≡◌, ◌<◌, length};
ghost use Rattle.bound_unfolding.specs.CoreForm.{either, core_until, core_release};
ghost use Rattle.formula_table.specs.Closures.{formula_at};
ghost use Rattle.formula_table.specs.Tables.{closure_in};
ghost use Rattle.tableau_rules.specs.Rules.{inside, apart, decided_true, decided_false, is_constant, class_of, rule_of};
ghost use Rattle.tableau_rules.specs.Nodes.{has_empty};
ghost use Rattle.tableau_rules.specs.Turns.{sets_of, rule_in, TurnBelow};

use crate::effect::{Effect, Turn};
use formula_table::{FormulaId, Shape, Table};
use state_space::{Values, VarId};

// Whether each index that the variable may have now is in the set.
fn is_inside(now: &[Values], x: VarId, set: Values) -> bool
    ensures inside { result ≡ inside (sets_of now.now) x.0 set.0 }
{
    let place = usize::from(x.0);
    if place < now.len() {
        now[place].0 & set.0 == now[place].0
    } else {
        false
    }
}

// Whether no index that the variable may have now is in the set.
fn is_apart(now: &[Values], x: VarId, set: Values) -> bool
    ensures apart { result ≡ apart (sets_of now.now) x.0 set.0 }
{
    let place = usize::from(x.0);
    if place < now.len() {
        now[place].0 & set.0 == 0
    } else {
        false
    }
}

// Whether the sets alone make the formula true.
fn is_decided_true(table: &Table, now: &[Values], id: FormulaId) -> bool
    requires { id.0 < length (closure_in table.now) }
    ensures decided { result ≡ decided_true (sets_of now.now) (formula_at (closure_in table.now) id.0) }
{
    match table.node(id) {
        Shape::True => true,
        Shape::Lit(x, set) => is_inside(now, x, set),
        _ => false,
    }
}

// Whether the sets alone make the formula false.
fn is_decided_false(table: &Table, now: &[Values], id: FormulaId) -> bool
    requires { id.0 < length (closure_in table.now) }
    ensures decided { result ≡ decided_false (sets_of now.now) (formula_at (closure_in table.now) id.0) }
{
    match table.node(id) {
        Shape::False => true,
        Shape::Lit(x, set) => is_apart(now, x, set),
        _ => false,
    }
}

/// Whether some variable has no index left.
pub(crate) fn has_empty(now: &[Values]) -> bool
    ensures empty { result ≡ has_empty (sets_of now.now) }
{
    'sets: for set in now {
        if set.0 == 0 {
            return true;
        }
    }
    false
}

// Whether the formula is `true` or `false`.
fn is_constant(table: &Table, id: FormulaId) -> bool
    requires { id.0 < length (closure_in table.now) }
    ensures constant { result ≡ is_constant (formula_at (closure_in table.now) id.0) }
{
    matches!(table.node(id), Shape::True | Shape::False)
}

/// How soon the formula's turn comes: those with one choice first.
pub(crate) fn class_of(table: &Table, id: FormulaId) -> u8
    requires { id.0 < length (closure_in table.now) }
    ensures class { result ≡ class_of (formula_at (closure_in table.now) id.0) }
{
    match table.node(id) {
        Shape::True | Shape::False | Shape::Lit(_, _) => 0,
        Shape::And(_, _) | Shape::Next(_) => 1,
        Shape::Or(_, _) => 2,
        Shape::Until(_, decisive) | Shape::Release(decisive, _) => {
            if is_constant(table, decisive) { 1 } else { 2 }
        }
    }
}

// The rule of `a or b`.
fn or_rule(table: &Table, now: &[Values], a: FormulaId, b: FormulaId) -> Turn
    requires first { a.0 < length (closure_in table.now) }
    requires second { b.0 < length (closure_in table.now) }
    ensures rule { rule_in (closure_in table.now) result ≡ rule_of (sets_of now.now) (either (formula_at (closure_in table.now) a.0) (formula_at (closure_in table.now) b.0)) }
    ensures below { TurnBelow (length (closure_in table.now)) result }
{
    if is_decided_true(table, now, a) || is_decided_true(table, now, b) {
        Turn::One(Effect::Nothing)
    } else if is_decided_false(table, now, a) {
        Turn::One(Effect::Adds(b))
    } else if is_decided_false(table, now, b) {
        Turn::One(Effect::Adds(a))
    } else {
        Turn::Two(Effect::Adds(a), Effect::Adds(b))
    }
}

// The rule of `id`, which is `a until b`. The kid in which it is fulfilled comes first: links and
// certificates know it by that place alone.
fn until_rule(table: &Table, now: &[Values], id: FormulaId, a: FormulaId, b: FormulaId) -> Turn
    requires inside { id.0 < length (closure_in table.now) }
    requires first { a.0 < length (closure_in table.now) }
    requires second { b.0 < length (closure_in table.now) }
    requires until { formula_at (closure_in table.now) id.0 ≡ core_until (formula_at (closure_in table.now) a.0) (formula_at (closure_in table.now) b.0) }
    ensures rule { rule_in (closure_in table.now) result ≡ rule_of (sets_of now.now) (formula_at (closure_in table.now) id.0) }
    ensures below { TurnBelow (length (closure_in table.now)) result }
{
    if is_decided_true(table, now, b) {
        Turn::FulfilOnly(Effect::Adds(b))
    } else if is_decided_false(table, now, b) {
        Turn::WaitOnly(Effect::Waits(a, id))
    } else {
        Turn::FulfilOrWait(Effect::Adds(b), Effect::Waits(a, id))
    }
}

// The rule of `id`, which is `a release b`.
fn release_rule(table: &Table, now: &[Values], id: FormulaId, a: FormulaId, b: FormulaId) -> Turn
    requires inside { id.0 < length (closure_in table.now) }
    requires first { a.0 < length (closure_in table.now) }
    requires second { b.0 < length (closure_in table.now) }
    requires release { formula_at (closure_in table.now) id.0 ≡ core_release (formula_at (closure_in table.now) a.0) (formula_at (closure_in table.now) b.0) }
    ensures rule { rule_in (closure_in table.now) result ≡ rule_of (sets_of now.now) (formula_at (closure_in table.now) id.0) }
    ensures below { TurnBelow (length (closure_in table.now)) result }
{
    if is_decided_true(table, now, a) {
        Turn::One(Effect::AddsBoth(a, b))
    } else if is_decided_false(table, now, a) {
        Turn::One(Effect::Waits(b, id))
    } else {
        Turn::Two(Effect::AddsBoth(a, b), Effect::Waits(b, id))
    }
}

/// The rule of a formula of the table.
pub(crate) fn formula_rule(table: &Table, now: &[Values], id: FormulaId) -> Turn
    requires { id.0 < length (closure_in table.now) }
    ensures rule { rule_in (closure_in table.now) result ≡ rule_of (sets_of now.now) (formula_at (closure_in table.now) id.0) }
    ensures below { TurnBelow (length (closure_in table.now)) result }
{
    match table.node(id) {
        Shape::True => Turn::One(Effect::Nothing),
        Shape::False => Turn::Clash,
        Shape::Lit(x, set) => Turn::One(Effect::Meets(x, set)),
        Shape::And(a, b) => Turn::One(Effect::AddsBoth(a, b)),
        Shape::Or(a, b) => or_rule(table, now, a, b),
        Shape::Next(a) => Turn::One(Effect::Later(a)),
        Shape::Until(a, b) => until_rule(table, now, id, a, b),
        Shape::Release(a, b) => release_rule(table, now, id, a, b),
    }
}
