//! From formulas as they are written to formulas over the variables of a space and the attributes of entity types, with every name looked up.

ghost use Rattle.std.specs.Prelude.{◌≡◌, ◌+◌, ◌≤◌, ℕ, None, length, map, IfOk};
ghost use Rattle.temporal_logic.specs.Trees.{relation_of};
ghost use Rattle.model_text.specs.Limits.{depth_of};
ghost use Rattle.model_text.specs.RawView.{raw_tree, written as value_of};
ghost use Rattle.entity_types.specs.WrittenTrees.{WrittenTree, plain};
ghost use Rattle.entity_types.specs.View.{term_of, written_tree};
ghost use Rattle.goal_model.specs.Refusals.{Gives, and_then};
ghost use Rattle.goal_model.specs.Scopes.{scope_of, variable_in};
ghost use Rattle.goal_model.specs.WholeScopes.{IsScope, TermIsOf};
ghost use Rattle.goal_model.specs.Formulas.{flag_in, related_in, compared_with, compared_in, among_in, one_in, both_in, each_in, written_in};

use crate::namespace::Scope;
use crate::refusal::{RefusalKind, Stop, refused};
use crate::terms::{range, term};
use crate::value_index::{index_in, set_of};
use entity_types::{Atom, Joining, Opening, Term, Written};
use model_text::{RawFormula, RawValue};
use state_space::{Name, Range};
use std::alloc::Global;
use temporal_logic::Cmp;

// A variable of a name that is used, as a term.
fn variable(alloc: Global, scope: &Scope<'_>, name: &Name) -> Result<Term, Stop>
    ensures exact { Gives term_of result (and_then (variable_in (scope_of scope.now) name.now) (λ k. Ok (plain k))) }
    ensures inside { IfOk result (λ t. TermIsOf (scope_of scope.now) (term_of t)) }
{
    Ok(Term::Var(scope.variable(alloc, name)?))
}

// A term alone, which has to be a truth value; else the name is refused.
fn flag(alloc: Global, scope: &Scope<'_>, name: &Name, term: Term) -> Result<Written, Stop>
    requires scope { IsScope (scope_of scope.now) }
    requires term { TermIsOf (scope_of scope.now) (term_of term) }
    ensures { Gives written_tree result (flag_in (scope_of scope.now) name.now (term_of term)) }
{
    match range(scope, term) {
        Range::Bool => Ok(Written::Atom(Atom::Flag(term))),
        _ => refused(alloc, RefusalKind::BadValue, name),
    }
}

// A comparison of a term with another, whose range has to be the same; else the name is refused.
fn related(
    alloc: Global,
    scope: &Scope<'_>,
    name: &Name,
    term: Term,
    cmp: Cmp,
    other: Term,
) -> Result<Written, Stop>
    requires scope { IsScope (scope_of scope.now) }
    requires term { TermIsOf (scope_of scope.now) (term_of term) }
    requires other { TermIsOf (scope_of scope.now) (term_of other) }
    ensures { Gives written_tree result (related_in (scope_of scope.now) name.now (term_of term) (relation_of cmp) (term_of other)) }
{
    if !range(scope, term).is_same(range(scope, other)) {
        return refused(alloc, RefusalKind::BadValue, name);
    }
    Ok(Written::Atom(Atom::Same(term, cmp, other)))
}

// A comparison of a term with what is written, which is no value of the term's range.
fn other_compared(
    alloc: Global,
    scope: &Scope<'_>,
    name: &Name,
    left: Term,
    cmp: Cmp,
    value: &RawValue,
) -> Result<Written, Stop>
    requires scope { IsScope (scope_of scope.now) }
    requires few { length (scope_of scope.now).bound ≤ 255 }
    requires left { TermIsOf (scope_of scope.now) (term_of left) }
    ensures { Gives written_tree result (compared_with (scope_of scope.now) name.now (term_of left) (relation_of cmp) (value_of value.now) None) }
{
    match value {
        RawValue::Word(other) => {
            let other = variable(alloc, scope, other)?;
            related(alloc, scope, name, left, cmp, other)
        }
        RawValue::Of(attribute, inner) => {
            let other = term(alloc, scope, attribute, inner)?;
            related(alloc, scope, name, left, cmp, other)
        }
        _ => refused(alloc, RefusalKind::BadValue, name),
    }
}

// A comparison of a term with a value, or else with another term.
fn compared(
    alloc: Global,
    scope: &Scope<'_>,
    name: &Name,
    left: Term,
    cmp: Cmp,
    value: &RawValue,
) -> Result<Written, Stop>
    requires scope { IsScope (scope_of scope.now) }
    requires few { length (scope_of scope.now).bound ≤ 255 }
    requires left { TermIsOf (scope_of scope.now) (term_of left) }
    ensures { Gives written_tree result (compared_in (scope_of scope.now) name.now (term_of left) (relation_of cmp) (value_of value.now)) }
{
    match index_in(range(scope, left), value) {
        Some(index) => Ok(Written::Atom(Atom::Is(left, cmp, index))),
        None => other_compared(alloc, scope, name, left, cmp, value),
    }
}

// A term that has one of some values.
fn among(
    alloc: Global,
    scope: &Scope<'_>,
    name: &Name,
    term: Term,
    values: &[RawValue],
) -> Result<Written, Stop>
    requires scope { IsScope (scope_of scope.now) }
    requires term { TermIsOf (scope_of scope.now) (term_of term) }
    ensures { Gives written_tree result (among_in (scope_of scope.now) name.now (term_of term) (map value_of values.now)) }
{
    let set = set_of(alloc, name, range(scope, term), values)?;
    Ok(Written::Atom(Atom::Among(term, set)))
}

// An operator and its operand.
#[cycle(formulas)]
fn opened(
    alloc: Global,
    scope: &Scope<'_>,
    opening: Opening,
    operand: &RawFormula,
) -> Result<Written, Stop>
    requires scope { IsScope (scope_of scope.now) }
    requires shallow { length (scope_of scope.now).bound + depth_of (raw_tree operand.now) ≤ 255 }
    ensures { Gives written_tree result (one_in opening (written_in (scope_of scope.now) (raw_tree operand.now))) }
{
    let operand = written(alloc, scope, operand)?;
    Ok(Written::Opened(opening, Box::new(alloc, operand)?))
}

// An operator and its two operands, the first before the second.
#[cycle(formulas)]
fn joined(
    alloc: Global,
    scope: &Scope<'_>,
    joining: Joining,
    first: &RawFormula,
    second: &RawFormula,
) -> Result<Written, Stop>
    requires scope { IsScope (scope_of scope.now) }
    requires first { length (scope_of scope.now).bound + depth_of (raw_tree first.now) ≤ 255 }
    requires second { length (scope_of scope.now).bound + depth_of (raw_tree second.now) ≤ 255 }
    ensures { Gives written_tree result (both_in joining (written_in (scope_of scope.now) (raw_tree first.now)) (written_in (scope_of scope.now) (raw_tree second.now))) }
{
    let first = written(alloc, scope, first)?;
    let second = written(alloc, scope, second)?;
    Ok(Written::Joined(joining, Box::new(alloc, (first, second))?))
}

// The entity type of a quantifier, and what stands behind it.
#[cycle(formulas)]
fn quantified(
    alloc: Global,
    scope: &Scope<'_>,
    name: &Name,
    entity: &Name,
    body: &RawFormula,
) -> Result<(u16, Box<Written>), Stop>
    requires scope { IsScope (scope_of scope.now) }
    requires shallow { length (scope_of scope.now).bound + 1 + depth_of (raw_tree body.now) ≤ 255 }
    ensures { (made : ℕ → WrittenTree → WrittenTree) → Gives (λ p. made p.0 (written_tree p.1.value)) result
        (each_in (scope_of scope.now) name.now entity.now made (λ inner. written_in inner (raw_tree body.now))) }
{
    scope.fresh_bound(alloc, name)?;
    let entity = scope.entity_type(alloc, entity)?;
    let bound = scope.binding(alloc, name, entity)?;
    let inner = Scope {
        space: scope.space,
        entities: scope.entities,
        names: scope.names,
        bound: &bound,
    };
    let body = written(alloc, &inner, body)?;
    Ok((entity, Box::new(alloc, body)?))
}

/// The formula that is written so, or the first fault in it from left to right.
#[cycle(formulas)]
pub(crate) fn written(alloc: Global, scope: &Scope<'_>, raw: &RawFormula) -> Result<Written, Stop>
    requires scope { IsScope (scope_of scope.now) }
    requires shallow { length (scope_of scope.now).bound + depth_of (raw_tree raw.now) ≤ 255 }
    ensures { Gives written_tree result (written_in (scope_of scope.now) (raw_tree raw.now)) }
{
    match raw {
        RawFormula::True => Ok(Written::Atom(Atom::True)),
        RawFormula::False => Ok(Written::Atom(Atom::False)),
        RawFormula::Bare(name) => {
            let x = variable(alloc, scope, name)?;
            flag(alloc, scope, name, x)
        }
        RawFormula::Compare(name, cmp, value) => {
            let x = variable(alloc, scope, name)?;
            compared(alloc, scope, name, x, *cmp, value)
        }
        RawFormula::Among(name, values) => {
            let x = variable(alloc, scope, name)?;
            among(alloc, scope, name, x, values)
        }
        RawFormula::BareOf(name, inner) => {
            let x = term(alloc, scope, name, inner)?;
            flag(alloc, scope, name, x)
        }
        RawFormula::CompareOf(name, inner, cmp, value) => {
            let x = term(alloc, scope, name, inner)?;
            compared(alloc, scope, name, x, *cmp, value)
        }
        RawFormula::AmongOf(name, inner, values) => {
            let x = term(alloc, scope, name, inner)?;
            among(alloc, scope, name, x, values)
        }
        RawFormula::Not(a) => opened(alloc, scope, Opening::Not, a),
        RawFormula::Next(a) => opened(alloc, scope, Opening::Next, a),
        RawFormula::Eventually(a) => opened(alloc, scope, Opening::Eventually, a),
        RawFormula::Always(a) => opened(alloc, scope, Opening::Always, a),
        RawFormula::EventuallyWithin(d, a) => opened(
            alloc,
            scope,
            Opening::EventuallyWithin(*d),
            a,
        ),
        RawFormula::AlwaysWithin(d, a) => opened(alloc, scope, Opening::AlwaysWithin(*d), a),
        RawFormula::And(a, b) => joined(alloc, scope, Joining::And, a, b),
        RawFormula::Or(a, b) => joined(alloc, scope, Joining::Or, a, b),
        RawFormula::Implies(a, b) => joined(alloc, scope, Joining::Implies, a, b),
        RawFormula::Iff(a, b) => joined(alloc, scope, Joining::Iff, a, b),
        RawFormula::Entails(a, b) => joined(alloc, scope, Joining::Entails, a, b),
        RawFormula::Until(a, b) => joined(alloc, scope, Joining::Until, a, b),
        RawFormula::Unless(a, b) => joined(alloc, scope, Joining::Unless, a, b),
        RawFormula::Release(a, b) => joined(alloc, scope, Joining::Release, a, b),
        RawFormula::UntilWithin(d, a, b) => joined(alloc, scope, Joining::UntilWithin(*d), a, b),
        RawFormula::UnlessWithin(d, a, b) => joined(alloc, scope, Joining::UnlessWithin(*d), a, b),
        RawFormula::ReleaseWithin(d, a, b) => joined(
            alloc,
            scope,
            Joining::ReleaseWithin(*d),
            a,
            b,
        ),
        RawFormula::All(x, entity, a) => {
            let (entity, body) = quantified(alloc, scope, x, entity, a)?;
            Ok(Written::All(entity, body))
        }
        RawFormula::Exists(x, entity, a) => {
            let (entity, body) = quantified(alloc, scope, x, entity, a)?;
            Ok(Written::Exists(entity, body))
        }
    }
}
