//! What stands in a formula for a variable: a variable's name, or an attribute's name and behind it, in brackets, a member's or a bound name.

ghost use Rattle.std.specs.Prelude.{◌≡◌, ◌<◌, ◌≤◌, Option, option_map, length, IfOk};
ghost use Rattle.state_space.specs.Ranges.{form_of, IsGoodRange};
ghost use Rattle.entity_types.specs.View.{term_of};
ghost use Rattle.goal_model.specs.Refusals.{Gives};
ghost use Rattle.goal_model.specs.Scopes.{scope_of, level_of};
ghost use Rattle.goal_model.specs.Terms.{bracketed as bracketed_form, term_in, range_of};
ghost use Rattle.goal_model.specs.WholeScopes.{IsScope, TermIsOf};

use crate::namespace::Scope;
use crate::refusal::{RefusalKind, Stop, refused};
use entity_types::Term;
use state_space::{Name, Range};
use std::alloc::Global;

// The attribute of the member that the quantifier of a level chooses, whose type has to be the attribute's.
fn at_level(
    alloc: Global,
    scope: &Scope<'_>,
    attribute: u8,
    inner: &Name,
    level: usize,
) -> Result<Term, Stop>
    requires scope { IsScope (scope_of scope.now) }
    requires attribute { attribute < length (scope_of scope.now).attributes }
    requires level { level < length (scope_of scope.now).bound }
    requires few { length (scope_of scope.now).bound ≤ 255 }
    ensures { Gives term_of result (bracketed_form (scope_of scope.now) attribute inner.now (Some level)) }
{
    if scope.bound[level].entity != scope.entities.entity_of(attribute) {
        return refused(alloc, RefusalKind::WrongKind, inner);
    }
    Ok(Term::Bound(attribute, level as u8))
}

// The attribute of the member of a name, which has to be one of the attribute's type.
fn of_member(alloc: Global, scope: &Scope<'_>, attribute: u8, inner: &Name) -> Result<Term, Stop>
    requires scope { IsScope (scope_of scope.now) }
    requires attribute { attribute < length (scope_of scope.now).attributes }
    ensures { Gives term_of result (bracketed_form (scope_of scope.now) attribute inner.now None) }
{
    let entity = scope.entities.entity_of(attribute);
    match scope.entities.member(entity, inner.bytes()) {
        Some(member) => Ok(Term::Of(attribute, member)),
        None => refused(alloc, RefusalKind::UnknownName, inner),
    }
}

/// An attribute with a name in brackets; the attribute is looked at first.
pub(crate) fn term(
    alloc: Global,
    scope: &Scope<'_>,
    attribute: &Name,
    inner: &Name,
) -> Result<Term, Stop>
    requires scope { IsScope (scope_of scope.now) }
    requires few { length (scope_of scope.now).bound ≤ 255 }
    ensures exact { Gives term_of result (term_in (scope_of scope.now) attribute.now inner.now) }
    ensures inside { IfOk result (λ t. TermIsOf (scope_of scope.now) (term_of t)) }
{
    let attribute = scope.attribute(alloc, attribute)?;
    match scope.level(inner) {
        Some(level) => at_level(alloc, scope, attribute, inner, level),
        None => of_member(alloc, scope, attribute, inner),
    }
}

/// The range of a term: all variables of an attribute have one range.
pub(crate) fn range<'s>(scope: &Scope<'s>, term: Term) -> &'s Range
    requires scope { IsScope (scope_of scope.now) }
    requires inside { TermIsOf (scope_of scope.now) (term_of term) }
    ensures range { form_of result.now ≡ range_of (scope_of scope.now) (term_of term) }
    ensures good { IsGoodRange (form_of result.now) }
{
    let first = match term {
        Term::Var(x) => x,
        Term::Of(attribute, _) | Term::Bound(attribute, _) => scope.entities.variable(attribute, 0),
    };
    scope.space.range_of(first)
}
