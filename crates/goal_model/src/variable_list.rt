//! Lists of variables by name, for agents: an attribute's name stands for all its variables.

ghost use Rattle.std.specs.Prelude.{◌≡◌, ◌<◌, ◌++◌, ◌==◌, map, length, All, IfOk, OnOk};
ghost use Rattle.std.specs.List.{list_any};
ghost use Rattle.state_space.specs.Spaces.{names as names_of};
ghost use Rattle.goal_model.specs.Refusals.{Gives};
ghost use Rattle.goal_model.specs.Scopes.{scope_of};
ghost use Rattle.goal_model.specs.VariableLists.{row_of, row_in, do_meet as do_meet_form, variables_in};
ghost use Rattle.goal_model.specs.WholeScopes.{IsScope};

use crate::namespace::{Kind, Meaning, Scope};
use crate::refusal::{RefusalKind, Stop, refused};
use source_sink::Memory;
use state_space::{Name, VarId};
use std::alloc::Global;

// The variables of an attribute, in the order of the members.
fn attribute_row(alloc: Global, scope: &Scope<'_>, attribute: u8) -> Result<Vec<VarId>, Memory>
    requires scope { IsScope (scope_of scope.now) }
    requires attribute { attribute < length (scope_of scope.now).attributes }
    ensures { IfOk result (λ xs. map (λ x. x.0) xs.items ≡ row_of (scope_of scope.now) attribute) }
{
    let count = scope
        .entities
        .member_count(scope.entities.entity_of(attribute));
    let mut row = Vec::with_capacity(alloc, usize::from(count))?;
    'members: for member in 0..count {
        row.push(scope.entities.variable(attribute, member))?;
    }
    Ok(row)
}

// The variables that a name stands for.
fn row(alloc: Global, scope: &Scope<'_>, name: &Name) -> Result<Vec<VarId>, Stop>
    requires { IsScope (scope_of scope.now) }
    ensures exact { Gives (λ xs. map (λ x. x.0) xs.items) result (row_in (scope_of scope.now) name.now) }
    ensures inside { IfOk result (λ xs. All (λ x. x.0 < length (names_of scope.now.space.now)) xs.items) }
{
    match scope.meaning(name) {
        Some(Meaning::Another(kind, place)) if kind.number() == Kind::Attribute.number() => {
            Ok(attribute_row(alloc, scope, place as u8)?)
        }
        Some(Meaning::Another(_, _)) => refused(alloc, RefusalKind::WrongKind, name),
        Some(Meaning::Variable(x)) => {
            let mut row = Vec::with_capacity(alloc, 1)?;
            row.push(x)?;
            Ok(row)
        }
        None => refused(alloc, RefusalKind::UnknownName, name),
    }
}

// Whether a variable is one of a list.
fn is_among(variable: VarId, variables: &[VarId]) -> bool
    ensures { result ≡ list_any (λ y. y == variable.0) (map (λ x. x.0) variables.now) }
{
    'variables: for other in variables {
        if other.0 == variable.0 {
            return true;
        }
    }
    false
}

// Whether two lists have a variable in common.
fn do_meet(first: &[VarId], second: &[VarId]) -> bool
    ensures { result ≡ do_meet_form (map (λ x. x.0) first.now) (map (λ x. x.0) second.now) }
{
    'variables: for variable in first {
        if is_among(*variable, second) {
            return true;
        }
    }
    false
}

/// The variables of a list of names, in order. A name is refused where one of its variables stands before in the list.
#[tactic(auto, unfolding(crate::specs::VariableLists::variables_from))]
pub(crate) fn variables(
    alloc: Global,
    scope: &Scope<'_>,
    names: &[Name],
) -> Result<Vec<VarId>, Stop>
    requires { IsScope (scope_of scope.now) }
    ensures exact { Gives (λ xs. map (λ x. x.0) xs.items) result (variables_in (scope_of scope.now) names.now) }
    ensures inside { IfOk result (λ xs. All (λ x. x.0 < length (names_of scope.now.space.now)) xs.items) }
{
    let mut variables = Vec::new(alloc);
    'names: for name in names {
        let row = row(alloc, scope, name)?;
        if do_meet(&row, &variables) {
            return refused(alloc, RefusalKind::DuplicateName, name);
        }
        variables.extend_from_slice(&row)?;
    }
    Ok(variables)
}
