//! The statements that declare variables: a variable alone, an entity type, and its attributes, which have a variable for each member.

ghost use Rattle.std.specs.Prelude.{◌≡◌, ◌<◌, ◌++◌, ◌∷◌, [], length, nat_lt, Ok, Contains, IfOk, OnOk};
ghost use Rattle.state_space.specs.Ranges.{form_of, IsGoodRange};
ghost use Rattle.state_space.specs.Spaces.{names, ranges};
ghost use Rattle.goal_model.specs.declared.refusal.RefusalKind.TheVariants.{TooManyVars};
ghost use Rattle.goal_model.specs.Refusals.{Gives, holds};
ghost use Rattle.goal_model.specs.ValueIndexes.{values_apart as values_apart_form};
ghost use Rattle.goal_model.specs.Drafts.{draft_of, scope_of};
ghost use Rattle.goal_model.specs.WholeDrafts.{IsDraft};
ghost use Rattle.goal_model.specs.Resolution.{variable_taken, has_few_members as has_few_members_form, entity_type_taken, row_taken, attribute_taken};
ghost use Rattle.goal_model.specs.Terms.{members_at};

use crate::draft::Draft;
use crate::namespace::Kind;
use crate::refusal::{RefusalKind, Stop, refused};
use crate::value_index::{has_few_values, names_apart, values_apart};
use source_sink::Memory;
use state_space::{AddRefusal, Name, Range, Space};
use std::alloc::{AllocError, Global};

// Adds a variable of a new name and of a good range, unless 64 are there.
fn add_variable(alloc: Global, space: &mut Space, name: &Name, range: &Range) -> Result<(), Stop>
    requires new { ¬ (Contains (names space.old) name.now) }
    requires good { IsGoodRange (form_of range.now) }
    ensures few { Gives (λ _. tt) result (holds (nat_lt (length (names space.old)) 64) TooManyVars name.now) }
    ensures names { OnOk result (names space.new ≡ names space.old ++ name.now ∷ []) }
    ensures ranges { OnOk result (ranges space.new ≡ ranges space.old ++ form_of range.now ∷ []) }
{
    match space.add(name.clone(alloc)?, range.clone(alloc)?) {
        Ok(_) => Ok(()),
        Err(AddRefusal::Memory) => Err(Stop::Memory),
        Err(_) => refused(alloc, RefusalKind::TooManyVars, name),
    }
}

/// `var NAME: RANGE`
pub(crate) fn take_variable(
    alloc: Global,
    draft: &mut Draft,
    name: &Name,
    range: &Range,
) -> Result<(), Stop>
    ensures { Gives (λ _. draft_of draft.new) result (variable_taken (draft_of draft.old) name.now (form_of range.now)) }
{
    draft.scope().fresh(alloc, name)?;
    values_apart(alloc, range)?;
    if !has_few_values(range) {
        return refused(alloc, RefusalKind::BadRange, name);
    }
    add_variable(alloc, &mut draft.contents.space, name, range)
}

// Whether there are 2 to 8 members.
fn has_few_members(members: &[Name]) -> bool
    ensures { result ≡ has_few_members_form members.now }
{
    (2..=8).contains(&members.len())
}

// The names of a list in memory of their own.
fn cloned(alloc: Global, names: &[Name]) -> Result<Vec<Name>, Memory>
    ensures { IfOk result (λ v. v.items ≡ names.now) }
{
    let mut cloned = Vec::with_capacity(alloc, names.len())?;
    'names: for name in names {
        cloned.push(name.clone(alloc)?)?;
    }
    Ok(cloned)
}

/// `entity NAME: { NAMES }`
pub(crate) fn take_entity_type(
    alloc: Global,
    draft: &mut Draft,
    name: &Name,
    members: &[Name],
) -> Result<(), Stop>
    requires few { length (draft_of draft.old).model.members < 2000 }
    ensures { Gives (λ _. draft_of draft.new) result (entity_type_taken (draft_of draft.old) name.now members.now) }
{
    draft.scope().fresh(alloc, name)?;
    names_apart(alloc, members)?;
    if !has_few_members(members) {
        return refused(alloc, RefusalKind::BadRange, name);
    }
    let members = cloned(alloc, members)?;
    let added = draft
        .contents
        .entities
        .add_entity(name.clone(alloc)?, members);
    let Ok(place) = added else {
        return Err(Stop::Memory);
    };
    draft.declare(alloc, name, Kind::EntityType, place as usize)?;
    Ok(())
}

// The variables of an attribute of a type, behind the walk.
fn take_row(
    alloc: Global,
    draft: &mut Draft,
    name: &Name,
    entity: u16,
    range: &Range,
) -> Result<(), Stop>
    requires draft { IsDraft (draft_of draft.old) }
    requires entity { entity < length (draft_of draft.old).model.members }
    requires apart { values_apart_form (form_of range.now) ≡ Ok tt }
    ensures { Gives (λ _. draft_of draft.new) result (row_taken (draft_of draft.old) name.now entity (members_at (scope_of (draft_of draft.old)) entity) (form_of range.now)) }
{
    if !has_few_values(range) {
        return refused(alloc, RefusalKind::BadRange, name);
    }
    let Some(joined) = draft.contents.entities.joined_names(alloc, name, entity)? else {
        return refused(alloc, RefusalKind::LongName, name);
    };
    draft.scope().all_fresh(alloc, &joined)?;
    if usize::from(draft.contents.space.count()) + joined.len() > 64 {
        return refused(alloc, RefusalKind::TooManyVars, name);
    }
    let (owned, range) = (name.clone(alloc)?, range.clone(alloc)?);
    let space = &mut draft.contents.space;
    let added = draft
        .contents
        .entities
        .add_attr(space, owned, entity, range);
    let Ok(place) = added else {
        return Err(Stop::Memory);
    };
    draft.declare(alloc, name, Kind::Attribute, usize::from(place))?;
    Ok(())
}

/// `attr NAME of NAME: RANGE`
pub(crate) fn take_attribute(
    alloc: Global,
    draft: &mut Draft,
    name: &Name,
    entity: &Name,
    range: &Range,
) -> Result<(), Stop>
    requires { IsDraft (draft_of draft.old) }
    ensures { Gives (λ _. draft_of draft.new) result (attribute_taken (draft_of draft.old) name.now entity.now (form_of range.now)) }
{
    let scope = draft.scope();
    scope.fresh(alloc, name)?;
    let entity = scope.entity_type(alloc, entity)?;
    values_apart(alloc, range)?;
    take_row(alloc, draft, name, entity, range)
}
