//! Readers of what a model speaks of and what it says: variables, entity types and attributes with
//! their ranges, and the statements that name a formula. Each begins behind the keyword, and gives
//! what the form in specs/StatementReading.antt gives.

ghost use Rattle.std.specs.Prelude.{◌<◌, length, OnOk};
ghost use Rattle.state_space.specs.Ranges.{form_of as range_of};
ghost use Rattle.model_text.specs.Statements.{statement_of, domain, goal, obstacle};
ghost use Rattle.model_text.specs.Reading.{Gives, left};
ghost use Rattle.model_text.specs.StatementReading.{number_at, span_at, enumeration_at, range_at, variable_at, members_at, entity_type_at, attribute_at, named_body_at, rule_at};

use crate::cursor::{Cursor, Fault};
use crate::part_reader::{body, declared_name, names, pair, side};
use crate::statement::StatementKind;
use model_tokens::Sign;
use state_space::{Keyword, Name, Range};
use std::alloc::Global;

#[tactic(auto, unfolding(crate::specs::StatementReading::number_at))]
fn number(cursor: &mut Cursor<'_, '_>) -> Result<i64, Fault>
    ensures exact { Gives (λ v. v) result (left cursor.new) (number_at (left cursor.old)) }
    ensures shorter { OnOk result (length (left cursor.new) < length (left cursor.old)) }
{
    match cursor.take_number() {
        Some(number) => Ok(number.value()),
        None => Err(Fault::Syntax),
    }
}

// number ".." number
#[tactic(auto, unfolding(crate::specs::StatementReading::span_at, crate::specs::Readers::after, crate::specs::Readers::counted))]
fn span(cursor: &mut Cursor<'_, '_>) -> Result<Range, Fault>
    ensures exact { Gives range_of result (left cursor.new) (span_at (left cursor.old)) }
    ensures shorter { OnOk result (length (left cursor.new) < length (left cursor.old)) }
{
    let lo = number(cursor)?;
    cursor.mark(Sign::Dots)?;
    let hi = number(cursor)?;
    Ok(Range::Span { lo, hi })
}

// names "}"
#[tactic(auto, unfolding(crate::specs::StatementReading::enumeration_at, crate::specs::Readers::after, crate::specs::Readers::counted))]
fn enumeration(alloc: Global, cursor: &mut Cursor<'_, '_>) -> Result<Range, Fault>
    ensures exact { Gives range_of result (left cursor.new) (enumeration_at (left cursor.old)) }
    ensures shorter { OnOk result (length (left cursor.new) < length (left cursor.old)) }
{
    let values = names(alloc, cursor)?;
    cursor.mark(Sign::CloseBrace)?;
    Ok(Range::Names(values))
}

// "bool" | "{" names "}" | number ".." number
#[tactic(auto, unfolding(crate::specs::StatementReading::range_at, crate::specs::Readers::if_word, crate::specs::Readers::if_sign))]
fn range(alloc: Global, cursor: &mut Cursor<'_, '_>) -> Result<Range, Fault>
    ensures exact { Gives range_of result (left cursor.new) (range_at (left cursor.old)) }
    ensures shorter { OnOk result (length (left cursor.new) < length (left cursor.old)) }
{
    if cursor.take_keyword(Keyword::Bool) {
        return Ok(Range::Bool);
    }
    if cursor.take_mark(Sign::OpenBrace) {
        return enumeration(alloc, cursor);
    }
    span(cursor)
}

/// `NAME: RANGE`
#[tactic(auto, unfolding(crate::specs::StatementReading::variable_at, crate::specs::Readers::after, crate::specs::Readers::counted))]
pub(crate) fn variable(alloc: Global, cursor: &mut Cursor<'_, '_>) -> Result<StatementKind, Fault>
    ensures exact { Gives statement_of result (left cursor.new) (variable_at (left cursor.old)) }
    ensures shorter { OnOk result (length (left cursor.new) < length (left cursor.old)) }
{
    let name = declared_name(alloc, cursor)?;
    let range = range(alloc, cursor)?;
    Ok(StatementKind::Var(name, range))
}

// "{" names "}"
#[tactic(auto, unfolding(crate::specs::StatementReading::members_at, crate::specs::Readers::after, crate::specs::Readers::counted))]
fn members(alloc: Global, cursor: &mut Cursor<'_, '_>) -> Result<Vec<Name>, Fault>
    ensures exact { Gives (λ ns. ns.items) result (left cursor.new) (members_at (left cursor.old)) }
    ensures shorter { OnOk result (length (left cursor.new) < length (left cursor.old)) }
{
    cursor.mark(Sign::OpenBrace)?;
    let members = names(alloc, cursor)?;
    cursor.mark(Sign::CloseBrace)?;
    Ok(members)
}

/// `NAME: { NAMES }` of an entity type
#[tactic(auto, unfolding(crate::specs::StatementReading::entity_type_at, crate::specs::Readers::after, crate::specs::Readers::counted))]
pub(crate) fn entity_type(
    alloc: Global,
    cursor: &mut Cursor<'_, '_>,
) -> Result<StatementKind, Fault>
    ensures exact { Gives statement_of result (left cursor.new) (entity_type_at (left cursor.old)) }
    ensures shorter { OnOk result (length (left cursor.new) < length (left cursor.old)) }
{
    let name = declared_name(alloc, cursor)?;
    let members = members(alloc, cursor)?;
    Ok(StatementKind::Entity(name, members))
}

/// `NAME of NAME: RANGE` of an attribute
#[tactic(auto, unfolding(crate::specs::StatementReading::attribute_at, crate::specs::Readers::after, crate::specs::Readers::counted))]
pub(crate) fn attribute(alloc: Global, cursor: &mut Cursor<'_, '_>) -> Result<StatementKind, Fault>
    ensures exact { Gives statement_of result (left cursor.new) (attribute_at (left cursor.old)) }
    ensures shorter { OnOk result (length (left cursor.new) < length (left cursor.old)) }
{
    let (name, entity) = pair(alloc, cursor, Keyword::Of)?;
    cursor.mark(Sign::Colon)?;
    let range = range(alloc, cursor)?;
    Ok(StatementKind::Attr(name, entity, range))
}

/// `NAME: FORMULA` of a domain property
#[tactic(auto, unfolding(crate::specs::StatementReading::named_body_at, crate::specs::Readers::after, crate::specs::Readers::counted))]
pub(crate) fn domain(alloc: Global, cursor: &mut Cursor<'_, '_>) -> Result<StatementKind, Fault>
    ensures exact { Gives statement_of result (left cursor.new) (named_body_at domain (left cursor.old)) }
    ensures shorter { OnOk result (length (left cursor.new) < length (left cursor.old)) }
{
    let name = declared_name(alloc, cursor)?;
    let body = body(alloc, cursor)?;
    Ok(StatementKind::Domain(name, body))
}

/// `NAME: FORMULA` of a goal
#[tactic(auto, unfolding(crate::specs::StatementReading::named_body_at, crate::specs::Readers::after, crate::specs::Readers::counted))]
pub(crate) fn goal(alloc: Global, cursor: &mut Cursor<'_, '_>) -> Result<StatementKind, Fault>
    ensures exact { Gives statement_of result (left cursor.new) (named_body_at goal (left cursor.old)) }
    ensures shorter { OnOk result (length (left cursor.new) < length (left cursor.old)) }
{
    let name = declared_name(alloc, cursor)?;
    let body = body(alloc, cursor)?;
    Ok(StatementKind::Goal(name, body))
}

/// `NAME: FORMULA` of an obstacle
#[tactic(auto, unfolding(crate::specs::StatementReading::named_body_at, crate::specs::Readers::after, crate::specs::Readers::counted))]
pub(crate) fn obstacle(alloc: Global, cursor: &mut Cursor<'_, '_>) -> Result<StatementKind, Fault>
    ensures exact { Gives statement_of result (left cursor.new) (named_body_at obstacle (left cursor.old)) }
    ensures shorter { OnOk result (length (left cursor.new) < length (left cursor.old)) }
{
    let name = declared_name(alloc, cursor)?;
    let body = body(alloc, cursor)?;
    Ok(StatementKind::Obstacle(name, body))
}

/// `NAME: FORMULA entails FORMULA`
#[tactic(auto, unfolding(crate::specs::StatementReading::rule_at, crate::specs::Readers::after, crate::specs::Readers::counted))]
pub(crate) fn rule(alloc: Global, cursor: &mut Cursor<'_, '_>) -> Result<StatementKind, Fault>
    ensures exact { Gives statement_of result (left cursor.new) (rule_at (left cursor.old)) }
    ensures shorter { OnOk result (length (left cursor.new) < length (left cursor.old)) }
{
    let name = declared_name(alloc, cursor)?;
    let cause = side(alloc, cursor)?;
    cursor.keyword(Keyword::Entails)?;
    let effect = side(alloc, cursor)?;
    Ok(StatementKind::Rule(name, cause, effect))
}
