//! Readers of the statements that link goals to what refines, obstructs or contradicts them: each
//! begins behind the keyword, and gives what the form in specs/StatementReading.antt gives.

ghost use Rattle.std.specs.Prelude.{◌<◌, ◌≤◌, length, OnOk};
ghost use Rattle.model_text.specs.Statements.{statement_of};
ghost use Rattle.model_text.specs.Reading.{Gives, left};
ghost use Rattle.model_text.specs.StatementReading.{pattern_at, refinement_at, obstruction_at, several_at, conflict_at};

use crate::cursor::{Cursor, Fault};
use crate::part_reader::{body_behind, declared_name, group, names};
use crate::statement::StatementKind;
use state_space::{Keyword, Name};
use std::alloc::Global;

// [ "using" name ]
#[tactic(auto, unfolding(crate::specs::StatementReading::pattern_at, crate::specs::Readers::if_word, crate::specs::Readers::counted))]
fn pattern(alloc: Global, cursor: &mut Cursor<'_, '_>) -> Result<Option<Name>, Fault>
    ensures exact { Gives (λ o. o) result (left cursor.new) (pattern_at (left cursor.old)) }
    ensures shorter { OnOk result (length (left cursor.new) ≤ length (left cursor.old)) }
{
    if cursor.take_keyword(Keyword::Using) {
        let name = cursor.name(alloc)?;
        return Ok(Some(name));
    }
    Ok(None)
}

/// `NAME by NAMES`, with the pattern behind `using`
#[tactic(auto, unfolding(crate::specs::StatementReading::refinement_at, crate::specs::Readers::after, crate::specs::Readers::counted))]
pub(crate) fn refinement(alloc: Global, cursor: &mut Cursor<'_, '_>) -> Result<StatementKind, Fault>
    ensures exact { Gives statement_of result (left cursor.new) (refinement_at (left cursor.old)) }
    ensures shorter { OnOk result (length (left cursor.new) < length (left cursor.old)) }
{
    let (parent, subgoals) = group(alloc, cursor)?;
    let pattern = pattern(alloc, cursor)?;
    Ok(StatementKind::Refine(parent, subgoals, pattern))
}

/// `NAME by NAMES` of a goal and obstacles to it
#[tactic(auto, unfolding(crate::specs::StatementReading::obstruction_at, crate::specs::Readers::counted))]
pub(crate) fn obstruction(
    alloc: Global,
    cursor: &mut Cursor<'_, '_>,
) -> Result<StatementKind, Fault>
    ensures exact { Gives statement_of result (left cursor.new) (obstruction_at (left cursor.old)) }
    ensures shorter { OnOk result (length (left cursor.new) < length (left cursor.old)) }
{
    let (parent, obstacles) = group(alloc, cursor)?;
    Ok(StatementKind::Obstruct(parent, obstacles))
}

// Two names or more, with commas between them.
#[tactic(auto, unfolding(crate::specs::StatementReading::several_at, crate::specs::Readers::after))]
fn several(alloc: Global, cursor: &mut Cursor<'_, '_>) -> Result<Vec<Name>, Fault>
    ensures exact { Gives (λ ns. ns.items) result (left cursor.new) (several_at (left cursor.old)) }
    ensures shorter { OnOk result (length (left cursor.new) < length (left cursor.old)) }
{
    let names = names(alloc, cursor)?;
    if names.len() < 2 {
        return Err(Fault::Syntax);
    }
    Ok(names)
}

/// `NAME: NAMES boundary FORMULA`
#[tactic(auto, unfolding(crate::specs::StatementReading::conflict_at, crate::specs::Readers::after, crate::specs::Readers::counted))]
pub(crate) fn conflict(alloc: Global, cursor: &mut Cursor<'_, '_>) -> Result<StatementKind, Fault>
    ensures exact { Gives statement_of result (left cursor.new) (conflict_at (left cursor.old)) }
    ensures shorter { OnOk result (length (left cursor.new) < length (left cursor.old)) }
{
    let name = declared_name(alloc, cursor)?;
    let goals = several(alloc, cursor)?;
    let boundary = body_behind(alloc, cursor, Keyword::Boundary)?;
    Ok(StatementKind::Conflict(name, goals, boundary))
}
