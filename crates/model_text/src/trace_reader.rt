//! The reader of traces: states in braces, each with the values of some variables, and behind
//! `loop` one or more that are repeated for ever. It gives what specs/StatementReading.antt gives.

ghost use Rattle.std.specs.Prelude.{◌<◌, ◌≤◌, length, map, OnOk};
ghost use Rattle.model_text.specs.Statements.{settings_of, statement_of};
ghost use Rattle.model_text.specs.Readers.{listed_at};
ghost use Rattle.model_text.specs.Reading.{Gives, left};
ghost use Rattle.model_text.specs.StatementReading.{setting_of, set_at, some_sets_at, state_at, states_at, cycle_at, trace_at};

use crate::cursor::{Cursor, Fault};
use crate::part_reader::declared_name;
use crate::raw_formula::RawValue;
use crate::statement::{RawState, StatementKind};
use model_tokens::Sign;
use state_space::{Keyword, Name};
use std::alloc::Global;

// name "=" value
#[tactic(auto, unfolding(crate::specs::StatementReading::set_at, crate::specs::Readers::after, crate::specs::Readers::counted))]
fn set(alloc: Global, cursor: &mut Cursor<'_, '_>) -> Result<(Name, RawValue), Fault>
    ensures exact { Gives setting_of result (left cursor.new) (set_at (left cursor.old)) }
    ensures shorter { OnOk result (length (left cursor.new) < length (left cursor.old)) }
{
    let name = cursor.name(alloc)?;
    cursor.mark(Sign::Equal)?;
    let value = cursor.value(alloc)?;
    Ok((name, value))
}

// set { "," set }
#[tactic(auto, unfolding(crate::specs::Readers::listed_at))]
fn sets(alloc: Global, cursor: &mut Cursor<'_, '_>) -> Result<Vec<(Name, RawValue)>, Fault>
    ensures exact { Gives (λ sets. map setting_of sets.items) result (left cursor.new) (listed_at set_at (left cursor.old)) }
    ensures shorter { OnOk result (length (left cursor.new) < length (left cursor.old)) }
{
    let first = set(alloc, cursor)?;
    let mut sets = Vec::new(alloc);
    sets.push(first)?;
    'sets: while cursor.take_mark(Sign::Comma) {
        let next = set(alloc, cursor)?;
        sets.push(next)?;
    }
    Ok(sets)
}

// sets "}"
#[tactic(auto, unfolding(crate::specs::StatementReading::some_sets_at, crate::specs::Readers::after, crate::specs::Readers::counted))]
fn some_sets(alloc: Global, cursor: &mut Cursor<'_, '_>) -> Result<RawState, Fault>
    ensures exact { Gives settings_of result (left cursor.new) (some_sets_at (left cursor.old)) }
    ensures shorter { OnOk result (length (left cursor.new) < length (left cursor.old)) }
{
    let sets = sets(alloc, cursor)?;
    cursor.mark(Sign::CloseBrace)?;
    Ok(RawState { sets })
}

// A state, behind the brace that opens it.
#[tactic(auto, unfolding(crate::specs::StatementReading::state_at, crate::specs::Readers::if_sign))]
fn state(alloc: Global, cursor: &mut Cursor<'_, '_>) -> Result<RawState, Fault>
    ensures exact { Gives settings_of result (left cursor.new) (state_at (left cursor.old)) }
    ensures shorter { OnOk result (length (left cursor.new) < length (left cursor.old)) }
{
    if cursor.take_mark(Sign::CloseBrace) {
        return Ok(RawState {
            sets: Vec::new(alloc),
        });
    }
    some_sets(alloc, cursor)
}

// States, as many as come.
#[tactic(auto, unfolding(crate::specs::StatementReading::states_at))]
fn states(alloc: Global, cursor: &mut Cursor<'_, '_>) -> Result<Vec<RawState>, Fault>
    ensures exact { Gives (λ states. map settings_of states.items) result (left cursor.new) (states_at (left cursor.old)) }
    ensures shorter { OnOk result (length (left cursor.new) ≤ length (left cursor.old)) }
{
    let mut states = Vec::new(alloc);
    'states: while cursor.take_mark(Sign::OpenBrace) {
        let next = state(alloc, cursor)?;
        states.push(next)?;
    }
    Ok(states)
}

// State { state }
#[tactic(auto, unfolding(crate::specs::StatementReading::cycle_at, crate::specs::Readers::after))]
fn cycle(alloc: Global, cursor: &mut Cursor<'_, '_>) -> Result<Vec<RawState>, Fault>
    ensures exact { Gives (λ states. map settings_of states.items) result (left cursor.new) (cycle_at (left cursor.old)) }
    ensures shorter { OnOk result (length (left cursor.new) ≤ length (left cursor.old)) }
{
    let states = states(alloc, cursor)?;
    if states.is_empty() {
        return Err(Fault::Syntax);
    }
    Ok(states)
}

/// `NAME: STATES loop STATES`
#[tactic(auto, unfolding(crate::specs::StatementReading::trace_at, crate::specs::Readers::after, crate::specs::Readers::counted))]
pub(crate) fn trace(alloc: Global, cursor: &mut Cursor<'_, '_>) -> Result<StatementKind, Fault>
    ensures exact { Gives statement_of result (left cursor.new) (trace_at (left cursor.old)) }
    ensures shorter { OnOk result (length (left cursor.new) < length (left cursor.old)) }
{
    let name = declared_name(alloc, cursor)?;
    let prefix = states(alloc, cursor)?;
    cursor.keyword(Keyword::Loop)?;
    let cycle = cycle(alloc, cursor)?;
    Ok(StatementKind::Trace(name, prefix, cycle))
}
