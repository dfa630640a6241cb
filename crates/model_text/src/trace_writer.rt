//! Traces: the states of a prefix, and behind `loop` those of a cycle, as they are written.

ghost use Rattle.std.specs.Prelude.{◌≡◌, map, OnOk};
ghost use Rattle.std.specs.List.{flat_map};
ghost use Rattle.model_text.specs.Statements.{settings_of, trace};
ghost use Rattle.model_text.specs.StatementReading.{setting_of};
ghost use Rattle.model_text.specs.Writing.{set_tokens, state_tokens, separated, statement_tokens};
ghost use Rattle.model_text.specs.Lines.{with_tokens, behind_commas};

use crate::formula_writer::value;
use crate::line::Line;
use crate::part_writer::declared_name;
use crate::raw_formula::RawValue;
use crate::statement::RawState;
use model_tokens::Sign;
use source_sink::Memory;
use state_space::{Keyword, Name};

/// A variable with its value.
fn set(line: &mut Line, variable: &Name, given: &RawValue) -> Result<(), Memory>
    ensures { OnOk result (line.new ≡ with_tokens line.old (set_tokens (setting_of (variable.now, given.now)))) }
{
    line.name(variable)?;
    line.mark(Sign::Equal)?;
    value(line, given)
}

/// Variables with their values, each behind a comma.
fn more_sets(line: &mut Line, sets: &[(Name, RawValue)]) -> Result<(), Memory>
    ensures { OnOk result (line.new ≡ with_tokens line.old (behind_commas (λ s. set_tokens (setting_of s)) sets.now)) }
{
    'sets: for item in sets {
        line.mark(Sign::Comma)?;
        set(line, &item.0, &item.1)?;
    }
    Ok(())
}

/// Variables with their values, and commas between them.
fn sets(line: &mut Line, sets: &[(Name, RawValue)]) -> Result<(), Memory>
    ensures { OnOk result (line.new ≡ with_tokens line.old (separated (map set_tokens (map setting_of sets.now)))) }
{
    match sets {
        [] => Ok(()),
        [first, rest @ ..] => {
            set(line, &first.0, &first.1)?;
            more_sets(line, rest)
        }
    }
}

/// A state.
#[tactic(auto, using(crate::proofs::LineLaws::with_both))]
fn state(line: &mut Line, state: &RawState) -> Result<(), Memory>
    ensures { OnOk result (line.new ≡ with_tokens line.old (state_tokens (settings_of state.now))) }
{
    line.mark(Sign::OpenBrace)?;
    sets(line, &state.sets)?;
    line.mark(Sign::CloseBrace)
}

/// States, one behind another.
fn states(line: &mut Line, states: &[RawState]) -> Result<(), Memory>
    ensures { OnOk result (line.new ≡ with_tokens line.old (flat_map (λ s. state_tokens (settings_of s)) states.now)) }
{
    'states: for item in states {
        state(line, item)?;
    }
    Ok(())
}

/// A trace with its prefix and its cycle.
#[tactic(auto, using(crate::proofs::LineLaws::with_both, crate::proofs::LineLaws::written_states), unfolding(crate::specs::Writing::statement_tokens))]
pub(crate) fn trace(
    line: &mut Line,
    name: &Name,
    prefix: &[RawState],
    cycle: &[RawState],
) -> Result<(), Memory>
    ensures { OnOk result (line.new ≡ with_tokens line.old (statement_tokens (trace name.now (map settings_of prefix.now) (map settings_of cycle.now)))) }
{
    declared_name(line, Keyword::Trace, name)?;
    states(line, prefix)?;
    line.keyword(Keyword::Loop)?;
    states(line, cycle)
}
