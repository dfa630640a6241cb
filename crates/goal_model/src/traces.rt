//! Traces that the text spells out. A variable that a state does not set has index 0 there, one that is declared later too.

ghost use Rattle.std.specs.Prelude.{◌≡◌, ◌<◌, length, map, IfOk, OnOk};
ghost use Rattle.model_text.specs.Statements.{settings_of};
ghost use Rattle.goal_model.specs.Refusals.{Gives};
ghost use Rattle.goal_model.specs.Models.{trace_of, contents_of};
ghost use Rattle.goal_model.specs.Drafts.{draft_of, padded as padded_form, padded_trace as padded_trace_form, finished as finished_form};
ghost use Rattle.goal_model.specs.WholeDrafts.{IsDraft};
ghost use Rattle.goal_model.specs.Resolution.{trace_taken};
ghost use Rattle.temporal_logic.specs.Rows.{rows};

use crate::contents::{Contents, NamedTrace};
use crate::draft::Draft;
use crate::namespace::Kind;
use crate::refusal::{RefusalKind, Stop, refused};
use crate::states::states;
use model_text::RawState;
use source_sink::Memory;
use state_space::{Name, State};
use std::alloc::Global;
use temporal_logic::Lasso;

/// `trace NAME: STATES loop STATES`
pub(crate) fn take_trace(
    alloc: Global,
    draft: &mut Draft,
    name: &Name,
    prefix: &[RawState],
    cycle: &[RawState],
) -> Result<(), Stop>
    requires { IsDraft (draft_of draft.old) }
    ensures { Gives (λ _. draft_of draft.new) result (trace_taken (draft_of draft.old) name.now (map settings_of prefix.now) (map settings_of cycle.now)) }
{
    let scope = draft.scope();
    scope.fresh(alloc, name)?;
    let prefix = states(alloc, &scope, prefix)?;
    let cycle = states(alloc, &scope, cycle)?;
    let Ok(lasso) = Lasso::new(&draft.contents.space, prefix, cycle) else {
        return refused(alloc, RefusalKind::BadValue, name);
    };
    let place = draft.contents.traces.len();
    let name = draft.declare(alloc, name, Kind::Trace, place)?;
    draft.contents.traces.push(NamedTrace { name, lasso })?;
    Ok(())
}

// Index 0 for each variable behind the first ones.
fn pad_state(state: &mut State, count: usize) -> Result<(), Memory>
    ensures { OnOk result (state.new.values.items ≡ padded_form count state.old.values.items) }
{
    'variables: while state.values.len() < count {
        state.values.push(0)?;
    }
    Ok(())
}

fn pad_states(states: &mut [State], count: usize) -> Result<(), Memory>
    ensures { OnOk result (rows states.new ≡ map (padded_form count) (rows states.old)) }
{
    'states: for state in states.iter_mut() {
        pad_state(state, count)?;
    }
    Ok(())
}

fn pad_trace(trace: &mut NamedTrace, count: usize) -> Result<(), Memory>
    ensures { OnOk result (trace_of trace.new ≡ padded_trace_form count (trace_of trace.old)) }
{
    pad_states(&mut trace.lasso.prefix, count)?;
    pad_states(&mut trace.lasso.cycle, count)
}

fn pad_traces(traces: &mut [NamedTrace], count: usize) -> Result<(), Memory>
    ensures { OnOk result (map trace_of traces.new ≡ map (padded_trace_form count) (map trace_of traces.old)) }
{
    'traces: for trace in traces.iter_mut() {
        pad_trace(trace, count)?;
    }
    Ok(())
}

/// All that is declared, with indexes of all variables in each state.
pub(crate) fn finished(mut contents: Contents) -> Result<Contents, Memory>
    ensures { IfOk result (λ m. contents_of m ≡ finished_form (contents_of contents)) }
{
    let count = contents.space.count() as usize;
    pad_traces(&mut contents.traces, count)?;
    Ok(contents)
}
