//! The text of the truth of goals on traces: a first line, and then one for each trace and goal,
//! traces and goals in statement order. The bytes are those of specs/TruthTexts.antt.

ghost use Rattle.std.specs.Prelude.{◌≡◌, ◌++◌, map, OnOk, IfOk};
ghost use Rattle.goal_model.specs.Models.{goal_of, trace_of};
ghost use Rattle.goal_model.specs.ModelViews.{model_of};
ghost use Rattle.kaos_program.specs.TruthTexts.{truth_line, lines_on, row_lines, truths_text as text_of_truths};

use goal_model::{Goal, Model, NamedTrace};
use source_sink::{Memory, put};
use state_space::Name;
use std::alloc::Global;

fn put_line(out: &mut Vec<u8>, trace: &Name, goal: &Name, truth: bool) -> Result<(), Memory>
    ensures { OnOk result (out.new.items ≡ out.old.items ++ truth_line trace.now goal.now truth) }
{
    put(out, b"trace ")?;
    put(out, trace.bytes())?;
    put(out, b" ")?;
    put(out, goal.bytes())?;
    put(out, if truth { b": true\n" } else { b": false\n" })
}

// The row has a truth value for each goal; past the shorter of the two there is nothing to write.
fn put_lines(out: &mut Vec<u8>, trace: &Name, goals: &[Goal], row: &[bool]) -> Result<(), Memory>
    ensures { OnOk result (out.new.items ≡ out.old.items ++ lines_on trace.now (map goal_of goals.now) row.now) }
{
    let count = goals.len().min(row.len());
    'goals: for place in 0..count {
        put_line(out, trace, &goals[place].name, row[place])?;
    }
    Ok(())
}

// There is a row for each trace, in order; past the shorter of the two there is nothing to write.
fn put_rows(
    out: &mut Vec<u8>,
    goals: &[Goal],
    traces: &[NamedTrace],
    rows: &[Vec<bool>],
) -> Result<(), Memory>
    ensures { OnOk result (out.new.items ≡ out.old.items ++ row_lines (map goal_of goals.now) (map trace_of traces.now) (map (λ row. row.items) rows.now)) }
{
    let count = traces.len().min(rows.len());
    'traces: for place in 0..count {
        put_lines(out, &traces[place].name, goals, &rows[place])?;
    }
    Ok(())
}

/// The text of the truth of each goal on each trace of a model.
#[tactic(auto, unfolding(crate::specs::TruthTexts::truths_text))]
pub(crate) fn truths_text(
    alloc: Global,
    model: &Model,
    rows: &[Vec<bool>],
) -> Result<Vec<u8>, Memory>
    ensures { IfOk result (λ out. out.items ≡ text_of_truths (model_of model.now) (map (λ row. row.items) rows.now)) }
{
    let mut out = Vec::new(alloc);
    put(&mut out, b"kaos trace 1\n")?;
    put_rows(&mut out, model.goals(), model.traces(), rows)?;
    Ok(out)
}
