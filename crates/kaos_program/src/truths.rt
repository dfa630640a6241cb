//! The truth of each goal at the start of each trace of a model, for `trace`: it is looked at on
//! the trace itself, so that no tableau and no budget plays a part.

ghost use Rattle.std.specs.Prelude.{◌≡◌, ◌↔◌, map, IsTrue, IfOk};
ghost use Rattle.std.specs.List.{list_all};
ghost use Rattle.state_space.specs.Spaces.{ranges, sizes};
ghost use Rattle.temporal_logic.specs.Fits.{Fits};
ghost use Rattle.temporal_logic.specs.Lassos.{trace_of, IsOfSpace};
ghost use Rattle.temporal_logic.specs.Trees.{tree_of};
ghost use Rattle.temporal_logic.specs.Truth.{Truth};
ghost use Rattle.goal_model.specs.Models.{sizes_of};
ghost use Rattle.goal_model.specs.ModelViews.{model_of};
ghost use Rattle.kaos_program.specs.Truths.{AreTruthsOn, AreTruths};
ghost use Rattle.kaos_program.specs.Statuses.{status_of_truths as status_of_rows};

use crate::status::Status;
use goal_model::Model;
use lasso_checker::{scratch_len, truth_at_start};
use source_sink::Memory;
use state_space::Space;
use std::alloc::Global;
use temporal_logic::{Formula, Lasso};

/// Whether a formula is true at the start of a lasso.
pub(crate) fn is_true(
    alloc: Global,
    space: &Space,
    lasso: &Lasso,
    formula: &Formula,
) -> Result<bool, Memory>
    requires of_space { IsOfSpace (sizes space.now) lasso.now }
    requires fits { Fits (ranges space.now) (tree_of formula.now) }
    ensures truth { IfOk result (λ b. IsTrue b ↔ Truth (trace_of lasso.now) (tree_of formula.now) 0) }
{
    let mut scratch = vec![in alloc; 0; scratch_len(lasso, formula) as usize]?;
    Ok(truth_at_start(space, lasso, formula, &mut scratch))
}

// Whether each goal is true at the start of a lasso.
fn truths_on(alloc: Global, model: &Model, lasso: &Lasso) -> Result<Vec<bool>, Memory>
    requires of_space { IsOfSpace (sizes_of (model_of model.now)) lasso.now }
    ensures truths { IfOk result (λ row. AreTruthsOn (trace_of lasso.now) (model_of model.now).goals row.items) }
{
    let (space, goals) = (model.space(), model.goals());
    let mut row = Vec::new(alloc);
    'goals: for goal in goals {
        row.push(is_true(alloc, space, lasso, &goal.formula)?)?;
    }
    Ok(row)
}

/// The truth of each goal at the start of each trace: a list for each trace, with a truth value for each goal.
pub(crate) fn truths(alloc: Global, model: &Model) -> Result<Vec<Vec<bool>>, Memory>
    ensures truths { IfOk result (λ rows. AreTruths (model_of model.now) (map (λ row. row.items) rows.items)) }
{
    let traces = model.traces();
    let mut rows = Vec::new(alloc);
    'traces: for trace in traces {
        rows.push(truths_on(alloc, model, &trace.lasso)?)?;
    }
    Ok(rows)
}

fn are_all_true(row: &[bool]) -> bool
    ensures { result ≡ list_all (λ b. b) row.now }
{
    row.iter().all(|truth| *truth)
}

/// The status that truth values give.
pub(crate) fn status_of_truths(rows: &[Vec<bool>]) -> Status
    ensures { result ≡ status_of_rows (map (λ row. row.items) rows.now) }
{
    'rows: for row in rows {
        if !are_all_true(row) {
            return Status::Failed;
        }
    }
    Status::Held
}
