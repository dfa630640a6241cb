//! The answer to the bytes of a text: the status, the report and the output. It reads and writes nothing.

ghost use Rattle.std.specs.Prelude.{◌≡◌, ◌≤◌, ℕ, true, List, None, length, IfOk};
ghost use Rattle.model_text.specs.Statements.{StatementForm};
ghost use Rattle.goal_model.specs.ModelViews.{model_of};
ghost use Rattle.kaos_program.specs.declared.status.Status.TheVariants as statuses;
ghost use Rattle.kaos_program.specs.Statuses.{is_answer};
ghost use Rattle.kaos_program.specs.Commands.{check as check_form, regress as regress_form, trace as trace_form};
ghost use Rattle.kaos_program.specs.Options.{command_form};
ghost use Rattle.kaos_program.specs.Answering.{IsAccepted, Answers};

use crate::check::{report, status_of};
use crate::command::Command;
use crate::reading::{MOST_BYTES, Reading, read};
use crate::refusal_text::no_goal;
use crate::regression::{assess, goal_named, status_of_standings};
use crate::regression_text::regression_text;
use crate::status::Status;
use crate::truths::{status_of_truths, truths};
use crate::truths_text::truths_text;
use goal_model::Model;
use source_sink::Memory;
use std::alloc::Global;
use tableau_rules::Answerer;
use verdict_report::{Form, Report, form_text};

/// What is due to be written, and the status if it is.
#[derive(Drop)]
pub(crate) struct Due {
    pub(crate) status: Status,
    pub(crate) report: Option<Report>,
    pub(crate) output: Vec<u8>,
}

fn refused(line: Vec<u8>) -> Due
    ensures { (result.status ≡ statuses.Refused) × (result.report ≡ None) × (result.output.items ≡ line.items) }
{
    Due {
        status: Status::Refused,
        report: None,
        output: line,
    }
}

// The report on a model.
fn check<A: Answerer>(
    alloc: Global,
    answerer: &A,
    model: &Model,
    budget: u32,
    form: Form,
) -> Result<Due, Memory>
    ensures answered { (bytes : List ℕ) (ss : List StatementForm) → IsAccepted bytes ss (model_of model.now)
        → IfOk result (λ a. Answers bytes (check_form budget form) a.status a.report a.output.items) }
    ensures status { IfOk result (λ a. is_answer a.status ≡ true) }
{
    let report = report(alloc, answerer, model, budget)?;
    let output = form_text(alloc, form, model, &report)?;
    Ok(Due {
        status: status_of(&report),
        report: Some(report),
        output,
    })
}

// The candidates for obstacles of the goal of a name.
fn regress<A: Answerer>(
    alloc: Global,
    answerer: &A,
    model: &Model,
    name: &str,
    depth: u8,
    budget: u32,
) -> Result<Due, Memory>
    ensures answered { (bytes : List ℕ) (ss : List StatementForm) → IsAccepted bytes ss (model_of model.now)
        → IfOk result (λ a. Answers bytes (regress_form name.now depth budget) a.status a.report a.output.items) }
    ensures status { IfOk result (λ a. is_answer a.status ≡ true) }
{
    let Some(goal) = goal_named(model, name) else {
        return Ok(refused(no_goal(alloc, name)?));
    };
    let regression = assess(alloc, answerer, model, goal, depth, budget)?;
    let output = regression_text(alloc, model, budget, &regression)?;
    Ok(Due {
        status: status_of_standings(&regression.standings),
        report: None,
        output,
    })
}

// The truth of each goal on each trace of a model.
fn trace(alloc: Global, model: &Model) -> Result<Due, Memory>
    ensures answered { (bytes : List ℕ) (ss : List StatementForm) → IsAccepted bytes ss (model_of model.now)
        → IfOk result (λ a. Answers bytes trace_form a.status a.report a.output.items) }
    ensures status { IfOk result (λ a. is_answer a.status ≡ true) }
{
    let rows = truths(alloc, model)?;
    let output = truths_text(alloc, model, &rows)?;
    Ok(Due {
        status: status_of_truths(&rows),
        report: None,
        output,
    })
}

/// The answer to bytes within the limit under a command.
pub(crate) fn answer_to<A: Answerer>(
    alloc: Global,
    answerer: &A,
    command: Command<'_>,
    bytes: &[u8],
) -> Result<Due, Memory>
    requires { length bytes.now ≤ MOST_BYTES }
    ensures answered { IfOk result (λ a. Answers bytes.now (command_form command.entry) a.status a.report a.output.items) }
    ensures status { IfOk result (λ a. is_answer a.status ≡ true) }
{
    let model = match read(alloc, bytes)? {
        Reading::Accepted(_, model) => model,
        Reading::Refused(line) => return Ok(refused(line)),
    };
    match command {
        Command::Check { budget, form } => check(alloc, answerer, &model, budget, form),
        Command::Regress {
            goal,
            depth,
            budget,
        } => regress(alloc, answerer, &model, goal, depth, budget),
        Command::Trace => trace(alloc, &model),
    }
}
