//! The report on a model, in phases: what is asked, the query of each demand, an answer to each query, which are over the model's variables,
//! an answer to the query of each pattern that decides, which is over its placeholders, and the entries.

ghost use Rattle.std.specs.Prelude.{◌≡◌, ℕ, All, map, length, IfOk};
ghost use Rattle.std.specs.List.{AllZip};
ghost use Rattle.state_space.specs.Spaces.{sizes};
ghost use Rattle.temporal_logic.specs.Trees.{tree_of};
ghost use Rattle.tableau_rules.specs.Answers.{IsValidAnswer};
ghost use Rattle.tableau_rules.specs.Queries.{IsOver};
ghost use Rattle.tableau_rules.specs.QueryView.{cores_in};
ghost use Rattle.goal_model.specs.Models.{sizes_of};
ghost use Rattle.goal_model.specs.ModelViews.{model_of};
ghost use Rattle.goal_model.specs.Demands.{IsAnswerable};
ghost use Rattle.verdict_report.specs.Reports.{Reports};
ghost use Rattle.pattern_library.specs.Patterns.{pattern_of};
ghost use Rattle.pattern_library.specs.Instances.{placeholder_sizes};
ghost use Rattle.pattern_library.specs.PatternQueries.{pattern_cores};
ghost use Rattle.kaos_program.specs.Asking.{demands_in, patterns_in, query_asked, entries_of};
ghost use Rattle.kaos_program.specs.Statuses.{status_of as status_of_report};

use crate::asking::{Asked, all_asked};
use crate::status::Status;
use entailment::query_of;
use goal_model::{Model, PatternKind};
use pattern_library::{library, pattern_query};
use source_sink::Memory;
use state_space::Space;
use std::alloc::Global;
use tableau_rules::{Answer, Answerer, Query};
use verdict_report::{Entry, Report, assignment_entry, counts, entry};

// The query of each demand that its own list decides.
fn queries(alloc: Global, model: &Model, asked: &[Asked]) -> Result<Vec<Query>, Memory>
    requires answerable { All (λ d. IsAnswerable (model_of model.now) (map tree_of d.list.items)) (demands_in asked.now) }
    ensures cores { IfOk result (λ qs. map cores_in qs.items ≡ map (query_asked (model_of model.now)) (demands_in asked.now)) }
    ensures over { IfOk result (λ qs. All (λ q. All (IsOver (sizes_of (model_of model.now))) (cores_in q)) qs.items) }
{
    let space = model.space();
    let mut queries = Vec::new(alloc);
    'asked: for one in asked {
        match one {
            Asked::Demand(demand) => queries.push(query_of(alloc, space, &demand.list)?)?,
            Asked::Instance(_, _) => {}
            Asked::Assignment(_, _) => {}
        }
    }
    Ok(queries)
}

// The answer to each query.
fn answers<A: Answerer>(
    alloc: Global,
    answerer: &A,
    model: &Model,
    queries: &[Query],
    budget: u32,
) -> Result<Vec<Answer>, Memory>
    requires over { All (λ q. All (IsOver (sizes_of (model_of model.now))) (cores_in q)) queries.now }
    ensures valid { IfOk result (λ v. AllZip (λ q a. IsValidAnswer (sizes_of (model_of model.now)) (cores_in q) budget a) queries.now v.items) }
{
    let space = model.space();
    let mut answers = Vec::new(alloc);
    'queries: for query in queries {
        answers.push(answerer.answer(alloc, space, query, budget)?)?;
    }
    Ok(answers)
}

// What is found of each demand that its own list decides: all queries are answered before the first entry is made.
fn found<A: Answerer>(
    alloc: Global,
    answerer: &A,
    model: &Model,
    asked: &[Asked],
    budget: u32,
) -> Result<Vec<Answer>, Memory>
    requires answerable { All (λ d. IsAnswerable (model_of model.now) (map tree_of d.list.items)) (demands_in asked.now) }
    ensures found { IfOk result (λ v. AllZip (λ d a. IsValidAnswer (sizes_of (model_of model.now)) (query_asked (model_of model.now) d) budget a) (demands_in asked.now) v.items) }
{
    let queries = queries(alloc, model, asked)?;
    answers(alloc, answerer, model, &queries, budget)
}

// The query of a pattern, over its placeholders.
fn query_by(alloc: Global, kind: PatternKind) -> Result<(Space, Query), Memory>
    ensures sizes { IfOk result (λ q. sizes q.0 ≡ placeholder_sizes (pattern_of kind)) }
    ensures cores { IfOk result (λ q. cores_in q.1 ≡ pattern_cores (pattern_of kind)) }
    ensures over { IfOk result (λ q. All (IsOver (sizes q.0)) (cores_in q.1)) }
{
    let pattern = library(alloc, kind)?;
    pattern_query(alloc, &pattern)
}

// The answer to the query of a pattern.
fn pattern_answer<A: Answerer>(
    alloc: Global,
    answerer: &A,
    kind: PatternKind,
    budget: u32,
) -> Result<Answer, Memory>
    ensures valid { IfOk result (IsValidAnswer (placeholder_sizes (pattern_of kind)) (pattern_cores (pattern_of kind)) budget) }
{
    let (space, query) = query_by(alloc, kind)?;
    answerer.answer(alloc, &space, &query, budget)
}

// The answer to the query of each pattern that decides.
fn found_by_patterns<A: Answerer>(
    alloc: Global,
    answerer: &A,
    asked: &[Asked],
    budget: u32,
) -> Result<Vec<Answer>, Memory>
    ensures found { IfOk result (λ v. AllZip (λ kind a. IsValidAnswer (placeholder_sizes (pattern_of kind)) (pattern_cores (pattern_of kind)) budget a) (patterns_in asked.now) v.items) }
{
    let mut answers = Vec::new(alloc);
    'asked: for one in asked {
        match one {
            Asked::Instance(_, kind) => {
                answers.push(pattern_answer(alloc, answerer, *kind, budget)?)?;
            }
            Asked::Demand(_) => {}
            Asked::Assignment(_, _) => {}
        }
    }
    Ok(answers)
}

// The entries of all that is asked; the answers are those to the lists of demands and those to patterns, each in the same order.
fn entries(
    alloc: Global,
    asked: Vec<Asked>,
    answers: Vec<Answer>,
    by_patterns: Vec<Answer>,
) -> Result<Vec<Entry>, Memory>
    requires answered { length (demands_in asked.items) ≡ length answers.items }
    requires by_patterns { length (patterns_in asked.items) ≡ length by_patterns.items }
    ensures entries { IfOk result (λ es. es.items ≡ entries_of asked.items answers.items by_patterns.items) }
{
    let mut answers = answers.into_iter();
    let mut by_patterns = by_patterns.into_iter();
    let mut entries = Vec::new(alloc);
    'asked: for one in asked {
        let entry = match one {
            Asked::Demand(demand) => match answers.next() {
                Some(answer) => entry(demand.label, demand.wanted, None, answer),
                None => unreachable!(),
            },
            Asked::Instance(demand, kind) => match by_patterns.next() {
                Some(answer) => entry(demand.label, demand.wanted, Some(kind), answer),
                None => unreachable!(),
            },
            Asked::Assignment(label, cover) => assignment_entry(label, cover),
        };
        entries.push(entry)?;
    }
    Ok(entries)
}

/// The report on a model under a budget.
pub(crate) fn report<A: Answerer>(
    alloc: Global,
    answerer: &A,
    model: &Model,
    budget: u32,
) -> Result<Report, Memory>
    ensures right { IfOk result (Reports (model_of model.now) budget) }
{
    let asked = all_asked(alloc, model)?;
    let answers = found(alloc, answerer, model, &asked, budget)?;
    let by_patterns = found_by_patterns(alloc, answerer, &asked, budget)?;
    let entries = entries(alloc, asked, answers, by_patterns)?;
    Ok(Report { budget, entries })
}

/// The status that a report gives.
pub(crate) fn status_of(report: &Report) -> Status
    ensures { result ≡ status_of_report report.now }
{
    let totals = counts(report);
    if totals.failed > 0 {
        Status::Failed
    } else if totals.withheld > 0 {
        Status::Withheld
    } else {
        Status::Held
    }
}
