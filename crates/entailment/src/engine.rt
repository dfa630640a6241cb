//! The engine, for whoever asks whether a list of formulas has a trace: it explores, eliminates and
//! builds, and joins what these promise. Its answer is valid for every query and budget, and it is
//! withheld only where the tableau is over the budget.

ghost use Rattle.std.specs.Prelude.{All, IfOk};
ghost use Rattle.state_space.specs.Spaces.{sizes};
ghost use Rattle.tableau_rules.specs.Queries.{IsOver};
ghost use Rattle.tableau_rules.specs.QueryView.{cores_in};
ghost use Rattle.tableau_rules.specs.Answers.{IsValidAnswer};

use lasso_builder::build;
use source_sink::Memory;
use state_space::Space;
use std::alloc::Global;
use tableau_elimination::{Outcome, eliminate};
use tableau_graph::{Explored, explore};
use tableau_rules::{Answer, Answerer, Query};

/// Decides queries: all nodes of the tableau are explored, unless they are more than the budget, and
/// eliminated where no trace meets them; from what is left a lasso is built.
#[derive(Clone, Copy, Debug)]
pub struct Engine;

impl Answerer for Engine {
    fn answer(
        &self,
        alloc: Global,
        space: &Space,
        query: &Query,
        budget: u32,
    ) -> Result<Answer, Memory> {
        let graph = match explore(alloc, space, query, budget)? {
            Explored::Over(number) => return Ok(Answer::Withheld(number)),
            Explored::Whole(graph) => graph,
        };
        match eliminate(alloc, query, &graph)? {
            Outcome::RootGone(cert) => Ok(Answer::Empty(cert)),
            Outcome::RootStays(stays) => {
                Ok(Answer::Found(build(alloc, space, query, &graph, &stays)?))
            }
        }
    }
}
