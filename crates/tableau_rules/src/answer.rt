//! Answers to the question whether a trace meets a query, and what whoever answers promises.

ghost use Rattle.std.specs.Prelude.{All, IfOk};
ghost use Rattle.state_space.specs.Spaces.{sizes};
ghost use Rattle.tableau_rules.specs.Queries.{IsOver};
ghost use Rattle.tableau_rules.specs.QueryView.{cores_in};
ghost use Rattle.tableau_rules.specs.Answers.{IsValidAnswer};

use crate::certificate::Cert;
use crate::query::Query;
use source_sink::Memory;
use state_space::Space;
use std::alloc::Global;
use temporal_logic::Lasso;

/// Whether a trace meets a query, with evidence.
#[derive(Drop)]
pub enum Answer {
    /// None does, as the certificate shows.
    Empty(Cert),
    /// This lasso does.
    Found(Lasso),
    /// The query's tableau has more nodes than the budget, which is given.
    Withheld(u32),
}

/// Whoever answers queries.
pub trait Answerer {
    /// Whether a trace of the space meets the query, whose literals are of variables of the space.
    /// The size of a query is the number of distinct nodes that its root leads to. `Withheld` comes
    /// exactly where the size is over the budget. `Empty` has a valid certificate with no more nodes
    /// than the size, and `Found` a lasso of the space that meets the query.
    fn answer(
        &self,
        alloc: Global,
        space: &Space,
        query: &Query,
        budget: u32,
    ) -> Result<Answer, Memory>
        requires { All (IsOver (sizes space.now)) (cores_in query.now) }
        ensures { IfOk result (IsValidAnswer (sizes space.now) (cores_in query.now) budget) };
}
