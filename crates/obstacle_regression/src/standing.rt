//! How candidates stand: whether some trace of the domain makes one true at its start.

ghost use Rattle.std.specs.Prelude.{◌≡◌, ◌≤◌, ◌∷◌, [], ◌++◌, true, All, map, IfOk};
ghost use Rattle.std.specs.List.{AllZip};
ghost use Rattle.state_space.specs.Spaces.{ranges, sizes};
ghost use Rattle.temporal_logic.specs.Fits.{Fits};
ghost use Rattle.temporal_logic.specs.Trees.{tree_of};
ghost use Rattle.bound_unfolding.specs.CoreForm.{levels};
ghost use Rattle.bound_unfolding.specs.CoreTree.{core_tree};
ghost use Rattle.bound_unfolding.specs.CoreLists.{cores_of};
ghost use Rattle.bound_unfolding.specs.CoreTexts.{CoreFits};
ghost use Rattle.bound_unfolding.specs.CoreView.{core_tree_of};
ghost use Rattle.tableau_rules.specs.QueryView.{cores_in};
ghost use Rattle.tableau_rules.specs.Queries.{IsOver};
ghost use Rattle.goal_model.specs.Models.{sizes_of};
ghost use Rattle.goal_model.specs.ModelViews.{model_of};
ghost use Rattle.obstacle_regression.specs.Candidates.{is_small};
ghost use Rattle.obstacle_regression.specs.Regressions.{total_nodes, domain_formulas};
ghost use Rattle.obstacle_regression.specs.Standings.{StandsSo, standing_told};

use bound_unfolding::{Core, core_of};
use goal_model::{Model, domain_demand};
use source_sink::Memory;
use state_space::Space;
use std::alloc::Global;
use tableau_rules::{Answer, Answerer, Query};
use temporal_logic::Formula;

/// How a candidate stands.
#[derive(Clone, Copy, Debug, PartialEq, Eq)]
pub enum Standing {
    /// Some trace of the domain makes it true at its start.
    Possible,
    /// None does.
    Impossible,
    /// The tableau of its query has more nodes than the budget, which is given.
    Withheld(u32),
}

// What an answer tells.
fn standing_of(answer: Answer) -> Standing
    ensures { result ≡ standing_told answer }
{
    match answer {
        Answer::Empty(_) => Standing::Impossible,
        Answer::Found(_) => Standing::Possible,
        Answer::Withheld(budget) => Standing::Withheld(budget),
    }
}

// The query of the domain properties and a candidate.
fn query_of_candidate(
    alloc: Global,
    space: &Space,
    domain: &[Formula],
    candidate: &Core,
) -> Result<Query, Memory>
    requires fit { All (λ f. Fits (ranges space.now) (tree_of f)) domain.now }
    requires levels { All (λ f. levels (core_tree (sizes space.now) true (tree_of f)) ≤ 1000) domain.now }
    requires candidate { CoreFits (ranges space.now) (core_tree_of candidate.now) }
    requires small { is_small (total_nodes (cores_of (sizes space.now) (map tree_of domain.now))) (core_tree_of candidate.now) ≡ true }
    ensures cores { IfOk result (λ q. cores_in q ≡ cores_of (sizes space.now) (map tree_of domain.now) ++ core_tree_of candidate.now ∷ []) }
    ensures over { IfOk result (λ q. All (IsOver (sizes space.now)) (cores_in q)) }
{
    let mut cores = Vec::new(alloc);
    'domain: for formula in domain {
        cores.push(core_of(alloc, space, formula, true)?)?;
    }
    cores.push(candidate.clone(alloc)?)?;
    Query::new(alloc, cores)
}

/// How each of these candidates stands under a budget. They are over the model's variables, and small beside the domain properties, as those
/// are that `regress` gives. A candidate is withheld exactly where its tableau has more nodes than the budget.
pub fn standings<A: Answerer>(
    alloc: Global,
    answerer: &A,
    model: &Model,
    candidates: &[Core],
    budget: u32,
) -> Result<Vec<Standing>, Memory>
    requires fit { All (λ c. CoreFits (model_of model.now).ranges (core_tree_of c)) candidates.now }
    requires small { All (λ c. is_small (total_nodes (cores_of (sizes_of (model_of model.now)) (domain_formulas (model_of model.now)))) (core_tree_of c) ≡ true) candidates.now }
    ensures { IfOk result (λ ss. AllZip (λ c s. StandsSo (model_of model.now) budget (core_tree_of c) s) candidates.now ss.items) }
{
    let domain = domain_demand(alloc, model)?;
    let space = model.space();
    let mut standings = Vec::new(alloc);
    'candidates: for candidate in candidates {
        let query = query_of_candidate(alloc, space, &domain.list, candidate)?;
        let answer = answerer.answer(alloc, space, &query, budget)?;
        standings.push(standing_of(answer))?;
    }
    Ok(standings)
}
