//! The candidates for obstacles of a goal, by regression over rules.

ghost use Rattle.std.specs.Prelude.{◌≡◌, ◌<◌, true, All, length, map, min, IfOk};
ghost use Rattle.state_space.specs.Spaces.{ranges, sizes};
ghost use Rattle.temporal_logic.specs.Trees.{tree_of};
ghost use Rattle.temporal_logic.specs.Fits.{Fits};
ghost use Rattle.bound_unfolding.specs.CoreLists.{cores_of};
ghost use Rattle.bound_unfolding.specs.CoreTexts.{CoreFits};
ghost use Rattle.bound_unfolding.specs.CoreView.{core_tree_of};
ghost use Rattle.goal_model.specs.Models.{sizes_of};
ghost use Rattle.goal_model.specs.ModelViews.{model_of};
ghost use Rattle.obstacle_regression.specs.Candidates.{is_small};
ghost use Rattle.obstacle_regression.specs.Views.{regressed_of};
ghost use Rattle.obstacle_regression.specs.Regressions.{total_nodes, rule_formulas, domain_formulas, regression_through, goal_regression};

use crate::extent::extents_of;
use crate::rule::Rule;
use crate::search::Search;
use bound_unfolding::{Core, core_of, core_size};
use goal_model::{Model, demand_list};
use source_sink::Memory;
use state_space::Space;
use std::alloc::Global;
use temporal_logic::Formula;

/// The candidates in the order in which they were found, and whether one was left out: by the number of 200, or as it is too large.
#[derive(Drop)]
pub struct Regressed {
    pub list: Vec<Core>,
    pub more: bool,
}

// The nodes of the cores of formulas together, up to 4,097.
fn nodes_of(space: &Space, formulas: &[Formula]) -> u64
    requires fit { All (λ f. Fits (ranges space.now) (tree_of f)) formulas.now }
    ensures { result ≡ min (total_nodes (cores_of (sizes space.now) (map tree_of formulas.now))) 4097 }
{
    let mut count = 0;
    'formulas: for formula in formulas {
        count = (count + core_size(space, formula, true)).min(4097);
    }
    count
}

// The rules of a model, in the order of the text.
fn rules_of(alloc: Global, model: &Model) -> Result<Vec<Formula>, Memory>
    ensures { IfOk result (λ fs. map tree_of fs.items ≡ rule_formulas (model_of model.now)) }
{
    let mut rules = Vec::new(alloc);
    'domains: for property in model.domains() {
        if property.rule {
            rules.push(property.formula.clone(alloc)?)?;
        }
    }
    Ok(rules)
}

/// The candidates for obstacles of the goal at a place, through these rules: those of the formulas that have the form `cause entails effect`.
/// The first candidate is the negative core of the goal. A rule whose effect gives a part of a candidate makes a further one, with the
/// rule's cause in place of that part (effects and causes are taken as positive cores; an effect gives a core that is the same, or a literal
/// of a larger set). This is done `depth` times, each time for the candidates that came last. A candidate has at most 4,096 nodes together
/// with the formulas `beside`, and at most 1,000 levels; at most 200 are listed. Only memory can be wanting.
pub fn regress_through(
    alloc: Global,
    model: &Model,
    goal: usize,
    rules: &[Formula],
    beside: &[Formula],
    depth: u8,
) -> Result<Regressed, Memory>
    requires goal { goal < length (model_of model.now).goals }
    requires rules { All (λ f. Fits (model_of model.now).ranges (tree_of f)) rules.now }
    requires beside { All (λ f. Fits (model_of model.now).ranges (tree_of f)) beside.now }
    ensures list { IfOk result (λ r. regressed_of r ≡ regression_through (model_of model.now) goal (map tree_of rules.now) (map tree_of beside.now) depth) }
    ensures fits { IfOk result (λ r. All (λ c. CoreFits (model_of model.now).ranges (core_tree_of c)) r.list.items) }
    ensures small { IfOk result (λ r. All (λ c. is_small (total_nodes (cores_of (sizes_of (model_of model.now)) (map tree_of beside.now))) (core_tree_of c) ≡ true) r.list.items) }
{
    let space = model.space();
    let formula = &model.goals()[goal].formula;
    let nodes = nodes_of(space, beside);
    let (_, extent) = extents_of(space, formula);
    if !extent.is_small(nodes) {
        return Ok(Regressed {
            list: Vec::new(alloc),
            more: true,
        });
    }
    let rules = Rule::all_among(alloc, space, rules)?;
    let mut search = Search::new(alloc, nodes);
    search.take(core_of(alloc, space, formula, false)?)?;
    search.offer_levels(alloc, &rules, depth)?;
    search.finish(alloc)
}

/// The candidates for obstacles of the goal at a place, over the model's rules and with all its domain properties beside: `regress_through`
/// with these. `depth` is how often rules are applied one after the other.
pub fn regress(alloc: Global, model: &Model, goal: usize, depth: u8) -> Result<Regressed, Memory>
    requires goal { goal < length (model_of model.now).goals }
    ensures list { IfOk result (λ r. regressed_of r ≡ goal_regression (model_of model.now) goal depth) }
    ensures fits { IfOk result (λ r. All (λ c. CoreFits (model_of model.now).ranges (core_tree_of c)) r.list.items) }
    ensures small { IfOk result (λ r. All (λ c. is_small (total_nodes (cores_of (sizes_of (model_of model.now)) (domain_formulas (model_of model.now)))) (core_tree_of c) ≡ true) r.list.items) }
{
    let rules = rules_of(alloc, model)?;
    let beside = demand_list(alloc, model, &[])?;
    regress_through(alloc, model, goal, &rules, &beside, depth)
}
