//! The demands of an operationalisation: that it is complete and consistent, and, where it says so, exact.

ghost use Rattle.std.specs.Prelude.{◌≡◌, ◌<◌, true, All, map, length, slice_index_or, IfOk};
ghost use Rattle.temporal_logic.specs.Trees.{tree_of};
ghost use Rattle.goal_model.specs.ModelViews.{model_of};
ghost use Rattle.goal_model.specs.Items.{no_link, link_items_of};
ghost use Rattle.goal_model.specs.Demands.{demand_of, demands_of, IsAnswerable};
ghost use Rattle.operationalisation.specs.Operationalisations.{is_operationalisation};

use goal_model::{Demand, Model, link_demands};
use source_sink::Memory;
use std::alloc::Global;

/// The demands of the operationalisation at a place of the model's links: that the requirements entail the goal, that they have a trace,
/// and, where it is exact, that the goal entails each requirement, in order. The domain properties are taken to hold in each.
pub fn operation_demands(alloc: Global, model: &Model, link: usize) -> Result<Vec<Demand>, Memory>
    requires link { link < length (model_of model.now).links }
    requires operationalisation { is_operationalisation (slice_index_or (model_of model.now).links link no_link) ≡ true }
    ensures demands { IfOk result (λ ds. map demand_of ds.items ≡ demands_of (model_of model.now) (link_items_of (model_of model.now) link (slice_index_or (model_of model.now).links link no_link))) }
    ensures answerable { IfOk result (λ ds. All (λ d. IsAnswerable (model_of model.now) (map tree_of d.list.items)) ds.items) }
{
    link_demands(alloc, model, link)
}
