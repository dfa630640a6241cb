//! The demands of an obstruction: of each obstacle that it obstructs the goal and is possible, and that the obstacles cover the goal.

ghost use Rattle.std.specs.Prelude.{◌≡◌, ◌<◌, true, All, map, length, slice_index_or, IfOk};
ghost use Rattle.temporal_logic.specs.Trees.{tree_of};
ghost use Rattle.goal_model.specs.ModelViews.{model_of};
ghost use Rattle.goal_model.specs.Items.{no_link, link_items_of};
ghost use Rattle.goal_model.specs.Demands.{demand_of, demands_of, IsAnswerable};
ghost use Rattle.obstacle_regression.specs.Obstructions.{is_obstruction};

use goal_model::{Demand, Model, link_demands};
use source_sink::Memory;
use std::alloc::Global;

/// The demands of the obstruction at a place of the model's links: for each obstacle in order, that no trace meets it and the goal, and that
/// some trace meets it; and then that the goal is true on each trace without any of the obstacles. The domain properties are taken to hold
/// in each.
pub fn obstacle_demands(alloc: Global, model: &Model, link: usize) -> Result<Vec<Demand>, Memory>
    requires link { link < length (model_of model.now).links }
    requires obstruction { is_obstruction (slice_index_or (model_of model.now).links link no_link) ≡ true }
    ensures demands { IfOk result (λ ds. map demand_of ds.items ≡ demands_of (model_of model.now) (link_items_of (model_of model.now) link (slice_index_or (model_of model.now).links link no_link))) }
    ensures answerable { IfOk result (λ ds. All (λ d. IsAnswerable (model_of model.now) (map tree_of d.list.items)) ds.items) }
{
    link_demands(alloc, model, link)
}
