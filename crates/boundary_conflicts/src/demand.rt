//! The demands of a conflict: that its goals diverge under the boundary condition, that they do not without any one of them, and that the
//! condition can come about.

ghost use Rattle.std.specs.Prelude.{◌≡◌, ◌<◌, true, All, map, length, slice_index_or, IfOk};
ghost use Rattle.temporal_logic.specs.Trees.{tree_of};
ghost use Rattle.goal_model.specs.ModelViews.{model_of};
ghost use Rattle.goal_model.specs.Items.{no_link, link_items_of};
ghost use Rattle.goal_model.specs.Demands.{demand_of, demands_of, IsAnswerable};
ghost use Rattle.boundary_conflicts.specs.Conflicts.{is_conflict};

use goal_model::{Demand, Model, link_demands};
use source_sink::Memory;
use std::alloc::Global;

/// The demands of the conflict at a place of the model's links: that no trace meets its boundary condition and all its goals; for each goal
/// in order, that some trace meets the condition and the other goals; and that some trace meets the condition. The domain properties are
/// taken to hold in each.
pub fn conflict_demands(alloc: Global, model: &Model, link: usize) -> Result<Vec<Demand>, Memory>
    requires link { link < length (model_of model.now).links }
    requires conflict { is_conflict (slice_index_or (model_of model.now).links link no_link) ≡ true }
    ensures demands { IfOk result (λ ds. map demand_of ds.items ≡ demands_of (model_of model.now) (link_items_of (model_of model.now) link (slice_index_or (model_of model.now).links link no_link))) }
    ensures answerable { IfOk result (λ ds. All (λ d. IsAnswerable (model_of model.now) (map tree_of d.list.items)) ds.items) }
{
    link_demands(alloc, model, link)
}
