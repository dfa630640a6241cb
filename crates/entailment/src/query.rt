//! From formulas to the query of their positive cores, in order: the query has a trace where the
//! list has, as law.rt says.

ghost use Rattle.std.specs.Prelude.{◌≡◌, All, IfOk, map};
ghost use Rattle.state_space.specs.Spaces.{ranges, sizes};
ghost use Rattle.temporal_logic.specs.Trees.{tree_of};
ghost use Rattle.temporal_logic.specs.Fits.{Fits};
ghost use Rattle.bound_unfolding.specs.CoreLists.{cores_of};
ghost use Rattle.formula_table.specs.SmallLists.{AreSmall};
ghost use Rattle.tableau_rules.specs.QueryView.{cores_in};
ghost use Rattle.tableau_rules.specs.Queries.{IsOver};

use source_sink::Memory;
use state_space::Space;
use std::alloc::Global;
use tableau_rules::Query;
use temporal_logic::Formula;

/// The query that a trace meets where all the formulas are true at its start. They are of the space,
/// and their positive cores have at most 4,096 distinct subformulas together and at most 1,000 levels
/// each.
pub fn query_of(alloc: Global, space: &Space, list: &[Formula]) -> Result<Query, Memory>
    requires fit { All (λ f. Fits (ranges space.now) (tree_of f)) list.now }
    requires small { AreSmall (sizes space.now) (map tree_of list.now) }
    ensures cores { IfOk result (λ q. cores_in q ≡ cores_of (sizes space.now) (map tree_of list.now)) }
    ensures over { IfOk result (λ q. All (IsOver (sizes space.now)) (cores_in q)) }
{
    Query::of_formulas(alloc, space, list)
}
