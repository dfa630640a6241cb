//! How many formulas a list of formulas has in a table, found by putting them.

ghost use Rattle.std.specs.Prelude.{◌≡◌, ◌<◌, All, IfOk, OnOk, IsErrOf, length, map, min};
ghost use Rattle.state_space.specs.Spaces.{ranges, sizes};
ghost use Rattle.temporal_logic.specs.Trees.{tree_of};
ghost use Rattle.temporal_logic.specs.Fits.{Fits};
ghost use Rattle.bound_unfolding.specs.CoreLists.{cores_of};
ghost use Rattle.formula_table.specs.Closures.{with_cores, closure_of};
ghost use Rattle.formula_table.specs.Tables.{closure_in};

use crate::table::{PutRefusal, Table};
use source_sink::Memory;
use state_space::Space;
use std::alloc::Global;
use temporal_logic::Formula;

// Puts the positive cores of the formulas, in order.
fn put_all(table: &mut Table, space: &Space, list: &[Formula]) -> Result<(), PutRefusal>
    requires fits { All (λ f. Fits (ranges space.now) (tree_of f)) list.now }
    ensures put { OnOk result (closure_in table.new ≡ with_cores (cores_of (sizes space.now) (map tree_of list.now)) (closure_in table.old)) }
    ensures full { IsErrOf result PutRefusal.Full → 4096 < length (with_cores (cores_of (sizes space.now) (map tree_of list.now)) (closure_in table.old)) }
{
    'formulas: for formula in list {
        table.put_formula(space, formula, true)?;
    }
    Ok(())
}

/// How many distinct subformulas the positive cores of the formulas have together; 4,097 stands for
/// every larger number. The formulas fit the space. Only memory can be wanting.
pub fn distinct_size(alloc: Global, space: &Space, list: &[Formula]) -> Result<u64, Memory>
    requires fits { All (λ f. Fits (ranges space.now) (tree_of f)) list.now }
    ensures { IfOk result (λ n. n ≡ min (length (closure_of (cores_of (sizes space.now) (map tree_of list.now)))) 4097) }
{
    let mut table = Table::new(alloc);
    match put_all(&mut table, space, list) {
        Ok(()) => Ok(table.len() as u64),
        Err(PutRefusal::Full) => Ok(4097),
        Err(PutRefusal::Memory) => Err(Memory),
    }
}
