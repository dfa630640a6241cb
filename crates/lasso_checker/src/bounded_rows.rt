//! Rows of the operators that wait within a bound, by one step backwards for each position that
//! the bound allows.

ghost use Rattle.std.specs.Prelude.{ℕ, ◌+◌, ◌≤◌, ◌↔◌, length};
ghost use Rattle.lasso_checker.specs.Places.{KeepsBelow};
ghost use Rattle.lasso_checker.specs.Layouts.{Row, IsRowOf};
ghost use Rattle.lasso_checker.specs.Operators.{WaitsBefore};

use crate::layout::Layout;
use crate::operators::Waiting;
use crate::rows::{constant_row, copy_row, next_row, step_rows};

/// Writes what the operator makes, within the bound, of two rows, one behind the other, over the
/// first. A third row behind them holds what it makes within fewer steps.
pub fn wait_rows_within(
    waiting: Waiting,
    bound: u8,
    table: &mut [u64],
    base: usize,
    layout: &Layout,
)
    requires { base + layout.now.words + layout.now.words + layout.now.words ≤ length table.old }
    ensures row { IsRowOf layout.now table.new base (λ i. WaitsBefore waiting (i + bound + 1)
        (Row layout.now table.old base)
        (Row layout.now table.old (base + layout.now.words)) i) }
    ensures below { KeepsBelow base table.old table.new }
{
    let third = base + layout.words + layout.words;
    constant_row(table, third, layout, waiting.start());
    'steps: for _step in 0..bound as usize + 1 {
        next_row(table, third, layout);
        step_rows(waiting, table, base, layout);
    }
    copy_row(table, third, base, layout);
}
