//! Rows of the operators that wait without a bound, by two passes backwards: over the loop alone,
//! for what the operator gives where the loop begins, and then over all places from there.

ghost use Rattle.std.specs.Prelude.{◌≡◌, ℕ, ◌+◌, ◌/◌, ◌<◌, ◌≤◌, ◌↔◌, IsTrue, length};
ghost use Rattle.lasso_checker.specs.Places.{bit_of, KeepsBelow};
ghost use Rattle.lasso_checker.specs.Layouts.{Row, IsRowOf};
ghost use Rattle.lasso_checker.specs.Operators.{Steps, Waits};

use crate::bits::{get_bit, set_bit};
use crate::layout::Layout;
use crate::operators::Waiting;

// What the operator gives at a place, from what it gives at the next.
fn wait_at(
    waiting: Waiting,
    table: &[u64],
    base: usize,
    words: usize,
    place: usize,
    next: bool,
) -> bool
    requires { base + words + place / 64 < length table.now }
    ensures step { IsTrue result ↔ Steps waiting
        (bit_of table.now base place ≡ 1) (bit_of table.now (base + words) place ≡ 1) (IsTrue next) }
{
    let one = get_bit(table, base, place);
    let other = get_bit(table, base + words, place);
    waiting.step(one, other, next)
}

/// Writes what the operator makes of two rows, one behind the other, over the first.
pub fn wait_rows(waiting: Waiting, table: &mut [u64], base: usize, layout: &Layout)
    requires { base + layout.now.words + layout.now.words ≤ length table.old }
    ensures row { IsRowOf layout.now table.new base (Waits waiting
        (Row layout.now table.old base)
        (Row layout.now table.old (base + layout.now.words))) }
    ensures below { KeepsBelow base table.old table.new }
{
    let end = layout.start + layout.turn;
    let mut now = waiting.start();
    'turn: for place in (layout.start..end).rev() {
        now = wait_at(waiting, table, base, layout.words, place, now);
    }
    'all: for place in (0..end).rev() {
        now = wait_at(waiting, table, base, layout.words, place, now);
        set_bit(table, base, place, now);
    }
}
