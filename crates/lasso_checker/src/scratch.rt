//! How much scratch a formula takes, for the caller who gives it: the first operand begins where
//! its parent's row does and the second a row later, so that rows grow with depth and not with
//! size.

ghost use Rattle.std.specs.Prelude.{◌≡◌, ◌+◌, ◌-◌, ◌*◌, ◌^◌, ◌<◌, ◌≤◌, min};
ghost use Rattle.temporal_logic.specs.Shapes.{depth_of};
ghost use Rattle.temporal_logic.specs.Trees.{tree_of};
ghost use Rattle.lasso_checker.specs.Scratch.{words_of, rows_of, scratch_of};

use crate::layout::Layout;
use temporal_logic::{Formula, Lasso};

// How many rows a formula takes, or the greatest count where they are more.
fn row_count(f: &Formula) -> u64
    ensures rows { result ≡ min (rows_of (tree_of f.now)) (2 ^ 64 - 1) }
{
    match f {
        Formula::Not(a) | Formula::Next(a) => row_count(a).max(1),
        Formula::Eventually(a) | Formula::Always(a) => row_count(a).max(2),
        Formula::EventuallyWithin(_, a) | Formula::AlwaysWithin(_, a) => row_count(a).max(3),
        Formula::And(a, b)
        | Formula::Or(a, b)
        | Formula::Implies(a, b)
        | Formula::Iff(a, b)
        | Formula::Entails(a, b)
        | Formula::Until(a, b)
        | Formula::Unless(a, b)
        | Formula::Release(a, b) => row_count(a).max(row_count(b).saturating_add(1)).max(2),
        Formula::UntilWithin(_, a, b)
        | Formula::UnlessWithin(_, a, b)
        | Formula::ReleaseWithin(_, a, b) => {
            row_count(a).max(row_count(b).saturating_add(1)).max(3)
        }
        _ => 1,
    }
}

/// How many words of scratch `truth_at_start` takes for a formula on a lasso, or the greatest
/// `u64` where they are more. It takes rows, the more the deeper the formula is, and a row has one
/// bit for each position of the prefix and of the loop.
pub fn scratch_len(lasso: &Lasso, f: &Formula) -> u64
    ensures value { result ≡ scratch_of lasso.now (tree_of f.now) }
    ensures bound { depth_of (tree_of f.now) < 2 ^ 32 - 1
        → result ≤ (2 * depth_of (tree_of f.now) + 2) * words_of lasso.now }
{
    (Layout::of(lasso).words as u64).saturating_mul(row_count(f))
}
