//! The truth of formulas at the start of a lasso, in scratch that the caller gives.

ghost use Rattle.std.specs.Prelude.{◌+◌, ◌*◌, ◌≤◌, ◌↔◌, IsTrue, IfSome, IsNone, All, length, map};
ghost use Rattle.state_space.specs.Spaces.{ranges, sizes};
ghost use Rattle.temporal_logic.specs.Fits.{Fits};
ghost use Rattle.temporal_logic.specs.Lassos.{trace_of, IsOfSpace};
ghost use Rattle.temporal_logic.specs.Trees.{tree_of};
ghost use Rattle.temporal_logic.specs.Truth.{Truth, Meets};
ghost use Rattle.lasso_checker.specs.Layouts.{IsLayoutOf, IsRowOf};
ghost use Rattle.lasso_checker.specs.Lists.{IsFirstFalse};
ghost use Rattle.lasso_checker.specs.Operators.{Applied, Combined};
ghost use Rattle.lasso_checker.specs.Places.{KeepsBelow};
ghost use Rattle.lasso_checker.specs.Scratch.{unary_rows, binary_rows, rows_over, rows_over_both, rows_of, scratch_of};

use crate::atom_rows::atom_row;
use crate::bits::get_bit;
use crate::layout::Layout;
use crate::operator_rows::{apply_to_row, combine_rows};
use crate::operators::{Binary, Unary};
use state_space::Space;
use temporal_logic::{Formula, Lasso};

// Writes the row of an operator of one operand, which is made of the operand's row.
#[cycle(fill)]
fn fill_unary(
    lasso: &Lasso,
    layout: &Layout,
    unary: Unary,
    a: &Formula,
    table: &mut [u64],
    base: usize,
)
    requires layout { IsLayoutOf layout.now lasso.now }
    requires room { base + layout.now.words * rows_over (unary_rows unary) (rows_of (tree_of a.now))
        ≤ length table.old }
    ensures row { IsRowOf layout.now table.new base
        (Applied unary (Truth (trace_of lasso.now) (tree_of a.now))) }
    ensures below { KeepsBelow base table.old table.new }
{
    fill(lasso, layout, a, table, base);
    apply_to_row(unary, table, base, layout);
}

// Writes the row of an operator of two operands, which is made of the operands' rows.
#[cycle(fill)]
fn fill_binary(
    lasso: &Lasso,
    layout: &Layout,
    binary: Binary,
    a: &Formula,
    b: &Formula,
    table: &mut [u64],
    base: usize,
)
    requires layout { IsLayoutOf layout.now lasso.now }
    requires room { base + layout.now.words
        * rows_over_both (binary_rows binary) (rows_of (tree_of a.now)) (rows_of (tree_of b.now))
        ≤ length table.old }
    ensures row { IsRowOf layout.now table.new base (Combined binary
        (Truth (trace_of lasso.now) (tree_of a.now))
        (Truth (trace_of lasso.now) (tree_of b.now))) }
    ensures below { KeepsBelow base table.old table.new }
{
    fill(lasso, layout, a, table, base);
    fill(lasso, layout, b, table, base + layout.words);
    combine_rows(binary, table, base, layout);
}

// Writes the truth of a formula at each position into the row that begins at `base`, and what it
// takes for that into the rows behind.
#[cycle(fill)]
fn fill(lasso: &Lasso, layout: &Layout, f: &Formula, table: &mut [u64], base: usize)
    requires layout { IsLayoutOf layout.now lasso.now }
    requires room { base + layout.now.words * rows_of (tree_of f.now) ≤ length table.old }
    ensures row { IsRowOf layout.now table.new base (Truth (trace_of lasso.now) (tree_of f.now)) }
    ensures below { KeepsBelow base table.old table.new }
{
    match f {
        Formula::True
        | Formula::False
        | Formula::Flag(_)
        | Formula::Is(_, _, _)
        | Formula::Among(_, _)
        | Formula::Same(_, _, _) => atom_row(lasso, layout, f, table, base),
        Formula::Not(a) => fill_unary(lasso, layout, Unary::Not, a, table, base),
        Formula::Next(a) => fill_unary(lasso, layout, Unary::Next, a, table, base),
        Formula::Eventually(a) => fill_unary(lasso, layout, Unary::Eventually, a, table, base),
        Formula::Always(a) => fill_unary(lasso, layout, Unary::Always, a, table, base),
        Formula::EventuallyWithin(d, a) => {
            fill_unary(lasso, layout, Unary::EventuallyWithin(*d), a, table, base)
        }
        Formula::AlwaysWithin(d, a) => {
            fill_unary(lasso, layout, Unary::AlwaysWithin(*d), a, table, base)
        }
        Formula::And(a, b) => fill_binary(lasso, layout, Binary::And, a, b, table, base),
        Formula::Or(a, b) => fill_binary(lasso, layout, Binary::Or, a, b, table, base),
        Formula::Implies(a, b) => fill_binary(lasso, layout, Binary::Implies, a, b, table, base),
        Formula::Iff(a, b) => fill_binary(lasso, layout, Binary::Iff, a, b, table, base),
        Formula::Entails(a, b) => fill_binary(lasso, layout, Binary::Entails, a, b, table, base),
        Formula::Until(a, b) => fill_binary(lasso, layout, Binary::Until, a, b, table, base),
        Formula::Unless(a, b) => fill_binary(lasso, layout, Binary::Unless, a, b, table, base),
        Formula::Release(a, b) => fill_binary(lasso, layout, Binary::Release, a, b, table, base),
        Formula::UntilWithin(d, a, b) => {
            fill_binary(lasso, layout, Binary::UntilWithin(*d), a, b, table, base)
        }
        Formula::UnlessWithin(d, a, b) => {
            fill_binary(lasso, layout, Binary::UnlessWithin(*d), a, b, table, base)
        }
        Formula::ReleaseWithin(d, a, b) => {
            fill_binary(lasso, layout, Binary::ReleaseWithin(*d), a, b, table, base)
        }
    }
}

/// Whether a formula is true at the first position of a lasso, both of the space. The scratch has
/// at least `scratch_len` words, of any values, and is written over.
pub fn truth_at_start(space: &Space, lasso: &Lasso, f: &Formula, scratch: &mut [u64]) -> bool
    requires of_space { IsOfSpace (sizes space.now) lasso.now }
    requires fits { Fits (ranges space.now) (tree_of f.now) }
    requires room { scratch_of lasso.now (tree_of f.now) ≤ length scratch.old }
    ensures truth { IsTrue result ↔ Truth (trace_of lasso.now) (tree_of f.now) 0 }
{
    let layout = Layout::of(lasso);
    fill(lasso, &layout, f, scratch, 0);
    get_bit(scratch, 0, 0)
}

/// The least index of a formula of the list that is false at the first position of the lasso, and
/// `None` exactly where each is true there. Each is of the space, and the scratch is enough for
/// each: at least `scratch_len` words, of any values, that are written over.
pub fn first_false(
    space: &Space,
    lasso: &Lasso,
    list: &[Formula],
    scratch: &mut [u64],
) -> Option<usize>
    requires of_space { IsOfSpace (sizes space.now) lasso.now }
    requires fit { All (λ f. Fits (ranges space.now) (tree_of f)) list.now }
    requires room { All (λ f. scratch_of lasso.now (tree_of f) ≤ length scratch.old) list.now }
    ensures first { IfSome result (IsFirstFalse (trace_of lasso.now) (map tree_of list.now)) }
    ensures none { IsNone result ↔ Meets (trace_of lasso.now) (map tree_of list.now) }
{
    'formulas: for index in 0..list.len() {
        if !truth_at_start(space, lasso, &list[index], scratch) {
            return Some(index);
        }
    }
    None
}
