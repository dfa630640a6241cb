//! Rows of all operators, from those of their operands, which are written over. Each operator comes
//! to one of rows.rt, until_rows.rt or bounded_rows.rt; `eventually` and `always` are waiting
//! operators beside a constant row.

ghost use Rattle.std.specs.Prelude.{ℕ, ◌+◌, ◌*◌, ◌≤◌, ◌↔◌, IsTrue, true, false, length};
ghost use Rattle.lasso_checker.specs.Places.{KeepsBelow};
ghost use Rattle.lasso_checker.specs.Layouts.{Row, IsRowOf};
ghost use Rattle.lasso_checker.specs.Operators.{Applied, Combined};
ghost use Rattle.lasso_checker.specs.Scratch.{unary_rows, binary_rows};

use crate::bounded_rows::wait_rows_within;
use crate::layout::Layout;
use crate::operators::{Binary, Join, Unary, Waiting};
use crate::rows::{constant_row, copy_row, join_rows, next_row, not_row};
use crate::until_rows::wait_rows;

// Moves the row behind one that holds everywhere.
fn put_behind_true(table: &mut [u64], base: usize, layout: &Layout)
    requires { base + layout.now.words + layout.now.words ≤ length table.old }
    ensures first { IsRowOf layout.now table.new base (λ i. IsTrue true) }
    ensures second { IsRowOf layout.now table.new (base + layout.now.words)
        (Row layout.now table.old base) }
    ensures below { KeepsBelow base table.old table.new }
{
    copy_row(table, base, base + layout.words, layout);
    constant_row(table, base, layout, true);
}

// Puts a row that holds nowhere behind the row.
fn put_before_false(table: &mut [u64], base: usize, layout: &Layout)
    requires { base + layout.now.words + layout.now.words ≤ length table.old }
    ensures first { IsRowOf layout.now table.new base (Row layout.now table.old base) }
    ensures second { IsRowOf layout.now table.new (base + layout.now.words) (λ i. IsTrue false) }
    ensures below { KeepsBelow base table.old table.new }
{
    constant_row(table, base + layout.words, layout, false);
}

/// Writes what the operator makes of a row over it. What is eventually true is what `true` holds
/// until, and what is always true holds unless `false`.
pub fn apply_to_row(unary: Unary, table: &mut [u64], base: usize, layout: &Layout)
    requires { base + layout.now.words * unary_rows unary ≤ length table.old }
    ensures row { IsRowOf layout.now table.new base
        (Applied unary (Row layout.now table.old base)) }
    ensures below { KeepsBelow base table.old table.new }
{
    match unary {
        Unary::Not => not_row(table, base, layout),
        Unary::Next => next_row(table, base, layout),
        Unary::Eventually => {
            put_behind_true(table, base, layout);
            wait_rows(Waiting::Until, table, base, layout);
        }
        Unary::Always => {
            put_before_false(table, base, layout);
            wait_rows(Waiting::Unless, table, base, layout);
        }
        Unary::EventuallyWithin(bound) => {
            put_behind_true(table, base, layout);
            wait_rows_within(Waiting::Until, bound, table, base, layout);
        }
        Unary::AlwaysWithin(bound) => {
            put_before_false(table, base, layout);
            wait_rows_within(Waiting::Unless, bound, table, base, layout);
        }
    }
}

/// Writes what the operator makes of two rows, one behind the other, over the first.
pub fn combine_rows(binary: Binary, table: &mut [u64], base: usize, layout: &Layout)
    requires { base + layout.now.words * binary_rows binary ≤ length table.old }
    ensures row { IsRowOf layout.now table.new base (Combined binary
        (Row layout.now table.old base)
        (Row layout.now table.old (base + layout.now.words))) }
    ensures below { KeepsBelow base table.old table.new }
{
    match binary {
        Binary::And => join_rows(Join::And, table, base, layout),
        Binary::Or => join_rows(Join::Or, table, base, layout),
        Binary::Implies => join_rows(Join::Implies, table, base, layout),
        Binary::Iff => join_rows(Join::Iff, table, base, layout),
        Binary::Entails => {
            join_rows(Join::Implies, table, base, layout);
            put_before_false(table, base, layout);
            wait_rows(Waiting::Unless, table, base, layout);
        }
        Binary::Until => wait_rows(Waiting::Until, table, base, layout),
        Binary::Unless => wait_rows(Waiting::Unless, table, base, layout),
        Binary::Release => wait_rows(Waiting::Release, table, base, layout),
        Binary::UntilWithin(bound) => {
            wait_rows_within(Waiting::Until, bound, table, base, layout)
        }
        Binary::UnlessWithin(bound) => {
            wait_rows_within(Waiting::Unless, bound, table, base, layout)
        }
        Binary::ReleaseWithin(bound) => {
            wait_rows_within(Waiting::Release, bound, table, base, layout)
        }
    }
}
