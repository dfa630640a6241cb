//! Rows of the formulas without operands, from the states of the lasso, a position at a time: the
//! only rows for which states are looked at.

ghost use Rattle.std.specs.Prelude.{◌≡◌, ℕ, ◌+◌, ◌≤◌, ◌↔◌, IsTrue, length};
ghost use Rattle.std.specs.Int.{bit_at};
ghost use Rattle.temporal_logic.specs.Lassos.{trace_of};
ghost use Rattle.temporal_logic.specs.Trees.{relation_of, tree_of};
ghost use Rattle.temporal_logic.specs.Truth.{Compares, Truth};
ghost use Rattle.lasso_checker.specs.Atoms.{IsAtom};
ghost use Rattle.lasso_checker.specs.Places.{KeepsBelow};
ghost use Rattle.lasso_checker.specs.Layouts.{IsLayoutOf, IsRowOf};

use crate::bits::set_bit;
use crate::layout::Layout;
use state_space::{Values, VarId};
use temporal_logic::{Cmp, Formula, Lasso};

// The value index of a variable at a position.
fn value_at(lasso: &Lasso, position: usize, x: VarId) -> u8
    ensures value { result ≡ trace_of lasso.now position x.0 }
{
    let state = lasso.state_at(position as u64);
    state.values.get(x.0 as usize).copied().unwrap_or(0)
}

// Whether the two value indexes compare so.
fn stands(cmp: Cmp, one: u8, other: u8) -> bool
    ensures stands { IsTrue result ↔ Compares (relation_of cmp) one other }
{
    match cmp {
        Cmp::Eq => one == other,
        Cmp::Ne => one != other,
        Cmp::Lt => one < other,
        Cmp::Le => one <= other,
        Cmp::Gt => one > other,
        Cmp::Ge => one >= other,
    }
}

// Whether a value index, be it that of no variable, is in the set.
fn is_among(set: Values, index: u8) -> bool
    ensures among { IsTrue result ↔ (bit_at set.0 index ≡ 1) }
{
    index < 64 && set.contains(index)
}

// Whether a formula without operands is true at a position.
fn atom_at(lasso: &Lasso, position: usize, f: &Formula) -> bool
    requires { IsAtom (tree_of f.now) }
    ensures truth { IsTrue result ↔ Truth (trace_of lasso.now) (tree_of f.now) position }
{
    match f {
        Formula::True => true,
        Formula::False => false,
        Formula::Flag(x) => value_at(lasso, position, *x) == 1,
        Formula::Is(x, cmp, value) => stands(*cmp, value_at(lasso, position, *x), *value),
        Formula::Among(x, set) => is_among(*set, value_at(lasso, position, *x)),
        Formula::Same(x, cmp, y) => {
            let one = value_at(lasso, position, *x);
            let other = value_at(lasso, position, *y);
            stands(*cmp, one, other)
        }
        _ => unreachable!(),
    }
}

/// Writes the row of a formula without operands.
pub fn atom_row(lasso: &Lasso, layout: &Layout, f: &Formula, table: &mut [u64], base: usize)
    requires atom { IsAtom (tree_of f.now) }
    requires layout { IsLayoutOf layout.now lasso.now }
    requires room { base + layout.now.words ≤ length table.old }
    ensures row { IsRowOf layout.now table.new base (Truth (trace_of lasso.now) (tree_of f.now)) }
    ensures below { KeepsBelow base table.old table.new }
{
    'row: for place in (0..layout.start + layout.turn).rev() {
        set_bit(table, base, place, atom_at(lasso, place, f));
    }
}
