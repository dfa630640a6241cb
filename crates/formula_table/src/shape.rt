//! Formulas by their outermost operator, with the numbers of their operands in a table. A shape is
//! hashed by its kind and two numbers, which tell it from every other: specs/ShapeWords.antt.

ghost use Rattle.std.specs.Prelude.{◌≡◌, ◌++◌};
ghost use Rattle.std.proofs.Common.{rules};
ghost use Rattle.std.specs.Hash as fed;
ghost use Rattle.std.specs.Cmp.Rules.{hashing};
ghost use Rattle.formula_table.specs.ShapeWords.{shape_words};

use state_space::{Values, VarId};
use std::hash::{Hash, Hasher};

/// The number of a formula in a table.
#[derive(Clone, Copy, PartialEq, Eq, Hash, Debug)]
pub struct FormulaId(pub u16);

/// A formula over others of a table.
#[derive(Clone, Copy, PartialEq, Eq, Debug)]
pub enum Shape {
    /// True everywhere.
    True,
    /// True nowhere.
    False,
    /// The variable's value index is in the set.
    Lit(VarId, Values),
    /// Both operands are true here.
    And(FormulaId, FormulaId),
    /// One of the operands, or both, are true here.
    Or(FormulaId, FormulaId),
    /// The operand is true at the next position.
    Next(FormulaId),
    /// The second operand is true at some position from here on, and the first at each one before.
    Until(FormulaId, FormulaId),
    /// At each position from here on the second operand is true, or the first is at an earlier one.
    Release(FormulaId, FormulaId),
}

// The kind of a shape, and two numbers that tell it from the others of its kind.
fn words_of(shape: &Shape) -> (u8, u16, u64)
    ensures words { result ≡ shape_words shape.now }
{
    match shape {
        Shape::True => (0, 0, 0),
        Shape::False => (1, 0, 0),
        Shape::Lit(x, set) => (2, x.0 as u16, set.0),
        Shape::And(a, b) => (3, a.0, b.0 as u64),
        Shape::Or(a, b) => (4, a.0, b.0 as u64),
        Shape::Next(a) => (5, a.0, 0),
        Shape::Until(a, b) => (6, a.0, b.0 as u64),
        Shape::Release(a, b) => (7, a.0, b.0 as u64),
    }
}

impl Hash for Shape {
    ghost hash_input = { λ shape. fed.u8 (shape_words shape).0 ++ fed.u16 (shape_words shape).1 ++ fed.u64 (shape_words shape).2 };

    ghost respects_eq = { Prim.search (hashing, rules) };

    fn hash<H: Hasher>(&self, state: &mut H) {
        let (kind, first, second) = words_of(self);
        state.write_u8(kind);
        state.write_u16(first);
        state.write_u64(second);
    }
}
