//! Nodes of cores over formulas that a table has: each takes one look-up, since nothing that stands
//! below a formula of the table has to be walked.

ghost use Rattle.std.specs.Prelude.{◌<◌, length};
ghost use Rattle.bound_unfolding.specs.CoreForm.{after};
ghost use Rattle.bound_unfolding.specs.CoreTree.{constant, joined, fixed};
ghost use Rattle.formula_table.specs.Closures.{formula_at};
ghost use Rattle.formula_table.specs.Decoding.{formula_of, OperandsBelow};
ghost use Rattle.formula_table.specs.Tables.{closure_in};
ghost use Rattle.formula_table.specs.CorePuts.{IsCorePut};

use crate::shape::{FormulaId, Shape};
use crate::table::{PutRefusal, Table};

impl Table {
    /// A core of a shape over formulas that are there.
    pub(crate) fn put_node(&mut self, shape: Shape) -> Result<FormulaId, PutRefusal>
        requires { OperandsBelow (length (closure_in self.old)) shape }
        ensures { IsCorePut (formula_of (closure_in self.old) shape) (closure_in self.old) (closure_in self.new) result }
    {
        self.put(shape)
    }

    /// The core that is true everywhere, or the one that is true nowhere.
    pub(crate) fn put_constant(&mut self, value: bool) -> Result<FormulaId, PutRefusal>
        ensures { IsCorePut (constant value) (closure_in self.old) (closure_in self.new) result }
    {
        if value {
            self.put_node(Shape::True)
        } else {
            self.put_node(Shape::False)
        }
    }

    /// Both operands for `each`, else at least one: the two change places where the sign does.
    pub(crate) fn put_joined(
        &mut self,
        each: bool,
        a: FormulaId,
        b: FormulaId,
    ) -> Result<FormulaId, PutRefusal>
        requires first { a.0 < length (closure_in self.old) }
        requires second { b.0 < length (closure_in self.old) }
        ensures { IsCorePut (joined each (formula_at (closure_in self.old) a.0) (formula_at (closure_in self.old) b.0)) (closure_in self.old) (closure_in self.new) result }
    {
        if each {
            self.put_node(Shape::And(a, b))
        } else {
            self.put_node(Shape::Or(a, b))
        }
    }

    /// For `each` the first releases the second, else it is true until the second is.
    pub(crate) fn put_fixed(
        &mut self,
        each: bool,
        a: FormulaId,
        b: FormulaId,
    ) -> Result<FormulaId, PutRefusal>
        requires first { a.0 < length (closure_in self.old) }
        requires second { b.0 < length (closure_in self.old) }
        ensures { IsCorePut (fixed each (formula_at (closure_in self.old) a.0) (formula_at (closure_in self.old) b.0)) (closure_in self.old) (closure_in self.new) result }
    {
        if each {
            self.put_node(Shape::Release(a, b))
        } else {
            self.put_node(Shape::Until(a, b))
        }
    }

    /// A formula at the next position.
    pub(crate) fn put_after(&mut self, a: FormulaId) -> Result<FormulaId, PutRefusal>
        requires { a.0 < length (closure_in self.old) }
        ensures { IsCorePut (after (formula_at (closure_in self.old) a.0)) (closure_in self.old) (closure_in self.new) result }
    {
        self.put_node(Shape::Next(a))
    }
}
