//! Bounded operators over formulas that a table has: the rest of a bound is a formula of the table
//! too, so that a step more puts two or three nodes, however large the operands are.

ghost use Rattle.std.specs.Prelude.{◌<◌, not, length};
ghost use Rattle.bound_unfolding.specs.CoreForm.{after};
ghost use Rattle.bound_unfolding.specs.CoreTree.{joined, steps, chain};
ghost use Rattle.formula_table.specs.Closures.{formula_at};
ghost use Rattle.formula_table.specs.Tables.{closure_in};
ghost use Rattle.formula_table.specs.CorePuts.{IsCorePut};

use crate::shape::FormulaId;
use crate::table::{PutRefusal, Table};

impl Table {
    // An operand joined with a rest at the next position.
    fn put_step(
        &mut self,
        each: bool,
        a: FormulaId,
        rest: FormulaId,
    ) -> Result<FormulaId, PutRefusal>
        requires first { a.0 < length (closure_in self.old) }
        requires second { rest.0 < length (closure_in self.old) }
        ensures { IsCorePut (joined each (formula_at (closure_in self.old) a.0) (after (formula_at (closure_in self.old) rest.0))) (closure_in self.old) (closure_in self.new) result }
    {
        let later = self.put_after(rest)?;
        self.put_joined(each, a, later)
    }

    // The second operand, joined with the first and a rest at the next position.
    fn put_link(
        &mut self,
        each: bool,
        a: FormulaId,
        b: FormulaId,
        rest: FormulaId,
    ) -> Result<FormulaId, PutRefusal>
        requires first { a.0 < length (closure_in self.old) }
        requires second { b.0 < length (closure_in self.old) }
        requires third { rest.0 < length (closure_in self.old) }
        ensures { IsCorePut (joined each (formula_at (closure_in self.old) b.0) (joined (not each) (formula_at (closure_in self.old) a.0) (after (formula_at (closure_in self.old) rest.0)))) (closure_in self.old) (closure_in self.new) result }
    {
        let on = self.put_step(!each, a, rest)?;
        self.put_joined(each, b, on)
    }

    /// An operand now and at each step up to a bound.
    pub(crate) fn put_steps(
        &mut self,
        each: bool,
        bound: u8,
        a: FormulaId,
    ) -> Result<FormulaId, PutRefusal>
        requires { a.0 < length (closure_in self.old) }
        ensures { IsCorePut (steps each bound (formula_at (closure_in self.old) a.0)) (closure_in self.old) (closure_in self.new) result }
    {
        let mut all = a;
        'steps: for _step in 0..bound {
            all = self.put_step(each, a, all)?;
        }
        Ok(all)
    }

    /// The second operand now, joined with the first and so on at the next step.
    pub(crate) fn put_chain(
        &mut self,
        each: bool,
        bound: u8,
        a: FormulaId,
        b: FormulaId,
    ) -> Result<FormulaId, PutRefusal>
        requires first { a.0 < length (closure_in self.old) }
        requires second { b.0 < length (closure_in self.old) }
        ensures { IsCorePut (chain each bound (formula_at (closure_in self.old) a.0) (formula_at (closure_in self.old) b.0)) (closure_in self.old) (closure_in self.new) result }
    {
        let mut all = b;
        'chain: for _step in 0..bound {
            all = self.put_link(each, a, b, all)?;
        }
        Ok(all)
    }
}
