//! The cores of formulas without operands: literals, and sums of the values of two variables.

ghost use Rattle.std.specs.Prelude.{◌≡◌, ◌+◌, ◌^◌, ◌<◌, ◌≤◌, length, slice_index, if◌then◌else◌};
ghost use Rattle.state_space.specs.Members.{others};
ghost use Rattle.state_space.specs.Spaces.{ranges, sizes};
ghost use Rattle.temporal_logic.specs.Trees.{relation_of};
ghost use Rattle.bound_unfolding.specs.CoreForm.{lit, both};
ghost use Rattle.bound_unfolding.specs.CoreTree.{stand, signed, indexes, sum_from};
ghost use Rattle.formula_table.specs.Tables.{closure_in};
ghost use Rattle.formula_table.specs.CorePuts.{IsCorePut, IsSumPut};

use crate::shape::{FormulaId, Shape};
use crate::table::{PutRefusal, Table};
use bound_unfolding::{indexes_from, indexes_to, signed};
use state_space::{Space, Values, VarId};
use temporal_logic::Cmp;

// A comparison of two variables, the second of which has so many values.
#[derive(Clone, Copy)]
struct Sum {
    x: VarId,
    cmp: Cmp,
    y: VarId,
    size: u8,
}

impl Table {
    /// The values of a truth variable of which a sign holds.
    pub(crate) fn put_flag(&mut self, x: VarId, positive: bool) -> Result<FormulaId, PutRefusal>
        ensures { IsCorePut (lit x.0 (if positive then 2 else 1)) (closure_in self.old) (closure_in self.new) result }
    {
        self.put_node(Shape::Lit(x, Values(if positive { 2 } else { 1 })))
    }

    /// A comparison with a value, or the opposite one.
    #[tactic(auto, using(state_space::proofs::SpaceFacts::as_many_ranges))]
    pub(crate) fn put_comparison(
        &mut self,
        space: &Space,
        x: VarId,
        cmp: Cmp,
        value: u8,
        positive: bool,
    ) -> Result<FormulaId, PutRefusal>
        requires { x.0 < length (ranges space.now) }
        ensures { IsCorePut (lit x.0 (indexes (λ i. stand (signed positive (relation_of cmp)) i value) (slice_index (sizes space.now) x.0))) (closure_in self.old) (closure_in self.new) result }
    {
        let set = indexes_to(signed(cmp, positive), value, space.size_of(x));
        self.put_node(Shape::Lit(x, set))
    }

    /// A set of values, or the other values of the variable.
    #[tactic(auto, using(state_space::proofs::SpaceFacts::as_many_ranges))]
    pub(crate) fn put_among(
        &mut self,
        space: &Space,
        x: VarId,
        set: Values,
        positive: bool,
    ) -> Result<FormulaId, PutRefusal>
        requires { x.0 < length (ranges space.now) }
        ensures { IsCorePut (lit x.0 (if positive then set.0 else others set.0 (slice_index (sizes space.now) x.0))) (closure_in self.old) (closure_in self.new) result }
    {
        if positive {
            return self.put_node(Shape::Lit(x, set));
        }
        let others = set.complement(space.size_of(x));
        self.put_node(Shape::Lit(x, others))
    }

    // One value of the first variable, and those of the second that it stands to.
    fn put_term(
        &mut self,
        x: VarId,
        index: u8,
        y: VarId,
        set: Values,
    ) -> Result<FormulaId, PutRefusal>
        requires { index < 64 }
        ensures { IsCorePut (both (lit x.0 (2 ^ index)) (lit y.0 set.0)) (closure_in self.old) (closure_in self.new) result }
    {
        let here = self.put_node(Shape::Lit(x, Values(1 << index)))?;
        let there = self.put_node(Shape::Lit(y, set))?;
        self.put_joined(true, here, there)
    }

    // The sum of the terms from an index on, or no number where there is no term. The terms come
    // first, and then the sums from the last one up.
    fn put_sum(&mut self, sum: Sum, index: u8, left: u8) -> Result<Option<FormulaId>, PutRefusal>
        requires inside { index + left ≤ 64 }
        requires few { sum.size ≤ 64 }
        ensures { IsSumPut (sum_from (relation_of sum.cmp) sum.x.0 sum.y.0 sum.size index left) (closure_in self.old) (closure_in self.new) result }
    {
        if left == 0 {
            return Ok(None);
        }
        let set = indexes_from(index, sum.cmp, sum.size);
        if set.0 == 0 {
            return self.put_sum(sum, index + 1, left - 1);
        }
        let term = self.put_term(sum.x, index, sum.y, set)?;
        match self.put_sum(sum, index + 1, left - 1)? {
            None => Ok(Some(term)),
            Some(rest) => Ok(Some(self.put_joined(false, term, rest)?)),
        }
    }

    /// A comparison of two variables: for each index of the first, that index and those of the
    /// second that it stands to.
    #[tactic(auto, using(state_space::proofs::SpaceFacts::as_many_ranges))]
    pub(crate) fn put_same(
        &mut self,
        space: &Space,
        x: VarId,
        cmp: Cmp,
        y: VarId,
    ) -> Result<FormulaId, PutRefusal>
        requires x_of_space { x.0 < length (ranges space.now) }
        requires y_of_space { y.0 < length (ranges space.now) }
        ensures { IsCorePut (sum_from (relation_of cmp) x.0 y.0 (slice_index (sizes space.now) y.0) 0 (slice_index (sizes space.now) x.0)) (closure_in self.old) (closure_in self.new) result }
    {
        let sum = Sum {
            x,
            cmp,
            y,
            size: space.size_of(y),
        };
        match self.put_sum(sum, 0, space.size_of(x))? {
            None => self.put_constant(false),
            Some(id) => Ok(id),
        }
    }
}
