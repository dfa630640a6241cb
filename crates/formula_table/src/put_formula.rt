//! Formulas into a table, without their cores' trees: one match arm an operator, in the order of
//! `core_tree`, and the numbers are those that the tree would have. What has a number is not walked
//! again, neither the rest of a bound nor an operand that stands in the core in both signs.

ghost use Rattle.std.specs.Prelude.{◌≡◌, ◌<◌, ◌≤◌, not, true, false, length, OnOk, IfOk, IsErrOf};
ghost use Rattle.state_space.specs.Spaces.{ranges, sizes};
ghost use Rattle.temporal_logic.specs.Trees.{tree_of};
ghost use Rattle.temporal_logic.specs.Fits.{Fits};
ghost use Rattle.bound_unfolding.specs.CoreForm.{after};
ghost use Rattle.bound_unfolding.specs.CoreTree.{constant, joined, fixed, steps, chain, core_tree};
ghost use Rattle.formula_table.specs.Closures.{formula_at, with_core};
ghost use Rattle.formula_table.specs.CorePuts.{IsCorePut};
ghost use Rattle.formula_table.specs.KnownNumbers.{first_operand, second_operand, AreKnown, AreBothKnown};
ghost use Rattle.formula_table.specs.Tables.{closure_in, IsKept, AddsOnly, IsSubformula};

use crate::notes::Notes;
use crate::shape::FormulaId;
use crate::table::{PutRefusal, Table};
use bound_unfolding::signed;
use state_space::Space;
use std::mem;
use temporal_logic::Formula;

impl Table {
    /// The number of the core of a formula, positive or negative, whose subformulas come behind
    /// those that are there, operands first. The formula fits the space. Where that takes more than
    /// 4,096 formulas in all it is refused, and `Full` comes nowhere else. After a refusal the table
    /// has the first of the formulas that were to come.
    pub fn put_formula(
        &mut self,
        space: &Space,
        f: &Formula,
        positive: bool,
    ) -> Result<FormulaId, PutRefusal>
        requires fits { Fits (ranges space.now) (tree_of f.now) }
        ensures put { OnOk result (closure_in self.new ≡ with_core (core_tree (sizes space.now) positive (tree_of f.now)) (closure_in self.old)) }
        ensures id { IfOk result (λ id. formula_at (closure_in self.new) id.0 ≡ core_tree (sizes space.now) positive (tree_of f.now)) }
        ensures inside { IfOk result (λ id. id.0 < length (closure_in self.new)) }
        ensures full { IsErrOf result PutRefusal.Full → 4096 < length (with_core (core_tree (sizes space.now) positive (tree_of f.now)) (closure_in self.old)) }
        ensures not_full { OnOk result (length (with_core (core_tree (sizes space.now) positive (tree_of f.now)) (closure_in self.old)) ≤ 4096) }
        ensures kept { IsKept (closure_in self.old) (closure_in self.new) }
        ensures only { AddsOnly (λ c. IsSubformula c (core_tree (sizes space.now) positive (tree_of f.now))) (closure_in self.old) (closure_in self.new) }
        ensures part { IsKept (closure_in self.new) (with_core (core_tree (sizes space.now) positive (tree_of f.now)) (closure_in self.old)) }
    {
        let mut notes = Notes::Unmet;
        self.put_signed(space, f, positive, &mut notes)
    }

    // The operand always, or at some time.
    #[cycle(formulas)]
    fn ever_of(
        &mut self,
        space: &Space,
        each: bool,
        a: &Formula,
        sign: bool,
        notes: &mut Notes,
    ) -> Result<FormulaId, PutRefusal>
        requires fits { Fits (ranges space.now) (tree_of a.now) }
        requires known { AreKnown (sizes space.now) (closure_in self.old) (tree_of a.now) notes.old }
        ensures put { IsCorePut (fixed each (constant (not each)) (core_tree (sizes space.now) sign (tree_of a.now))) (closure_in self.old) (closure_in self.new) result }
        ensures known { OnOk result (AreKnown (sizes space.now) (closure_in self.new) (tree_of a.now) notes.new) }
    {
        let end = self.put_constant(!each)?;
        let a = self.put_signed(space, a, sign, notes)?;
        self.put_fixed(each, end, a)
    }

    // The operand at the next position.
    #[cycle(formulas)]
    fn after_of(
        &mut self,
        space: &Space,
        a: &Formula,
        sign: bool,
        notes: &mut Notes,
    ) -> Result<FormulaId, PutRefusal>
        requires fits { Fits (ranges space.now) (tree_of a.now) }
        requires known { AreKnown (sizes space.now) (closure_in self.old) (tree_of a.now) notes.old }
        ensures put { IsCorePut (after (core_tree (sizes space.now) sign (tree_of a.now))) (closure_in self.old) (closure_in self.new) result }
        ensures known { OnOk result (AreKnown (sizes space.now) (closure_in self.new) (tree_of a.now) notes.new) }
    {
        let a = self.put_signed(space, a, sign, notes)?;
        self.put_after(a)
    }

    // The operand now and at each step up to a bound.
    #[cycle(formulas)]
    fn steps_of(
        &mut self,
        space: &Space,
        each: bool,
        bound: u8,
        a: &Formula,
        sign: bool,
        notes: &mut Notes,
    ) -> Result<FormulaId, PutRefusal>
        requires fits { Fits (ranges space.now) (tree_of a.now) }
        requires known { AreKnown (sizes space.now) (closure_in self.old) (tree_of a.now) notes.old }
        ensures put { IsCorePut (steps each bound (core_tree (sizes space.now) sign (tree_of a.now))) (closure_in self.old) (closure_in self.new) result }
        ensures known { OnOk result (AreKnown (sizes space.now) (closure_in self.new) (tree_of a.now) notes.new) }
    {
        let a = self.put_signed(space, a, sign, notes)?;
        self.put_steps(each, bound, a)
    }

    // Two operands of these signs, both or one of them.
    #[cycle(formulas)]
    fn joined_of(
        &mut self,
        space: &Space,
        each: bool,
        a: &Formula,
        of_a: bool,
        b: &Formula,
        of_b: bool,
        notes: &mut (Notes, Notes),
    ) -> Result<FormulaId, PutRefusal>
        requires first { Fits (ranges space.now) (tree_of a.now) }
        requires second { Fits (ranges space.now) (tree_of b.now) }
        requires known { AreBothKnown (sizes space.now) (closure_in self.old) (tree_of a.now) (tree_of b.now) notes.old }
        ensures put { IsCorePut (joined each (core_tree (sizes space.now) of_a (tree_of a.now)) (core_tree (sizes space.now) of_b (tree_of b.now))) (closure_in self.old) (closure_in self.new) result }
        ensures known { OnOk result (AreBothKnown (sizes space.now) (closure_in self.new) (tree_of a.now) (tree_of b.now) notes.new) }
    {
        let a = self.put_signed(space, a, of_a, &mut notes.0)?;
        let b = self.put_signed(space, b, of_b, &mut notes.1)?;
        self.put_joined(each, a, b)
    }

    // The first operand releases the second, or is true until it is.
    #[cycle(formulas)]
    fn fixed_of(
        &mut self,
        space: &Space,
        each: bool,
        a: &Formula,
        b: &Formula,
        sign: bool,
        notes: &mut (Notes, Notes),
    ) -> Result<FormulaId, PutRefusal>
        requires first { Fits (ranges space.now) (tree_of a.now) }
        requires second { Fits (ranges space.now) (tree_of b.now) }
        requires known { AreBothKnown (sizes space.now) (closure_in self.old) (tree_of a.now) (tree_of b.now) notes.old }
        ensures put { IsCorePut (fixed each (core_tree (sizes space.now) sign (tree_of a.now)) (core_tree (sizes space.now) sign (tree_of b.now))) (closure_in self.old) (closure_in self.new) result }
        ensures known { OnOk result (AreBothKnown (sizes space.now) (closure_in self.new) (tree_of a.now) (tree_of b.now) notes.new) }
    {
        let a = self.put_signed(space, a, sign, &mut notes.0)?;
        let b = self.put_signed(space, b, sign, &mut notes.1)?;
        self.put_fixed(each, a, b)
    }

    // Both operands, or neither; or exactly one of them.
    #[cycle(formulas)]
    fn iff_of(
        &mut self,
        space: &Space,
        a: &Formula,
        b: &Formula,
        sign: bool,
        notes: &mut (Notes, Notes),
    ) -> Result<FormulaId, PutRefusal>
        requires first { Fits (ranges space.now) (tree_of a.now) }
        requires second { Fits (ranges space.now) (tree_of b.now) }
        requires known { AreBothKnown (sizes space.now) (closure_in self.old) (tree_of a.now) (tree_of b.now) notes.old }
        ensures put { IsCorePut (joined false (joined true (core_tree (sizes space.now) true (tree_of a.now)) (core_tree (sizes space.now) sign (tree_of b.now))) (joined true (core_tree (sizes space.now) false (tree_of a.now)) (core_tree (sizes space.now) (not sign) (tree_of b.now)))) (closure_in self.old) (closure_in self.new) result }
        ensures known { OnOk result (AreBothKnown (sizes space.now) (closure_in self.new) (tree_of a.now) (tree_of b.now) notes.new) }
    {
        let same = self.joined_of(space, true, a, true, b, sign, notes)?;
        let other = self.joined_of(space, true, a, false, b, !sign, notes)?;
        self.put_joined(false, same, other)
    }

    // At each position the second operand, if the first.
    #[cycle(formulas)]
    fn entails_of(
        &mut self,
        space: &Space,
        a: &Formula,
        b: &Formula,
        sign: bool,
        notes: &mut (Notes, Notes),
    ) -> Result<FormulaId, PutRefusal>
        requires first { Fits (ranges space.now) (tree_of a.now) }
        requires second { Fits (ranges space.now) (tree_of b.now) }
        requires known { AreBothKnown (sizes space.now) (closure_in self.old) (tree_of a.now) (tree_of b.now) notes.old }
        ensures put { IsCorePut (fixed sign (constant (not sign)) (joined (not sign) (core_tree (sizes space.now) (not sign) (tree_of a.now)) (core_tree (sizes space.now) sign (tree_of b.now)))) (closure_in self.old) (closure_in self.new) result }
        ensures known { OnOk result (AreBothKnown (sizes space.now) (closure_in self.new) (tree_of a.now) (tree_of b.now) notes.new) }
    {
        let end = self.put_constant(!sign)?;
        let step = self.joined_of(space, !sign, a, !sign, b, sign, notes)?;
        self.put_fixed(sign, end, step)
    }

    // The second operand comes first, and again with the first one.
    #[cycle(formulas)]
    fn unless_of(
        &mut self,
        space: &Space,
        a: &Formula,
        b: &Formula,
        sign: bool,
        notes: &mut (Notes, Notes),
    ) -> Result<FormulaId, PutRefusal>
        requires first { Fits (ranges space.now) (tree_of a.now) }
        requires second { Fits (ranges space.now) (tree_of b.now) }
        requires known { AreBothKnown (sizes space.now) (closure_in self.old) (tree_of a.now) (tree_of b.now) notes.old }
        ensures put { IsCorePut (fixed sign (core_tree (sizes space.now) sign (tree_of b.now)) (joined (not sign) (core_tree (sizes space.now) sign (tree_of a.now)) (core_tree (sizes space.now) sign (tree_of b.now)))) (closure_in self.old) (closure_in self.new) result }
        ensures known { OnOk result (AreBothKnown (sizes space.now) (closure_in self.new) (tree_of a.now) (tree_of b.now) notes.new) }
    {
        let b = self.put_signed(space, b, sign, &mut notes.1)?;
        let a = self.put_signed(space, a, sign, &mut notes.0)?;
        let step = self.put_joined(!sign, a, b)?;
        self.put_fixed(sign, b, step)
    }

    // The second operand comes first; where there is no step, the first one is not there.
    #[cycle(formulas)]
    fn chain_of(
        &mut self,
        space: &Space,
        each: bool,
        bound: u8,
        a: &Formula,
        b: &Formula,
        sign: bool,
        notes: &mut (Notes, Notes),
    ) -> Result<FormulaId, PutRefusal>
        requires first { Fits (ranges space.now) (tree_of a.now) }
        requires second { Fits (ranges space.now) (tree_of b.now) }
        requires known { AreBothKnown (sizes space.now) (closure_in self.old) (tree_of a.now) (tree_of b.now) notes.old }
        ensures put { IsCorePut (chain each bound (core_tree (sizes space.now) sign (tree_of a.now)) (core_tree (sizes space.now) sign (tree_of b.now))) (closure_in self.old) (closure_in self.new) result }
        ensures known { OnOk result (AreBothKnown (sizes space.now) (closure_in self.new) (tree_of a.now) (tree_of b.now) notes.new) }
    {
        let b = self.put_signed(space, b, sign, &mut notes.1)?;
        if bound == 0 {
            return Ok(b);
        }
        let a = self.put_signed(space, a, sign, &mut notes.0)?;
        self.put_chain(each, bound, a, b)
    }

    // The chain of an until of a sign, or the steps of its first operand where it fails.
    #[cycle(formulas)]
    fn weak_chain_of(
        &mut self,
        space: &Space,
        bound: u8,
        a: &Formula,
        b: &Formula,
        sign: bool,
        notes: &mut (Notes, Notes),
    ) -> Result<FormulaId, PutRefusal>
        requires first { Fits (ranges space.now) (tree_of a.now) }
        requires second { Fits (ranges space.now) (tree_of b.now) }
        requires known { AreBothKnown (sizes space.now) (closure_in self.old) (tree_of a.now) (tree_of b.now) notes.old }
        ensures put { IsCorePut (joined (not sign) (chain (not sign) bound (core_tree (sizes space.now) sign (tree_of a.now)) (core_tree (sizes space.now) sign (tree_of b.now))) (steps sign bound (core_tree (sizes space.now) sign (tree_of a.now)))) (closure_in self.old) (closure_in self.new) result }
        ensures known { OnOk result (AreBothKnown (sizes space.now) (closure_in self.new) (tree_of a.now) (tree_of b.now) notes.new) }
    {
        let until = self.chain_of(space, !sign, bound, a, b, sign, notes)?;
        let always = self.steps_of(space, sign, bound, a, sign, &mut notes.0)?;
        self.put_joined(!sign, until, always)
    }

    // The core of a sign: its number is known, or the core is put and the number noted.
    #[cycle(formulas)]
    fn put_signed(
        &mut self,
        space: &Space,
        f: &Formula,
        sign: bool,
        notes: &mut Notes,
    ) -> Result<FormulaId, PutRefusal>
        requires fits { Fits (ranges space.now) (tree_of f.now) }
        requires known { AreKnown (sizes space.now) (closure_in self.old) (tree_of f.now) notes.old }
        ensures put { IsCorePut (core_tree (sizes space.now) sign (tree_of f.now)) (closure_in self.old) (closure_in self.new) result }
        ensures known { OnOk result (AreKnown (sizes space.now) (closure_in self.new) (tree_of f.now) notes.new) }
    {
        if let Some(id) = notes.number(sign) {
            return Ok(id);
        }
        let (numbers, mut operands) = mem::replace(notes, Notes::Unmet).opened(self.allocator())?;
        let id = self.put_operator(space, f, sign, &mut operands)?;
        *notes = Notes::Met(numbers.with(sign, id), operands);
        Ok(id)
    }

    // The core of a sign, with what is known of the operands.
    #[cycle(formulas)]
    fn put_operator(
        &mut self,
        space: &Space,
        f: &Formula,
        sign: bool,
        notes: &mut (Notes, Notes),
    ) -> Result<FormulaId, PutRefusal>
        requires fits { Fits (ranges space.now) (tree_of f.now) }
        requires known { AreBothKnown (sizes space.now) (closure_in self.old) (first_operand (tree_of f.now)) (second_operand (tree_of f.now)) notes.old }
        ensures put { IsCorePut (core_tree (sizes space.now) sign (tree_of f.now)) (closure_in self.old) (closure_in self.new) result }
        ensures known { OnOk result (AreBothKnown (sizes space.now) (closure_in self.new) (first_operand (tree_of f.now)) (second_operand (tree_of f.now)) notes.new) }
    {
        match f {
            Formula::True => self.put_constant(sign),
            Formula::False => self.put_constant(!sign),
            Formula::Flag(x) => self.put_flag(*x, sign),
            Formula::Is(x, cmp, value) => self.put_comparison(space, *x, *cmp, *value, sign),
            Formula::Among(x, set) => self.put_among(space, *x, *set, sign),
            Formula::Same(x, cmp, y) => self.put_same(space, *x, signed(*cmp, sign), *y),
            Formula::Not(a) => self.put_signed(space, a, !sign, &mut notes.0),
            Formula::Next(a) => self.after_of(space, a, sign, &mut notes.0),
            Formula::Eventually(a) => self.ever_of(space, !sign, a, sign, &mut notes.0),
            Formula::Always(a) => self.ever_of(space, sign, a, sign, &mut notes.0),
            Formula::EventuallyWithin(d, a) => {
                self.steps_of(space, !sign, *d, a, sign, &mut notes.0)
            }
            Formula::AlwaysWithin(d, a) => self.steps_of(space, sign, *d, a, sign, &mut notes.0),
            Formula::And(a, b) => self.joined_of(space, sign, a, sign, b, sign, notes),
            Formula::Or(a, b) => self.joined_of(space, !sign, a, sign, b, sign, notes),
            Formula::Implies(a, b) => self.joined_of(space, !sign, a, !sign, b, sign, notes),
            Formula::Iff(a, b) => self.iff_of(space, a, b, sign, notes),
            Formula::Entails(a, b) => self.entails_of(space, a, b, sign, notes),
            Formula::Until(a, b) => self.fixed_of(space, !sign, a, b, sign, notes),
            Formula::Unless(a, b) => self.unless_of(space, a, b, sign, notes),
            Formula::Release(a, b) => self.fixed_of(space, sign, a, b, sign, notes),
            Formula::UntilWithin(d, a, b) => self.chain_of(space, !sign, *d, a, b, sign, notes),
            Formula::ReleaseWithin(d, a, b) => self.chain_of(space, sign, *d, a, b, sign, notes),
            Formula::UnlessWithin(d, a, b) => self.weak_chain_of(space, *d, a, b, sign, notes),
        }
    }
}
