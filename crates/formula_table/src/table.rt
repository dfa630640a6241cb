//! Tables of formulas: each formula is there once, behind its operands, and there are at most
//! 4,096. The plain form is the closure of specs/Closures.antt, a list in which whole trees are
//! compared; here a formula is found by the hash of its shape, so that putting it takes one look-up
//! and no walk of trees. It has no time of its own in docs/ARCHITECTURE.md.

ghost use Rattle.std.specs.Prelude.{◌≡◌, ◌≤◌, length};
ghost use Rattle.formula_table.specs.Decoding.{decoded, OperandsFirst};
ghost use Rattle.formula_table.specs.Distinct.{IsDistinct};
ghost use Rattle.formula_table.specs.OneProof.{OperandsFirst-prop, IsDistinct-prop};

use crate::shape::{FormulaId, Shape};
use bound_unfolding::Core;
use indexmap::IndexSet;
use std::alloc::{AllocFailed, Global};

// How many formulas a table holds at most.
const LIMIT: usize = 4096;

/// Why a formula is not put.
#[derive(Clone, Copy, PartialEq, Eq, Debug)]
pub enum PutRefusal {
    /// The table has 4,096 formulas, and this is none of them.
    Full,
    /// Memory ran out.
    Memory,
}

impl<T: Drop> From<AllocFailed<T>> for PutRefusal {
    ghost use Rattle.formula_table.specs.declared.table.PutRefusal.TheVariants.{Memory};

    ghost from_gives = { λ _ e. e ≡ Memory };

    fn from(_: AllocFailed<T>) -> PutRefusal {
        PutRefusal::Memory
    }
}

/// At most 4,096 formulas, each of them once, and behind its operands.
#[derive(Drop)]
pub struct Table {
    shapes: IndexSet<Shape>,
    pub ghost few: { length shapes.keys ≤ 4096 },
    pub ghost ordered: { OperandsFirst 0 shapes.keys } by { OperandsFirst-prop 0 shapes.keys },
    pub ghost distinct: { IsDistinct (decoded shapes.keys) } by { IsDistinct-prop (decoded shapes.keys) },
}

impl Table {
    ghost use Rattle.std.specs.Prelude.{◌<◌, ◌↔◌, [], IsTrue, IsFalse, IfOk, OnOk, OnErr, IsErrOf, Contains, take};
    ghost use Rattle.bound_unfolding.specs.CoreView.{core_tree_of};
    ghost use Rattle.formula_table.specs.Closures.{formula_at, number_in, with_formula, with_core};
    ghost use Rattle.formula_table.specs.Decoding.{formula_of, OperandsBelow};
    ghost use Rattle.formula_table.specs.Tables.{closure_in, with_operands, IsKept, AddsOnly, IsSubformula};

    /// The table of no formula. It takes no memory.
    pub fn new(alloc: Global) -> Table
        ensures empty { closure_in result ≡ [] }
    {
        Table {
            shapes: IndexSet::new(alloc),
        }
    }

    /// How many formulas the table has.
    pub fn len(&self) -> u16
        ensures length { result ≡ length (closure_in self.now) }
    {
        self.shapes.len() as u16
    }

    /// The shape of a formula, whose number is below the length.
    pub fn node(&self, id: FormulaId) -> Shape
        requires { id.0 < length (closure_in self.now) }
        ensures formula { formula_of (closure_in self.now) result ≡ formula_at (closure_in self.now) id.0 }
        ensures below { OperandsBelow id.0 result }
    {
        self.shapes.as_slice()[id.0 as usize]
    }

    /// Whether two formulas are the same tree: exactly those of one number are.
    pub fn tree_eq(&self, a: FormulaId, b: FormulaId) -> bool
        requires first { a.0 < length (closure_in self.now) }
        requires second { b.0 < length (closure_in self.now) }
        ensures same { IsTrue result ↔ (formula_at (closure_in self.now) a.0 ≡ formula_at (closure_in self.now) b.0) }
    {
        a == b
    }

    /// Whether both tables have the same formulas, under the same numbers.
    pub fn same(&self, other: &Table) -> bool
        ensures { IsTrue result ↔ (closure_in self.now ≡ closure_in other.now) }
    {
        self.shapes.as_slice() == other.shapes.as_slice()
    }

    /// Forgets all formulas from a number on.
    pub fn truncate(&mut self, len: u16)
        ensures { closure_in self.new ≡ take len (closure_in self.old) }
    {
        self.shapes.truncate(len as usize);
    }

    /// Where the table lies.
    pub(crate) fn allocator(&self) -> Global {
        *self.shapes.allocator()
    }

    // Whether the formula of a shape is there, or there is room for it.
    fn has_room(&self, shape: &Shape) -> bool
        requires { OperandsBelow (length (closure_in self.now)) shape.now }
        ensures none { IsFalse result ↔ ((length (closure_in self.now) ≡ 4096) × ¬ (Contains (closure_in self.now) (formula_of (closure_in self.now) shape.now))) }
    {
        if self.shapes.len() < LIMIT {
            return true;
        }
        self.shapes.contains(shape)
    }

    /// The number of a formula, which comes last where it is not there. Its operands are there.
    /// `Full` comes exactly where it would be the 4,097th. After a refusal the table is as it was.
    pub fn put(&mut self, shape: Shape) -> Result<FormulaId, PutRefusal>
        requires { OperandsBelow (length (closure_in self.old)) shape }
        ensures put { OnOk result (closure_in self.new ≡ with_formula (formula_of (closure_in self.old) shape) (closure_in self.old)) }
        ensures id { IfOk result (λ id. id.0 ≡ number_in (closure_in self.new) (formula_of (closure_in self.old) shape)) }
        ensures tree { IfOk result (λ id. formula_at (closure_in self.new) id.0 ≡ formula_of (closure_in self.old) shape) }
        ensures inside { IfOk result (λ id. id.0 < length (closure_in self.new)) }
        ensures full { IsErrOf result PutRefusal.Full ↔ ((length (closure_in self.old) ≡ 4096) × ¬ (Contains (closure_in self.old) (formula_of (closure_in self.old) shape))) }
        ensures same { OnErr result (closure_in self.new ≡ closure_in self.old) }
        ensures kept { IsKept (closure_in self.old) (closure_in self.new) }
    {
        if !self.has_room(&shape) {
            return Err(PutRefusal::Full);
        }
        let (place, _) = self.shapes.insert_full(shape)?;
        Ok(FormulaId(place as u16))
    }

    /// The number of a core, whose subformulas come behind those that are there, operands first.
    /// Where that takes more than 4,096 formulas in all it is refused, and `Full` comes nowhere
    /// else. After a refusal the table has the first of the formulas that were to come.
    #[cycle(cores)]
    pub fn put_core(&mut self, core: &Core) -> Result<FormulaId, PutRefusal>
        ensures put { OnOk result (closure_in self.new ≡ with_core (core_tree_of core.now) (closure_in self.old)) }
        ensures id { IfOk result (λ id. formula_at (closure_in self.new) id.0 ≡ core_tree_of core.now) }
        ensures inside { IfOk result (λ id. id.0 < length (closure_in self.new)) }
        ensures full { IsErrOf result PutRefusal.Full → 4096 < length (with_core (core_tree_of core.now) (closure_in self.old)) }
        ensures not_full { OnOk result (length (with_core (core_tree_of core.now) (closure_in self.old)) ≤ 4096) }
        ensures kept { IsKept (closure_in self.old) (closure_in self.new) }
        ensures only { AddsOnly (λ c. IsSubformula c (core_tree_of core.now)) (closure_in self.old) (closure_in self.new) }
        ensures part { IsKept (closure_in self.new) (with_core (core_tree_of core.now) (closure_in self.old)) }
    {
        let shape = self.put_operands(core)?;
        self.put(shape)
    }

    // The shape of a core over the table, which its operands are put into.
    #[cycle(cores)]
    fn put_operands(&mut self, core: &Core) -> Result<Shape, PutRefusal>
        ensures put { OnOk result (closure_in self.new ≡ with_operands (core_tree_of core.now) (closure_in self.old)) }
        ensures formula { IfOk result (λ shape. formula_of (closure_in self.new) shape ≡ core_tree_of core.now) }
        ensures below { IfOk result (OperandsBelow (length (closure_in self.new))) }
        ensures full { IsErrOf result PutRefusal.Full → 4096 < length (with_operands (core_tree_of core.now) (closure_in self.old)) }
        ensures kept { IsKept (closure_in self.old) (closure_in self.new) }
        ensures part { IsKept (closure_in self.new) (with_operands (core_tree_of core.now) (closure_in self.old)) }
    {
        match core {
            Core::True => Ok(Shape::True),
            Core::False => Ok(Shape::False),
            Core::Lit(x, set) => Ok(Shape::Lit(*x, *set)),
            Core::And(a, b) => {
                let (a, b) = self.put_two(a, b)?;
                Ok(Shape::And(a, b))
            }
            Core::Or(a, b) => {
                let (a, b) = self.put_two(a, b)?;
                Ok(Shape::Or(a, b))
            }
            Core::Next(a) => Ok(Shape::Next(self.put_core(a)?)),
            Core::Until(a, b) => {
                let (a, b) = self.put_two(a, b)?;
                Ok(Shape::Until(a, b))
            }
            Core::Release(a, b) => {
                let (a, b) = self.put_two(a, b)?;
                Ok(Shape::Release(a, b))
            }
        }
    }

    // The numbers of two operands, the first of which is put first.
    #[cycle(cores)]
    fn put_two(&mut self, a: &Core, b: &Core) -> Result<(FormulaId, FormulaId), PutRefusal>
        ensures put { OnOk result (closure_in self.new ≡ with_core (core_tree_of b.now) (with_core (core_tree_of a.now) (closure_in self.old))) }
        ensures first { IfOk result (λ ids. formula_at (closure_in self.new) ids.0.0 ≡ core_tree_of a.now) }
        ensures second { IfOk result (λ ids. formula_at (closure_in self.new) ids.1.0 ≡ core_tree_of b.now) }
        ensures inside { IfOk result (λ ids. (ids.0.0 < length (closure_in self.new)) × (ids.1.0 < length (closure_in self.new))) }
        ensures full { IsErrOf result PutRefusal.Full → 4096 < length (with_core (core_tree_of b.now) (with_core (core_tree_of a.now) (closure_in self.old))) }
        ensures kept { IsKept (closure_in self.old) (closure_in self.new) }
        ensures part { IsKept (closure_in self.new) (with_core (core_tree_of b.now) (with_core (core_tree_of a.now) (closure_in self.old))) }
    {
        let first = self.put_core(a)?;
        let second = self.put_core(b)?;
        Ok((first, second))
    }
}
