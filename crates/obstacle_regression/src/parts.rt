//! The parts of a core, each once: a part that stands at many places is looked at once. They come in the closure's order, the operands of a
//! part before it.

ghost use Rattle.std.specs.Prelude.{◌≡◌, ◌<◌, ◌≤◌, ◌∷◌, [], All, length, map, OnOk, IfOk};
ghost use Rattle.bound_unfolding.specs.CoreForm.{nodes};
ghost use Rattle.bound_unfolding.specs.CoreView.{core_tree_of};
ghost use Rattle.formula_table.specs.Closures.{formula_at, with_formula, with_core, closure_of};
ghost use Rattle.formula_table.specs.Decoding.{formula_of, OperandsBelow};
ghost use Rattle.formula_table.specs.Tables.{closure_in, with_operands, IsSubformula};
ghost use Rattle.obstacle_regression.specs.Views.{part_cores};

use bound_unfolding::Core;
use formula_table::{FormulaId, PutRefusal, Shape, Table};
use source_sink::Memory;
use std::alloc::Global;

// Parts that were met so far, each once, and the table in which each has its place in the list as its number.
#[derive(Drop)]
struct Parts<'c> {
    list: Vec<&'c Core>,
    table: Table,
}

impl<'c> Parts<'c> {
    // A part whose operands were met.
    fn meet(&mut self, shape: Shape, part: &'c Core) -> Result<FormulaId, Memory>
        requires same { part_cores self.old.list.items ≡ closure_in self.old.table }
        requires below { OperandsBelow (length (closure_in self.old.table)) shape }
        requires formula { formula_of (closure_in self.old.table) shape ≡ core_tree_of part.now }
        requires room { length (with_formula (core_tree_of part.now) (closure_in self.old.table)) ≤ 4096 }
        ensures met { OnOk result (closure_in self.new.table ≡ with_formula (core_tree_of part.now) (closure_in self.old.table)) }
        ensures same { OnOk result (part_cores self.new.list.items ≡ closure_in self.new.table) }
        ensures formula { IfOk result (λ id. formula_at (closure_in self.new.table) id.0 ≡ core_tree_of part.now) }
        ensures inside { IfOk result (λ id. id.0 < length (closure_in self.new.table)) }
    {
        let count = self.table.len();
        match self.table.put(shape) {
            Ok(id) => {
                if self.table.len() > count {
                    self.list.push(part)?;
                }
                Ok(id)
            }
            Err(PutRefusal::Full) => unreachable!(),
            Err(PutRefusal::Memory) => Err(Memory),
        }
    }

    // A part, behind its own parts.
    #[cycle(parts)]
    fn take(&mut self, part: &'c Core) -> Result<FormulaId, Memory>
        requires same { part_cores self.old.list.items ≡ closure_in self.old.table }
        requires room { length (with_core (core_tree_of part.now) (closure_in self.old.table)) ≤ 4096 }
        ensures taken { OnOk result (closure_in self.new.table ≡ with_core (core_tree_of part.now) (closure_in self.old.table)) }
        ensures same { OnOk result (part_cores self.new.list.items ≡ closure_in self.new.table) }
        ensures formula { IfOk result (λ id. formula_at (closure_in self.new.table) id.0 ≡ core_tree_of part.now) }
        ensures inside { IfOk result (λ id. id.0 < length (closure_in self.new.table)) }
    {
        let shape = self.take_operands(part)?;
        self.meet(shape, part)
    }

    // The operands of a part, and the shape that it has over them.
    #[cycle(parts)]
    fn take_operands(&mut self, part: &'c Core) -> Result<Shape, Memory>
        requires same { part_cores self.old.list.items ≡ closure_in self.old.table }
        requires room { length (with_operands (core_tree_of part.now) (closure_in self.old.table)) ≤ 4096 }
        ensures taken { OnOk result (closure_in self.new.table ≡ with_operands (core_tree_of part.now) (closure_in self.old.table)) }
        ensures same { OnOk result (part_cores self.new.list.items ≡ closure_in self.new.table) }
        ensures formula { IfOk result (λ shape. formula_of (closure_in self.new.table) shape ≡ core_tree_of part.now) }
        ensures below { IfOk result (OperandsBelow (length (closure_in self.new.table))) }
    {
        match part {
            Core::True => Ok(Shape::True),
            Core::False => Ok(Shape::False),
            Core::Lit(x, set) => Ok(Shape::Lit(*x, *set)),
            Core::And(a, b) => {
                let (a, b) = self.take_two(a, b)?;
                Ok(Shape::And(a, b))
            }
            Core::Or(a, b) => {
                let (a, b) = self.take_two(a, b)?;
                Ok(Shape::Or(a, b))
            }
            Core::Next(a) => Ok(Shape::Next(self.take(a)?)),
            Core::Until(a, b) => {
                let (a, b) = self.take_two(a, b)?;
                Ok(Shape::Until(a, b))
            }
            Core::Release(a, b) => {
                let (a, b) = self.take_two(a, b)?;
                Ok(Shape::Release(a, b))
            }
        }
    }

    // Two operands, the first of which is taken first.
    #[cycle(parts)]
    fn take_two(&mut self, a: &'c Core, b: &'c Core) -> Result<(FormulaId, FormulaId), Memory>
        requires same { part_cores self.old.list.items ≡ closure_in self.old.table }
        requires room { length (with_core (core_tree_of b.now) (with_core (core_tree_of a.now) (closure_in self.old.table))) ≤ 4096 }
        ensures taken { OnOk result (closure_in self.new.table ≡ with_core (core_tree_of b.now) (with_core (core_tree_of a.now) (closure_in self.old.table))) }
        ensures same { OnOk result (part_cores self.new.list.items ≡ closure_in self.new.table) }
        ensures first { IfOk result (λ ids. formula_at (closure_in self.new.table) ids.0.0 ≡ core_tree_of a.now) }
        ensures second { IfOk result (λ ids. formula_at (closure_in self.new.table) ids.1.0 ≡ core_tree_of b.now) }
        ensures inside { IfOk result (λ ids. (ids.0.0 < length (closure_in self.new.table)) × (ids.1.0 < length (closure_in self.new.table))) }
    {
        let first = self.take(a)?;
        let second = self.take(b)?;
        Ok((first, second))
    }
}

/// The parts of a core of at most 4,096 nodes, itself the last of them.
pub(crate) fn parts_of<'c>(alloc: Global, core: &'c Core) -> Result<Vec<&'c Core>, Memory>
    requires small { nodes (core_tree_of core.now) ≤ 4096 }
    ensures parts { IfOk result (λ parts. part_cores parts.items ≡ closure_of (core_tree_of core.now ∷ [])) }
    ensures inside { IfOk result (λ parts. All (λ part. IsSubformula (core_tree_of part.now) (core_tree_of core.now)) parts.items) }
{
    let mut parts = Parts {
        list: Vec::new(alloc),
        table: Table::new(alloc),
    };
    parts.take(core)?;
    Ok(parts.list)
}
