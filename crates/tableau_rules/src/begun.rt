//! Queries in the making: cores come one after another into a table, and their numbers are noted.

ghost use Rattle.std.specs.Prelude.{◌≡◌, ◌≤◌, [], ◌∷◌, ◌++◌, Ok, OnOk, IsErrOf, IfOk, length};
ghost use Rattle.state_space.specs.Spaces.{ranges, sizes};
ghost use Rattle.temporal_logic.specs.Trees.{tree_of};
ghost use Rattle.temporal_logic.specs.Fits.{Fits};
ghost use Rattle.bound_unfolding.specs.CoreTree.{core_tree};
ghost use Rattle.bound_unfolding.specs.CoreView.{core_tree_of};
ghost use Rattle.formula_table.specs.Closures.{with_core};
ghost use Rattle.formula_table.specs.Tables.{closure_in};
ghost use Rattle.tableau_rules.specs.Sets.{with_number};

use crate::bits::Bits;
use bound_unfolding::Core;
use formula_table::{FormulaId, PutRefusal, Table};
use source_sink::Memory;
use state_space::Space;
use std::alloc::Global;
use temporal_logic::Formula;

/// A table of cores that still grows, and the cores' numbers in it.
#[derive(Drop)]
pub(crate) struct Begun {
    /// The closure of the cores, in their order.
    pub table: Table,
    /// The cores' numbers, in their order.
    pub numbers: Vec<FormulaId>,
    /// The same numbers, as a set.
    pub start: Bits,
}

// The number that was given, where the table had room.
fn given(put: Result<FormulaId, PutRefusal>) -> Result<FormulaId, Memory>
    requires { ¬ (IsErrOf put PutRefusal.Full) }
    ensures { IfOk result (λ id. put ≡ Ok id) }
{
    match put {
        Ok(id) => Ok(id),
        Err(PutRefusal::Memory) => Err(Memory),
        Err(PutRefusal::Full) => unreachable!(),
    }
}

impl Begun {
    ghost use Rattle.std.specs.Prelude.{true};
    ghost use Rattle.tableau_rules.specs.BegunQueries.{cores_so_far, IsBegun};

    /// A query to which no core has come. It takes no memory.
    pub fn new(alloc: Global) -> Begun
        ensures none { cores_so_far result ≡ [] }
        ensures begun { IsBegun result }
    {
        Begun {
            table: Table::new(alloc),
            numbers: Vec::new(alloc),
            start: Bits::new(alloc),
        }
    }

    // Notes the number of a core that the table has.
    fn note(&mut self, id: FormulaId) -> Result<(), Memory>
        ensures table { self.new.table ≡ self.old.table }
        ensures numbers { OnOk result (self.new.numbers.items ≡ self.old.numbers.items ++ id ∷ []) }
        ensures start { OnOk result (self.new.start ≡ with_number id.0 self.old.start) }
    {
        self.numbers.push(id)?;
        self.start.add(id.0)
    }

    /// A core comes, for which the table has room.
    pub fn add(&mut self, core: &Core) -> Result<(), Memory>
        requires begun { IsBegun self.old }
        requires room { length (with_core (core_tree_of core.now) (closure_in self.old.table)) ≤ 4096 }
        ensures core { OnOk result (cores_so_far self.new ≡ cores_so_far self.old ++ core_tree_of core.now ∷ []) }
        ensures begun { OnOk result (IsBegun self.new) }
    {
        let id = given(self.table.put_core(core))?;
        self.note(id)
    }

    /// The positive core of a formula comes, for which the table has room.
    pub fn add_formula(&mut self, space: &Space, f: &Formula) -> Result<(), Memory>
        requires fit { Fits (ranges space.now) (tree_of f.now) }
        requires begun { IsBegun self.old }
        requires room { length (with_core (core_tree (sizes space.now) true (tree_of f.now)) (closure_in self.old.table)) ≤ 4096 }
        ensures core { OnOk result (cores_so_far self.new ≡ cores_so_far self.old ++ core_tree (sizes space.now) true (tree_of f.now) ∷ []) }
        ensures begun { OnOk result (IsBegun self.new) }
    {
        let id = given(self.table.put_formula(space, f, true))?;
        self.note(id)
    }
}
