//! The formulas of a query, with those of the first two classes as sets, so that the formula whose
//! turn it is is found word by word. The plain form is `chosen` of specs/Nodes.antt, which asks for
//! the class of each formula that is still to be done. It has no time of its own in
//! docs/ARCHITECTURE.md.

ghost use Rattle.std.specs.Prelude.{◌≡◌, IfOk};
ghost use Rattle.formula_table.specs.Tables.{closure_in};
ghost use Rattle.tableau_rules.specs.Classes.{of_class};

use crate::bits::Bits;
use crate::formula_rule::class_of;
use formula_table::{FormulaId, Table};
use source_sink::Memory;
use std::alloc::Global;

/// A table, and the numbers of its formulas of the first two classes.
#[derive(Drop)]
pub(crate) struct Formulas {
    /// The formulas.
    pub table: Table,
    /// Those that are decided or have one kid that adds nothing.
    pub first: Bits,
    /// The others that have one kid.
    pub second: Bits,
    pub ghost firsts: { first ≡ of_class (closure_in table) 0 },
    pub ghost seconds: { second ≡ of_class (closure_in table) 1 },
}

// The numbers of the formulas of a class.
fn numbers_of_class(alloc: Global, table: &Table, class: u8) -> Result<Bits, Memory>
    ensures { IfOk result (λ numbers. numbers ≡ of_class (closure_in table.now) class) }
{
    let mut numbers = Bits::new(alloc);
    'formulas: for number in 0..table.len() {
        if class_of(table, FormulaId(number)) == class {
            numbers.add(number)?;
        }
    }
    Ok(numbers)
}

impl Formulas {
    /// The formulas of a table.
    pub fn new(alloc: Global, table: Table) -> Result<Formulas, Memory>
        ensures { IfOk result (λ formulas. formulas.table ≡ table) }
    {
        let first = numbers_of_class(alloc, &table, 0)?;
        let second = numbers_of_class(alloc, &table, 1)?;
        Ok(Formulas {
            table,
            first,
            second,
        })
    }
}
