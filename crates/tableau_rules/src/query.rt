//! Queries: lists of cores, for whoever asks whether a list of formulas has a trace. A query has the
//! closure of its cores as a table, in which each formula has its number, and the cores' numbers.

ghost use Rattle.std.specs.Prelude.{◌≡◌, ◌≤◌, ◌<◌, ◌↔◌, IsTrue, IfOk, All, [], length, map};
ghost use Rattle.state_space.specs.Spaces.{ranges, sizes};
ghost use Rattle.temporal_logic.specs.Trees.{tree_of};
ghost use Rattle.temporal_logic.specs.Fits.{Fits};
ghost use Rattle.bound_unfolding.specs.CoreLists.{cores_of};
ghost use Rattle.bound_unfolding.specs.CoreView.{core_tree_of};
ghost use Rattle.formula_table.specs.Closures.{closure_of, formula_at};
ghost use Rattle.formula_table.specs.SmallLists.{AreSmall};
ghost use Rattle.formula_table.specs.Tables.{closure_in};
ghost use Rattle.tableau_rules.specs.Certificates.{is_until};
ghost use Rattle.tableau_rules.specs.Nodes.{with_numbers_of};
ghost use Rattle.tableau_rules.specs.NumberedCores.{cores_at, are_below};
ghost use Rattle.tableau_rules.specs.SameCores.{are_same};

use crate::begun::Begun;
use crate::bits::Bits;
use crate::formulas::Formulas;
use bound_unfolding::Core;
use formula_table::{FormulaId, Shape, Table};
use source_sink::Memory;
use state_space::Space;
use std::alloc::Global;
use temporal_logic::Formula;

/// A list of cores, by their numbers in their closure.
#[derive(Drop)]
pub struct Query {
    // The closure of the cores, in their order.
    formulas: Formulas,
    // The numbers of the cores, in their order.
    numbers: Vec<FormulaId>,
    // The same numbers, as a set.
    start: Bits,
    pub ghost closed: { IsTrue (are_same (closure_in formulas.table) (closure_of (cores_at (closure_in formulas.table) numbers.items))) },
    pub ghost inside: { IsTrue (are_below (length (closure_in formulas.table)) numbers.items) },
    pub ghost started: { start ≡ with_numbers_of (closure_in formulas.table) (cores_at (closure_in formulas.table) numbers.items) [] },
}

// Whether the formula is an until.
fn is_until(table: &Table, id: FormulaId) -> bool
    requires { id.0 < length (closure_in table.now) }
    ensures { result ≡ is_until (formula_at (closure_in table.now) id.0) }
{
    matches!(table.node(id), Shape::Until(_, _))
}

impl Query {
    ghost use Rattle.tableau_rules.specs.BegunQueries.{cores_so_far, IsBegun};
    ghost use Rattle.tableau_rules.specs.QueryView.{cores_in};

    // The query of the cores that have come.
    fn of(alloc: Global, begun: Begun) -> Result<Query, Memory>
        requires { IsBegun begun }
        ensures { IfOk result (λ q. cores_in q ≡ cores_so_far begun) }
    {
        let Begun {
            table,
            numbers,
            start,
        } = begun;
        let formulas = Formulas::new(alloc, table)?;
        Ok(Query {
            formulas,
            numbers,
            start,
        })
    }

    /// The query of these cores, which have at most 4,096 distinct subformulas together.
    pub fn new(alloc: Global, cores: Vec<Core>) -> Result<Query, Memory>
        requires { length (closure_of (map core_tree_of cores.items)) ≤ 4096 }
        ensures cores { IfOk result (λ q. cores_in q ≡ map core_tree_of cores.items) }
    {
        let mut begun = Begun::new(alloc);
        'cores: for core in &cores {
            begun.add(core)?;
        }
        Query::of(alloc, begun)
    }

    /// The query of the positive cores of these formulas, which are of the space and small enough.
    pub fn of_formulas(alloc: Global, space: &Space, list: &[Formula]) -> Result<Query, Memory>
        requires fit { All (λ f. Fits (ranges space.now) (tree_of f)) list.now }
        requires small { AreSmall (sizes space.now) (map tree_of list.now) }
        ensures cores { IfOk result (λ q. cores_in q ≡ cores_of (sizes space.now) (map tree_of list.now)) }
    {
        let mut begun = Begun::new(alloc);
        'formulas: for formula in list {
            begun.add_formula(space, formula)?;
        }
        Query::of(alloc, begun)
    }

    /// How many formulas the query has: they are numbered from 0.
    pub fn len(&self) -> u16
        ensures { result ≡ length (closure_of (cores_in self.now)) }
    {
        self.formulas.table.len()
    }

    /// Whether the formula of a number below the length is an until.
    pub fn is_until(&self, number: u16) -> bool
        requires { number < length (closure_of (cores_in self.now)) }
        ensures { result ≡ is_until (formula_at (closure_of (cores_in self.now)) number) }
    {
        is_until(&self.formulas.table, FormulaId(number))
    }

    /// Whether both queries have the same cores, in the same order.
    pub fn same(&self, other: &Query) -> bool
        ensures { IsTrue result ↔ (cores_in self.now ≡ cores_in other.now) }
    {
        self.formulas.table.same(&other.formulas.table) && self.numbers == other.numbers
    }

    /// The formulas of the query.
    pub(crate) fn formulas(&self) -> &Formulas
        ensures { closure_in result.now.table ≡ closure_of (cores_in self.now) }
    {
        &self.formulas
    }

    /// The numbers of the cores, which are what is to be true at first.
    pub fn start(&self) -> &Bits
        ensures { result.now ≡ with_numbers_of (closure_of (cores_in self.now)) (cores_in self.now) [] }
    {
        &self.start
    }
}
