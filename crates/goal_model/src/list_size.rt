//! How large a list of formulas is. Formulas are put into a table of cores and counted there, so that what stands in a list twice counts
//! once; no core is built, and no tableau is looked at.

ghost use Rattle.std.specs.Prelude.{◌≡◌, ◌↔◌, ◌≤◌, ◌++◌, ◌∷◌, [], ℕ, nat_le, if◌then◌else◌, List, IsTrue, IfOk, OnOk, length, take};
ghost use Rattle.state_space.specs.Spaces.{ranges, sizes};
ghost use Rattle.temporal_logic.specs.Fits.{Fits};
ghost use Rattle.temporal_logic.specs.Ltl.{Ltl};
ghost use Rattle.temporal_logic.specs.Trees.{tree_of};
ghost use Rattle.bound_unfolding.specs.CoreForm.{levels};
ghost use Rattle.bound_unfolding.specs.CoreTree.{core_tree};
ghost use Rattle.formula_table.specs.Closures.{with_core};
ghost use Rattle.formula_table.specs.Tables.{closure_in, IsKept};
ghost use Rattle.goal_model.specs.Items.{signed};
ghost use Rattle.goal_model.specs.SmallLists.{is_small_list};
ghost use Rattle.goal_model.specs.Sizes.{Measures, both_weights, both_of, IsBounded};

use bound_unfolding::{core_depth, core_depths, core_sizes};
use formula_table::{PutRefusal, Table};
use source_sink::Memory;
use state_space::Space;
use std::alloc::Global;
use temporal_logic::Formula;

// Puts a core of at most 1000 levels, where at most 4096 formulas are there then, and says whether it is.
fn is_put(table: &mut Table, space: &Space, f: &Formula, positive: bool) -> Result<bool, Memory>
    requires { Fits (ranges space.now) (tree_of f.now) }
    ensures small { IfOk result (λ is. IsTrue is ↔ ((levels (core_tree (sizes space.now) positive (tree_of f.now)) ≤ 1000) × (length (with_core (core_tree (sizes space.now) positive (tree_of f.now)) (closure_in table.old)) ≤ 4096))) }
    ensures put { IfOk result (λ is. IsTrue is → closure_in table.new ≡ with_core (core_tree (sizes space.now) positive (tree_of f.now)) (closure_in table.old)) }
    ensures kept { IsKept (closure_in table.old) (closure_in table.new) }
{
    if core_depth(space, f, positive) > 1000 {
        return Ok(false);
    }
    match table.put_formula(space, f, positive) {
        Ok(_) => Ok(true),
        Err(PutRefusal::Full) => Ok(false),
        Err(PutRefusal::Memory) => Err(Memory),
    }
}

/// How many formulas the core of a formula, or of its negation, adds to a table at most: as many as it has nodes. It is 4097 where they are
/// more than 4096, or where the core has more than 1000 levels.
#[derive(Clone, Copy)]
pub(crate) struct Weight {
    pub(crate) positive: u64,
    pub(crate) negative: u64,
}

// What a core of so many nodes and levels weighs.
fn weight_of(nodes: u64, levels: u64) -> u64
    ensures { result ≡ (if nat_le levels 1000 then nodes else 4097) }
{
    if levels <= 1000 { nodes } else { 4097 }
}

/// What a formula weighs.
pub(crate) fn weigh(space: &Space, f: &Formula) -> Weight
    requires { Fits (ranges space.now) (tree_of f.now) }
    ensures { both_of result ≡ both_weights (sizes space.now) (tree_of f.now) }
{
    let nodes = core_sizes(space, f);
    // A core has no more levels than nodes.
    if nodes.positive <= 1000 && nodes.negative <= 1000 {
        return Weight {
            positive: nodes.positive,
            negative: nodes.negative,
        };
    }
    let levels = core_depths(space, f);
    Weight {
        positive: weight_of(nodes.positive, levels.positive),
        negative: weight_of(nodes.negative, levels.negative),
    }
}

/// A list of formulas, as far as it is measured.
#[derive(Drop)]
pub(crate) struct Measured {
    // The subformulas of the positive cores, where the list is small.
    table: Table,
    // Whether it is small enough to be answered.
    is_small: bool,
}

/// What was measured at some time.
#[derive(Clone, Copy, Debug)]
pub(crate) struct Mark {
    // How many subformulas were in the table.
    len: u16,
    // Whether the list was small enough.
    is_small: bool,
}

impl Measured {
    /// The list of no formula.
    pub(crate) fn none(alloc: Global) -> Measured
        ensures { (sizes : List ℕ) → Measures sizes [] result }
    {
        Measured {
            table: Table::new(alloc),
            is_small: true,
        }
    }

    /// The list has one formula more, or its negation. What is too large stays so.
    pub(crate) fn add(&mut self, space: &Space, f: &Formula, positive: bool) -> Result<(), Memory>
        requires { Fits (ranges space.now) (tree_of f.now) }
        ensures more { OnOk result ((list : List Ltl) → Measures (sizes space.now) list self.old → Measures (sizes space.now) (list ++ signed positive (tree_of f.now) ∷ []) self.new) }
        ensures kept { OnOk result (IsKept (closure_in self.old.table) (closure_in self.new.table)) }
    {
        if self.is_small {
            self.is_small = is_put(&mut self.table, space, f, positive)?;
        }
        Ok(())
    }

    /// Whether the list can be answered.
    pub(crate) fn is_small(&self) -> bool
        ensures { (sizes : List ℕ) (list : List Ltl) → Measures sizes list self.now → result ≡ is_small_list sizes list }
    {
        self.is_small
    }

    /// How many formulas are in the table; 4097 where the list is too large.
    pub(crate) fn total(&self) -> u64
        ensures { (sizes : List ℕ) (list : List Ltl) → Measures sizes list self.now → IsBounded sizes list result }
    {
        if self.is_small {
            self.table.len() as u64
        } else {
            4097
        }
    }

    /// What is measured now.
    pub(crate) fn mark(&self) -> Mark
        ensures length { result.len ≡ length (closure_in self.now.table) }
        ensures small { result.is_small ≡ self.now.is_small }
    {
        Mark {
            len: self.table.len(),
            is_small: self.is_small,
        }
    }

    /// What came behind a mark is forgotten again.
    pub(crate) fn back(&mut self, mark: Mark)
        ensures closure { closure_in self.new.table ≡ take mark.len (closure_in self.old.table) }
        ensures small { self.new.is_small ≡ mark.is_small }
    {
        self.table.truncate(mark.len);
        self.is_small = mark.is_small;
    }
}
