//! The law of tables, as the contract of a function that does nothing, so that the check proves it.

ghost use Rattle.std.specs.Prelude.{◌≡◌, ◌≤◌, ◌+◌, List, length, Contains};
ghost use Rattle.bound_unfolding.specs.CoreForm.{CoreForm, nodes};
ghost use Rattle.formula_table.specs.Closures.{with_core};
ghost use Rattle.formula_table.specs.Tables.{IsSubformula};

/// A core brings each of its subformulas into a closure, which grows by no more than the core has
/// nodes, and brings nothing when it comes again.
pub fn law_of_tables()
    ensures all { (core : CoreForm) (closure : List CoreForm) (c : CoreForm)
        → IsSubformula c core → Contains (with_core core closure) c }
    ensures few { (core : CoreForm) (closure : List CoreForm)
        → length (with_core core closure) ≤ length closure + nodes core }
    ensures again { (core : CoreForm) (closure : List CoreForm)
        → with_core core (with_core core closure) ≡ with_core core closure }
{}
