//! The law that ties queries to formulas, as the contract of a function that does nothing, so that
//! the check proves it.

ghost use Rattle.std.specs.Prelude.{◌↔◌, List, map, All};
ghost use Rattle.state_space.specs.Ranges.{RangeForm, size_of, IsGoodRange};
ghost use Rattle.temporal_logic.specs.Ltl.{Ltl};
ghost use Rattle.temporal_logic.specs.Truth.{Trace, Meets};
ghost use Rattle.temporal_logic.specs.Traces.{IsPeriodic};
ghost use Rattle.temporal_logic.specs.Fits.{Fits};
ghost use Rattle.bound_unfolding.specs.CoreLists.{cores_of};
ghost use Rattle.tableau_rules.specs.Queries.{MeetsAll};

/// An ultimately periodic trace meets the positive cores of formulas exactly where it meets the
/// formulas.
pub fn law_of_queries()
    ensures meets { (ranges : List RangeForm) → All IsGoodRange ranges
        → (list : List Ltl) → All (Fits ranges) list
        → (t : Trace) → IsPeriodic (map size_of ranges) t
        → MeetsAll t (cores_of (map size_of ranges) list) ↔ Meets t list }
{}
