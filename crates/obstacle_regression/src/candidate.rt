//! A candidate with its fingerprint, by which it is compared first.

ghost use Rattle.std.specs.Prelude.{◌≡◌};
ghost use Rattle.bound_unfolding.specs.CoreView.{core_tree_of};
ghost use Rattle.formula_table.specs.Closures.{is_same as is_same_form};
ghost use Rattle.obstacle_regression.specs.Fingerprints.{fingerprint as fingerprint_form};

use crate::fingerprint::fingerprint;
use crate::replacement::is_same;
use bound_unfolding::Core;

/// A core and its fingerprint.
#[derive(Drop)]
pub(crate) struct Candidate {
    pub(crate) core: Core,
    print: u64,
    ghost printed: { print ≡ fingerprint_form (core_tree_of core) },
}

impl Candidate {
    pub(crate) fn new(core: Core) -> Candidate
        ensures { core_tree_of result.core ≡ core_tree_of core }
    {
        let print = fingerprint(&core);
        Candidate { core, print }
    }

    /// Whether the two are the same core.
    pub(crate) fn is_same(&self, other: &Candidate) -> bool
        ensures { result ≡ is_same_form (core_tree_of self.now.core) (core_tree_of other.now.core) }
    {
        self.print == other.print && is_same(&self.core, &other.core)
    }
}
