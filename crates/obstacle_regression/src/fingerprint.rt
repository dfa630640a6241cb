//! Fingerprints of cores: a number that is the same for cores of one tree, and mostly another for another tree.

ghost use Rattle.std.specs.Prelude.{◌≡◌};
ghost use Rattle.bound_unfolding.specs.CoreView.{core_tree_of};
ghost use Rattle.obstacle_regression.specs.Fingerprints.{mixed as mixed_form, fingerprint as fingerprint_form};

use bound_unfolding::Core;

// Three numbers made one.
fn mixed(kind: u64, first: u64, second: u64) -> u64
    ensures { result ≡ mixed_form kind first second }
{
    kind.wrapping_add(first)
        .wrapping_mul(11400714819323198485)
        .wrapping_add(second)
        .wrapping_mul(13787848793156543929)
}

/// The fingerprint of a core.
pub(crate) fn fingerprint(core: &Core) -> u64
    ensures { result ≡ fingerprint_form (core_tree_of core.now) }
{
    match core {
        Core::True => 1,
        Core::False => 2,
        Core::Lit(x, set) => mixed(3, u64::from(x.0), set.0),
        Core::And(a, b) => mixed(4, fingerprint(a), fingerprint(b)),
        Core::Or(a, b) => mixed(5, fingerprint(a), fingerprint(b)),
        Core::Next(a) => mixed(6, fingerprint(a), 0),
        Core::Until(a, b) => mixed(7, fingerprint(a), fingerprint(b)),
        Core::Release(a, b) => mixed(8, fingerprint(a), fingerprint(b)),
    }
}
