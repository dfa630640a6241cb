//! How large a core is, and how large it gets when a subformula is replaced, found without building it: the counts stay at one over the
//! limits once they are there.

ghost use Rattle.std.specs.Prelude.{◌≡◌, ℕ, ◌+◌, min, max, true, false};
ghost use Rattle.state_space.specs.Spaces.{ranges, sizes};
ghost use Rattle.temporal_logic.specs.Trees.{tree_of};
ghost use Rattle.temporal_logic.specs.Fits.{Fits};
ghost use Rattle.bound_unfolding.specs.CoreTree.{core_tree};
ghost use Rattle.bound_unfolding.specs.CoreForm.{CoreForm, nodes, levels};
ghost use Rattle.bound_unfolding.specs.CoreView.{core_tree_of};
ghost use Rattle.obstacle_regression.specs.Replacements.{replaced};
ghost use Rattle.obstacle_regression.specs.Candidates.{is_small};
ghost use Rattle.obstacle_regression.specs.Extents.{IsExtentOf};

use crate::replacement::is_same;
use bound_unfolding::{Core, core_depths, core_sizes};
use state_space::Space;
use temporal_logic::Formula;

/// The nodes of a core, up to 4,097 of them, and its levels, up to 1,001.
#[derive(Clone, Copy)]
pub(crate) struct Extent {
    pub(crate) nodes: u64,
    pub(crate) levels: u64,
}

impl Extent {
    // One node.
    fn leaf() -> Extent
        ensures nodes { result.nodes ≡ 1 }
        ensures levels { result.levels ≡ 1 }
    {
        Extent {
            nodes: 1,
            levels: 1,
        }
    }

    // A node over the operand.
    fn above(self) -> Extent
        ensures nodes { result.nodes ≡ min (1 + self.nodes) 4097 }
        ensures levels { result.levels ≡ min (1 + self.levels) 1001 }
    {
        Extent {
            nodes: self.nodes.saturating_add(1).min(4097),
            levels: self.levels.saturating_add(1).min(1001),
        }
    }

    // A node over the two operands.
    fn over(self, other: Extent) -> Extent
        ensures nodes { result.nodes ≡ min (1 + self.nodes + other.nodes) 4097 }
        ensures levels { result.levels ≡ min (1 + max self.levels other.levels) 1001 }
    {
        Extent {
            nodes: self
                .nodes
                .saturating_add(other.nodes)
                .saturating_add(1)
                .min(4097),
            levels: self.levels.max(other.levels).saturating_add(1).min(1001),
        }
    }

    /// Whether a core of this extent has at most 4,096 nodes with those beside it, and at most 1,000
    /// levels.
    pub(crate) fn is_small(self, beside: u64) -> bool
        ensures small { (c : CoreForm) → IsExtentOf self c → result ≡ is_small beside c }
    {
        self.nodes.saturating_add(beside) <= 4096 && self.levels <= 1000
    }
}

/// The extents of the two cores of a formula: of the positive one, and of the negative one.
pub(crate) fn extents_of(space: &Space, f: &Formula) -> (Extent, Extent)
    requires fits { Fits (ranges space.now) (tree_of f.now) }
    ensures positive { IsExtentOf result.0 (core_tree (sizes space.now) true (tree_of f.now)) }
    ensures negative { IsExtentOf result.1 (core_tree (sizes space.now) false (tree_of f.now)) }
{
    let nodes = core_sizes(space, f);
    let levels = core_depths(space, f);
    (
        Extent {
            nodes: nodes.positive,
            levels: levels.positive,
        },
        Extent {
            nodes: nodes.negative,
            levels: levels.negative,
        },
    )
}

/// The extent of a core in which one of this extent stands in place of each occurrence of another.
pub(crate) fn extent_replaced(core: &Core, old: &Core, new: Extent) -> Extent
    ensures of { (k : CoreForm) → IsExtentOf new k → IsExtentOf result (replaced (core_tree_of old.now) k (core_tree_of core.now)) }
{
    if is_same(core, old) {
        return new;
    }
    match core {
        Core::True | Core::False | Core::Lit(_, _) => Extent::leaf(),
        Core::Next(a) => extent_replaced(a, old, new).above(),
        Core::And(a, b) | Core::Or(a, b) | Core::Until(a, b) | Core::Release(a, b) => {
            extent_replaced(a, old, new).over(extent_replaced(b, old, new))
        }
    }
}
