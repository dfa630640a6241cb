//! Rules as a search uses them: the positive cores of cause and effect, as far as they are not too large to be built.

ghost use Rattle.std.specs.Prelude.{◌≡◌, true, false, IsTrue, IfOk, map};
ghost use Rattle.state_space.specs.Spaces.{ranges, sizes};
ghost use Rattle.temporal_logic.specs.Trees.{tree_of};
ghost use Rattle.temporal_logic.specs.Fits.{Fits};
ghost use Rattle.bound_unfolding.specs.CoreTree.{core_tree};
ghost use Rattle.bound_unfolding.specs.CoreView.{core_tree_of};
ghost use Rattle.obstacle_regression.specs.Candidates.{is_small};
ghost use Rattle.obstacle_regression.specs.Extents.{IsExtentOf};
ghost use Rattle.obstacle_regression.specs.Replacements as replacements;
ghost use Rattle.obstacle_regression.specs.Sides.{is_built};

use crate::extent::{Extent, extents_of};
use crate::replacement::gives;
use bound_unfolding::{Core, core_of};
use source_sink::Memory;
use state_space::Space;
use std::alloc::Global;
use temporal_logic::Formula;

/// The cause or the effect of a rule, with its positive core where that is not too large for any candidate.
#[derive(Drop)]
pub(crate) struct Side<'m> {
    space: &'m Space,
    formula: &'m Formula,
    pub(crate) extent: Extent,
    pub(crate) core: Option<Core>,
    ghost extent_is: { IsExtentOf extent (core_tree (sizes space.now) true (tree_of formula.now)) },
    ghost built: { IsTrue (is_built core (core_tree (sizes space.now) true (tree_of formula.now))) },
}

impl<'m> Side<'m> {
    ghost use Rattle.obstacle_regression.specs.Views.{side_core};

    pub(crate) fn new(
        alloc: Global,
        space: &'m Space,
        formula: &'m Formula,
    ) -> Result<Side<'m>, Memory>
        requires { Fits (ranges space.now) (tree_of formula.now) }
        ensures { IfOk result (λ s. side_core s ≡ core_tree (sizes space.now) true (tree_of formula.now)) }
    {
        let (extent, _) = extents_of(space, formula);
        let core = match extent.is_small(0) {
            true => Some(core_of(alloc, space, formula, true)?),
            false => None,
        };
        Ok(Side {
            space,
            formula,
            extent,
            core,
        })
    }

    /// Whether the side gives a core that is not too large.
    pub(crate) fn gives(&self, part: &Core) -> bool
        requires { is_small 0 (core_tree_of part.now) ≡ true }
        ensures { result ≡ replacements.gives (side_core self.now) (core_tree_of part.now) }
    {
        match &self.core {
            Some(core) => gives(core, part),
            None => false,
        }
    }
}

/// A rule of the domain: where its cause is true, its effect is.
#[derive(Drop)]
pub(crate) struct Rule<'m> {
    pub(crate) cause: Side<'m>,
    pub(crate) effect: Side<'m>,
}

impl<'m> Rule<'m> {
    ghost use Rattle.std.specs.Prelude.{◌∷◌, [], ◌++◌, OnOk, All};
    ghost use Rattle.obstacle_regression.specs.Regressions.{rules_among, rule_cores};
    ghost use Rattle.obstacle_regression.specs.Views.{rule_of};

    // A rule of a cause and an effect.
    fn new(
        alloc: Global,
        space: &'m Space,
        cause: &'m Formula,
        effect: &'m Formula,
    ) -> Result<Rule<'m>, Memory>
        requires cause { Fits (ranges space.now) (tree_of cause.now) }
        requires effect { Fits (ranges space.now) (tree_of effect.now) }
        ensures { IfOk result (λ r. rule_of r ≡ rule_cores (sizes space.now) (record { cause = tree_of cause.now; effect = tree_of effect.now })) }
    {
        Ok(Rule {
            cause: Side::new(alloc, space, cause)?,
            effect: Side::new(alloc, space, effect)?,
        })
    }

    /// The rules among formulas, in order: those of the form `cause entails effect`.
    pub(crate) fn all_among(
        alloc: Global,
        space: &'m Space,
        formulas: &'m [Formula],
    ) -> Result<Vec<Rule<'m>>, Memory>
        requires { All (λ f. Fits (ranges space.now) (tree_of f)) formulas.now }
        ensures { IfOk result (λ rules. map rule_of rules.items ≡ map (rule_cores (sizes space.now)) (rules_among (map tree_of formulas.now))) }
    {
        let mut rules = Vec::new(alloc);
        'formulas: for formula in formulas {
            if let Formula::Entails(cause, effect) = formula {
                rules.push(Rule::new(alloc, space, cause, effect)?)?;
            }
        }
        Ok(rules)
    }
}
