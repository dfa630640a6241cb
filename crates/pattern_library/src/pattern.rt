//! Patterns of refinement, and the five that a refinement may name.

ghost use Rattle.std.specs.Prelude.{◌≡◌, ◌≤◌, map, IfOk, ◌∷◌, []};
ghost use Rattle.temporal_logic.specs.Ltl as ltl;
ghost use Rattle.temporal_logic.specs.Trees.{tree_of};
ghost use Rattle.formula_table.specs.SmallLists.{AreSmall};
ghost use Rattle.pattern_library.specs.Instances.{IsPattern, placeholder_sizes};
ghost use Rattle.pattern_library.specs.Patterns.{pattern_of, pattern_list};
ghost use Rattle.pattern_library.specs.PatternNames.{pattern_name as name_of_pattern};
ghost use Rattle.pattern_library.specs.Views.{pattern_form};

use goal_model::PatternKind;
use source_sink::Memory;
use state_space::VarId;
use std::alloc::Global;
use temporal_logic::Formula;

/// A parent and its subgoals in order, over placeholders: placeholder k, from 0, is the truth variable of that number.
#[derive(Drop)]
pub struct Pattern {
    /// How many placeholders there are.
    pub placeholders: u8,
    pub parent: Formula,
    pub subgoals: Vec<Formula>,
}

fn flag(placeholder: u8) -> Formula
    ensures { tree_of result ≡ ltl.flag placeholder }
{
    Formula::Flag(VarId(placeholder))
}

fn entails(alloc: Global, cause: Formula, effect: Formula) -> Result<Formula, Memory>
    ensures { IfOk result (λ f. tree_of f ≡ ltl.entails (tree_of cause) (tree_of effect)) }
{
    Ok(Formula::Entails(Box::new(alloc, cause)?, Box::new(alloc, effect)?))
}

fn both(alloc: Global, a: Formula, b: Formula) -> Result<Formula, Memory>
    ensures { IfOk result (λ f. tree_of f ≡ ltl.conj (tree_of a) (tree_of b)) }
{
    Ok(Formula::And(Box::new(alloc, a)?, Box::new(alloc, b)?))
}

fn eventually(alloc: Global, a: Formula) -> Result<Formula, Memory>
    ensures { IfOk result (λ f. tree_of f ≡ ltl.eventually (tree_of a)) }
{
    Ok(Formula::Eventually(Box::new(alloc, a)?))
}

// From the first placeholder to the second, which is what three of the patterns are for.
fn reached(alloc: Global, cause: Formula, target: u8) -> Result<Formula, Memory>
    ensures { IfOk result (λ f. tree_of f ≡ ltl.entails (tree_of cause) (ltl.eventually (ltl.flag target))) }
{
    let target = eventually(alloc, flag(target))?;
    entails(alloc, cause, target)
}

fn milestone(alloc: Global) -> Result<Pattern, Memory>
    ensures { IfOk result (λ p. pattern_form p ≡ pattern_of PatternKind.Milestone) }
{
    let parent = reached(alloc, flag(0), 1)?;
    let subgoals = vec![in alloc; reached(alloc, flag(0), 2)?, reached(alloc, flag(2), 1)?]?;
    Ok(Pattern {
        placeholders: 3,
        parent,
        subgoals,
    })
}

fn cases(alloc: Global) -> Result<Pattern, Memory>
    ensures { IfOk result (λ p. pattern_form p ≡ pattern_of PatternKind.Cases) }
{
    let parent = reached(alloc, flag(0), 1)?;
    let first = both(alloc, flag(0), flag(2))?;
    let second = both(alloc, flag(0), flag(3))?;
    let either = Formula::Or(Box::new(alloc, flag(2))?, Box::new(alloc, flag(3))?);
    let subgoals = vec![in alloc;
        reached(alloc, first, 1)?,
        reached(alloc, second, 1)?,
        entails(alloc, flag(0), either)?,
    ]?;
    Ok(Pattern {
        placeholders: 4,
        parent,
        subgoals,
    })
}

fn guard(alloc: Global) -> Result<Pattern, Memory>
    ensures { IfOk result (λ p. pattern_form p ≡ pattern_of PatternKind.Guard) }
{
    let parent = reached(alloc, flag(0), 1)?;
    let guarded = both(alloc, flag(0), flag(2))?;
    let kept = Formula::Unless(Box::new(alloc, flag(0))?, Box::new(alloc, flag(1))?);
    let subgoals = vec![in alloc;
        reached(alloc, guarded, 1)?,
        reached(alloc, flag(0), 2)?,
        entails(alloc, flag(0), kept)?,
    ]?;
    Ok(Pattern {
        placeholders: 3,
        parent,
        subgoals,
    })
}

fn split(alloc: Global) -> Result<Pattern, Memory>
    ensures { IfOk result (λ p. pattern_form p ≡ pattern_of PatternKind.Split) }
{
    let target = both(alloc, flag(1), flag(2))?;
    let parent = entails(alloc, flag(0), target)?;
    let subgoals = vec![in alloc;
        entails(alloc, flag(0), flag(1))?,
        entails(alloc, flag(0), flag(2))?,
    ]?;
    Ok(Pattern {
        placeholders: 3,
        parent,
        subgoals,
    })
}

fn induction(alloc: Global) -> Result<Pattern, Memory>
    ensures { IfOk result (λ p. pattern_form p ≡ pattern_of PatternKind.Induction) }
{
    let always = Formula::Always(Box::new(alloc, flag(1))?);
    let parent = entails(alloc, flag(0), always)?;
    let next = Formula::Next(Box::new(alloc, flag(1))?);
    let subgoals = vec![in alloc;
        entails(alloc, flag(0), flag(1))?,
        entails(alloc, flag(1), next)?,
    ]?;
    Ok(Pattern {
        placeholders: 2,
        parent,
        subgoals,
    })
}

/// The name of a pattern, as a model has it behind `using`.
pub fn pattern_name(kind: PatternKind) -> &'static [u8]
    ensures { result.now ≡ name_of_pattern kind }
{
    match kind {
        PatternKind::Milestone => b"milestone",
        PatternKind::Cases => b"cases",
        PatternKind::Guard => b"guard",
        PatternKind::Split => b"split",
        PatternKind::Induction => b"induction",
    }
}

/// The pattern of a kind, as formulas over its placeholders: 2 to 4, which are numbered in the order in which they first occur, in the parent
/// and then in the subgoals.
pub fn library(alloc: Global, kind: PatternKind) -> Result<Pattern, Memory>
    ensures form { IfOk result (λ p. pattern_form p ≡ pattern_of kind) }
    ensures over { IfOk result (λ p. IsPattern (pattern_form p)) }
    ensures few { IfOk result (λ p. p.placeholders ≤ 40) }
    ensures small { IfOk result (λ p. AreSmall (placeholder_sizes (pattern_form p)) (pattern_list (pattern_form p))) }
{
    match kind {
        PatternKind::Milestone => milestone(alloc),
        PatternKind::Cases => cases(alloc),
        PatternKind::Guard => guard(alloc),
        PatternKind::Split => split(alloc),
        PatternKind::Induction => induction(alloc),
    }
}
