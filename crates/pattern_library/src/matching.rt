//! Whether formulas are an instance of a pattern, and by which formulas for its placeholders: pattern and formulas are walked side by side,
//! and a placeholder takes the first formula that stands in its place.

ghost use Rattle.std.specs.Prelude.{◌≡◌, ◌↔◌, ◌<◌, ℕ, List, All, length, map, replicate, None, slice_index_or, option_map, IsTrue, IfOk, MatchOption};
ghost use Rattle.temporal_logic.specs.Ltl.{Ltl, truth};
ghost use Rattle.temporal_logic.specs.Trees.{tree_of};
ghost use Rattle.pattern_library.specs.Instances.{instance_of, IsOverPlaceholders, IsPattern, Matches};
ghost use Rattle.pattern_library.specs.Patterns.{pattern_of, broken_by};
ghost use Rattle.pattern_library.specs.PatternQueries.{AreInstance};
ghost use Rattle.pattern_library.specs.Slots.{slots_of, filled as filled_form, Finds};
ghost use Rattle.pattern_library.specs.Views.{pattern_form, formulas_of};

use crate::pattern::{Pattern, library};
use crate::shape::{Shape, is_same_joining, is_same_opening, shape_of};
use goal_model::PatternKind;
use source_sink::Memory;
use std::alloc::Global;
use temporal_logic::Formula;

/// The formula of each placeholder, in order.
#[derive(Drop)]
pub struct Binding {
    pub formulas: Vec<Formula>,
}

// The formulas that placeholders have so far.
#[derive(Drop)]
pub(crate) struct Matching<'f> {
    slots: Vec<Option<&'f Formula>>,
}

// The formula of a slot. A placeholder that occurs nowhere may have any, and has `true`.
fn filled(alloc: Global, slot: Option<&Formula>) -> Result<Formula, Memory>
    ensures { IfOk result (λ f. tree_of f ≡ filled_form (option_map (λ g. tree_of g.now) slot.entry)) }
{
    match slot {
        Some(formula) => formula.clone(alloc),
        None => Ok(Formula::True),
    }
}

impl<'f> Matching<'f> {
    fn new(alloc: Global, placeholders: u8) -> Result<Matching<'f>, Memory>
        ensures { IfOk result (λ m. slots_of m ≡ replicate placeholders None) }
    {
        Ok(Matching {
            slots: vec![in alloc; None; placeholders as usize]?,
        })
    }

    // Whether the placeholder may stand for the formula.
    fn binds(&mut self, placeholder: u8, formula: &'f Formula) -> bool
        requires { placeholder < length self.old.slots.items }
        ensures count { length self.new.slots.items ≡ length self.old.slots.items }
        ensures found { Finds (slots_of self.old) (slots_of self.new) (λ formulas. slice_index_or formulas placeholder truth ≡ tree_of formula.now) result }
    {
        match self.slots[placeholder as usize] {
            Some(bound) => bound.is_same(formula),
            None => {
                self.slots[placeholder as usize] = Some(formula);
                true
            }
        }
    }

    // Whether the formula may be an instance of a pattern's formula.
    #[cycle(fits)]
    fn fits(&mut self, pattern: &Formula, formula: &'f Formula) -> bool
        requires { IsOverPlaceholders (length self.old.slots.items) (tree_of pattern.now) }
        ensures count { length self.new.slots.items ≡ length self.old.slots.items }
        ensures found { Finds (slots_of self.old) (slots_of self.new) (λ formulas. instance_of formulas (tree_of pattern.now) ≡ tree_of formula.now) result }
    {
        if let Formula::Flag(placeholder) = pattern {
            return self.binds(placeholder.0, formula);
        }
        match shape_of(pattern) {
            Shape::Leaf => pattern.is_same(formula),
            Shape::One(operator, a) => match shape_of(formula) {
                Shape::One(other, b) => is_same_opening(operator, other) && self.fits(a, b),
                _ => false,
            },
            Shape::Two(operator, a, b) => match shape_of(formula) {
                Shape::Two(other, c, d) => is_same_joining(operator, other)
                    && self.fit_two(a, b, c, d),
                _ => false,
            },
        }
    }

    // Whether the first two of four formulas, which are a pattern's, may have the other two as instances.
    #[cycle(fits)]
    fn fit_two(&mut self, a: &Formula, b: &Formula, c: &'f Formula, d: &'f Formula) -> bool
        requires first { IsOverPlaceholders (length self.old.slots.items) (tree_of a.now) }
        requires second { IsOverPlaceholders (length self.old.slots.items) (tree_of b.now) }
        ensures count { length self.new.slots.items ≡ length self.old.slots.items }
        ensures found { Finds (slots_of self.old) (slots_of self.new) (λ formulas. (instance_of formulas (tree_of a.now) ≡ tree_of c.now) × (instance_of formulas (tree_of b.now) ≡ tree_of d.now)) result }
    {
        if !self.fits(a, c) {
            return false;
        }
        self.fits(b, d)
    }

    // Whether the formulas may be instances of a pattern's formulas, each of the one at its place.
    fn fit_all(&mut self, patterns: &[Formula], formulas: &'f [Formula]) -> bool
        requires over { All (IsOverPlaceholders (length self.old.slots.items)) (map tree_of patterns.now) }
        requires count { length formulas.now ≡ length patterns.now }
        ensures count { length self.new.slots.items ≡ length self.old.slots.items }
        ensures found { Finds (slots_of self.old) (slots_of self.new) (λ bound. map tree_of formulas.now ≡ map (instance_of bound) (map tree_of patterns.now)) result }
    {
        'patterns: for place in 0..patterns.len() {
            if !self.fits(&patterns[place], &formulas[place]) {
                return false;
            }
        }
        true
    }

    // The formulas that were found.
    fn binding(&self, alloc: Global) -> Result<Binding, Memory>
        ensures { IfOk result (λ b. formulas_of b ≡ map filled_form (slots_of self.now)) }
    {
        let slots = self.slots.as_slice();
        let mut formulas = Vec::with_capacity(alloc, slots.len())?;
        'slots: for slot in slots {
            formulas.push(filled(alloc, *slot)?)?;
        }
        Ok(Binding { formulas })
    }
}

/// The formulas for a pattern's placeholders by which a parent and its subgoals are an instance of it, the subgoals in the pattern's order;
/// none exactly where there are no such formulas. Formulas are compared as trees, so that `always (a implies b)` is no instance of `a
/// entails b`. In a pattern whose placeholders all occur, as in those of `library`, there is one binding at most.
pub fn match_pattern(
    alloc: Global,
    pattern: &Pattern,
    parent: &Formula,
    subgoals: &[Formula],
) -> Result<Option<Binding>, Memory>
    requires pattern { IsPattern (pattern_form pattern.now) }
    ensures { IfOk result (λ found. MatchOption found ((formulas : List Ltl) → Matches (pattern_form pattern.now) (tree_of parent.now) (map tree_of subgoals.now) formulas → ⊥)
        (λ b. Matches (pattern_form pattern.now) (tree_of parent.now) (map tree_of subgoals.now) (formulas_of b))) }
{
    if subgoals.len() != pattern.subgoals.len() {
        return Ok(None);
    }
    let mut matching = Matching::new(alloc, pattern.placeholders)?;
    if !matching.fits(&pattern.parent, parent) {
        return Ok(None);
    }
    if !matching.fit_all(&pattern.subgoals, subgoals) {
        return Ok(None);
    }
    Ok(Some(matching.binding(alloc)?))
}

// The subgoals and the parent, where the last formula is a negated one.
fn parts_of(list: &[Formula]) -> Option<(&[Formula], &Formula)>
    ensures { MatchOption result ((subgoals : List Ltl) (parent : Ltl) → map tree_of list.now ≡ broken_by subgoals parent → ⊥)
        (λ p. map tree_of list.now ≡ broken_by (map tree_of p.0.now) (tree_of p.1.now)) }
{
    let (last, subgoals) = list.split_last()?;
    match last {
        Formula::Not(parent) => Some((subgoals, parent)),
        _ => None,
    }
}

// Whether a parent and its subgoals are an instance of a pattern of the library.
fn is_instance(
    alloc: Global,
    kind: PatternKind,
    parent: &Formula,
    subgoals: &[Formula],
) -> Result<bool, Memory>
    ensures { IfOk result (λ is. IsTrue is ↔ ((formulas : List Ltl) × Matches (pattern_of kind) (tree_of parent.now) (map tree_of subgoals.now) formulas)) }
{
    let pattern = library(alloc, kind)?;
    let binding = match_pattern(alloc, &pattern, parent, subgoals)?;
    Ok(binding.is_some())
}

/// Whether formulas are the subgoals, in order, and behind them the negated parent of an instance of a pattern of the library. So is what is
/// asked of a refinement that is complete by the pattern.
pub fn are_instance(alloc: Global, kind: PatternKind, list: &[Formula]) -> Result<bool, Memory>
    ensures { IfOk result (λ are. IsTrue are ↔ AreInstance kind (map tree_of list.now)) }
{
    match parts_of(list) {
        Some((subgoals, parent)) => is_instance(alloc, kind, parent, subgoals),
        None => Ok(false),
    }
}
