//! A formula by its outermost operator.

ghost use Rattle.std.specs.Prelude.{◌≡◌, ◌↔◌, IsTrue};
ghost use Rattle.temporal_logic.specs.Trees.{tree_of};
ghost use Rattle.pattern_library.specs.Shapes.{shape_of as shape_of_form, shape_form};

use entity_types::{Joining, Opening};
use temporal_logic::Formula;

/// The operator of a formula with the operands.
#[derive(Clone, Copy)]
pub(crate) enum Shape<'f> {
    Leaf,
    One(Opening, &'f Formula),
    Two(Joining, &'f Formula, &'f Formula),
}

/// The operator of a formula with the operands.
pub(crate) fn shape_of(formula: &Formula) -> Shape<'_>
    ensures { shape_form result ≡ shape_of_form (tree_of formula.now) }
{
    match formula {
        Formula::True
        | Formula::False
        | Formula::Flag(_)
        | Formula::Is(_, _, _)
        | Formula::Among(_, _)
        | Formula::Same(_, _, _) => Shape::Leaf,
        Formula::Not(a) => Shape::One(Opening::Not, a),
        Formula::And(a, b) => Shape::Two(Joining::And, a, b),
        Formula::Or(a, b) => Shape::Two(Joining::Or, a, b),
        Formula::Implies(a, b) => Shape::Two(Joining::Implies, a, b),
        Formula::Iff(a, b) => Shape::Two(Joining::Iff, a, b),
        Formula::Entails(a, b) => Shape::Two(Joining::Entails, a, b),
        Formula::Next(a) => Shape::One(Opening::Next, a),
        Formula::Eventually(a) => Shape::One(Opening::Eventually, a),
        Formula::Always(a) => Shape::One(Opening::Always, a),
        Formula::Until(a, b) => Shape::Two(Joining::Until, a, b),
        Formula::Unless(a, b) => Shape::Two(Joining::Unless, a, b),
        Formula::Release(a, b) => Shape::Two(Joining::Release, a, b),
        Formula::EventuallyWithin(d, a) => Shape::One(Opening::EventuallyWithin(*d), a),
        Formula::AlwaysWithin(d, a) => Shape::One(Opening::AlwaysWithin(*d), a),
        Formula::UntilWithin(d, a, b) => Shape::Two(Joining::UntilWithin(*d), a, b),
        Formula::UnlessWithin(d, a, b) => Shape::Two(Joining::UnlessWithin(*d), a, b),
        Formula::ReleaseWithin(d, a, b) => Shape::Two(Joining::ReleaseWithin(*d), a, b),
    }
}

/// Whether two operators of one operand are the same, with the same bound.
pub(crate) fn is_same_opening(a: Opening, b: Opening) -> bool
    ensures { IsTrue result ↔ (a ≡ b) }
{
    a == b
}

/// Whether two operators of two operands are the same, with the same bound.
pub(crate) fn is_same_joining(a: Joining, b: Joining) -> bool
    ensures { IsTrue result ↔ (a ≡ b) }
{
    a == b
}
