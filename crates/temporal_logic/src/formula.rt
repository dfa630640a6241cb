//! Formulas, as a writer gives them. Contracts speak of a formula's tree, so that two formulas
//! that lie in different places of memory can be the same.

ghost use Rattle.std.specs.Prelude.{◌≡◌, ℕ, ◌++◌, ◌↔◌, Contains, IsTrue, IfOk};
ghost use Rattle.state_space.specs.Members.{Has};
ghost use Rattle.temporal_logic.specs.Shapes.{depth_of, is_state_of, variables_of, VariablesBelow};
ghost use Rattle.temporal_logic.specs.Trees.{relation_of, tree_of};
ghost use Rattle.temporal_logic.specs.Truth.{Compares};

use source_sink::Memory;
use state_space::{Values, VarId};
use std::alloc::Global;

/// A comparison of value indexes.
#[derive(Clone, Copy, PartialEq, Eq, PartialOrd, Ord, Debug)]
pub enum Cmp {
    /// The two are the same.
    Eq,
    /// The two are different.
    Ne,
    /// The first is below the second.
    Lt,
    /// The first is below the second, or the same.
    Le,
    /// The first is above the second.
    Gt,
    /// The first is above the second, or the same.
    Ge,
}

impl Cmp {
    /// Whether two value indexes compare so.
    pub fn stands(self, a: u8, b: u8) -> bool
        ensures { IsTrue result ↔ Compares (relation_of self) a b }
    {
        match self {
            Cmp::Eq => a == b,
            Cmp::Ne => a != b,
            Cmp::Lt => a < b,
            Cmp::Le => a <= b,
            Cmp::Gt => a > b,
            Cmp::Ge => a >= b,
        }
    }
}

/// A formula of linear temporal logic. A bound counts steps from the formula's own position, and
/// the position that many steps on is still within it.
#[derive(Drop)]
pub enum Formula {
    /// True everywhere.
    True,
    /// True nowhere.
    False,
    /// The variable's value index is 1: of a truth value, it is true.
    Flag(VarId),
    /// The variable's value index compares so with a value index.
    Is(VarId, Cmp, u8),
    /// The variable's value index is in the set.
    Among(VarId, Values),
    /// The value indexes of the two variables compare so.
    Same(VarId, Cmp, VarId),
    /// The operand is false here.
    Not(Box<Formula>),
    /// Both operands are true here.
    And(Box<Formula>, Box<Formula>),
    /// One of the operands, or both, are true here.
    Or(Box<Formula>, Box<Formula>),
    /// If the first operand is true here, so is the second.
    Implies(Box<Formula>, Box<Formula>),
    /// Both operands are true here, or neither is.
    Iff(Box<Formula>, Box<Formula>),
    /// At each position from here on, if the first operand is true, so is the second.
    Entails(Box<Formula>, Box<Formula>),
    /// The operand is true at the next position.
    Next(Box<Formula>),
    /// The operand is true at some position from here on.
    Eventually(Box<Formula>),
    /// The operand is true at each position from here on.
    Always(Box<Formula>),
    /// The second operand is true at some position from here on, and the first at each one before.
    Until(Box<Formula>, Box<Formula>),
    /// As `Until`, or the first operand is true at each position from here on.
    Unless(Box<Formula>, Box<Formula>),
    /// At each position from here on the second operand is true, or the first is at an earlier one.
    Release(Box<Formula>, Box<Formula>),
    /// The operand is true at some position within the bound.
    EventuallyWithin(u8, Box<Formula>),
    /// The operand is true at each position within the bound.
    AlwaysWithin(u8, Box<Formula>),
    /// The second operand is true at some position within the bound, the first at each one before.
    UntilWithin(u8, Box<Formula>, Box<Formula>),
    /// As `UntilWithin`, or the first operand is true at each position within the bound.
    UnlessWithin(u8, Box<Formula>, Box<Formula>),
    /// At each position within the bound the second operand is true, or the first is at an
    /// earlier one from here on.
    ReleaseWithin(u8, Box<Formula>, Box<Formula>),
}

impl Formula {
    /// The number of levels: 1 for a formula without operands, and never over the greatest `u32`.
    pub fn depth(&self) -> u32
        ensures depth { result ≡ depth_of (tree_of self.now) }
    {
        match self {
            Formula::Not(a)
            | Formula::Next(a)
            | Formula::Eventually(a)
            | Formula::Always(a)
            | Formula::EventuallyWithin(_, a)
            | Formula::AlwaysWithin(_, a) => a.depth().saturating_add(1),
            Formula::And(a, b)
            | Formula::Or(a, b)
            | Formula::Implies(a, b)
            | Formula::Iff(a, b)
            | Formula::Entails(a, b)
            | Formula::Until(a, b)
            | Formula::Unless(a, b)
            | Formula::Release(a, b)
            | Formula::UntilWithin(_, a, b)
            | Formula::UnlessWithin(_, a, b)
            | Formula::ReleaseWithin(_, a, b) => a.depth().max(b.depth()).saturating_add(1),
            _ => 1,
        }
    }

    /// Whether it is a state formula: neither a temporal operator nor `Entails` stands in it, so
    /// that its truth at a position depends on the values there alone.
    pub fn is_state(&self) -> bool
        ensures state { result ≡ is_state_of (tree_of self.now) }
    {
        match self {
            Formula::True
            | Formula::False
            | Formula::Flag(_)
            | Formula::Is(_, _, _)
            | Formula::Among(_, _)
            | Formula::Same(_, _, _) => true,
            Formula::Not(a) => a.is_state(),
            Formula::And(a, b) | Formula::Or(a, b) | Formula::Implies(a, b) | Formula::Iff(a, b) =>
                a.is_state() && b.is_state(),
            _ => false,
        }
    }

    /// The variables that the formula names, which are below 64.
    #[cycle(vars)]
    pub fn vars(&self) -> Values
        requires { VariablesBelow 64 (tree_of self.now) }
        ensures members { (i : ℕ) → Has result i ↔ Contains (variables_of (tree_of self.now)) i }
    {
        match self {
            Formula::True | Formula::False => Values::none(),
            Formula::Flag(x) | Formula::Is(x, _, _) | Formula::Among(x, _) => {
                Values::none().with(x.0)
            }
            Formula::Same(x, _, y) => Values::none().with(x.0).with(y.0),
            Formula::Not(a)
            | Formula::Next(a)
            | Formula::Eventually(a)
            | Formula::Always(a)
            | Formula::EventuallyWithin(_, a)
            | Formula::AlwaysWithin(_, a) => a.vars(),
            Formula::And(a, b)
            | Formula::Or(a, b)
            | Formula::Implies(a, b)
            | Formula::Iff(a, b)
            | Formula::Entails(a, b)
            | Formula::Until(a, b)
            | Formula::Unless(a, b)
            | Formula::Release(a, b)
            | Formula::UntilWithin(_, a, b)
            | Formula::UnlessWithin(_, a, b)
            | Formula::ReleaseWithin(_, a, b) => vars_of_both(a, b),
        }
    }

    /// Whether the two are the same formula, wherever they lie in memory.
    pub fn is_same(&self, other: &Formula) -> bool
        ensures same { IsTrue result ↔ (tree_of self.now ≡ tree_of other.now) }
    {
        match (self, other) {
            (Formula::True, Formula::True) | (Formula::False, Formula::False) => true,
            (Formula::Flag(x), Formula::Flag(y)) => x.0 == y.0,
            (Formula::Is(x, c, v), Formula::Is(y, d, w)) => x.0 == y.0 && *c == *d && *v == *w,
            (Formula::Among(x, s), Formula::Among(y, t)) => x.0 == y.0 && s.0 == t.0,
            (Formula::Same(x, c, v), Formula::Same(y, d, w)) => x.0 == y.0
                && *c == *d
                && v.0 == w.0,
            (Formula::Not(a), Formula::Not(b))
            | (Formula::Next(a), Formula::Next(b))
            | (Formula::Eventually(a), Formula::Eventually(b))
            | (Formula::Always(a), Formula::Always(b)) => a.is_same(b),
            (Formula::EventuallyWithin(k, a), Formula::EventuallyWithin(m, b))
            | (Formula::AlwaysWithin(k, a), Formula::AlwaysWithin(m, b)) => {
                *k == *m && a.is_same(b)
            }
            (Formula::And(a, b), Formula::And(c, d))
            | (Formula::Or(a, b), Formula::Or(c, d))
            | (Formula::Implies(a, b), Formula::Implies(c, d))
            | (Formula::Iff(a, b), Formula::Iff(c, d))
            | (Formula::Entails(a, b), Formula::Entails(c, d))
            | (Formula::Until(a, b), Formula::Until(c, d))
            | (Formula::Unless(a, b), Formula::Unless(c, d))
            | (Formula::Release(a, b), Formula::Release(c, d)) => a.is_same(c) && b.is_same(d),
            (Formula::UntilWithin(k, a, b), Formula::UntilWithin(m, c, d))
            | (Formula::UnlessWithin(k, a, b), Formula::UnlessWithin(m, c, d))
            | (Formula::ReleaseWithin(k, a, b), Formula::ReleaseWithin(m, c, d)) => {
                *k == *m && a.is_same(c) && b.is_same(d)
            }
            _ => false,
        }
    }

    /// A formula that is the same as this one. Only memory can be wanting.
    #[cycle(clone)]
    pub fn clone(&self, alloc: Global) -> Result<Formula, Memory>
        ensures same { IfOk result (λ f. tree_of f ≡ tree_of self.now) }
    {
        match self {
            Formula::True => Ok(Formula::True),
            Formula::False => Ok(Formula::False),
            Formula::Flag(x) => Ok(Formula::Flag(*x)),
            Formula::Is(x, c, v) => Ok(Formula::Is(*x, *c, *v)),
            Formula::Among(x, s) => Ok(Formula::Among(*x, *s)),
            Formula::Same(x, c, y) => Ok(Formula::Same(*x, *c, *y)),
            Formula::Not(a) => Ok(Formula::Not(boxed(alloc, a)?)),
            Formula::And(a, b) => Ok(Formula::And(boxed(alloc, a)?, boxed(alloc, b)?)),
            Formula::Or(a, b) => Ok(Formula::Or(boxed(alloc, a)?, boxed(alloc, b)?)),
            Formula::Implies(a, b) => Ok(Formula::Implies(boxed(alloc, a)?, boxed(alloc, b)?)),
            Formula::Iff(a, b) => Ok(Formula::Iff(boxed(alloc, a)?, boxed(alloc, b)?)),
            Formula::Entails(a, b) => Ok(Formula::Entails(boxed(alloc, a)?, boxed(alloc, b)?)),
            Formula::Next(a) => Ok(Formula::Next(boxed(alloc, a)?)),
            Formula::Eventually(a) => Ok(Formula::Eventually(boxed(alloc, a)?)),
            Formula::Always(a) => Ok(Formula::Always(boxed(alloc, a)?)),
            Formula::Until(a, b) => Ok(Formula::Until(boxed(alloc, a)?, boxed(alloc, b)?)),
            Formula::Unless(a, b) => Ok(Formula::Unless(boxed(alloc, a)?, boxed(alloc, b)?)),
            Formula::Release(a, b) => Ok(Formula::Release(boxed(alloc, a)?, boxed(alloc, b)?)),
            Formula::EventuallyWithin(d, a) => Ok(Formula::EventuallyWithin(*d, boxed(alloc, a)?)),
            Formula::AlwaysWithin(d, a) => Ok(Formula::AlwaysWithin(*d, boxed(alloc, a)?)),
            Formula::UntilWithin(d, a, b) => {
                Ok(Formula::UntilWithin(*d, boxed(alloc, a)?, boxed(alloc, b)?))
            }
            Formula::UnlessWithin(d, a, b) => {
                Ok(Formula::UnlessWithin(*d, boxed(alloc, a)?, boxed(alloc, b)?))
            }
            Formula::ReleaseWithin(d, a, b) => {
                Ok(Formula::ReleaseWithin(*d, boxed(alloc, a)?, boxed(alloc, b)?))
            }
        }
    }
}

// The variables that one of the two names, or both.
#[cycle(vars)]
fn vars_of_both(a: &Formula, b: &Formula) -> Values
    requires first { VariablesBelow 64 (tree_of a.now) }
    requires second { VariablesBelow 64 (tree_of b.now) }
    ensures members { (i : ℕ) → Has result i ↔ Contains (variables_of (tree_of a.now) ++ variables_of (tree_of b.now)) i }
{
    a.vars().join(b.vars())
}

// A clone of an operand, in a place of its own.
#[cycle(clone)]
fn boxed(alloc: Global, formula: &Formula) -> Result<Box<Formula>, Memory>
    ensures same { IfOk result (λ f. tree_of f.value ≡ tree_of formula.now) }
{
    Ok(Box::new(alloc, formula.clone(alloc)?)?)
}
