//! Formulas as they are written over entity types: a formula's operators, its atoms over terms in
//! place of variables, and quantifiers.

use state_space::{Values, VarId};
use temporal_logic::Cmp;

/// What stands in a written formula for a variable.
#[derive(Clone, Copy, PartialEq, Eq)]
pub enum Term {
    /// A variable.
    Var(VarId),
    /// An attribute of a member of its type.
    Of(u8, u8),
    /// An attribute of the member that a quantifier's level has, 0 for the outermost.
    Bound(u8, u8),
}

/// A formula without operands.
#[derive(Clone, Copy, PartialEq, Eq)]
pub enum Atom {
    /// True everywhere.
    True,
    /// True nowhere.
    False,
    /// The term's value index is 1.
    Flag(Term),
    /// The term's value index compares so with a value index.
    Is(Term, Cmp, u8),
    /// The term's value index is in the set.
    Among(Term, Values),
    /// The value indexes of the two terms compare so.
    Same(Term, Cmp, Term),
}

/// An operator of one operand, with its bound in steps.
#[derive(Clone, Copy, PartialEq, Eq, Debug)]
pub enum Opening {
    Not,
    Next,
    Eventually,
    Always,
    EventuallyWithin(u8),
    AlwaysWithin(u8),
}

/// An operator of two operands, with its bound in steps.
#[derive(Clone, Copy, PartialEq, Eq, Debug)]
pub enum Joining {
    And,
    Or,
    Implies,
    Iff,
    Entails,
    Until,
    Unless,
    Release,
    UntilWithin(u8),
    UnlessWithin(u8),
    ReleaseWithin(u8),
}

/// A formula over terms, with quantifiers over entity types. An operator says what the plain
/// formula's operator of that name says.
#[derive(Drop)]
pub enum Written {
    Atom(Atom),
    /// An operator and its operand.
    Opened(Opening, Box<Written>),
    /// An operator and its two operands.
    Joined(Joining, Box<(Written, Written)>),
    /// The formula is true for each member of the entity type.
    All(u16, Box<Written>),
    /// The formula is true for some member of the entity type.
    Exists(u16, Box<Written>),
}
