//! The rule of a formula over numbers of a table: what it asks now, as one choice or two.

use formula_table::FormulaId;
use state_space::{Values, VarId};

/// What a kid adds to its node.
#[derive(Clone, Copy, Debug, PartialEq, Eq)]
pub(crate) enum Effect {
    /// Nothing.
    Nothing,
    /// A formula that is to be true now.
    Adds(FormulaId),
    /// Two formulas that are to be true now.
    AddsBoth(FormulaId, FormulaId),
    /// The first is to be true now, and the second at the next position.
    Waits(FormulaId, FormulaId),
    /// A formula that is to be true at the next position.
    Later(FormulaId),
    /// The variable's index now lies in the set too.
    Meets(VarId, Values),
}

/// What comes of a node by the formula whose turn it is: none, one or two kids.
#[derive(Clone, Copy, Debug, PartialEq, Eq)]
pub(crate) enum Turn {
    /// No kid: the formula is false.
    Clash,
    /// A step to the next position.
    Step,
    /// One kid.
    One(Effect),
    /// Two kids.
    Two(Effect, Effect),
    /// An until is fulfilled, and cannot wait.
    FulfilOnly(Effect),
    /// An until waits, and cannot be fulfilled now.
    WaitOnly(Effect),
    /// An until is fulfilled in the first kid, and waits in the second.
    FulfilOrWait(Effect, Effect),
}
