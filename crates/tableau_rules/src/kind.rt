//! The kind of a node's rule, for those who ask what comes of a node without making a kid: how many
//! kids it has, and whether an until is fulfilled in the first.

ghost use Rattle.std.specs.Prelude.{◌≡◌};
ghost use Rattle.tableau_rules.specs.Kinds.{kid_count_of};

/// What comes of a node by the formula whose turn it is. A number is that of the until that the
/// node works on.
#[derive(Clone, Copy, Debug, PartialEq, Eq)]
pub enum RuleKind {
    /// No kid.
    Clash,
    /// A step to the next position.
    Step,
    /// One kid.
    One,
    /// Two kids.
    Two,
    /// One kid, in which the until is fulfilled.
    FulfilOnly(u16),
    /// One kid, in which the until waits.
    WaitOnly(u16),
    /// Two kids: in the first the until is fulfilled, in the second it waits.
    FulfilOrWait(u16),
}

impl RuleKind {
    /// How many kids the node has.
    pub fn kid_count(self) -> u8
        ensures count { result ≡ kid_count_of self }
    {
        match self {
            RuleKind::Clash => 0,
            RuleKind::Step | RuleKind::One | RuleKind::FulfilOnly(_) | RuleKind::WaitOnly(_) => 1,
            RuleKind::Two | RuleKind::FulfilOrWait(_) => 2,
        }
    }
}
