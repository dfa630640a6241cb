//! The operators, by what they make of the rows of their operands: of the bits at one position, and
//! of the 64 of a word at once, which is proved to be the same. A further operator begins here.

ghost use Rattle.std.specs.Prelude.{◌≡◌, ℕ, ◌<◌, ◌↔◌, IsTrue};
ghost use Rattle.std.specs.Int.{bit_at};

/// An operator whose truth at a position depends on its two operands there alone.
#[derive(Clone, Copy)]
pub enum Join {
    And,
    Or,
    Implies,
    Iff,
}

/// An operator whose truth at a position depends on its two operands there, and on its own truth
/// at the next position.
#[derive(Clone, Copy)]
pub enum Waiting {
    Until,
    Unless,
    Release,
}

/// An operator of one operand.
#[derive(Clone, Copy)]
pub enum Unary {
    Not,
    Next,
    Eventually,
    Always,
    EventuallyWithin(u8),
    AlwaysWithin(u8),
}

/// An operator of two operands.
#[derive(Clone, Copy)]
pub enum Binary {
    And,
    Or,
    Implies,
    Iff,
    Entails,
    Until,
    Unless,
    Release,
    UntilWithin(u8),
    UnlessWithin(u8),
    ReleaseWithin(u8),
}

impl Join {
    ghost use Rattle.lasso_checker.specs.Operators.{Joined};

    /// What the operator gives at 64 positions, from the operands there.
    pub fn words(self, one: u64, other: u64) -> u64
        ensures bits { (r : ℕ) → r < 64
            → (bit_at result r ≡ 1) ↔ Joined self (bit_at one r ≡ 1) (bit_at other r ≡ 1) }
    {
        match self {
            Join::And => one & other,
            Join::Or => one | other,
            Join::Implies => !one | other,
            Join::Iff => !one ^ other,
        }
    }
}

impl Waiting {
    ghost use Rattle.lasso_checker.specs.Operators.{Steps, starts};

    /// What the operator gives where no position is left.
    pub fn start(self) -> bool
        ensures start { result ≡ starts self }
    {
        match self {
            Waiting::Until => false,
            Waiting::Unless | Waiting::Release => true,
        }
    }

    /// What the operator gives at a position, from the operands there and from what it gives at
    /// the next.
    pub fn step(self, one: bool, other: bool, next: bool) -> bool
        ensures step { IsTrue result ↔ Steps self (IsTrue one) (IsTrue other) (IsTrue next) }
    {
        match self {
            Waiting::Until | Waiting::Unless => other || (one && next),
            Waiting::Release => other && (one || next),
        }
    }

    /// What the operator gives at 64 positions, from the operands there and from what it gives at
    /// the position after each.
    pub fn words(self, one: u64, other: u64, next: u64) -> u64
        ensures bits { (r : ℕ) → r < 64
            → (bit_at result r ≡ 1)
            ↔ Steps self (bit_at one r ≡ 1) (bit_at other r ≡ 1) (bit_at next r ≡ 1) }
    {
        match self {
            Waiting::Until | Waiting::Unless => other | (one & next),
            Waiting::Release => other & (one | next),
        }
    }
}
