//! Numbers of variables, and sets of value indexes as the bits of a number: a range has at most 64
//! values, so that a set is one word, and each operation works on the whole word.

ghost use Rattle.std.specs.Prelude.{◌≡◌, ℕ, ◌^◌, ◌<◌, ◌≤◌, ◌↔◌, ◌⊎◌, IsTrue, IsNone, IfSome, bit_and, bit_or};

/// The number of a variable.
#[derive(Clone, Copy, PartialEq, Eq, PartialOrd, Ord, Debug)]
pub struct VarId(pub u8);

/// A set of value indexes below 64: an index is in it where that bit of the number is 1.
#[derive(Clone, Copy, PartialEq, Eq, PartialOrd, Ord, Hash, Debug)]
pub struct Values(pub u64);

impl Values {
    ghost use Rattle.state_space.specs.Members.{Has, others};

    /// The set of no index.
    pub fn none() -> Values
        ensures members { (i : ℕ) → ¬ (Has result i) }
        ensures value { result.0 ≡ 0 }
    {
        Values(0)
    }

    /// The set and one index more, which is below 64.
    pub fn with(self, index: u8) -> Values
        requires { index < 64 }
        ensures members { (i : ℕ) → Has result i ↔ ((i ≡ index) ⊎ Has self i) }
        ensures value { result.0 ≡ bit_or self.0 (2 ^ index) }
    {
        Values(self.0 | (1 << index))
    }

    /// Whether an index below 64 is in the set.
    pub fn contains(self, index: u8) -> bool
        requires { index < 64 }
        ensures { IsTrue result ↔ Has self index }
    {
        (self.0 >> index) & 1 == 1
    }

    /// What is in both sets.
    pub fn meet(self, other: Values) -> Values
        ensures value { result.0 ≡ bit_and self.0 other.0 }
        ensures members { (i : ℕ) → Has result i ↔ (Has self i × Has other i) }
    {
        Values(self.0 & other.0)
    }

    /// What is in one of the sets, or in both.
    pub fn join(self, other: Values) -> Values
        ensures value { result.0 ≡ bit_or self.0 other.0 }
        ensures members { (i : ℕ) → Has result i ↔ (Has self i ⊎ Has other i) }
    {
        Values(self.0 | other.0)
    }

    /// The indexes below the size, which is at most 64, that are not in the set.
    pub fn complement(self, size: u8) -> Values
        requires { size ≤ 64 }
        ensures members { (i : ℕ) → Has result i ↔ ((i < size) × ¬ (Has self i)) }
        ensures value { result.0 ≡ others self.0 size }
    {
        if size == 64 {
            Values(!self.0)
        } else {
            Values(!self.0 & ((1u64 << size) - 1))
        }
    }

    /// Whether no index is in the set.
    pub fn is_empty(self) -> bool
        ensures { IsTrue result ↔ ((i : ℕ) → ¬ (Has self i)) }
    {
        self.0 == 0
    }

    /// The least index of the set, and `None` exactly where the set is empty.
    pub fn least(self) -> Option<u8>
        ensures least { IfSome result (λ i. Has self i × ((j : ℕ) → j < i → ¬ (Has self j))) }
        ensures none { IsNone result ↔ ((i : ℕ) → ¬ (Has self i)) }
    {
        if self.0 == 0 {
            None
        } else {
            Some(self.0.trailing_zeros() as u8)
        }
    }
}
