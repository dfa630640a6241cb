//! The finite ranges of variables. A range is good where it has 1 to 64 values, and no name twice:
//! whoever gives a variable its range asks that first.

ghost use Rattle.std.specs.Prelude.{◌≡◌, ◌≢◌, ◌-◌, ◌^◌, ◌↔◌, min, AllPairs, Contains, IsTrue, IfOk};
ghost use Rattle.state_space.specs.Ranges.{span, size_of};

use crate::name::Name;
use std::alloc::{AllocError, Global};

/// The values of a variable, numbered from 0.
#[derive(Debug, Drop)]
pub enum Range {
    /// False is 0, and true is 1.
    Bool,
    /// The names of an enumeration, in order.
    Names(Vec<Name>),
    /// The whole numbers from `lo` to `hi`, from `lo` on.
    Span { lo: i64, hi: i64 },
}

// How many numbers there are from `low` to `high`, or the greatest count where they are more.
fn span_size(low: i64, high: i64) -> u64
    ensures size { result ≡ min (size_of (span low high)) (2 ^ 64 - 1) }
{
    if high < low {
        0
    } else {
        high.abs_diff(low).saturating_add(1)
    }
}

// Whether a name is among names.
fn is_among(names: &[Name], name: &Name) -> bool
    ensures among { IsTrue result ↔ Contains names.now name.now }
{
    names.iter().any(|other| other.is_same(name))
}

// Whether no two names are equal.
fn are_distinct(names: &[Name]) -> bool
    ensures distinct { IsTrue result ↔ AllPairs (λ a b. a ≢ b) names.now }
{
    'names: for index in 0..names.len() {
        if is_among(&names[..index], &names[index]) {
            return false;
        }
    }
    true
}

// Whether two lists have the same names in the same order.
fn are_same(names: &[Name], others: &[Name]) -> bool
    ensures same { IsTrue result ↔ (names.now ≡ others.now) }
{
    if names.len() != others.len() {
        return false;
    }
    'names: for index in 0..names.len() {
        if !names[index].is_same(&others[index]) {
            return false;
        }
    }
    true
}

// The same names in memory of their own.
fn copied(alloc: Global, names: &[Name]) -> Result<Vec<Name>, AllocError>
    ensures same { IfOk result (λ copies. copies.items ≡ names.now) }
{
    let mut copies = Vec::with_capacity(alloc, names.len())?;
    'names: for name in names {
        copies.push(name.clone(alloc)?)?;
    }
    Ok(copies)
}

impl Range {
    ghost use Rattle.state_space.specs.Ranges.{form_of, size_of, HasDistinctNames, IsGoodRange};

    /// How many values the range has: none in a span whose `lo` is over its `hi`, and the greatest
    /// `u64` where they are more than that.
    pub fn size(&self) -> u64
        ensures size { result ≡ min (size_of (form_of self.now)) (2 ^ 64 - 1) }
    {
        match self {
            Range::Bool => 2,
            Range::Names(names) => names.len() as u64,
            Range::Span { lo, hi } => span_size(*lo, *hi),
        }
    }

    /// Whether a variable may have the range: 1 to 64 values, and no name twice.
    pub fn is_good(&self) -> bool
        ensures good { IsTrue result ↔ IsGoodRange (form_of self.now) }
    {
        (1..=64).contains(&self.size()) && self.has_distinct_names()
    }

    // Whether no two names of an enumeration are equal.
    fn has_distinct_names(&self) -> bool
        ensures distinct { IsTrue result ↔ HasDistinctNames (form_of self.now) }
    {
        match self {
            Range::Names(names) => are_distinct(names),
            _ => true,
        }
    }

    /// The same range in memory of its own.
    pub fn clone(&self, alloc: Global) -> Result<Range, AllocError>
        ensures same { IfOk result (λ r. form_of r ≡ form_of self.now) }
    {
        match self {
            Range::Bool => Ok(Range::Bool),
            Range::Names(names) => Ok(Range::Names(copied(alloc, names)?)),
            Range::Span { lo, hi } => Ok(Range::Span { lo: *lo, hi: *hi }),
        }
    }

    /// Whether two ranges have the same values in the same order.
    pub fn is_same(&self, other: &Range) -> bool
        ensures same { IsTrue result ↔ (form_of self.now ≡ form_of other.now) }
    {
        match self {
            Range::Bool => matches!(other, Range::Bool),
            Range::Names(names) => match other {
                Range::Names(others) => are_same(names, others),
                _ => false,
            },
            Range::Span { lo, hi } => match other {
                Range::Span {
                    lo: other_lo,
                    hi: other_hi,
                } => lo == other_lo && hi == other_hi,
                _ => false,
            },
        }
    }
}
