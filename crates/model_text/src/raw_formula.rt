//! Formulas as they are written, for the reader and for resolution: names are not looked up yet,
//! and a name behind a comparison may be a value or a variable. Parentheses leave no trace.

use state_space::Name;
use temporal_logic::Cmp;

/// A value as it is written.
#[derive(Drop)]
pub enum RawValue {
    /// A name: a value of an enumeration, or a variable.
    Word(Name),
    Number(i64),
    True,
    False,
    /// An attribute, and the name in brackets behind it. It stands only after a comparison.
    Of(Name, Name),
}

/// A formula as it is written. The variants are those of a formula, but for the atoms over variables.
#[derive(Drop)]
pub enum RawFormula {
    True,
    False,
    /// A name alone.
    Bare(Name),
    /// A name compared with a value or with another name.
    Compare(Name, Cmp, RawValue),
    /// A name and the values of which it is to have one.
    Among(Name, Vec<RawValue>),
    /// An attribute, and the name in brackets behind it, alone.
    BareOf(Name, Name),
    /// The same, compared with a value, with another name, or with an attribute and a name.
    CompareOf(Name, Name, Cmp, RawValue),
    /// The same, and the values of which it is to have one.
    AmongOf(Name, Name, Vec<RawValue>),
    Not(Box<RawFormula>),
    Next(Box<RawFormula>),
    Eventually(Box<RawFormula>),
    Always(Box<RawFormula>),
    EventuallyWithin(u8, Box<RawFormula>),
    AlwaysWithin(u8, Box<RawFormula>),
    And(Box<RawFormula>, Box<RawFormula>),
    Or(Box<RawFormula>, Box<RawFormula>),
    Implies(Box<RawFormula>, Box<RawFormula>),
    Iff(Box<RawFormula>, Box<RawFormula>),
    Entails(Box<RawFormula>, Box<RawFormula>),
    Until(Box<RawFormula>, Box<RawFormula>),
    Unless(Box<RawFormula>, Box<RawFormula>),
    Release(Box<RawFormula>, Box<RawFormula>),
    UntilWithin(u8, Box<RawFormula>, Box<RawFormula>),
    UnlessWithin(u8, Box<RawFormula>, Box<RawFormula>),
    ReleaseWithin(u8, Box<RawFormula>, Box<RawFormula>),
    /// `all NAME: NAME (FORMULA)`: the bound name, and the entity type.
    All(Name, Name, Box<RawFormula>),
    /// `some NAME: NAME (FORMULA)`
    Exists(Name, Name, Box<RawFormula>),
}
