//! The levels of the grammar of formulas, for the writer: how tightly what stands at a place has to
//! bind, and how tightly a formula does. The plain form is `own_level` of specs/Lines.antt and
//! `tightness` of specs/Writing.antt; two small numbers are compared in place of two rules. Nothing
//! was measured of it alone.

ghost use Rattle.std.specs.Prelude.{◌≡◌};
ghost use Rattle.model_text.specs.Writing.{tightness};
ghost use Rattle.model_text.specs.RawView.{raw_tree};
ghost use Rattle.model_text.specs.Lines.{level_of, own_level};

use crate::raw_formula::RawFormula;

/// A level of the grammar, from the weakest rule to the tightest.
#[derive(Clone, Copy)]
pub(crate) enum Level {
    Whole,
    Iff,
    Implies,
    Or,
    And,
    Tempo,
    Prefix,
    Primary,
}

impl Level {
    /// How tightly its rule binds.
    pub(crate) fn tightness(self) -> u8
        ensures { result ≡ tightness (level_of self) }
    {
        match self {
            Level::Whole => 0,
            Level::Iff => 1,
            Level::Implies => 2,
            Level::Or => 3,
            Level::And => 4,
            Level::Tempo => 5,
            Level::Prefix => 6,
            Level::Primary => 7,
        }
    }

    /// The level of the rule that a formula is of.
    pub(crate) fn of(formula: &RawFormula) -> Level
        ensures { level_of result ≡ own_level (raw_tree formula.now) }
    {
        match formula {
            RawFormula::True
            | RawFormula::False
            | RawFormula::Bare(_)
            | RawFormula::Compare(_, _, _)
            | RawFormula::Among(_, _)
            | RawFormula::BareOf(_, _)
            | RawFormula::CompareOf(_, _, _, _)
            | RawFormula::AmongOf(_, _, _) => Level::Primary,
            RawFormula::Not(_)
            | RawFormula::Next(_)
            | RawFormula::Eventually(_)
            | RawFormula::Always(_)
            | RawFormula::EventuallyWithin(_, _)
            | RawFormula::AlwaysWithin(_, _)
            | RawFormula::All(_, _, _)
            | RawFormula::Exists(_, _, _) => Level::Prefix,
            RawFormula::Until(_, _)
            | RawFormula::Unless(_, _)
            | RawFormula::Release(_, _)
            | RawFormula::UntilWithin(_, _, _)
            | RawFormula::UnlessWithin(_, _, _)
            | RawFormula::ReleaseWithin(_, _, _) => Level::Tempo,
            RawFormula::And(_, _) => Level::And,
            RawFormula::Or(_, _) => Level::Or,
            RawFormula::Implies(_, _) => Level::Implies,
            RawFormula::Iff(_, _) => Level::Iff,
            RawFormula::Entails(_, _) => Level::Whole,
        }
    }
}
