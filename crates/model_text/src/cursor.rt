//! A cursor over tokens: the one way in which the readers of formulas and statements see a text.
//! A reader that answers `Syntax` leaves the cursor at the token that cannot stand there.

ghost use Rattle.std.specs.Prelude.{◌≡◌, [], ◌∷◌, ◌+◌, ◌<◌, ◌≤◌, Some, None, ⊤, length, option_map, OnOk, MatchOption};
ghost use Rattle.std.specs.Bool.{MatchBool};
ghost use Rattle.temporal_logic.specs.Trees.{relation_of};
ghost use Rattle.model_tokens.specs.Tokens.{keyword as keyword_form, mark as mark_form, number as number_form, further as further_form, form_of};
ghost use Rattle.model_text.specs.Leaves.{relation_of as relation_of_mark};
ghost use Rattle.model_text.specs.RawView.{written};
ghost use Rattle.model_text.specs.FormulaReading.{number_behind, bound_at, comparison_at, value_at, argument_at, right_at};
ghost use Rattle.model_text.specs.Reading.{Gives, left, behind_keyword, behind_mark, behind_further, keyword_at, mark_at, further_at, name_at};
ghost use Rattle.model_text.specs.declared.cursor.Fault.TheVariants.{Memory as MemoryFault};

use crate::raw_formula::RawValue;
use model_tokens::{Further, Numeral, Sign, Token, TokenKind};
use source_sink::Memory;
use state_space::{Keyword, Name};
use std::alloc::{AllocError, AllocFailed, Global};
use temporal_logic::Cmp;

/// Why nothing was read.
#[derive(Clone, Copy, Debug, PartialEq, Eq)]
pub(crate) enum Fault {
    /// No text goes on so.
    Syntax,
    /// Memory ran out.
    Memory,
}

impl From<AllocError> for Fault {
    ghost from_gives = { λ _ e. e ≡ MemoryFault };

    fn from(_: AllocError) -> Fault {
        Fault::Memory
    }
}

impl<T: Drop> From<AllocFailed<T>> for Fault {
    ghost from_gives = { λ _ e. e ≡ MemoryFault };

    fn from(_: AllocFailed<T>) -> Fault {
        Fault::Memory
    }
}

impl From<Memory> for Fault {
    ghost from_gives = { λ _ e. e ≡ MemoryFault };

    fn from(_: Memory) -> Fault {
        Fault::Memory
    }
}

// The comparison that a sign is.
fn comparison_of(mark: Sign) -> Option<Cmp>
    ensures { MatchOption result (relation_of_mark mark ≡ None) (λ c. relation_of_mark mark ≡ Some (relation_of c)) }
{
    match mark {
        Sign::Equal => Some(Cmp::Eq),
        Sign::NotEqual => Some(Cmp::Ne),
        Sign::Below => Some(Cmp::Lt),
        Sign::AtMost => Some(Cmp::Le),
        Sign::Above => Some(Cmp::Gt),
        Sign::AtLeast => Some(Cmp::Ge),
        _ => None,
    }
}

/// The tokens that are left.
#[derive(Drop)]
pub(crate) struct Cursor<'a, 't> {
    pub(crate) rest: &'a [Token<'t>],
}

impl<'a, 't> Cursor<'a, 't> {
    /// Takes the next token.
    pub(crate) fn next(&mut self) -> Option<TokenKind<'t>>
        ensures { MatchOption result ((left self.old ≡ []) × (left self.new ≡ [])) (λ kind. left self.old ≡ form_of kind ∷ left self.new) }
    {
        match self.rest {
            [] => None,
            [first, rest @ ..] => {
                self.rest = rest;
                Some(first.kind)
            }
        }
    }

    /// Takes a keyword, if it comes next.
    pub(crate) fn take_keyword(&mut self, wanted: Keyword) -> bool
        ensures { MatchBool result (left self.old ≡ keyword_form wanted ∷ left self.new) ((behind_keyword wanted (left self.old) ≡ None) × (left self.new ≡ left self.old)) }
    {
        let rest = self.rest;
        if let Some(TokenKind::Keyword(found)) = self.next() {
            if found == wanted {
                return true;
            }
        }
        self.rest = rest;
        false
    }

    /// Takes a sign, if it comes next.
    pub(crate) fn take_mark(&mut self, wanted: Sign) -> bool
        ensures { MatchBool result (left self.old ≡ mark_form wanted ∷ left self.new) ((behind_mark wanted (left self.old) ≡ None) × (left self.new ≡ left self.old)) }
    {
        let rest = self.rest;
        if let Some(TokenKind::Sign(found)) = self.next() {
            if found == wanted {
                return true;
            }
        }
        self.rest = rest;
        false
    }

    /// Takes a token that only version 2 has, if it comes next.
    pub(crate) fn take_further(&mut self, wanted: Further) -> bool
        ensures { MatchBool result (left self.old ≡ further_form wanted ∷ left self.new) ((behind_further wanted (left self.old) ≡ None) × (left self.new ≡ left self.old)) }
    {
        let rest = self.rest;
        if let Some(TokenKind::Further(found)) = self.next() {
            if found == wanted {
                return true;
            }
        }
        self.rest = rest;
        false
    }

    /// Takes a token that only version 2 has, and that has to come next.
    pub(crate) fn further(&mut self, wanted: Further) -> Result<(), Fault>
        ensures exact { Gives (λ _. tt) result (left self.new) (further_at wanted (left self.old)) }
        ensures shorter { OnOk result (length (left self.new) < length (left self.old)) }
    {
        if self.take_further(wanted) {
            Ok(())
        } else {
            Err(Fault::Syntax)
        }
    }

    /// Takes a keyword that has to come next.
    pub(crate) fn keyword(&mut self, wanted: Keyword) -> Result<(), Fault>
        ensures exact { Gives (λ _. tt) result (left self.new) (keyword_at wanted (left self.old)) }
        ensures shorter { OnOk result (length (left self.new) < length (left self.old)) }
    {
        if self.take_keyword(wanted) {
            Ok(())
        } else {
            Err(Fault::Syntax)
        }
    }

    /// Takes a sign that has to come next.
    pub(crate) fn mark(&mut self, wanted: Sign) -> Result<(), Fault>
        ensures exact { Gives (λ _. tt) result (left self.new) (mark_at wanted (left self.old)) }
        ensures shorter { OnOk result (length (left self.new) < length (left self.old)) }
    {
        if self.take_mark(wanted) {
            Ok(())
        } else {
            Err(Fault::Syntax)
        }
    }

    /// Takes a name that has to come next, by its first 40 bytes.
    #[tactic(auto, unfolding(crate::specs::Reading::name_at))]
    pub(crate) fn name(&mut self, alloc: Global) -> Result<Name, Fault>
        ensures exact { Gives (λ n. n) result (left self.new) (name_at (left self.old)) }
        ensures shorter { OnOk result (length (left self.new) < length (left self.old)) }
    {
        let rest = self.rest;
        if let Some(TokenKind::Name(word)) = self.next() {
            return Ok(word.name(alloc)?);
        }
        self.rest = rest;
        Err(Fault::Syntax)
    }

    /// Takes a number, if it comes next.
    pub(crate) fn take_number(&mut self) -> Option<Numeral<'t>>
        ensures { MatchOption result ((number_behind (left self.old) ≡ None) × (left self.new ≡ left self.old)) (λ n. left self.old ≡ number_form n.negative n.digits.now ∷ left self.new) }
    {
        let rest = self.rest;
        if let Some(TokenKind::Number { negative, digits }) = self.next() {
            return Some(Numeral { negative, digits });
        }
        self.rest = rest;
        None
    }

    /// Takes a bound in steps, if `within` comes next.
    #[tactic(auto, unfolding(crate::specs::FormulaReading::bound_at))]
    pub(crate) fn bound(&mut self) -> Result<Option<u8>, Fault>
        ensures exact { Gives (λ d. d) result (left self.new) (bound_at (left self.old)) }
        ensures shorter { OnOk result (length (left self.new) ≤ length (left self.old)) }
    {
        if !self.take_keyword(Keyword::Within) {
            return Ok(None);
        }
        match self.take_number() {
            Some(number) => Ok(Some(number.bound())),
            None => Err(Fault::Syntax),
        }
    }

    /// Takes a sign of comparison, if it comes next.
    pub(crate) fn comparison(&mut self) -> Option<Cmp>
        ensures exact { MatchOption result ((comparison_at (left self.old) ≡ None) × (left self.new ≡ left self.old)) (λ c. comparison_at (left self.old) ≡ Some (relation_of c, left self.new)) }
        ensures shorter { MatchOption result ⊤ (λ _. length (left self.new) < length (left self.old)) }
    {
        let rest = self.rest;
        if let Some(TokenKind::Sign(mark)) = self.next() {
            if let Some(comparison) = comparison_of(mark) {
                return Some(comparison);
            }
        }
        self.rest = rest;
        None
    }

    /// Takes a value that has to come next.
    #[tactic(auto, using(crate::proofs::FormulaTurns::value_by_name), unfolding(crate::specs::FormulaReading::value_at))]
    pub(crate) fn value(&mut self, alloc: Global) -> Result<RawValue, Fault>
        ensures exact { Gives written result (left self.new) (value_at (left self.old)) }
        ensures shorter { OnOk result (length (left self.new) < length (left self.old)) }
    {
        if self.take_keyword(Keyword::True) {
            return Ok(RawValue::True);
        }
        if self.take_keyword(Keyword::False) {
            return Ok(RawValue::False);
        }
        if let Some(number) = self.take_number() {
            return Ok(RawValue::Number(number.value()));
        }
        Ok(RawValue::Word(self.name(alloc)?))
    }

    /// Takes a name in brackets, if brackets come next behind a name.
    #[tactic(auto, unfolding(crate::specs::FormulaReading::argument_at))]
    pub(crate) fn argument(&mut self, alloc: Global) -> Result<Option<Name>, Fault>
        ensures exact { Gives (λ a. option_map (λ n. n) a) result (left self.new) (argument_at (left self.old)) }
        ensures shorter { OnOk result (length (left self.new) ≤ length (left self.old)) }
    {
        if !self.take_further(Further::OpenArgument) {
            return Ok(None);
        }
        let name = self.name(alloc)?;
        self.mark(Sign::CloseParenthesis)?;
        Ok(Some(name))
    }

    /// Takes what has to come next behind a comparison.
    #[tactic(auto, unfolding(crate::specs::FormulaReading::right_at))]
    pub(crate) fn right(&mut self, alloc: Global) -> Result<RawValue, Fault>
        ensures exact { Gives written result (left self.new) (right_at (left self.old)) }
        ensures shorter { OnOk result (length (left self.new) < length (left self.old)) }
    {
        match self.value(alloc)? {
            RawValue::Word(name) => match self.argument(alloc)? {
                Some(argument) => Ok(RawValue::Of(name, argument)),
                None => Ok(RawValue::Word(name)),
            },
            value => Ok(value),
        }
    }
}
