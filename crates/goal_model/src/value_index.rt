//! Written values, as indexes of the values of a range.

ghost use Rattle.std.specs.Prelude.{◌≡◌, ◌<◌, ◌^◌, [], length, map, not, take, slice_index_or, IfSome, IfOk};
ghost use Rattle.state_space.specs.Ranges.{form_of, size_of, span, IsGoodRange};
ghost use Rattle.model_text.specs.RawTrees.{a_number};
ghost use Rattle.model_text.specs.RawView.{written};
ghost use Rattle.goal_model.specs.Refusals.{Gives, holds};
ghost use Rattle.goal_model.specs.Names.{place_of as place_in, is_among as is_among_names};
ghost use Rattle.goal_model.specs.ValueIndexes.{index_in as index_in_form, index_of as index_of_form, set_with, apart_from, values_apart as values_apart_form, has_few_values as has_few_values_form};
ghost use Rattle.goal_model.specs.declared.refusal.RefusalKind.TheVariants.{DuplicateName};

use crate::refusal::{RefusalKind, Stop, refused};
use indexmap::IndexSet;
use model_text::RawValue;
use state_space::{Name, Range, Values};
use std::alloc::{AllocFailed, Global};

fn position_of(names: &[Name], name: &Name) -> Option<usize>
    ensures { result ≡ place_in name.now names.now }
{
    names.iter().position(|other| other.bytes() == name.bytes())
}

// The place of a name among at most 64 names.
fn place_of(names: &[Name], name: &Name) -> Option<u8>
    requires { length names.now < 65 }
    ensures place { result ≡ place_in name.now names.now }
    ensures inside { IfSome result (λ i. i < length names.now) }
{
    let place = position_of(names, name)?;
    Some(place as u8)
}

// The place of a number in a span of at most 64 numbers.
fn number_in(low: i64, high: i64, number: i64) -> Option<u8>
    requires { size_of (span low high) < 65 }
    ensures index { result ≡ index_in_form (span low high) (a_number number) }
    ensures inside { IfSome result (λ i. i < size_of (span low high)) }
{
    if low <= number && number <= high {
        Some((number - low) as u8)
    } else {
        None
    }
}

/// The index of a written value in a range, where the range has it.
pub(crate) fn index_in(range: &Range, value: &RawValue) -> Option<u8>
    requires good { IsGoodRange (form_of range.now) }
    ensures index { result ≡ index_in_form (form_of range.now) (written value.now) }
    ensures inside { IfSome result (λ i. i < size_of (form_of range.now)) }
{
    match (range, value) {
        (Range::Bool, RawValue::False) => Some(0),
        (Range::Bool, RawValue::True) => Some(1),
        (Range::Names(names), RawValue::Word(word)) => place_of(names, word),
        (Range::Span { lo, hi }, RawValue::Number(number)) => number_in(*lo, *hi, *number),
        _ => None,
    }
}

/// The index of a value of a variable, whose name is refused where its range has no such value.
pub(crate) fn index_of(
    alloc: Global,
    name: &Name,
    range: &Range,
    value: &RawValue,
) -> Result<u8, Stop>
    requires good { IsGoodRange (form_of range.now) }
    ensures exact { Gives (λ i. i) result (index_of_form name.now (form_of range.now) (written value.now)) }
    ensures inside { IfOk result (λ i. i < size_of (form_of range.now)) }
{
    match index_in(range, value) {
        Some(index) => Ok(index),
        None => refused(alloc, RefusalKind::BadValue, name),
    }
}

/// The set of values of a variable, whose name is refused where its range has not each of them.
#[tactic(auto, unfolding(crate::specs::ValueIndexes::set_with))]
pub(crate) fn set_of(
    alloc: Global,
    name: &Name,
    range: &Range,
    values: &[RawValue],
) -> Result<Values, Stop>
    requires good { IsGoodRange (form_of range.now) }
    ensures exact { Gives (λ s. s.0) result (set_with name.now (form_of range.now) 0 (map written values.now)) }
{
    let mut set = Values::none();
    'values: for value in values {
        let index = index_of(alloc, name, range, value)?;
        set = set.with(index);
    }
    Ok(set)
}

// Whether a name is one of a list.
fn is_among(name: &Name, names: &[Name]) -> bool
    ensures { result ≡ is_among_names name.now names.now }
{
    names.iter().any(|other| other.bytes() == name.bytes())
}

/// The name at a place of a list may not be among those before it.
pub(crate) fn apart(alloc: Global, names: &[Name], at: usize) -> Result<(), Stop>
    requires { at < length names.now }
    ensures { Gives (λ _. tt) result (holds (not (is_among_names (slice_index_or names.now at []) (take at names.now))) DuplicateName (slice_index_or names.now at [])) }
{
    if is_among(&names[at], &names[..at]) {
        return refused(alloc, RefusalKind::DuplicateName, &names[at]);
    }
    Ok(())
}

/// No name of a list may stand among those before it. Each name is looked up by its hash, since an enumeration may be long.
#[tactic(auto, unfolding(crate::specs::ValueIndexes::apart_from))]
pub(crate) fn names_apart(alloc: Global, names: &[Name]) -> Result<(), Stop>
    ensures { Gives (λ _. tt) result (apart_from [] names.now) }
{
    let mut seen = IndexSet::new(alloc);
    'names: for name in names {
        if !seen.insert(name.bytes())? {
            return refused(alloc, RefusalKind::DuplicateName, name);
        }
    }
    Ok(())
}

/// No value of an enumeration may stand twice.
pub(crate) fn values_apart(alloc: Global, range: &Range) -> Result<(), Stop>
    ensures { Gives (λ _. tt) result (values_apart_form (form_of range.now)) }
{
    match range {
        Range::Names(names) => names_apart(alloc, names),
        _ => Ok(()),
    }
}

/// Whether a range has 1 to 64 values.
pub(crate) fn has_few_values(range: &Range) -> bool
    ensures { result ≡ has_few_values_form (form_of range.now) }
{
    (1..=64).contains(&range.size())
}
