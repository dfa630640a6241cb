//! Readers of parts that several forms of statement share: names, a name before a colon, names
//! behind a keyword, formulas. A part that one form alone has is read beside that form.

ghost use Rattle.std.specs.Prelude.{◌<◌, ◌≤◌, length, OnOk};
ghost use Rattle.model_text.specs.RawView.{raw_tree};
ghost use Rattle.model_text.specs.Reading.{Gives, left};
ghost use Rattle.model_text.specs.StatementReading.{names_at, declared_name_at, pair_at, group_at, part_at, body_at, side_at, body_behind};

use crate::cursor::{Cursor, Fault};
use crate::formula_reader::{formula, iff_formula};
use crate::raw_formula::RawFormula;
use model_tokens::Sign;
use state_space::{Keyword, Name};
use std::alloc::Global;

/// Names with commas between them.
#[tactic(auto, unfolding(crate::specs::Readers::listed_at))]
pub(crate) fn names(alloc: Global, cursor: &mut Cursor<'_, '_>) -> Result<Vec<Name>, Fault>
    ensures exact { Gives (λ ns. ns.items) result (left cursor.new) (names_at (left cursor.old)) }
    ensures shorter { OnOk result (length (left cursor.new) < length (left cursor.old)) }
{
    let mut names = Vec::new(alloc);
    names.push(cursor.name(alloc)?)?;
    'names: while cursor.take_mark(Sign::Comma) {
        names.push(cursor.name(alloc)?)?;
    }
    Ok(names)
}

/// A name and a colon.
#[tactic(auto, unfolding(crate::specs::StatementReading::declared_name_at, crate::specs::Readers::after, crate::specs::Readers::counted))]
pub(crate) fn declared_name(alloc: Global, cursor: &mut Cursor<'_, '_>) -> Result<Name, Fault>
    ensures exact { Gives (λ n. n) result (left cursor.new) (declared_name_at (left cursor.old)) }
    ensures shorter { OnOk result (length (left cursor.new) < length (left cursor.old)) }
{
    let name = cursor.name(alloc)?;
    cursor.mark(Sign::Colon)?;
    Ok(name)
}

/// Two names with a keyword between them.
#[tactic(auto, unfolding(crate::specs::StatementReading::pair_at, crate::specs::Readers::after, crate::specs::Readers::counted))]
pub(crate) fn pair(
    alloc: Global,
    cursor: &mut Cursor<'_, '_>,
    between: Keyword,
) -> Result<(Name, Name), Fault>
    ensures exact { Gives (λ p. p) result (left cursor.new) (pair_at between (left cursor.old)) }
    ensures shorter { OnOk result (length (left cursor.new) < length (left cursor.old)) }
{
    let first = cursor.name(alloc)?;
    cursor.keyword(between)?;
    let second = cursor.name(alloc)?;
    Ok((first, second))
}

/// A name, and behind `by` the names that belong to it.
#[tactic(auto, unfolding(crate::specs::StatementReading::group_at, crate::specs::Readers::after, crate::specs::Readers::counted))]
pub(crate) fn group(alloc: Global, cursor: &mut Cursor<'_, '_>) -> Result<(Name, Vec<Name>), Fault>
    ensures exact { Gives (λ p. (p.0, p.1.items)) result (left cursor.new) (group_at (left cursor.old)) }
    ensures shorter { OnOk result (length (left cursor.new) < length (left cursor.old)) }
{
    let name = cursor.name(alloc)?;
    cursor.keyword(Keyword::By)?;
    let members = names(alloc, cursor)?;
    Ok((name, members))
}

/// Names behind a keyword, which are none where the keyword does not come next.
#[tactic(auto, unfolding(crate::specs::StatementReading::part_at, crate::specs::Readers::if_word))]
pub(crate) fn part(
    alloc: Global,
    cursor: &mut Cursor<'_, '_>,
    word: Keyword,
) -> Result<Vec<Name>, Fault>
    ensures exact { Gives (λ ns. ns.items) result (left cursor.new) (part_at word (left cursor.old)) }
    ensures shorter { OnOk result (length (left cursor.new) ≤ length (left cursor.old)) }
{
    if cursor.take_keyword(word) {
        return names(alloc, cursor);
    }
    Ok(Vec::new(alloc))
}

/// A whole formula.
pub(crate) fn body(alloc: Global, cursor: &mut Cursor<'_, '_>) -> Result<RawFormula, Fault>
    ensures exact { Gives raw_tree result (left cursor.new) (body_at (left cursor.old)) }
    ensures shorter { OnOk result (length (left cursor.new) < length (left cursor.old)) }
{
    let depth = cursor.rest.len();
    formula(alloc, cursor, depth)
}

/// A formula up to an `entails`.
pub(crate) fn side(alloc: Global, cursor: &mut Cursor<'_, '_>) -> Result<RawFormula, Fault>
    ensures exact { Gives raw_tree result (left cursor.new) (side_at (left cursor.old)) }
    ensures shorter { OnOk result (length (left cursor.new) < length (left cursor.old)) }
{
    let depth = cursor.rest.len();
    iff_formula(alloc, cursor, depth)
}

/// A whole formula behind a keyword that has to come next.
#[tactic(auto, unfolding(crate::specs::StatementReading::body_behind, crate::specs::Readers::after))]
pub(crate) fn body_behind(
    alloc: Global,
    cursor: &mut Cursor<'_, '_>,
    word: Keyword,
) -> Result<RawFormula, Fault>
    ensures exact { Gives raw_tree result (left cursor.new) (body_behind word (left cursor.old)) }
    ensures shorter { OnOk result (length (left cursor.new) < length (left cursor.old)) }
{
    cursor.keyword(word)?;
    body(alloc, cursor)
}
