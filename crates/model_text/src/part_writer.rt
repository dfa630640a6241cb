//! Writers of parts that several forms of statement share, and of ranges, patterns and roles: each
//! adds to a line what specs/Writing.antt has for it.

ghost use Rattle.std.specs.Prelude.{◌≡◌, ◌∷◌, ◌++◌, [], OnOk};
ghost use Rattle.state_space.specs.Ranges.{form_of};
ghost use Rattle.model_tokens.specs.Tokens.{keyword, mark, name as name_form};
ghost use Rattle.model_text.specs.Writing.{names_tokens, range_tokens, part_tokens, pattern_tokens, exact_tokens, role_token};
ghost use Rattle.model_text.specs.Lines.{with_token, with_tokens, behind_commas};
ghost use Rattle.model_tokens.specs.declared.token.Sign.TheVariants.{Colon};
ghost use Rattle.state_space.specs.declared.keyword.Keyword.TheVariants as keywords;

use crate::line::Line;
use crate::statement::Role;
use model_tokens::Sign;
use source_sink::Memory;
use state_space::{Keyword, Name, Range};

/// Names, each behind a comma.
fn more_names(line: &mut Line, names: &[Name]) -> Result<(), Memory>
    ensures { OnOk result (line.new ≡ with_tokens line.old (behind_commas (λ x. name_form x ∷ []) names.now)) }
{
    'names: for name in names {
        line.mark(Sign::Comma)?;
        line.name(name)?;
    }
    Ok(())
}

/// Names with commas between them.
pub(crate) fn names(line: &mut Line, names: &[Name]) -> Result<(), Memory>
    ensures { OnOk result (line.new ≡ with_tokens line.old (names_tokens names.now)) }
{
    match names {
        [] => Ok(()),
        [first, rest @ ..] => {
            line.name(first)?;
            more_names(line, rest)
        }
    }
}

/// The beginning of a statement up to its colon.
pub(crate) fn declared_name(line: &mut Line, word: Keyword, name: &Name) -> Result<(), Memory>
    ensures { OnOk result (line.new ≡ with_tokens line.old (keyword word ∷ name_form name.now ∷ mark Colon ∷ [])) }
{
    line.keyword(word)?;
    line.name(name)?;
    line.mark(Sign::Colon)
}

/// The beginning of a statement with a second name behind a keyword.
pub(crate) fn pair(
    line: &mut Line,
    word: Keyword,
    first: &Name,
    between: Keyword,
    second: &Name,
) -> Result<(), Memory>
    ensures { OnOk result (line.new ≡ with_tokens line.old (keyword word ∷ name_form first.now ∷ keyword between ∷ name_form second.now ∷ [])) }
{
    line.keyword(word)?;
    line.name(first)?;
    line.keyword(between)?;
    line.name(second)
}

/// The beginning of a statement with the names that belong to its own behind `by`.
pub(crate) fn group(
    line: &mut Line,
    word: Keyword,
    name: &Name,
    members: &[Name],
) -> Result<(), Memory>
    ensures { OnOk result (line.new ≡ with_tokens line.old (keyword word ∷ name_form name.now ∷ keyword keywords.By ∷ names_tokens members.now)) }
{
    line.keyword(word)?;
    line.name(name)?;
    line.keyword(Keyword::By)?;
    names(line, members)
}

/// Names behind a keyword, where there are some.
#[tactic(auto, using(crate::proofs::LineLaws::some_part))]
pub(crate) fn part(line: &mut Line, word: Keyword, members: &[Name]) -> Result<(), Memory>
    ensures { OnOk result (line.new ≡ with_tokens line.old (part_tokens word members.now)) }
{
    match members {
        [] => Ok(()),
        [_, ..] => {
            line.keyword(word)?;
            names(line, members)
        }
    }
}

/// The values that a variable may have.
#[tactic(auto, using(crate::proofs::LineLaws::with_both))]
pub(crate) fn range(line: &mut Line, range: &Range) -> Result<(), Memory>
    ensures { OnOk result (line.new ≡ with_tokens line.old (range_tokens (form_of range.now))) }
{
    match range {
        Range::Bool => line.keyword(Keyword::Bool),
        Range::Names(values) => {
            line.mark(Sign::OpenBrace)?;
            names(line, values)?;
            line.mark(Sign::CloseBrace)
        }
        Range::Span { lo, hi } => {
            line.number(*lo)?;
            line.mark(Sign::Dots)?;
            line.number(*hi)
        }
    }
}

/// The name of a pattern behind `using`, where there is one.
pub(crate) fn pattern(line: &mut Line, pattern: &Option<Name>) -> Result<(), Memory>
    ensures { OnOk result (line.new ≡ with_tokens line.old (pattern_tokens pattern.now)) }
{
    match pattern {
        None => Ok(()),
        Some(name) => {
            line.keyword(Keyword::Using)?;
            line.name(name)
        }
    }
}

/// `exact`, where a statement says so.
pub(crate) fn exact(line: &mut Line, exact: bool) -> Result<(), Memory>
    ensures { OnOk result (line.new ≡ with_tokens line.old (exact_tokens exact)) }
{
    if exact {
        return line.keyword(Keyword::Exact);
    }
    Ok(())
}

/// The keyword of a role.
pub(crate) fn role(line: &mut Line, role: Role) -> Result<(), Memory>
    ensures { OnOk result (line.new ≡ with_token line.old (role_token role)) }
{
    match role {
        Role::Pre => line.keyword(Keyword::Pre),
        Role::Trig => line.keyword(Keyword::Trig),
        Role::Post => line.keyword(Keyword::Post),
    }
}
