//! The lines that say why a text is refused, or a goal that is asked for: one line each, for whoever edits the text, with the
//! place of a byte, from 0, or the number of a statement, from 1. Their bytes are changed here, in
//! specs/RefusalTexts.antt and in docs/LANGUAGE.md.

ghost use Rattle.std.specs.Prelude.{◌≡◌, ◌++◌, codes, decimal, IfOk};
ghost use Rattle.kaos_program.specs.RefusalTexts.{no_goal as no_goal_of, limit_name as limit_name_of, kind_name as kind_name_of, text_refusal as text_refusal_of, statement_refusal as statement_refusal_of, model_refusal as model_refusal_of};

use goal_model::RefusalKind;
use model_text::{LimitKind, TextRefusal};
use source_sink::{Memory, put, put_decimal};
use state_space::Name;
use std::alloc::Global;

fn limit_name(kind: LimitKind) -> &'static [u8]
    ensures { result.now ≡ limit_name_of kind }
{
    match kind {
        LimitKind::Operators => b"Operators",
        LimitKind::Statements => b"Statements",
        LimitKind::Links => b"Links",
        LimitKind::Parts => b"Parts",
        LimitKind::NameLength => b"NameLength",
        LimitKind::Number => b"Number",
        LimitKind::Bound => b"Bound",
        LimitKind::Depth => b"Depth",
    }
}

// A line with the place of a byte at its end.
fn place_line(alloc: Global, front: &[u8], at: u64) -> Result<Vec<u8>, Memory>
    ensures { IfOk result (λ line. line.items ≡ front.now ++ decimal at ++ codes "\n") }
{
    let mut line = Vec::new(alloc);
    put(&mut line, front)?;
    put_decimal(&mut line, at)?;
    put(&mut line, b"\n")?;
    Ok(line)
}

fn limit_line(alloc: Global, kind: LimitKind) -> Result<Vec<u8>, Memory>
    ensures { IfOk result (λ line. line.items ≡ codes "refused: limit " ++ limit_name_of kind ++ codes "\n") }
{
    let mut line = Vec::new(alloc);
    put(&mut line, b"refused: limit ")?;
    put(&mut line, limit_name(kind))?;
    put(&mut line, b"\n")?;
    Ok(line)
}

/// The line for a text that has no statements. Want of memory is no such cause, and comes back as an error.
pub(crate) fn text_refusal(alloc: Global, refusal: TextRefusal) -> Result<Vec<u8>, Memory>
    ensures line { IfOk result (λ line. line.items ≡ text_refusal_of refusal) }
    ensures cause { IfOk result (λ line. refusal ≡ TextRefusal.Memory → ⊥) }
{
    match refusal {
        TextRefusal::BadByte(at) => place_line(alloc, b"refused: bad byte at ", at),
        TextRefusal::Limit(kind) => limit_line(alloc, kind),
        TextRefusal::Syntax(at) => place_line(alloc, b"refused: syntax at byte ", at),
        TextRefusal::Memory => Err(Memory),
    }
}

fn kind_name(kind: RefusalKind) -> &'static [u8]
    ensures { result.now ≡ kind_name_of kind }
{
    match kind {
        RefusalKind::DuplicateName => b"DuplicateName",
        RefusalKind::UnknownName => b"UnknownName",
        RefusalKind::WrongKind => b"WrongKind",
        RefusalKind::BadValue => b"BadValue",
        RefusalKind::BadRange => b"BadRange",
        RefusalKind::LongName => b"LongName",
        RefusalKind::TooManyVars => b"TooManyVars",
        RefusalKind::TooWide => b"TooWide",
        RefusalKind::NotState => b"NotState",
        RefusalKind::TwoControllers => b"TwoControllers",
        RefusalKind::Cycle => b"Cycle",
        RefusalKind::TooLarge => b"TooLarge",
    }
}

// The line for a statement, by its number from 1 and the words for what is wrong with it.
fn statement_refusal(alloc: Global, number: u32, words: &[u8]) -> Result<Vec<u8>, Memory>
    ensures { IfOk result (λ line. line.items ≡ statement_refusal_of number words.now) }
{
    let mut line = Vec::new(alloc);
    put(&mut line, b"refused: statement ")?;
    put_decimal(&mut line, number as u64)?;
    put(&mut line, b": ")?;
    put(&mut line, words)?;
    put(&mut line, b"\n")?;
    Ok(line)
}

/// The line for statements that make no model: what is wrong with one, its number from 1, and the name at which it is wrong.
pub(crate) fn model_refusal(
    alloc: Global,
    kind: RefusalKind,
    statement: u32,
    name: &Name,
) -> Result<Vec<u8>, Memory>
    ensures { IfOk result (λ line. line.items ≡ model_refusal_of kind statement name.now) }
{
    let mut words = Vec::new(alloc);
    put(&mut words, kind_name(kind))?;
    put(&mut words, b" ")?;
    put(&mut words, name.bytes())?;
    statement_refusal(alloc, statement, &words)
}

/// The line for a goal that the words name and the model has not.
pub(crate) fn no_goal(alloc: Global, name: &str) -> Result<Vec<u8>, Memory>
    ensures { IfOk result (λ line. line.items ≡ no_goal_of name.now) }
{
    let mut line = Vec::new(alloc);
    put(&mut line, b"refused: no goal ")?;
    put(&mut line, name.as_bytes())?;
    put(&mut line, b"\n")?;
    Ok(line)
}
