//! The written form of a list of statements: each on a line of its own, in order.

ghost use Rattle.std.specs.Prelude.{◌≡◌, ◌∷◌, ◌++◌, [], true, IfOk, OnOk, ℕ, List};
ghost use Rattle.std.specs.List.{flat_map};
ghost use Rattle.state_space.specs.Ranges.{form_of};
ghost use Rattle.model_text.specs.RawView.{raw_tree};
ghost use Rattle.model_text.specs.FormulaGrammar.{whole_level, iff_level};
ghost use Rattle.model_tokens.specs.Tokens.{keyword, mark, name as name_form};
ghost use Rattle.model_tokens.specs.declared.token.Sign.TheVariants.{Colon};
ghost use Rattle.model_text.specs.Statements.{StatementForm, statement_of, statements_of, entity_type, attribute, rule, conflict, agent, operation, requirement};
ghost use Rattle.model_text.specs.Readability.{IsReadable};
ghost use Rattle.model_text.specs.Writing.{whole_tokens, formula_tokens, statement_tokens};
ghost use Rattle.model_text.specs.Layout.{written_statement, written_text};
ghost use Rattle.model_text.specs.Lines.{with_tokens};

use crate::formula_writer::formula;
use crate::level::Level;
use crate::line::Line;
use crate::part_writer::{declared_name, exact, group, names, pair, part, pattern, range, role};
use crate::raw_formula::RawFormula;
use crate::statement::{RawModel, Role, Statement, StatementKind};
use crate::trace_writer::trace;
use model_tokens::{Further, Sign};
use source_sink::Memory;
use state_space::{Keyword, Name, Range};
use std::alloc::Global;

/// A whole formula behind a keyword.
fn body_behind(line: &mut Line, word: Keyword, body: &RawFormula) -> Result<(), Memory>
    ensures { OnOk result (line.new ≡ with_tokens line.old (keyword word ∷ whole_tokens (raw_tree body.now))) }
{
    line.keyword(word)?;
    formula(line, Level::Whole, body)
}

/// A statement with a whole formula behind its declared_name.
fn labelled(line: &mut Line, word: Keyword, name: &Name, body: &RawFormula) -> Result<(), Memory>
    ensures { OnOk result (line.new ≡ with_tokens line.old (keyword word ∷ name_form name.now ∷ mark Colon ∷ whole_tokens (raw_tree body.now))) }
{
    declared_name(line, word, name)?;
    formula(line, Level::Whole, body)
}

/// An entity type with its members.
#[tactic(auto, using(crate::proofs::LineLaws::with_both), unfolding(crate::specs::Writing::statement_tokens))]
fn entity_type(line: &mut Line, name: &Name, members: &[Name]) -> Result<(), Memory>
    ensures { OnOk result (line.new ≡ with_tokens line.old (statement_tokens (entity_type name.now members.now))) }
{
    line.further(Further::Entity)?;
    line.name(name)?;
    line.mark(Sign::Colon)?;
    line.mark(Sign::OpenBrace)?;
    names(line, members)?;
    line.mark(Sign::CloseBrace)
}

/// An attribute with its type and its range.
#[tactic(auto, using(crate::proofs::LineLaws::with_both), unfolding(crate::specs::Writing::statement_tokens))]
fn attribute(line: &mut Line, name: &Name, entity: &Name, values: &Range) -> Result<(), Memory>
    ensures { OnOk result (line.new ≡ with_tokens line.old (statement_tokens (attribute name.now entity.now (form_of values.now)))) }
{
    line.further(Further::Attr)?;
    line.name(name)?;
    line.keyword(Keyword::Of)?;
    line.name(entity)?;
    line.mark(Sign::Colon)?;
    range(line, values)
}

/// A rule with its cause and its effect.
#[tactic(auto, using(crate::proofs::LineLaws::with_both), unfolding(crate::specs::Writing::statement_tokens))]
fn rule(line: &mut Line, name: &Name, cause: &RawFormula, effect: &RawFormula) -> Result<(), Memory>
    ensures { OnOk result (line.new ≡ with_tokens line.old (statement_tokens (rule name.now (raw_tree cause.now) (raw_tree effect.now)))) }
{
    declared_name(line, Keyword::Rule, name)?;
    formula(line, Level::Iff, cause)?;
    line.keyword(Keyword::Entails)?;
    formula(line, Level::Iff, effect)
}

/// A conflict with its goals and its boundary.
#[tactic(auto, using(crate::proofs::LineLaws::with_both), unfolding(crate::specs::Writing::statement_tokens))]
fn conflict(
    line: &mut Line,
    name: &Name,
    goals: &[Name],
    boundary: &RawFormula,
) -> Result<(), Memory>
    ensures { OnOk result (line.new ≡ with_tokens line.old (statement_tokens (conflict name.now goals.now (raw_tree boundary.now)))) }
{
    declared_name(line, Keyword::Conflict, name)?;
    names(line, goals)?;
    body_behind(line, Keyword::Boundary, boundary)
}

/// An agent with what it monitors and what it controls.
#[tactic(auto, using(crate::proofs::LineLaws::with_both), unfolding(crate::specs::Writing::statement_tokens))]
fn agent(
    line: &mut Line,
    name: &Name,
    monitored: &[Name],
    controlled: &[Name],
) -> Result<(), Memory>
    ensures { OnOk result (line.new ≡ with_tokens line.old (statement_tokens (agent name.now monitored.now controlled.now))) }
{
    line.keyword(Keyword::Agent)?;
    line.name(name)?;
    part(line, Keyword::Monitors, monitored)?;
    part(line, Keyword::Controls, controlled)
}

/// An operation with what holds before it and after it.
#[tactic(auto, using(crate::proofs::LineLaws::with_both), unfolding(crate::specs::Writing::statement_tokens))]
fn operation(
    line: &mut Line,
    name: &Name,
    agent: &Name,
    before: &RawFormula,
    after: &RawFormula,
) -> Result<(), Memory>
    ensures { OnOk result (line.new ≡ with_tokens line.old (statement_tokens (operation name.now agent.now (raw_tree before.now) (raw_tree after.now)))) }
{
    pair(line, Keyword::Operation, name, Keyword::By, agent)?;
    body_behind(line, Keyword::Dompre, before)?;
    body_behind(line, Keyword::Dompost, after)
}

/// A requirement on an operation.
#[tactic(auto, using(crate::proofs::LineLaws::with_both), unfolding(crate::specs::Writing::statement_tokens))]
fn requirement(
    line: &mut Line,
    name: &Name,
    operation: &Name,
    asked: Role,
    body: &RawFormula,
) -> Result<(), Memory>
    ensures { OnOk result (line.new ≡ with_tokens line.old (statement_tokens (requirement name.now operation.now asked (raw_tree body.now)))) }
{
    pair(line, Keyword::Require, name, Keyword::On, operation)?;
    role(line, asked)?;
    formula(line, Level::Whole, body)
}

/// The tokens of a statement before its semicolon.
#[tactic(auto, using(crate::proofs::LineLaws::with_both), unfolding(crate::specs::Writing::statement_tokens))]
fn statement(line: &mut Line, kind: &StatementKind) -> Result<(), Memory>
    ensures { OnOk result (line.new ≡ with_tokens line.old (statement_tokens (statement_of kind.now))) }
{
    match kind {
        StatementKind::Version(number) => {
            line.keyword(Keyword::Kaos)?;
            line.number(*number as i64)
        }
        StatementKind::Var(x, values) => {
            declared_name(line, Keyword::Var, x)?;
            range(line, values)
        }
        StatementKind::Entity(x, members) => entity_type(line, x, members),
        StatementKind::Attr(x, entity, values) => attribute(line, x, entity, values),
        StatementKind::Domain(x, body) => labelled(line, Keyword::Domain, x, body),
        StatementKind::Rule(x, cause, effect) => rule(line, x, cause, effect),
        StatementKind::Goal(x, body) => labelled(line, Keyword::Goal, x, body),
        StatementKind::Obstacle(x, body) => labelled(line, Keyword::Obstacle, x, body),
        StatementKind::Refine(x, subgoals, name) => {
            group(line, Keyword::Refine, x, subgoals)?;
            pattern(line, name)
        }
        StatementKind::Obstruct(x, obstacles) => group(line, Keyword::Obstruct, x, obstacles),
        StatementKind::Conflict(x, goals, boundary) => conflict(line, x, goals, boundary),
        StatementKind::Agent(x, monitored, controlled) => agent(line, x, monitored, controlled),
        StatementKind::Assign(x, y) => pair(line, Keyword::Assign, x, Keyword::To, y),
        StatementKind::Expect(x, y) => pair(line, Keyword::Expect, x, Keyword::Of, y),
        StatementKind::Operation(x, y, before, after) => operation(line, x, y, before, after),
        StatementKind::Require(x, y, asked, body) => requirement(line, x, y, *asked, body),
        StatementKind::Operationalise(x, requirements, is_exact) => {
            group(line, Keyword::Operationalise, x, requirements)?;
            exact(line, *is_exact)
        }
        StatementKind::Trace(x, prefix, cycle) => trace(line, x, prefix, cycle),
    }
}

/// A statement on a line of its own, behind the lines before it.
fn put_statement(alloc: Global, out: &mut Vec<u8>, written: &Statement) -> Result<(), Memory>
    ensures { OnOk result (out.new.items ≡ out.old.items ++ written_statement (statement_of written.now.kind)) }
{
    let mut line = Line::new(alloc);
    statement(&mut line, &written.kind)?;
    line.mark(Sign::Semicolon)?;
    out.extend_from_slice(line.bytes())?;
    out.push(b'\n')?;
    Ok(())
}

/// Statements, each on a line of its own, behind the lines before them.
fn put_statements(alloc: Global, out: &mut Vec<u8>, written: &[Statement]) -> Result<(), Memory>
    ensures { OnOk result (out.new.items ≡ out.old.items ++ flat_map (λ s. written_statement (statement_of s.kind)) written.now) }
{
    'statements: for statement in written {
        put_statement(alloc, out, statement)?;
    }
    Ok(())
}

/// The written form of the statements of a model, which reads as the same statements: for whoever keeps a model as a text,
/// or compares two models by their text. Only memory can be wanting.
#[tactic(auto, using(crate::proofs::LineLaws::written_lines))]
pub fn model_text(alloc: Global, raw: &RawModel) -> Result<Vec<u8>, Memory>
    ensures text { IfOk result (λ out. out.items ≡ written_text (statements_of raw.now)) }
{
    let mut out = Vec::new(alloc);
    put_statements(alloc, &mut out, &raw.statements)?;
    Ok(out)
}

/// Where bytes are readable as statements, the written text of these statements is readable as the same statements.
pub fn law_of_writing()
    ensures { (bytes : List ℕ) (ss : List StatementForm) → IsReadable bytes ss → IsReadable (written_text ss) ss }
{}
