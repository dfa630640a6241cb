//! From tokens to statements. What is read is what the definition reads; a fault stands where no
//! text goes on.

ghost use Rattle.std.specs.Prelude.{◌≡◌, ◌+◌, ◌<◌, ◌≤◌, [], ◌∷◌, ◌++◌, length, vec_len, OnOk, IfOk, MatchResult};
ghost use Rattle.model_text.specs.Statements.{statement_of, all_statements, statements_of};
ghost use Rattle.model_text.specs.Reading.{Gives, left};
ghost use Rattle.model_text.specs.FormulaReading.{read_as};
ghost use Rattle.model_text.specs.declared.cursor.Fault.TheVariants.{Memory as MemoryFault};
ghost use Rattle.model_text.specs.StatementReading.{statement_at, ended_statement_at, version_number_at, version_at, text_at};

use crate::agent_reader::{
    agent, assignment, expectation, operation, operationalisation, requirement,
};
use crate::cursor::{Cursor, Fault};
use crate::link_reader::{conflict, obstruction, refinement};
use crate::property_reader::{attribute, domain, entity_type, goal, obstacle, rule, variable};
use crate::statement::{RawModel, Statement, StatementKind};
use crate::trace_reader::trace;
use model_tokens::{Further, Sign, TokenKind};
use state_space::Keyword;
use std::alloc::Global;

fn statement(alloc: Global, cursor: &mut Cursor<'_, '_>) -> Result<StatementKind, Fault>
    ensures exact { Gives statement_of result (left cursor.new) (statement_at (left cursor.old)) }
    ensures shorter { OnOk result (length (left cursor.new) < length (left cursor.old)) }
{
    let rest = cursor.rest;
    if cursor.take_further(Further::Entity) {
        return entity_type(alloc, cursor);
    }
    if cursor.take_further(Further::Attr) {
        return attribute(alloc, cursor);
    }
    if let Some(TokenKind::Keyword(word)) = cursor.next() {
        match word {
            Keyword::Var => return variable(alloc, cursor),
            Keyword::Domain => return domain(alloc, cursor),
            Keyword::Rule => return rule(alloc, cursor),
            Keyword::Goal => return goal(alloc, cursor),
            Keyword::Obstacle => return obstacle(alloc, cursor),
            Keyword::Refine => return refinement(alloc, cursor),
            Keyword::Obstruct => return obstruction(alloc, cursor),
            Keyword::Conflict => return conflict(alloc, cursor),
            Keyword::Agent => return agent(alloc, cursor),
            Keyword::Assign => return assignment(alloc, cursor),
            Keyword::Expect => return expectation(alloc, cursor),
            Keyword::Operation => return operation(alloc, cursor),
            Keyword::Require => return requirement(alloc, cursor),
            Keyword::Operationalise => return operationalisation(alloc, cursor),
            Keyword::Trace => return trace(alloc, cursor),
            _ => {}
        }
    }
    cursor.rest = rest;
    Err(Fault::Syntax)
}

// Appends a statement.
fn add(statements: &mut Vec<Statement>, kind: StatementKind) -> Result<(), Fault>
    ensures added { MatchResult result (λ _. all_statements statements.new.items ≡ all_statements statements.old.items ++ statement_of kind ∷ []) (λ e. e ≡ MemoryFault) }
    ensures count { OnOk result (vec_len statements.new ≡ vec_len statements.old + 1) }
{
    statements.push(Statement { kind })?;
    Ok(())
}

// Appends a statement, whose semicolon comes behind it.
#[tactic(auto, unfolding(crate::specs::StatementReading::ended_statement_at))]
fn ended_statement(
    alloc: Global,
    cursor: &mut Cursor<'_, '_>,
    statements: &mut Vec<Statement>,
) -> Result<(), Fault>
    ensures exact { Gives (λ _. all_statements statements.new.items) result (left cursor.new) (read_as (λ s. all_statements statements.old.items ++ s ∷ []) (ended_statement_at (left cursor.old))) }
    ensures shorter { OnOk result (length (left cursor.new) < length (left cursor.old)) }
    ensures count { OnOk result (vec_len statements.new ≡ vec_len statements.old + 1) }
{
    let kind = statement(alloc, cursor)?;
    add(statements, kind)?;
    cursor.mark(Sign::Semicolon)
}

// The number of the version.
#[tactic(auto, unfolding(crate::specs::StatementReading::version_number_at))]
fn version_number(cursor: &mut Cursor<'_, '_>) -> Result<u8, Fault>
    ensures exact { Gives (λ n. n) result (left cursor.new) (version_number_at (left cursor.old)) }
    ensures shorter { OnOk result (length (left cursor.new) < length (left cursor.old)) }
{
    let rest = cursor.rest;
    if let Some(number) = cursor.take_number() {
        if let Some(version) = number.version() {
            return Ok(version);
        }
    }
    cursor.rest = rest;
    Err(Fault::Syntax)
}

// The statement that opens a text.
#[tactic(auto, unfolding(crate::specs::StatementReading::version_at))]
fn version(cursor: &mut Cursor<'_, '_>) -> Result<u8, Fault>
    ensures shorter { OnOk result (length (left cursor.new) < length (left cursor.old)) }
    ensures exact { Gives (λ n. n) result (left cursor.new) (version_at (left cursor.old)) }
{
    cursor.keyword(Keyword::Kaos)?;
    let version = version_number(cursor)?;
    cursor.mark(Sign::Semicolon)?;
    Ok(version)
}

/// The statements that the tokens of a cursor spell, to its end.
#[tactic(auto, unfolding(crate::specs::StatementReading::text_at))]
pub(crate) fn statements(alloc: Global, cursor: &mut Cursor<'_, '_>) -> Result<RawModel, Fault>
    ensures exact { Gives statements_of result (left cursor.new) (text_at (left cursor.old)) }
    ensures count { IfOk result (λ raw. vec_len raw.statements ≤ length (left cursor.old)) }
{
    let version = version(cursor)?;
    let mut statements = Vec::new(alloc);
    statements.push(Statement {
        kind: StatementKind::Version(version),
    })?;
    'turns: while !cursor.rest.is_empty() {
        ended_statement(alloc, cursor, &mut statements)?;
    }
    Ok(RawModel { statements })
}
