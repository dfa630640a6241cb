//! Readers of the statements on agents and their operations, one for each form of
//! specs/Grammar.antt: each begins behind the keyword, and gives what the form of this name in
//! specs/StatementReading.antt gives.

ghost use Rattle.std.specs.Prelude.{◌<◌, length, OnOk};
ghost use Rattle.model_text.specs.Statements.{statement_of};
ghost use Rattle.model_text.specs.Reading.{Gives, left};
ghost use Rattle.model_text.specs.StatementReading.{agent_at, assignment_at, expectation_at, operation_at, role_at, requirement_at, operationalisation_at};

use crate::cursor::{Cursor, Fault};
use crate::part_reader::{body, body_behind, group, pair, part};
use crate::statement::{Role, StatementKind};
use state_space::Keyword;
use std::alloc::Global;

/// `NAME monitors NAMES controls NAMES`
#[tactic(auto, unfolding(crate::specs::StatementReading::agent_at, crate::specs::Readers::after, crate::specs::Readers::counted))]
pub(crate) fn agent(alloc: Global, cursor: &mut Cursor<'_, '_>) -> Result<StatementKind, Fault>
    ensures exact { Gives statement_of result (left cursor.new) (agent_at (left cursor.old)) }
    ensures shorter { OnOk result (length (left cursor.new) < length (left cursor.old)) }
{
    let name = cursor.name(alloc)?;
    let monitored = part(alloc, cursor, Keyword::Monitors)?;
    let controlled = part(alloc, cursor, Keyword::Controls)?;
    Ok(StatementKind::Agent(name, monitored, controlled))
}

/// `NAME to NAME`
#[tactic(auto, unfolding(crate::specs::StatementReading::assignment_at, crate::specs::Readers::counted))]
pub(crate) fn assignment(alloc: Global, cursor: &mut Cursor<'_, '_>) -> Result<StatementKind, Fault>
    ensures exact { Gives statement_of result (left cursor.new) (assignment_at (left cursor.old)) }
    ensures shorter { OnOk result (length (left cursor.new) < length (left cursor.old)) }
{
    let (goal, agent) = pair(alloc, cursor, Keyword::To)?;
    Ok(StatementKind::Assign(goal, agent))
}

/// `NAME of NAME`
#[tactic(auto, unfolding(crate::specs::StatementReading::expectation_at, crate::specs::Readers::counted))]
pub(crate) fn expectation(
    alloc: Global,
    cursor: &mut Cursor<'_, '_>,
) -> Result<StatementKind, Fault>
    ensures exact { Gives statement_of result (left cursor.new) (expectation_at (left cursor.old)) }
    ensures shorter { OnOk result (length (left cursor.new) < length (left cursor.old)) }
{
    let (goal, agent) = pair(alloc, cursor, Keyword::Of)?;
    Ok(StatementKind::Expect(goal, agent))
}

/// `NAME by NAME dompre FORMULA dompost FORMULA`
#[tactic(auto, unfolding(crate::specs::StatementReading::operation_at, crate::specs::Readers::after, crate::specs::Readers::counted))]
pub(crate) fn operation(alloc: Global, cursor: &mut Cursor<'_, '_>) -> Result<StatementKind, Fault>
    ensures exact { Gives statement_of result (left cursor.new) (operation_at (left cursor.old)) }
    ensures shorter { OnOk result (length (left cursor.new) < length (left cursor.old)) }
{
    let (name, agent) = pair(alloc, cursor, Keyword::By)?;
    let before = body_behind(alloc, cursor, Keyword::Dompre)?;
    let after = body_behind(alloc, cursor, Keyword::Dompost)?;
    Ok(StatementKind::Operation(name, agent, before, after))
}

// "pre" | "trig" | "post"
#[tactic(auto, unfolding(crate::specs::StatementReading::role_at, crate::specs::Readers::if_word))]
fn role(cursor: &mut Cursor<'_, '_>) -> Result<Role, Fault>
    ensures exact { Gives (λ r. r) result (left cursor.new) (role_at (left cursor.old)) }
    ensures shorter { OnOk result (length (left cursor.new) < length (left cursor.old)) }
{
    if cursor.take_keyword(Keyword::Pre) {
        return Ok(Role::Pre);
    }
    if cursor.take_keyword(Keyword::Trig) {
        return Ok(Role::Trig);
    }
    if cursor.take_keyword(Keyword::Post) {
        return Ok(Role::Post);
    }
    Err(Fault::Syntax)
}

/// `NAME on NAME`, its role and its formula
#[tactic(auto, unfolding(crate::specs::StatementReading::requirement_at, crate::specs::Readers::after, crate::specs::Readers::counted))]
pub(crate) fn requirement(
    alloc: Global,
    cursor: &mut Cursor<'_, '_>,
) -> Result<StatementKind, Fault>
    ensures exact { Gives statement_of result (left cursor.new) (requirement_at (left cursor.old)) }
    ensures shorter { OnOk result (length (left cursor.new) < length (left cursor.old)) }
{
    let (name, operation) = pair(alloc, cursor, Keyword::On)?;
    let role = role(cursor)?;
    let formula = body(alloc, cursor)?;
    Ok(StatementKind::Require(name, operation, role, formula))
}

/// `NAME by NAMES`, and whether `exact` stands at the end
#[tactic(auto, unfolding(crate::specs::StatementReading::operationalisation_at, crate::specs::StatementReading::exact_at, crate::specs::Readers::after, crate::specs::Readers::counted, crate::specs::Readers::if_word))]
pub(crate) fn operationalisation(
    alloc: Global,
    cursor: &mut Cursor<'_, '_>,
) -> Result<StatementKind, Fault>
    ensures exact { Gives statement_of result (left cursor.new) (operationalisation_at (left cursor.old)) }
    ensures shorter { OnOk result (length (left cursor.new) < length (left cursor.old)) }
{
    let (goal, requirements) = group(alloc, cursor)?;
    let exact = cursor.take_keyword(Keyword::Exact);
    Ok(StatementKind::Operationalise(goal, requirements, exact))
}
