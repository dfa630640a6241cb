//! From the bytes of a text to its model, or to the line that says why there is none.

ghost use Rattle.std.specs.Prelude.{◌≤◌, ℕ, List, All, length, vec_len, IfOk};
ghost use Rattle.model_text.specs.Statements.{StatementForm, statements_of};
ghost use Rattle.model_text.specs.Readability.{IsReadable};
ghost use Rattle.goal_model.specs.WholeDrafts.{IsShallow};
ghost use Rattle.goal_model.specs.Resolution.{outcome_of};
ghost use Rattle.goal_model.specs.Outcomes.{Refuses};
ghost use Rattle.kaos_program.specs.Readings.{ReadsTo};

use crate::refusal_text::{model_refusal, text_refusal};
use goal_model::{Model, ModelRefusal, resolve};
use model_text::{RawModel, read_model};
use source_sink::Memory;
use std::alloc::Global;

/// Bytes that a text may have.
pub(crate) const MOST_BYTES: usize = 1_048_576;

/// What bytes come to before any command.
#[derive(Drop)]
pub(crate) enum Reading {
    /// Their statements, and the model of these.
    Accepted(RawModel, Model),
    /// The line that says why there is none.
    Refused(Vec<u8>),
}

// The line for statements that make no model. Want of memory is no such cause, and comes back as an error.
fn refused_statements(alloc: Global, refusal: ModelRefusal) -> Result<Reading, Memory>
    ensures read { (bytes : List ℕ) (ss : List StatementForm) → length bytes ≤ MOST_BYTES → IsReadable bytes ss → Refuses refusal (outcome_of ss)
        → IfOk result (ReadsTo bytes) }
{
    match refusal {
        ModelRefusal::Refused {
            kind,
            statement,
            name,
        } => Ok(Reading::Refused(model_refusal(alloc, kind, statement, &name)?)),
        ModelRefusal::Memory => Err(Memory),
    }
}

// Looks for the model of statements.
fn resolved(alloc: Global, raw: RawModel) -> Result<Reading, Memory>
    requires few { vec_len raw.statements ≤ 2000 }
    requires shallow { All IsShallow (statements_of raw) }
    ensures read { (bytes : List ℕ) → length bytes ≤ MOST_BYTES → IsReadable bytes (statements_of raw) → IfOk result (ReadsTo bytes) }
{
    match resolve(alloc, &raw) {
        Ok(model) => Ok(Reading::Accepted(raw, model)),
        Err(refusal) => refused_statements(alloc, refusal),
    }
}

/// What bytes within the limit come to.
pub(crate) fn read(alloc: Global, bytes: &[u8]) -> Result<Reading, Memory>
    requires { length bytes.now ≤ MOST_BYTES }
    ensures read { IfOk result (λ reading. ReadsTo bytes.now reading) }
{
    match read_model(alloc, bytes) {
        Ok(raw) => resolved(alloc, raw),
        Err(refusal) => Ok(Reading::Refused(text_refusal(alloc, refusal)?)),
    }
}
