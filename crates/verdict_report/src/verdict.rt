//! From what was found of a demand or of an assignment to its verdict and evidence.

ghost use Rattle.std.specs.Prelude.{◌≡◌, Some, None};
ghost use Rattle.verdict_report.specs.Verdicts.{verdict_of as verdict_form, evidence_of as evidence_form, cover_verdict as cover_verdict_form, cover_evidence as cover_evidence_form};

use crate::report::{Entry, Evidence, Verdict};
use agent_capabilities::Cover;
use goal_model::{Label, PatternKind, Wanted};
use tableau_rules::Answer;

/// The verdict on a demand of whose list this is found.
pub fn verdict_of(wanted: Wanted, answer: &Answer) -> Verdict
    ensures { result ≡ verdict_form wanted answer.now }
{
    match (answer, wanted) {
        (Answer::Empty(_), Wanted::NoTrace) | (Answer::Found(_), Wanted::SomeTrace) => {
            Verdict::Holds
        }
        (Answer::Empty(_), Wanted::SomeTrace) | (Answer::Found(_), Wanted::NoTrace) => {
            Verdict::Fails
        }
        (Answer::Withheld(number), _) => Verdict::Withheld(*number),
    }
}

// What is shown of an answer, which was found by a pattern or by none.
fn evidence_of(by: Option<PatternKind>, answer: Answer) -> Evidence
    ensures { result ≡ evidence_form by answer }
{
    match (by, answer) {
        (None, Answer::Empty(cert)) => Evidence::Elimination(cert),
        (Some(kind), Answer::Empty(cert)) => Evidence::ByPattern(kind, cert),
        (_, Answer::Found(lasso)) => Evidence::Trace(lasso),
        (_, Answer::Withheld(_)) => Evidence::Nothing,
    }
}

/// The entry of a demand of whose list this is found, by the query of a pattern, or of the list where none is given.
pub fn entry(label: Label, wanted: Wanted, by: Option<PatternKind>, answer: Answer) -> Entry
    ensures label { result.label ≡ label }
    ensures wanted { result.wanted ≡ Some wanted }
    ensures verdict { result.verdict ≡ verdict_form wanted answer }
    ensures evidence { result.evidence ≡ evidence_form by answer }
{
    Entry {
        label,
        wanted: Some(wanted),
        verdict: verdict_of(wanted, &answer),
        evidence: evidence_of(by, answer),
    }
}

// The verdict on an assignment to an agent that covers the goal so.
fn cover_verdict(cover: Cover) -> Verdict
    ensures { result ≡ cover_verdict_form cover }
{
    match cover {
        Cover::Covered => Verdict::Holds,
        _ => Verdict::Fails,
    }
}

// What is shown of it.
fn cover_evidence(cover: Cover) -> Evidence
    ensures { result ≡ cover_evidence_form cover }
{
    match cover {
        Cover::Covered => Evidence::Nothing,
        _ => Evidence::Offending(cover),
    }
}

/// The entry of an assignment to an agent that covers the goal so.
pub fn assignment_entry(label: Label, cover: Cover) -> Entry
    ensures label { result.label ≡ label }
    ensures wanted { result.wanted ≡ None }
    ensures verdict { result.verdict ≡ cover_verdict_form cover }
    ensures evidence { result.evidence ≡ cover_evidence_form cover }
{
    Entry {
        label,
        wanted: None,
        verdict: cover_verdict(cover),
        evidence: cover_evidence(cover),
    }
}
