//! Runs, and the blocks of tables that say what is due of them. A block is a name, the lines of a text, `-> ` with the status, and the
//! lines of the output. In a report with all evidence, a line that begins with two blanks stands where a trace is printed, which is not
//! compared: it names the goals and properties that the trace has to make true, and those, behind `not`, that it has to make false.

use crate::evidence::are_shown;
use crate::texts::{bytes_of, compare, cut, holds, model_in};
use entailment::Engine;
use kaos_program::run;
use source_sink::{MemorySink, MemorySource, Source};
use std::alloc::{AllocError, Global};
use std::process::Abort;
use std::str;
use std::test::Fail;
use tableau_rules::Answerer;
use verdict_report::Report;

/// The words for a report without evidence.
pub(crate) const LINES: &str = "[check] [--form] [lines]";

// More bytes than any output has, and than a text may have by one.
const ROOM: usize = 1_048_577;

// The words that stand in brackets.
fn words_of(alloc: Global, cell: &str) -> Result<Vec<String>, AllocError> {
    let mut words = Vec::new(alloc);
    for part in cell.split("[") {
        if let Some((word, _)) = part.split_once("]") {
            words.push(String::from_str(alloc, word)?)?;
        }
    }
    Ok(words)
}

/// What a run gave: a line with the status and the output behind it, and the report.
#[derive(Drop)]
pub(crate) struct Given {
    pub(crate) answer: String,
    pub(crate) report: Option<Report>,
}

fn answer_text(alloc: Global, status: u8, output: &[u8]) -> Result<String, Fail> {
    let output = str::from_utf8(output)?;
    Ok(format!(in alloc; "{status}\n{output}")?)
}

/// A run by an answerer on what a source has, into a sink that holds nothing before.
pub(crate) fn given_into<A: Answerer, S: Source>(
    alloc: Global,
    answerer: &A,
    words: &str,
    source: &mut S,
    sink: &mut MemorySink,
) -> Result<Given, Fail> {
    let words = words_of(alloc, words)?;
    let outcome = run(alloc, answerer, &words, source, sink);
    Ok(Given {
        answer: answer_text(alloc, outcome.status.code(), sink.bytes())?,
        report: outcome.report,
    })
}

/// A run on what a source has, with a sink that never fails.
pub(crate) fn given_by<S: Source>(
    alloc: Global,
    words: &str,
    source: &mut S,
) -> Result<Given, Fail> {
    let mut sink = MemorySink::new(alloc, ROOM, ROOM, Vec::new(alloc))?;
    given_into(alloc, &Engine, words, source, &mut sink)
}

/// A run on bytes.
pub(crate) fn given_for(alloc: Global, words: &str, bytes: &[u8]) -> Result<Given, Fail> {
    let bytes = Vec::from_slice(alloc, bytes)?;
    let mut source = MemorySource::new(bytes, ROOM, Vec::new(alloc));
    given_by(alloc, words, &mut source)
}

// The lines but for those where evidence stands.
fn without_evidence(alloc: Global, answer: &str) -> Result<String, AllocError> {
    let mut kept = String::new(alloc);
    for line in answer.split_inclusive("\n") {
        if !line.starts_with("  ") {
            kept.push_str(line)?;
        }
    }
    Ok(kept)
}

// An answer is what is due, but for evidence.
fn compare_verdicts(
    rt: &impl Abort,
    alloc: Global,
    name: &str,
    answer: &str,
    due: &str,
) -> Result<(), AllocError> {
    let answer = without_evidence(alloc, answer)?;
    let due = without_evidence(alloc, due)?;
    compare(rt, name, &answer, &due);
    Ok(())
}

// The evidence of a report on a text, where there is one, is what is due.
fn compare_evidence(
    rt: &impl Abort,
    alloc: Global,
    name: &str,
    bytes: &[u8],
    report: &Option<Report>,
    due: &str,
) -> Result<(), Fail> {
    let Some(report) = report else {
        return Ok(());
    };
    let model = model_in(rt, alloc, bytes)?;
    holds(rt, name, are_shown(alloc, &model, report, due)?);
    Ok(())
}

// A report with all evidence has the verdicts that are due, and shows what is due.
fn shows_all(
    rt: &impl Abort,
    alloc: Global,
    name: &str,
    bytes: &[u8],
    given: &Given,
    due: &str,
) -> Result<(), Fail> {
    compare_verdicts(rt, alloc, name, &given.answer, due)?;
    compare_evidence(rt, alloc, name, bytes, &given.report, due)
}

/// A run on an accepted text gives what is due. Only `check` gives a report.
pub(crate) fn gives(
    rt: &impl Abort,
    alloc: Global,
    name: &str,
    words: &str,
    bytes: &[u8],
    due: &str,
) -> Result<(), Fail> {
    let given = given_for(alloc, words, bytes)?;
    holds(
        rt,
        name,
        given.report.is_some() == words.starts_with("[check]"),
    );
    if words == "[check]" {
        return shows_all(rt, alloc, name, bytes, &given, due);
    }
    compare(rt, name, &given.answer, due);
    Ok(())
}

/// A run on the text of a block gives what the block says.
pub(crate) fn answers(
    rt: &impl Abort,
    alloc: Global,
    words: &str,
    block: &str,
) -> Result<(), Fail> {
    let (asked, due) = cut(block, "\n-> ")?;
    let (name, text) = cut(asked, "\n")?;
    let bytes = bytes_of(alloc, "", text)?;
    gives(rt, alloc, name, words, &bytes, due)
}

/// The answer to each block of a table.
pub(crate) fn all_answer(
    rt: &impl Abort,
    alloc: Global,
    words: &str,
    table: &str,
) -> Result<(), Fail> {
    for block in table.split("\n== ").skip(1) {
        answers(rt, alloc, words, block)?;
    }
    Ok(())
}
