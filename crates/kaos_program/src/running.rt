//! A run, from the bytes that are read to those that are written: the one place that reads and
//! writes, and whose clause is the theorem of the README. Nothing is written before the whole
//! answer is there, so that a fault leaves no half answer but a front of one.

ghost use Rattle.std.specs.Prelude.{◌≡◌, None};
ghost use Rattle.kaos_program.specs.Headline.{end_of, Headline};
ghost use Rattle.kaos_program.specs.Finishing.{Finishes};

use crate::answer::answer_to;
use crate::options::command_of;
use crate::reading::MOST_BYTES;
use crate::status::Status;
use source_sink::{Memory, ReadAll, Sink, Source, WriteFault, read_all, write_all_of};
use std::alloc::Global;
use tableau_rules::Answerer;
use verdict_report::Report;

/// The commands with their options, a line for each.
const USAGE: &[u8] =
    b"usage: kaos check [--budget N] [--form full|brief|lines]\n       kaos regress --goal NAME [--depth N] [--budget N]\n       kaos trace\n";

/// How a run ends. The report is there under `check` where the text was accepted, also where a write failed.
#[derive(Drop)]
pub struct Outcome {
    pub status: Status,
    pub report: Option<Report>,
}

impl Outcome {
    /// The status, for a caller that does not look at the report.
    pub fn into_status(self) -> Status
        ensures { result ≡ self.status }
    {
        self.status
    }
}

fn without_report(status: Status) -> Outcome
    ensures status { result.status ≡ status }
    ensures report { result.report ≡ None }
{
    Outcome {
        status,
        report: None,
    }
}

// Writes an output that is due.
fn finish<K: Sink>(sink: &mut K, due: Outcome, output: &[u8]) -> Outcome
    ensures report { result.report ≡ due.report }
    ensures finished { Finishes (K.held sink.old) (K.held sink.new) (K.faults sink.old) (K.faults sink.new) due.status result.status output.now }
{
    match write_all_of(sink, output) {
        Ok(()) => due,
        Err(WriteFault) => Outcome {
            status: Status::WriteFault,
            report: due.report,
        },
    }
}

/// One run of `kaos`: the words are looked at, the source is read to its end, and the output is written. The answerer decides the
/// demands.
pub fn run<A: Answerer, S: Source, K: Sink>(
    alloc: Global,
    answerer: &A,
    words: &[String],
    source: &mut S,
    sink: &mut K,
) -> Outcome
    ensures { Headline words.now (end_of (S.left source.old) (S.faults source.old)) (end_of (S.left source.new) (S.faults source.new)) (end_of (K.held sink.old) (K.faults sink.old)) (end_of (K.held sink.new) (K.faults sink.new)) result }
{
    let Some(command) = command_of(words) else {
        return finish(sink, without_report(Status::BadWords), USAGE);
    };
    let bytes = match read_all(alloc, source, MOST_BYTES) {
        Ok(bytes) => bytes,
        Err(ReadAll::TooLong) => {
            let refused = without_report(Status::Refused);
            return finish(sink, refused, b"refused: longer than 1048576 bytes\n");
        }
        Err(ReadAll::ReadFault) => return without_report(Status::ReadFault),
        Err(ReadAll::Memory) => return without_report(Status::OutOfMemory),
    };
    match answer_to(alloc, answerer, command, &bytes) {
        Ok(answer) => {
            let due = Outcome {
                status: answer.status,
                report: answer.report,
            };
            finish(sink, due, &answer.output)
        }
        Err(Memory) => without_report(Status::OutOfMemory),
    }
}
