//! What runs do where reads or writes fail, or where whoever answers finds no memory.

use crate::runs::{given_by, given_into};
use crate::texts::{compare, cut, holds, number};
use entailment::Engine;
use source_sink::{Memory, MemorySink, MemorySource, SteadySource};
use state_space::Space;
use std::alloc::{AllocError, Global};
use std::process::Abort;
use std::test::Fail;
use tableau_rules::{Answer, Answerer, Query};

// A text of 84 bytes.
const TEXT: &str =
    "kaos 1; var a: bool; var b: bool; goal P: always a; goal Q: always b; refine P by Q;";

// The read that fails, where a read gives 16 bytes.
const READS: &str = "\
the first read | 1
the second | 2
the last, at the end of the text | 7";

fn failing_source(alloc: Global, failing: u64) -> Result<MemorySource, AllocError> {
    let text = Vec::from_slice(alloc, TEXT.as_bytes())?;
    let failing = Vec::from_slice(alloc, &[failing])?;
    Ok(MemorySource::new(text, 16, failing))
}

fn fails_at_read(rt: &impl Abort, alloc: Global, name: &str, failing: u64) -> Result<(), Fail> {
    let mut source = failing_source(alloc, failing)?;
    let given = given_by(alloc, "[check]", &mut source)?;
    compare(rt, name, &given.answer, "4\n");
    holds(rt, name, given.report.is_none());
    Ok(())
}

#[test]
fn read_faults(rt: HostRuntime) -> Result<(), Fail> {
    for row in READS.lines() {
        let (name, failing) = cut(row, " | ")?;
        fails_at_read(&rt, rt.alloc(), name, number(failing)? as u64)?;
    }
    Ok(())
}

// The words, the text, the room of the sink, the write that fails, where a write takes 8 bytes, and the front of the output that the
// sink holds then.
const WRITES: &str = "\
the first write | [check] | kaos 1; var a: bool; var b: bool; goal P: always a; goal Q: always b; refine P by Q; | 1048576 | 1 | ..
the third write | [check] | kaos 1; var a: bool; var b: bool; goal P: always a; goal Q: always b; refine P by Q; | 1048576 | 3 | kaos report 1 bu..
no room left | [check] | kaos 1; var a: bool; var b: bool; goal P: always a; goal Q: always b; refine P by Q; | 20 | 99 | kaos report 1 budget..
a refusal | [check] | kaos 3; | 1048576 | 2 | refused:..
a truth | [trace] | kaos 1; | 1048576 | 2 | kaos tra..
the usage text | [help] | kaos 1; var a: bool; var b: bool; goal P: always a; goal Q: always b; refine P by Q; | 1048576 | 2 | usage: k..";

fn failing_sink(alloc: Global, room: usize, failing: u64) -> Result<MemorySink, Memory> {
    MemorySink::new(alloc, room, 8, Vec::from_slice(alloc, &[failing])?)
}

fn steady_source(alloc: Global, text: &str) -> Result<SteadySource, AllocError> {
    Ok(SteadySource::new(Vec::from_slice(alloc, text.as_bytes())?))
}

// Status 5, and a front of the output, behind which stands `..`.
fn is_fault(rt: &impl Abort, name: &str, answer: &str, front: &str) -> Result<(), Fail> {
    let (status, held) = cut(answer, "\n")?;
    compare(rt, name, status, "5");
    let (front, _) = cut(front, "..")?;
    compare(rt, name, held, front);
    Ok(())
}

fn fails(
    rt: &impl Abort,
    alloc: Global,
    name: &str,
    words: &str,
    text: &str,
    fault: &str,
) -> Result<(), Fail> {
    let (room, rest) = cut(fault, " | ")?;
    let (failing, front) = cut(rest, " | ")?;
    let mut sink = failing_sink(alloc, number(room)?, number(failing)? as u64)?;
    let mut source = steady_source(alloc, text)?;
    let given = given_into(alloc, &Engine, words, &mut source, &mut sink)?;
    is_fault(rt, name, &given.answer, front)
}

fn fails_at_write(rt: &impl Abort, alloc: Global, row: &str) -> Result<(), Fail> {
    let (name, rest) = cut(row, " | ")?;
    let (words, rest) = cut(rest, " | ")?;
    let (text, fault) = cut(rest, " | ")?;
    fails(rt, alloc, name, words, text, fault)
}

#[test]
fn write_faults(rt: HostRuntime) -> Result<(), Fail> {
    for row in WRITES.lines() {
        fails_at_write(&rt, rt.alloc(), row)?;
    }
    Ok(())
}

// An answerer that finds no memory.
struct Poor;

impl Answerer for Poor {
    fn answer(&self, _: Global, _: &Space, _: &Query, _: u32) -> Result<Answer, Memory> {
        Err(Memory)
    }
}

// Nothing is written.
#[test]
fn want_of_memory(rt: HostRuntime) -> Result<(), Fail> {
    let alloc = rt.alloc();
    let mut source = steady_source(alloc, TEXT)?;
    let mut sink = failing_sink(alloc, 100, 99)?;
    let given = given_into(alloc, &Poor, "[check]", &mut source, &mut sink)?;
    compare(&rt, "want of memory", &given.answer, "7\n");
    holds(&rt, "want of memory", given.report.is_none());
    Ok(())
}
