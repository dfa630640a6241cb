//! What reads and writes give, one after the other: of a source and of a sink in memory, and of
//! whole copies over them and over the standard library's.

use crate::cells::{cell, digits, number, same};
use source_sink::{
    MemorySink, MemorySource, ReadAll, ReadFailed, Sink, Source, StdSink, StdSource, SteadySource,
    WriteFailed, WriteFault, read_all, write_all_of,
};
use std::alloc::{AllocError, Global};
use std::process::Abort;
use std::test::Fail;

const LETTERS: &str = "abcdefg";

// A source of seven letters.
fn letters(
    rt: &impl Abort,
    alloc: Global,
    piece: u64,
    failing: &str,
) -> Result<MemorySource, Fail> {
    let bytes = Vec::from_slice(alloc, LETTERS.as_bytes())?;
    let piece = piece as usize;
    assert!(rt; piece > 0);
    Ok(MemorySource::new(bytes, piece, digits(alloc, failing)?))
}

// What reads give up to the end: the bytes of each and a `/`, or a `!` for one that failed.
fn reads(alloc: Global, source: &mut MemorySource, into: &mut [u8]) -> Result<Vec<u8>, AllocError> {
    let mut given = Vec::new(alloc);
    for _ in 0..8 {
        match source.read(into) {
            Ok(0) => break,
            Ok(count) => {
                given.extend_from_slice(&into[..count])?;
                given.push(b'/')?;
            }
            Err(ReadFailed) => given.push(b'!')?,
        }
    }
    Ok(given)
}

// The bytes that a read gives at most, the buffer's length, the reads that fail, and what is given.
const READS: &str = "\
9 | 9 | none | abcdefg/
3 | 9 | none | abc/def/g/
9 | 2 | none | ab/cd/ef/g/
3 | 9 | 1, 3 | !abc/!def/g/
9 | 9 | 3, 2 | abcdefg/!!
";

// What the reads of a row give.
fn given(rt: &impl Abort, alloc: Global, row: &str) -> Result<Vec<u8>, Fail> {
    let (piece, room, failing) = (number(row, 0)?, number(row, 1)?, cell(row, 2)?);
    let mut into = vec![in alloc; 0u8; room as usize]?;
    let mut source = letters(rt, alloc, piece, failing)?;
    Ok(reads(alloc, &mut source, &mut into)?)
}

#[test]
fn reads_from_memory(rt: HostRuntime) -> Result<(), Fail> {
    for row in READS.lines() {
        let expected = cell(row, 3)?;
        let given = given(&rt, rt.alloc(), row)?;
        same(&rt, &given, expected, row);
    }
    Ok(())
}

// The sink of a row.
fn sink(rt: &impl Abort, alloc: Global, row: &str) -> Result<MemorySink, Fail> {
    let (room, piece, failing) = (number(row, 0)?, number(row, 1)?, cell(row, 2)?);
    let failing = digits(alloc, failing)?;
    let piece = piece as usize;
    assert!(rt; piece > 0);
    let sink = MemorySink::new(alloc, room as usize, piece, failing)?;
    Ok(sink)
}

// What writes take: the bytes of each and a `/`, or a `!` for one that failed.
fn writes(alloc: Global, sink: &mut MemorySink) -> Result<Vec<u8>, AllocError> {
    let mut taken = Vec::new(alloc);
    for piece in "abc,def,,gh".split(',') {
        match sink.write(piece.as_bytes()) {
            Ok(count) => {
                taken.extend_from_slice(&piece.as_bytes()[..count])?;
                taken.push(b'/')?;
            }
            Err(WriteFailed) => taken.push(b'!')?,
        }
    }
    Ok(taken)
}

// The sink's room, the bytes that a write takes at most, the writes that fail, what is held then,
// and what was taken.
const WRITES: &str = "\
9 | 9 | none | abcdefgh | abc/def//gh/
9 | 2 | none | abdegh | ab/de//gh/
5 | 9 | none | abcde | abc/de//!
9 | 9 | 1, 3 | defgh | !def/!gh/
0 | 9 | none |  | !!/!
";

#[test]
fn writes_to_memory(rt: HostRuntime) -> Result<(), Fail> {
    for row in WRITES.lines() {
        let (held, expected) = (cell(row, 3)?, cell(row, 4)?);
        let mut sink = sink(&rt, rt.alloc(), row)?;
        let taken = writes(rt.alloc(), &mut sink)?;
        same(&rt, &taken, expected, row);
        same(&rt, sink.bytes(), held, row);
    }
    Ok(())
}

// What reading all of the source of a row comes to.
fn read_whole(rt: &impl Abort, alloc: Global, row: &str) -> Result<Vec<u8>, Fail> {
    let (limit, piece, failing) = (number(row, 0)? as usize, number(row, 1)?, cell(row, 2)?);
    assert!(rt; limit < usize::MAX);
    let mut source = letters(rt, alloc, piece, failing)?;
    match read_all(alloc, &mut source, limit) {
        Ok(bytes) => Ok(bytes),
        Err(ReadAll::TooLong) => Ok(Vec::from_slice(alloc, b"too long")?),
        Err(ReadAll::ReadFault) => Ok(Vec::from_slice(alloc, b"read fault")?),
        Err(ReadAll::Memory) => Err("no memory")?,
    }
}

// The limit, the bytes that a read gives at most, the reads that fail, and what comes of it.
const READ_ALL: &str = "\
7 | 9 | none | abcdefg
6 | 9 | none | too long
7 | 3 | 2 | read fault
7 | 9 | 2 | read fault
6 | 9 | 2 | too long
";

#[test]
fn reads_whole(rt: HostRuntime) -> Result<(), Fail> {
    for row in READ_ALL.lines() {
        let expected = cell(row, 3)?;
        let read = read_whole(&rt, rt.alloc(), row)?;
        same(&rt, &read, expected, row);
    }
    Ok(())
}

// The sink's room, the bytes that a write takes at most, the writes that fail, what is held then,
// and what comes of it.
const WRITE_ALL: &str = "\
7 | 2 | none | abcdefg | written
9 | 2 | 3 | abcd | write fault
5 | 2 | none | abcde | write fault
9 | 9 | 1 |  | write fault
";

#[test]
fn writes_whole(rt: HostRuntime) -> Result<(), Fail> {
    for row in WRITE_ALL.lines() {
        let (held, expected) = (cell(row, 3)?, cell(row, 4)?);
        let mut sink = sink(&rt, rt.alloc(), row)?;
        let written = write_all_of(&mut sink, LETTERS.as_bytes()).is_ok();
        same(&rt, sink.bytes(), held, row);
        assert!(rt; written == (expected == "written"), "{row}");
    }
    Ok(())
}

// All bytes of a source, which are at most 25.
fn read_goal<S: Source>(alloc: Global, source: &mut S) -> Result<Vec<u8>, Fail> {
    match read_all(alloc, source, 25) {
        Ok(bytes) => Ok(bytes),
        Err(_) => Err("not read")?,
    }
}

#[test]
fn copies_through_std(rt: HostRuntime) -> Result<(), Fail> {
    let text = b"goal Safe: always closed;".as_slice();
    let bytes = read_goal(rt.alloc(), &mut StdSource::new(text))?;
    let bytes = read_goal(rt.alloc(), &mut SteadySource::new(bytes))?;
    let mut written = Vec::new(rt.alloc());
    let mut sink = StdSink::new(&mut written);
    assert!(rt; write_all_of(&mut sink, &bytes) == Ok(()));
    assert!(rt; written.as_slice() == text);
    let mut long = StdSource::new(text);
    assert!(rt; matches!(read_all(rt.alloc(), &mut long, 24), Err(ReadAll::TooLong)));
    let mut room = [0u8; 9];
    let mut full = StdSink::new(room.as_mut_slice());
    assert!(rt; write_all_of(&mut full, &bytes) == Err(WriteFault));
    Ok(())
}
