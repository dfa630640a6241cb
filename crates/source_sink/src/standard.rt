//! The standard library's readers and writers, the trusted edge: as sources and sinks they tell
//! no bytes. What a call gives or takes is what the reader's or the writer's own call does, and a
//! count is raised at each that fails.

ghost use Rattle.std.specs.Prelude.{◌≡◌, length, ◌<◌, ◌≤◌, IfOk, None, Result};
ghost use Rattle.std.specs.Io.{ReadsAtMost, WritesAtMost};
ghost use Rattle.std.specs.Io.KnownBytes.{ReadConsumes, WriteAppends};
ghost use Rattle.source_sink.specs.Causes.{HasCause, CountsErrors};

use crate::bytes::{Sink, Source};
use crate::fault::{ReadFailed, WriteFailed};
use std::io::{Read, Write};
use std::marker::Model;

/// A source over a reader, seen by contracts as what the reader says of the bytes that are left,
/// and the number of failed reads, which stays at the greatest `u64`.
#[derive(Drop)]
pub struct StdSource<R: Read> {
    reader: R,
    faults: u64,
}

impl<R: Read> Model for StdSource<R> {
    ghost use Rattle.source_sink.specs.Plans.{StdPlan, std_plan_code};

    ghost Value = { StdPlan };

    ghost coded = { std_plan_code };

    ghost view = { λ s. record {
      bytes = R.remaining s.reader;
      faults = s.faults;
    } };
}

impl<R: Read + Drop> StdSource<R> {
    /// A source over a reader that has not failed yet.
    pub fn new(reader: R) -> StdSource<R>
        ensures made { result ≡ record { bytes = R.remaining reader; faults = 0 } }
    {
        StdSource { reader, faults: 0 }
    }
}

impl<R: Read + Drop> Source for StdSource<R> {
    ghost left = { λ _. None };

    ghost faults = { λ s. s.faults };

    fn read(&mut self, into: &mut [u8]) -> Result<usize, ReadFailed>
        ensures bound { ReadsAtMost result into.new }
        ensures bytes { ReadConsumes self.old.bytes self.new.bytes result into.new }
        ensures cause { HasCause self.old.faults self.new.faults result }
        ensures counted { CountsErrors self.old.faults self.new.faults result }
    {
        match self.reader.read(into) {
            Ok(count) => Ok(count),
            Err(_) => {
                self.faults = self.faults.saturating_add(1);
                Err(ReadFailed)
            }
        }
    }
}

/// A sink over a writer, seen by contracts as what the writer says of the bytes that it holds,
/// and the number of failed writes, which stays at the greatest `u64`.
#[derive(Drop)]
pub struct StdSink<W: Write> {
    writer: W,
    faults: u64,
}

impl<W: Write> Model for StdSink<W> {
    ghost use Rattle.source_sink.specs.Plans.{StdPlan, std_plan_code};

    ghost Value = { StdPlan };

    ghost coded = { std_plan_code };

    ghost view = { λ s. record {
      bytes = W.contents s.writer;
      faults = s.faults;
    } };
}

impl<W: Write + Drop> StdSink<W> {
    /// A sink over a writer that has not failed yet.
    pub fn new(writer: W) -> StdSink<W>
        ensures made { result ≡ record { bytes = W.contents writer; faults = 0 } }
    {
        StdSink { writer, faults: 0 }
    }
}

impl<W: Write + Drop> Sink for StdSink<W> {
    ghost held = { λ _. None };

    ghost faults = { λ s. s.faults };

    // A write that takes nothing of a piece with bytes is a failed one: tried again and again,
    // it might never end.
    fn write(&mut self, piece: &[u8]) -> Result<usize, WriteFailed>
        ensures bound { WritesAtMost result piece.now }
        ensures bytes { WriteAppends self.old.bytes self.new.bytes result piece.now }
        ensures some { IfOk result (λ count. 0 < length piece.now → 0 < count) }
        ensures cause { HasCause self.old.faults self.new.faults result }
        ensures counted { CountsErrors self.old.faults self.new.faults result }
    {
        match self.writer.write(piece) {
            Ok(count) if count > 0 || piece.is_empty() => Ok(count),
            _ => {
                self.faults = self.faults.saturating_add(1);
                Err(WriteFailed)
            }
        }
    }
}
