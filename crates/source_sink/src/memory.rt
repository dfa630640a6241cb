//! Sources and a sink in memory, for tests of what a program does at a fault: they fail at the
//! calls that are chosen for it, and at no other. The calls are numbered from 1, and the numbers
//! stay at the greatest `u64` once they are there.

ghost use Rattle.std.specs.Prelude.{◌≡◌, [], ◌+◌, ◌-◌, ◌<◌, ◌≤◌, ◌⊎◌, ◌↔◌, Some, take, length, min, IfOk, IsOk, IsErr, Contains};
ghost use Rattle.std.specs.Io.{ReadsAtMost, WritesAtMost};
ghost use Rattle.std.specs.Io.KnownBytes.{ReadConsumes, WriteAppends};
ghost use Rattle.source_sink.specs.Causes.{HasCause, CountsErrors, one_more};

use crate::bytes::{Sink, Source};
use crate::fault::{Memory, ReadFailed, WriteFailed};
use std::alloc::Global;
use std::marker::Model;

// Copies as many bytes to the front of a buffer as the bytes, the buffer and `piece` allow.
fn give(bytes: &[u8], piece: usize, into: &mut [u8]) -> usize
    ensures count { result ≡ min (min (length bytes.now) (length into.old)) piece }
    ensures given { take result into.new ≡ take result bytes.now }
{
    let count = bytes.len().min(into.len()).min(piece);
    into[..count].copy_from_slice(&bytes[..count]);
    count
}

/// A source of bytes in memory, of which chosen reads fail.
#[derive(Drop)]
pub struct MemorySource {
    bytes: Vec<u8>,
    taken: usize,
    piece: usize,
    failing: Vec<u64>,
    calls: u64,
    faults: u64,
}

impl Model for MemorySource {
    ghost use Rattle.std.specs.Prelude.{◌<◌, ◌≤◌, drop, vec_len};
    ghost use Rattle.source_sink.specs.Plans.{SourcePlan, source_plan_code};

    ghost Value = { SourcePlan };

    ghost coded = { source_plan_code };

    ghost view = { λ s. record {
      left = drop s.taken s.bytes.items;
      piece = s.piece;
      failing = s.failing.items;
      calls = s.calls;
      faults = s.faults;
    } };

    ghost invariant = { λ s. (s.taken ≤ vec_len s.bytes) × (0 < s.piece) };
}

impl MemorySource {
    /// A source of these bytes that gives at most `piece` of them a read, at least 1, and fails
    /// at exactly the reads whose numbers are in `failing`.
    pub fn new(bytes: Vec<u8>, piece: usize, failing: Vec<u64>) -> MemorySource
        requires { 0 < piece }
        ensures made { result ≡ record {
          left = bytes.items;
          piece = piece;
          failing = failing.items;
          calls = 0;
          faults = 0;
        } }
    {
        MemorySource {
            bytes,
            taken: 0,
            piece,
            failing,
            calls: 0,
            faults: 0,
        }
    }
}

impl Source for MemorySource {
    ghost left = { λ s. Some s.left };

    ghost faults = { λ s. s.faults };

    fn read(&mut self, into: &mut [u8]) -> Result<usize, ReadFailed>
        ensures bound { ReadsAtMost result into.new }
        ensures bytes { ReadConsumes (Some self.old.left) (Some self.new.left) result into.new }
        ensures cause { HasCause self.old.faults self.new.faults result }

        ensures count { IfOk result (λ n.
            n ≡ min (min (length self.old.left) (length into.old)) self.old.piece) }
        ensures fails { IsErr result ↔ Contains self.old.failing self.new.calls }
        ensures counted { CountsErrors self.old.faults self.new.faults result }

        ensures calls { self.new.calls ≡ one_more self.old.calls }
        ensures piece { self.new.piece ≡ self.old.piece }
        ensures failing { self.new.failing ≡ self.old.failing }
    {
        self.calls = self.calls.saturating_add(1);
        if self.failing.contains(&self.calls) {
            self.faults = self.faults.saturating_add(1);
            return Err(ReadFailed);
        }
        let count = give(&self.bytes[self.taken..], self.piece, into);
        self.taken += count;
        Ok(count)
    }
}

/// A source of bytes in memory that never fails.
#[derive(Drop)]
pub struct SteadySource {
    bytes: Vec<u8>,
    taken: usize,
}

impl Model for SteadySource {
    ghost use Rattle.std.specs.Prelude.{◌≤◌, drop, vec_len};
    ghost use Rattle.source_sink.specs.Plans.{SteadyPlan, steady_plan_code};

    ghost Value = { SteadyPlan };

    ghost coded = { steady_plan_code };

    ghost view = { λ s. record { left = drop s.taken s.bytes.items } };

    ghost invariant = { λ s. s.taken ≤ vec_len s.bytes };
}

impl SteadySource {
    /// A source of these bytes.
    pub fn new(bytes: Vec<u8>) -> SteadySource
        ensures made { result ≡ record { left = bytes.items } }
    {
        SteadySource { bytes, taken: 0 }
    }
}

impl Source for SteadySource {
    ghost left = { λ s. Some s.left };

    ghost faults = { λ _. 0 };

    fn read(&mut self, into: &mut [u8]) -> Result<usize, ReadFailed>
        ensures bound { ReadsAtMost result into.new }
        ensures bytes { ReadConsumes (Some self.old.left) (Some self.new.left) result into.new }

        ensures count { IfOk result (λ n. n ≡ min (length self.old.left) (length into.old)) }
        ensures steady { IsOk result }
    {
        let count = give(&self.bytes[self.taken..], into.len(), into);
        self.taken += count;
        Ok(count)
    }
}

/// A sink in memory with a given room, of which chosen writes fail.
#[derive(Drop)]
pub struct MemorySink {
    bytes: Vec<u8>,
    room: usize,
    piece: usize,
    failing: Vec<u64>,
    calls: u64,
    faults: u64,
}

impl Model for MemorySink {
    ghost use Rattle.std.specs.Prelude.{◌<◌, ◌≤◌, vec_len, vec_capacity};
    ghost use Rattle.source_sink.specs.Plans.{SinkPlan, sink_plan_code};

    ghost Value = { SinkPlan };

    ghost coded = { sink_plan_code };

    ghost view = { λ s. record {
      held = s.bytes.items;
      room = s.room;
      piece = s.piece;
      failing = s.failing.items;
      calls = s.calls;
      faults = s.faults;
    } };

    ghost invariant = { λ s. (vec_len s.bytes ≤ s.room) × (s.room ≤ vec_capacity s.bytes)
        × (0 < s.piece) };
}

impl MemorySink {
    /// An empty sink that takes at most `piece` bytes a write, at least 1, and reserves its room
    /// at once. It fails at exactly the writes whose numbers are in `failing` and those that come
    /// with bytes when it holds `room` of them.
    pub fn new(
        alloc: Global,
        room: usize,
        piece: usize,
        failing: Vec<u64>,
    ) -> Result<MemorySink, Memory>
        requires { 0 < piece }
        ensures made { IfOk result (λ sink. sink ≡ record {
          held = [];
          room = room;
          piece = piece;
          failing = failing.items;
          calls = 0;
          faults = 0;
        }) }
    {
        let bytes = Vec::with_capacity(alloc, room)?;
        Ok(MemorySink {
            bytes,
            room,
            piece,
            failing,
            calls: 0,
            faults: 0,
        })
    }

    /// What the sink holds.
    pub fn bytes(&self) -> &[u8]
        ensures held { result.now ≡ self.now.held }
    {
        &self.bytes
    }
}

impl Sink for MemorySink {
    ghost held = { λ s. Some s.held };

    ghost faults = { λ s. s.faults };

    fn write(&mut self, piece: &[u8]) -> Result<usize, WriteFailed>
        ensures bound { WritesAtMost result piece.now }
        ensures some { IfOk result (λ n. 0 < length piece.now → 0 < n) }
        ensures bytes { WriteAppends (Some self.old.held) (Some self.new.held) result piece.now }
        ensures cause { HasCause self.old.faults self.new.faults result }

        ensures count { IfOk result (λ n.
            n ≡ min (min (length piece.now) (self.old.room - length self.old.held)) self.old.piece) }
        ensures fails { IsErr result ↔ (Contains self.old.failing self.new.calls
            ⊎ ((0 < length piece.now) × (self.old.room ≤ length self.old.held))) }
        ensures counted { CountsErrors self.old.faults self.new.faults result }

        ensures calls { self.new.calls ≡ one_more self.old.calls }
        ensures room { self.new.room ≡ self.old.room }
        ensures piece { self.new.piece ≡ self.old.piece }
        ensures failing { self.new.failing ≡ self.old.failing }
    {
        self.calls = self.calls.saturating_add(1);
        let room = self.room - self.bytes.len();
        if self.failing.contains(&self.calls) || (room == 0 && !piece.is_empty()) {
            self.faults = self.faults.saturating_add(1);
            return Err(WriteFailed);
        }
        let count = piece.len().min(room).min(self.piece);
        self.bytes.extend_from_slice(&piece[..count]).unwrap();
        Ok(count)
    }
}
