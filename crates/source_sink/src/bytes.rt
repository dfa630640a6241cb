//! Sources of bytes and sinks for them. A source may tell which bytes it has left, and a sink
//! which it holds; clauses on bytes speak of those that do. Each counts its faults in a `u64`,
//! which stays at the greatest once it is there.

ghost use Rattle.std.specs.Prelude.{◌≡◌, ℕ, ◌+◌, ◌<◌, ◌≤◌, List, length, vec_len, OnOk, OnErr, IfOk, IsErrOf};
ghost use Rattle.std.specs.declared.option.Option.{Option};
ghost use Rattle.std.specs.Io.{ReadsAtMost, WritesAtMost};
ghost use Rattle.std.specs.Io.KnownBytes.{ReadConsumes, WriteAppends, IsAtEnd, Appends, Keeps};
ghost use Rattle.source_sink.specs.Causes.{HasCause, Rose};
ghost use Rattle.source_sink.specs.Bytes.{IsAllOf, TakesMany, AppendsFront};

use crate::fault::{ReadAll, ReadFailed, WriteFailed, WriteFault};
use std::alloc::Global;

/// What bytes are read from, from the front on.
pub trait Source {
    /// The bytes that are left, where the source tells them.
    ghost left: { Self → Option (List ℕ) };

    /// How often a read has failed.
    ghost faults: { Self → ℕ };

    /// Takes bytes from the front into a buffer, at most its length, and answers how many. None
    /// for a buffer with room is the end. A read fails only where the count of faults rose, and
    /// takes no byte then.
    fn read(&mut self, into: &mut [u8]) -> Result<usize, ReadFailed>
        ensures bound { ReadsAtMost result into.new }
        ensures bytes { ReadConsumes (left self.old) (left self.new) result into.new }
        ensures cause { HasCause (faults self.old) (faults self.new) result };
}

/// What bytes are written to, at the end.
pub trait Sink {
    /// The bytes that it holds, where the sink tells them.
    ghost held: { Self → Option (List ℕ) };

    /// How often a write has failed.
    ghost faults: { Self → ℕ };

    /// Appends bytes from the front of a piece, at least one where it has any, and answers how
    /// many. A write fails only where the count of faults rose, and appends no byte then.
    fn write(&mut self, piece: &[u8]) -> Result<usize, WriteFailed>
        ensures bound { WritesAtMost result piece.now }
        ensures some { IfOk result (λ count. 0 < length piece.now → 0 < count) }
        ensures bytes { WriteAppends (held self.old) (held self.new) result piece.now }
        ensures cause { HasCause (faults self.old) (faults self.new) result };
}

/// All bytes of a source up to its end, for a caller that takes no more than `limit` of them,
/// a number below the greatest `usize`. `TooLong` comes exactly where the source gave more, and
/// `limit + 1` bytes are taken then. `ReadFault` comes only where the count of faults rose.
pub fn read_all<S: Source>(alloc: Global, source: &mut S, limit: usize) -> Result<Vec<u8>, ReadAll>
    requires { limit < usize.MAX }
    ensures all { IfOk result (λ bytes. IsAllOf (S.left source.old) bytes.items) }
    ensures ended { OnOk result (IsAtEnd (S.left source.new)) }
    ensures short { IfOk result (λ bytes. vec_len bytes ≤ limit) }
    ensures long { IsErrOf result ReadAll.TooLong
        → TakesMany (S.left source.old) (S.left source.new) (limit + 1) }
    ensures fault { IsErrOf result ReadAll.ReadFault
        → Rose (S.faults source.old) (S.faults source.new) }
    ensures later { S.faults source.old ≤ S.faults source.new }
{
    let mut bytes = Vec::new(alloc);
    let mut piece = [0u8; 4096];
    'reads: while bytes.len() <= limit {
        let room = (limit + 1 - bytes.len()).min(piece.len());
        let count = source.read(&mut piece[..room])?;
        if count == 0 {
            return Ok(bytes);
        }
        bytes.extend_from_slice(&piece[..count])?;
    }
    Err(ReadAll::TooLong)
}

/// Writes all of the bytes to a sink, which is handed all that are left at each write. It takes
/// no memory. `WriteFault` comes only where the count of faults rose, and the sink then holds
/// what it held and a front of the bytes.
pub fn write_all_of<K: Sink>(sink: &mut K, bytes: &[u8]) -> Result<(), WriteFault>
    ensures ok { OnOk result (Appends (K.held sink.old) (K.held sink.new) bytes.now) }
    ensures err { OnErr result (AppendsFront (K.held sink.old) (K.held sink.new) bytes.now) }
    ensures cause { HasCause (K.faults sink.old) (K.faults sink.new) result }
{
    let mut written = 0;
    'writes: while written < bytes.len() {
        written += sink.write(&bytes[written..])?;
    }
    Ok(())
}
