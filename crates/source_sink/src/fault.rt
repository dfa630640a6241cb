//! Why a read or a write did not come to its end. Each is a type of its own, so that a function
//! says by its answer which of them it can meet.

ghost use Rattle.std.specs.Prelude.{◌≡◌};
ghost use Rattle.source_sink.specs.declared.fault.ReadAll.TheVariants as read_all_errors;

use std::alloc::{AllocError, AllocFailed};

/// One read failed. It took no byte.
#[derive(Clone, Copy, Debug, PartialEq, Eq)]
pub struct ReadFailed;

/// One write failed. It appended no byte.
#[derive(Clone, Copy, Debug, PartialEq, Eq)]
pub struct WriteFailed;

/// A write failed before all of the bytes were written.
#[derive(Clone, Copy, Debug, PartialEq, Eq)]
pub struct WriteFault;

/// Memory ran out.
#[derive(Clone, Copy, Debug, PartialEq, Eq)]
pub struct Memory;

/// Why not all bytes of a source were read.
#[derive(Clone, Copy, Debug, PartialEq, Eq)]
pub enum ReadAll {
    /// The source gave more bytes than the limit.
    TooLong,
    /// A read failed.
    ReadFault,
    /// Memory ran out.
    Memory,
}

impl From<ReadFailed> for ReadAll {
    ghost from_gives = { λ _ e. e ≡ read_all_errors.ReadFault };

    fn from(_: ReadFailed) -> ReadAll {
        ReadAll::ReadFault
    }
}

impl From<AllocError> for ReadAll {
    ghost from_gives = { λ _ e. e ≡ read_all_errors.Memory };

    fn from(_: AllocError) -> ReadAll {
        ReadAll::Memory
    }
}

impl From<WriteFailed> for WriteFault {
    fn from(_: WriteFailed) -> WriteFault {
        WriteFault
    }
}

impl From<AllocError> for Memory {
    fn from(_: AllocError) -> Memory {
        Memory
    }
}

impl<T: Drop> From<AllocFailed<T>> for Memory {
    fn from(_: AllocFailed<T>) -> Memory {
        Memory
    }
}
