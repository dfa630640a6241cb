//! Bytes in and out, for programs whose answers have to say what went wrong: sources and sinks
//! count their faults, and an error comes only where such a count rose.
#![tactic(auto)]

mod bytes;
mod decimal;
mod fault;
mod memory;
mod standard;
mod text_out;

pub use bytes::{Sink, Source, read_all, write_all_of};
pub use decimal::value_up_to;
pub use fault::{Memory, ReadAll, ReadFailed, WriteFailed, WriteFault};
pub use memory::{MemorySink, MemorySource, SteadySource};
pub use standard::{StdSink, StdSource};
pub use text_out::{put, put_decimal};
