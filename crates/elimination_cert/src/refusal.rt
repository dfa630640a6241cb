//! Why bytes are not read as a certificate, with the place to look at: bytes are counted from 0.
//! What is refused spells no certificate of at most 200,000 nodes, unless memory ran out.

ghost use Rattle.std.specs.Prelude.{◌≡◌};
ghost use Rattle.elimination_cert.specs.declared.refusal.CertRefusal.TheVariants as refusals;

use source_sink::Memory;
use std::alloc::{AllocError, AllocFailed};

/// Why bytes are not read as a certificate.
#[derive(Clone, Copy, Debug, PartialEq, Eq)]
pub enum CertRefusal {
    /// The first line is well formed, and its number of nodes, given here, is over 200,000.
    TooMany(u32),
    /// The bytes spell no certificate: the first byte of the first line that no text of a
    /// certificate has after what stands before it, or the length where the text ends too early. A
    /// last piece without its line feed counts as such a line.
    Syntax(u64),
    /// Memory ran out.
    Memory,
}

impl From<Memory> for CertRefusal {
    ghost from_gives = { λ _ e. e ≡ refusals.Memory };

    fn from(_: Memory) -> CertRefusal {
        CertRefusal::Memory
    }
}

impl From<AllocError> for CertRefusal {
    ghost from_gives = { λ _ e. e ≡ refusals.Memory };

    fn from(_: AllocError) -> CertRefusal {
        CertRefusal::Memory
    }
}

impl<T: Drop> From<AllocFailed<T>> for CertRefusal {
    ghost from_gives = { λ _ e. e ≡ refusals.Memory };

    fn from(_: AllocFailed<T>) -> CertRefusal {
        CertRefusal::Memory
    }
}
