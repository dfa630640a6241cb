//! The forms in which a report is written.

/// How much of the evidence a report shows.
#[derive(Clone, Copy, Debug, PartialEq, Eq)]
pub enum Form {
    /// All evidence: certificates and lassos.
    Full,
    /// Lassos, and how large each certificate is.
    Brief,
    /// None: the verdicts alone.
    Lines,
}
