//! Reports: an answer to each demand of a model and to each assignment, with its evidence, in the order of the links. When one is right,
//! specs/Verdicts.antt and specs/Reports.antt say.

use agent_capabilities::Cover;
use goal_model::{Label, PatternKind, Wanted};
use tableau_rules::Cert;
use temporal_logic::Lasso;

/// The answer to a demand, or to an assignment.
#[derive(Clone, Copy, Debug, PartialEq, Eq)]
pub enum Verdict {
    Holds,
    Fails,
    /// The demand's tableau has more nodes than the budget, which is given.
    Withheld(u32),
}

/// Why a verdict is so.
#[derive(Drop)]
pub enum Evidence {
    /// Nothing is shown.
    Nothing,
    /// A certificate that no trace meets the demand's list.
    Elimination(Cert),
    /// A certificate that no trace of the placeholders has the subgoals of a pattern and not its parent, which are an instance of it here.
    ByPattern(PatternKind, Cert),
    /// A trace that meets the demand's list.
    Trace(Lasso),
    /// The variable that the agent of an assignment lacks.
    Offending(Cover),
}

/// One demand or assignment, its verdict and the evidence.
#[derive(Drop)]
pub struct Entry {
    pub label: Label,
    /// What the demand asks of traces; an assignment asks nothing of them.
    pub wanted: Option<Wanted>,
    pub verdict: Verdict,
    pub evidence: Evidence,
}

/// The answers to all demands and assignments of a model, in the order of its links.
#[derive(Drop)]
pub struct Report {
    /// The number of nodes that a demand's tableau may have.
    pub budget: u32,
    pub entries: Vec<Entry>,
}
