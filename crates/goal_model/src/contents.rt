//! What the statements of a text declare, with every name looked up.

use crate::pattern::PatternKind;
use entity_types::{Entities, Written};
use model_text::Role;
use state_space::{Name, Space, Values};
use temporal_logic::{Formula, Lasso};

/// A domain property or a rule: it is taken to hold on every trace.
#[derive(Drop)]
pub struct Property {
    /// The number of its statement, from 1.
    pub statement: u32,
    pub name: Name,
    pub formula: Formula,
    /// Whether it is a rule; its formula is then an `Entails`.
    pub rule: bool,
}

/// A goal.
#[derive(Drop)]
pub struct Goal {
    /// The number of its statement, from 1.
    pub statement: u32,
    pub name: Name,
    pub formula: Formula,
    /// Whether an agent is expected to keep it.
    pub expected: bool,
}

/// An obstacle.
#[derive(Drop)]
pub struct Obstacle {
    /// The number of its statement, from 1.
    pub statement: u32,
    pub name: Name,
    pub formula: Formula,
}

/// An agent, with the numbers of the variables that it monitors and that it controls.
#[derive(Drop)]
pub struct Agent {
    pub name: Name,
    pub monitors: Values,
    pub controls: Values,
}

/// An operation of an agent, which is given by its place in the list of agents.
#[derive(Drop)]
pub struct Operation {
    pub name: Name,
    pub agent: usize,
    pub dompre: Formula,
    pub dompost: Formula,
}

/// A requirement on an operation, which is given by its place in the list of operations.
#[derive(Drop)]
pub struct Requirement {
    pub name: Name,
    pub operation: usize,
    pub role: Role,
    pub formula: Formula,
}

/// What one statement says of others. Each of these is given by its place in the list of its kind, from 0.
#[derive(Drop)]
pub enum Link {
    /// A goal follows from others, so the model says.
    Refine {
        statement: u32,
        parent: usize,
        subgoals: Vec<usize>,
        pattern: Option<PatternKind>,
    },
    /// A goal is hindered by obstacles.
    Obstruct {
        statement: u32,
        goal: usize,
        obstacles: Vec<usize>,
    },
    /// Goals exclude each other where the boundary condition holds.
    Conflict {
        statement: u32,
        name: Name,
        goals: Vec<usize>,
        boundary: Formula,
    },
    /// A goal is kept by requirements on operations.
    Operationalise {
        statement: u32,
        goal: usize,
        requirements: Vec<usize>,
        exact: bool,
    },
    /// A goal is an agent's to keep.
    Assign {
        statement: u32,
        goal: usize,
        agent: usize,
    },
}

/// A trace of the model's variables that the text spells out.
#[derive(Drop)]
pub struct NamedTrace {
    pub name: Name,
    pub lasso: Lasso,
}

/// The formulas of a statement as they are written, in text order.
#[derive(Drop)]
pub(crate) struct WrittenStatement {
    pub(crate) statement: u32,
    pub(crate) formulas: Vec<Written>,
}

/// All that statements declare, each list in statement order.
#[derive(Drop)]
pub(crate) struct Contents {
    pub(crate) space: Space,
    pub(crate) entities: Entities,
    pub(crate) domains: Vec<Property>,
    pub(crate) goals: Vec<Goal>,
    pub(crate) obstacles: Vec<Obstacle>,
    pub(crate) agents: Vec<Agent>,
    pub(crate) operations: Vec<Operation>,
    pub(crate) requirements: Vec<Requirement>,
    pub(crate) links: Vec<Link>,
    pub(crate) traces: Vec<NamedTrace>,
    /// The formulas of a text of version 2; there are none in version 1.
    pub(crate) written: Vec<WrittenStatement>,
}
