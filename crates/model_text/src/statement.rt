//! Statements as they are written, for the reader, the writer and resolution: names are not looked
//! up yet, and lists are as long as the text has them. A further form is a variant here, with its
//! reader, its writer and its line in specs/Grammar.antt.

use crate::raw_formula::{RawFormula, RawValue};
use state_space::{Name, Range};

/// When a requirement asks something of its operation.
#[derive(Clone, Copy, Debug, PartialEq, Eq)]
pub enum Role {
    /// Wherever the operation is applied, its formula is true before.
    Pre,
    /// Wherever its formula is true and the operation may be applied, it is.
    Trig,
    /// Wherever the operation is applied, its formula is true after.
    Post,
}

/// A state as it is written: values of some variables.
#[derive(Drop)]
pub struct RawState {
    pub sets: Vec<(Name, RawValue)>,
}

/// A statement, by its form, with its parts in the order of the text.
#[derive(Drop)]
pub enum StatementKind {
    /// `kaos 1` or `kaos 2`, with the number of the version.
    Version(u8),
    /// `var NAME: RANGE`
    Var(Name, Range),
    /// `entity NAME: { NAMES }`, of version 2
    Entity(Name, Vec<Name>),
    /// `attr NAME of NAME: RANGE`, of version 2: the attribute, the entity type and the range
    Attr(Name, Name, Range),
    /// `domain NAME: FORMULA`
    Domain(Name, RawFormula),
    /// `rule NAME: FORMULA entails FORMULA`
    Rule(Name, RawFormula, RawFormula),
    /// `goal NAME: FORMULA`
    Goal(Name, RawFormula),
    /// `obstacle NAME: FORMULA`
    Obstacle(Name, RawFormula),
    /// `refine NAME by NAMES`, with the pattern behind `using`
    Refine(Name, Vec<Name>, Option<Name>),
    /// `obstruct NAME by NAMES`
    Obstruct(Name, Vec<Name>),
    /// `conflict NAME: NAMES boundary FORMULA`
    Conflict(Name, Vec<Name>, RawFormula),
    /// `agent NAME monitors NAMES controls NAMES`; a list that is not written is empty
    Agent(Name, Vec<Name>, Vec<Name>),
    /// `assign NAME to NAME`
    Assign(Name, Name),
    /// `expect NAME of NAME`
    Expect(Name, Name),
    /// `operation NAME by NAME dompre FORMULA dompost FORMULA`
    Operation(Name, Name, RawFormula, RawFormula),
    /// `require NAME on NAME pre FORMULA`, or `trig` or `post`
    Require(Name, Name, Role, RawFormula),
    /// `operationalise NAME by NAMES`, and whether `exact` stands at the end
    Operationalise(Name, Vec<Name>, bool),
    /// `trace NAME: STATES loop STATES`
    Trace(Name, Vec<RawState>, Vec<RawState>),
}

/// A statement.
#[derive(Drop)]
pub struct Statement {
    pub kind: StatementKind,
}

/// The statements of a text, in order. The first one is the version.
#[derive(Drop)]
pub struct RawModel {
    pub statements: Vec<Statement>,
}
