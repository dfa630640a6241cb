//! Why statements make no model: a fault, with the name at which it stands, or want of memory.

ghost use Rattle.std.specs.Prelude.{◌≡◌};
ghost use Rattle.goal_model.specs.Refusals.{Gives, refused as refused_form};
ghost use Rattle.goal_model.specs.declared.refusal.Stop.TheVariants.{Fault as FaultStop, Memory as MemoryStop};
ghost use Rattle.goal_model.specs.declared.refusal.ModelRefusal.TheVariants.{Memory as ModelMemory};

use source_sink::Memory;
use state_space::Name;
use std::alloc::{AllocError, AllocFailed, Global};
use thiserror::Error;

/// What is wrong with a statement.
#[derive(Clone, Copy, Debug, PartialEq, Eq)]
pub enum RefusalKind {
    /// The name is declared already, or stands before in the same list.
    DuplicateName,
    /// The name is not declared, or is no pattern.
    UnknownName,
    /// The name is declared, as something else than is asked for.
    WrongKind,
    /// The variable has no such value, or is compared with one of another range.
    BadValue,
    /// The variable or attribute would have no value, or over 64, or the entity type not 2 to 8 members.
    BadRange,
    /// A variable of the attribute would have a name of over 40 bytes.
    LongName,
    /// With the variable, or those of the attribute, there would be over 64.
    TooManyVars,
    /// The plain form of a formula would have over 4,096 operators and atoms.
    TooWide,
    /// The operation or requirement has a formula that speaks of more than one position.
    NotState,
    /// The variable is controlled by an earlier agent.
    TwoControllers,
    /// The goal would be reached from one of its subgoals.
    Cycle,
    /// A demand of the link, or of the domain properties, is too large to be answered.
    TooLarge,
}

/// A fault, and the name at which it stands.
#[derive(Debug, Drop)]
pub(crate) struct Fault {
    pub(crate) kind: RefusalKind,
    pub(crate) name: Name,
}

/// Why a part of a statement is not resolved.
#[derive(Debug, Drop)]
pub(crate) enum Stop {
    Fault(Fault),
    /// Memory ran out.
    Memory,
}

impl From<Memory> for Stop {
    ghost from_gives = { λ _ e. e ≡ MemoryStop };

    fn from(_: Memory) -> Stop {
        Stop::Memory
    }
}

impl From<AllocError> for Stop {
    ghost from_gives = { λ _ e. e ≡ MemoryStop };

    fn from(_: AllocError) -> Stop {
        Stop::Memory
    }
}

impl<T: Drop> From<AllocFailed<T>> for Stop {
    ghost from_gives = { λ _ e. e ≡ MemoryStop };

    fn from(_: AllocFailed<T>) -> Stop {
        Stop::Memory
    }
}

/// A refusal at a name.
pub(crate) fn refused<T: Drop>(alloc: Global, kind: RefusalKind, name: &Name) -> Result<T, Stop>
    ensures { Gives (λ x. x) result (refused_form kind name.now) }
{
    Err(Stop::Fault(Fault {
        kind,
        name: name.clone(alloc)?,
    }))
}

/// Why statements make no model.
#[derive(Debug, Drop, Error)]
pub enum ModelRefusal {
    /// What is wrong, the number of the statement, from 1, and the name at which it is wrong.
    #[error("statement {statement}: {kind:?} {name:?}")]
    Refused {
        kind: RefusalKind,
        statement: u32,
        name: Name,
    },
    /// Memory ran out.
    #[error("memory ran out")]
    Memory,
}

impl From<Memory> for ModelRefusal {
    ghost from_gives = { λ _ e. e ≡ ModelMemory };

    fn from(_: Memory) -> ModelRefusal {
        ModelRefusal::Memory
    }
}
