//! States: one value for each variable, as its index in the variable's range. A state does not know
//! its space: `fits` tells whether it is one of it.

ghost use Rattle.std.specs.Prelude.{◌≡◌, ◌↔◌, IsTrue, IfOk};
ghost use Rattle.state_space.specs.Spaces.{sizes};
ghost use Rattle.state_space.specs.Fitting.{ValuesFit};

use crate::space::Space;
use crate::values::VarId;
use std::alloc::{AllocError, Global};

/// One value index for each variable, in the order of the variables.
#[derive(Debug, Drop)]
pub struct State {
    pub values: Vec<u8>,
}

impl State {
    /// Whether the state has one value for each variable of the space, and each is below its
    /// variable's size.
    pub fn fits(&self, space: &Space) -> bool
        ensures fits { IsTrue result ↔ ValuesFit (sizes space.now) self.now.values.items }
    {
        if self.values.len() != space.count() as usize {
            return false;
        }
        'variables: for id in 0..space.count() {
            if self.values[id as usize] >= space.size_of(VarId(id)) {
                return false;
            }
        }
        true
    }

    /// The same state in memory of its own.
    pub fn clone(&self, alloc: Global) -> Result<State, AllocError>
        ensures same { IfOk result (λ s. s.values.items ≡ self.now.values.items) }
    {
        Ok(State {
            values: Vec::from_slice(alloc, &self.values)?,
        })
    }
}
