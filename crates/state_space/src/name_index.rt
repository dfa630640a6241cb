//! Where names stand in a list, each found by its hash, and answered as a walk of the list would answer it.

ghost use Rattle.std.specs.Prelude.{◌≡◌, ℕ, List, [], ◌∷◌, ◌++◌, if◌then◌else◌, is_ok, length, position, bytes_eq};
ghost use Rattle.state_space.specs.NameIndexes.{IsIndex};

use indexmap::IndexMap;
use std::alloc::{AllocError, AllocFailed, Global};

/// The first place of each name of a list.
#[derive(Drop)]
pub struct NameIndex {
    places: IndexMap<Vec<u8>, usize>,
}

impl NameIndex {
    /// The index of no names. It takes no memory.
    pub fn new(alloc: Global) -> NameIndex
        ensures none { IsIndex result [] }
    {
        NameIndex {
            places: IndexMap::new(alloc),
        }
    }

    /// The first place of a name, from 0, if it is in the list.
    pub fn place(&self, name: &[u8]) -> Option<usize>
        ensures place { (names : List (List ℕ)) → IsIndex self.now names → result ≡ position (λ n. bytes_eq n name.now) names }
    {
        let place = *self.places.get(name)?;
        Some(place)
    }

    /// Takes in the name behind a list of so many others. Where memory runs out, the index is as it was.
    pub fn push(&mut self, alloc: Global, name: &[u8], place: usize) -> Result<(), AllocError>
        ensures pushed { (names : List (List ℕ)) → length names ≡ place → IsIndex self.old names → IsIndex self.new (if is_ok result then names ++ name.now ∷ [] else names) }
    {
        if self.places.contains_key(name) {
            return Ok(());
        }
        let key = Vec::from_slice(alloc, name)?;
        self.places.insert(key, place)?;
        Ok(())
    }
}
