//! The declared names that are no variable's, for the namespace: a name is looked up by its hash, and answers as a walk of the entries would.

ghost use Rattle.std.specs.Prelude.{◌≡◌, [], ◌∷◌, ◌++◌, if◌then◌else◌, is_ok, map, find, bytes_eq, option_map, OnOk};
ghost use Rattle.state_space.specs.NameIndexes.{IsIndex, IsIndex-prop};

use crate::namespace::Declared;
use source_sink::Memory;
use state_space::{Name, NameIndex};
use std::alloc::{AllocError, Global};

/// The declared names that are no variable's, in order. A name is looked up by its hash.
#[derive(Drop)]
pub(crate) struct Namespace {
    entries: Vec<Declared>,
    places: NameIndex,
    ghost indexed: { IsIndex places (map (λ d. d.name) entries.items) } by { IsIndex-prop places (map (λ d. d.name) entries.items) },
}

// Appends an entry, and its name to the index, or neither.
fn push_both(
    alloc: Global,
    entries: &mut Vec<Declared>,
    declared: Declared,
    places: &mut NameIndex,
) -> Result<(), AllocError>
    ensures entries { entries.new.items ≡ (if is_ok result then entries.old.items ++ declared ∷ [] else entries.old.items) }
    ensures places { IsIndex places.old (map (λ d. d.name) entries.old.items) → IsIndex places.new (map (λ d. d.name) entries.new.items) }
{
    let place = entries.len();
    // Room first, so that nothing fails once the name is in the index.
    entries.reserve(1)?;
    places.push(alloc, declared.name.bytes(), place)?;
    if entries.push(declared).is_err() {
        unreachable!();
    }
    Ok(())
}

impl Namespace {
    /// No names. It takes no memory.
    pub(crate) fn new(alloc: Global) -> Namespace
        ensures { result.entries.items ≡ [] }
    {
        Namespace {
            entries: Vec::new(alloc),
            places: NameIndex::new(alloc),
        }
    }

    /// The entry of a name, the first of it.
    pub(crate) fn entry(&self, name: &Name) -> Option<&Declared>
        ensures { option_map (λ d. d.now) result ≡ find (λ d. bytes_eq d.name name.now) self.now.entries.items }
    {
        let place = self.places.place(name.bytes())?;
        Some(&self.entries[place])
    }

    /// Puts an entry behind the others.
    pub(crate) fn push(&mut self, alloc: Global, declared: Declared) -> Result<(), Memory>
        ensures { OnOk result (self.new.entries.items ≡ self.old.entries.items ++ declared ∷ []) }
    {
        push_both(alloc, &mut self.entries, declared, &mut self.places)?;
        Ok(())
    }
}
