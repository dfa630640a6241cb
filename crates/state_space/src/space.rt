//! Spaces: lists of variables with their ranges. A space has at most 64 variables, no two of one
//! name, and each has 1 to 64 values: `add` is the only way in, and it refuses all else.

ghost use Rattle.std.specs.Prelude.{◌≡◌, ◌≢◌, ◌≤◌, ◌-◌, ◌^◌, [], ◌∷◌, ◌++◌, is_ok, if◌then◌else◌, length, map, position, bytes_eq, AllPairs};
ghost use Rattle.state_space.specs.Ranges.{form_of, IsGoodRange};
ghost use Rattle.state_space.specs.Ranges.{size_of};
ghost use Rattle.state_space.specs.Members.{full_of};
ghost use Rattle.state_space.specs.NameIndexes.{IsIndex, IsIndex-prop};
ghost use Rattle.state_space.specs.OneProof.{IsGoodRange-prop};

use crate::name::Name;
use crate::name_index::NameIndex;
use crate::range::Range;
use crate::values::{Values, VarId};
use std::alloc::{AllocError, AllocFailed, Global};

/// Why a variable is not added.
#[derive(Clone, Copy, Debug, PartialEq, Eq)]
pub enum AddRefusal {
    /// The space has a variable of that name.
    DuplicateVar,
    /// The range has no value or over 64, or it has a name twice.
    BadRange,
    /// The space has 64 variables.
    TooManyVars,
    /// Memory ran out.
    Memory,
}

impl From<AllocError> for AddRefusal {
    ghost use Rattle.state_space.specs.declared.space.AddRefusal.TheVariants.{Memory};

    ghost from_gives = { λ _ e. e ≡ Memory };

    fn from(_: AllocError) -> AddRefusal {
        AddRefusal::Memory
    }
}

impl<T: Drop> From<AllocFailed<T>> for AddRefusal {
    ghost use Rattle.state_space.specs.declared.space.AddRefusal.TheVariants.{Memory};

    ghost from_gives = { λ _ e. e ≡ Memory };

    fn from(_: AllocFailed<T>) -> AddRefusal {
        AddRefusal::Memory
    }
}

// A variable: its range has 1 to 64 values, and no name twice.
#[derive(Debug, Drop)]
struct Variable {
    name: Name,
    range: Range,
    ghost good: { IsGoodRange (form_of range) } by { IsGoodRange-prop (form_of range) },
}

/// A list of at most 64 variables of distinct names, each with a range of 1 to 64 values. A name is found by its hash.
#[derive(Drop)]
pub struct Space {
    variables: Vec<Variable>,
    places: NameIndex,
    // All value indexes of each variable.
    full: Vec<Values>,
    pub ghost whole: { map (λ set. set.0) full.items ≡ full_of (map (λ v. size_of (form_of v.range)) variables.items) },
    pub ghost few: { length variables.items ≤ 64 },
    pub ghost apart: { AllPairs (λ a b. a ≢ b) (map (λ v. v.name) variables.items) },
    pub ghost indexed: { IsIndex places (map (λ v. v.name) variables.items) } by { IsIndex-prop places (map (λ v. v.name) variables.items) },
}

// All indexes below the size, which is at most 64.
fn all_below(size: u8) -> Values
    requires { size ≤ 64 }
    ensures all { result.0 ≡ 2 ^ size - 1 }
{
    if size == 64 {
        Values(u64::MAX)
    } else {
        Values((1 << size) - 1)
    }
}

// Appends to each list, and to the index of the names, or to none of them.
fn push_all(
    variables: &mut Vec<Variable>,
    variable: Variable,
    places: &mut NameIndex,
    full: &mut Vec<Values>,
    all: Values,
) -> Result<(), AllocError>
    ensures variables { variables.new.items ≡ (if is_ok result then variables.old.items ++ variable ∷ [] else variables.old.items) }
    ensures places { IsIndex places.old (map (λ v. v.name) variables.old.items) → IsIndex places.new (map (λ v. v.name) variables.new.items) }
    ensures full { full.new.items ≡ (if is_ok result then full.old.items ++ all ∷ [] else full.old.items) }
{
    let alloc = *variables.allocator();
    let place = variables.len();
    // Room first, so that nothing fails once the name is in the index.
    variables.reserve(1)?;
    full.reserve(1)?;
    places.push(alloc, variable.name.bytes(), place)?;
    if variables.push(variable).is_err() || full.push(all).is_err() {
        unreachable!();
    }
    Ok(())
}

impl Space {
    ghost use Rattle.std.specs.Prelude.{◌<◌, ◌↔◌, Some, Contains, IfOk, OnOk, OnErr, IsErrOf, IfSome, IsSome, IsNone, option_map, slice_get, slice_index};
    ghost use Rattle.state_space.specs.Spaces.{names, ranges, sizes};

    /// The space of no variable. It takes no memory.
    pub fn new(alloc: Global) -> Space
        ensures names { names result ≡ [] }
        ensures ranges { ranges result ≡ [] }
    {
        Space {
            variables: Vec::new(alloc),
            places: NameIndex::new(alloc),
            full: Vec::new(alloc),
        }
    }

    /// How many variables the space has.
    pub fn count(&self) -> u8
        ensures count { result ≡ length (names self.now) }
        ensures few { result ≤ 64 }
    {
        self.variables.len() as u8
    }

    /// The variable of a name, if there is one.
    pub fn find(&self, name: &[u8]) -> Option<VarId>
        ensures place { option_map (λ id. id.0) result ≡ position (λ n. bytes_eq n name.now) (names self.now) }
        ensures found { IfSome result (λ id. slice_get (names self.now) id.0 ≡ Some name.now) }
        ensures some { IsSome result ↔ Contains (names self.now) name.now }
        ensures none { IsNone result ↔ ¬ (Contains (names self.now) name.now) }
    {
        let place = self.places.place(name)?;
        Some(VarId(place as u8))
    }

    /// The name of a variable, whose number is below the count.
    pub fn name_of(&self, id: VarId) -> &Name
        requires { id.0 < length (names self.now) }
        ensures name { slice_get (names self.now) id.0 ≡ Some result.now }
    {
        &self.variables[id.0 as usize].name
    }

    /// The range of a variable, whose number is below the count.
    pub fn range_of(&self, id: VarId) -> &Range
        requires { id.0 < length (names self.now) }
        ensures range { slice_get (ranges self.now) id.0 ≡ Some (form_of result.now) }
        ensures good { IsGoodRange (form_of result.now) }
    {
        &self.variables[id.0 as usize].range
    }

    /// How many values a variable has, whose number is below the count: 1 to 64.
    pub fn size_of(&self, id: VarId) -> u8
        requires { id.0 < length (names self.now) }
        ensures size { result ≡ slice_index (sizes self.now) id.0 }
        ensures some { 0 < result }
        ensures few { result ≤ 64 }
    {
        self.range_of(id).size() as u8
    }

    /// For each variable the set of all its value indexes.
    pub fn full(&self) -> &[Values]
        ensures full { map (λ set. set.0) result.now ≡ full_of (sizes self.now) }
    {
        &self.full
    }

    /// Appends a variable, whose number is the old count. `DuplicateVar` comes exactly where the
    /// name is there, `BadRange` else where the range is not good, `TooManyVars` else where 64
    /// variables are there. After a refusal the space is as it was.
    pub fn add(&mut self, name: Name, range: Range) -> Result<VarId, AddRefusal>
        ensures duplicate { IsErrOf result AddRefusal.DuplicateVar ↔ Contains (names self.old) name }
        ensures bad_range { IsErrOf result AddRefusal.BadRange ↔ (¬ (Contains (names self.old) name) × ¬ (IsGoodRange (form_of range))) }
        ensures too_many { IsErrOf result AddRefusal.TooManyVars ↔ (¬ (Contains (names self.old) name) × IsGoodRange (form_of range) × (length (names self.old) ≡ 64)) }
        ensures id { IfOk result (λ id. id.0 ≡ length (names self.old)) }
        ensures names { OnOk result (names self.new ≡ names self.old ++ name ∷ []) }
        ensures ranges { OnOk result (ranges self.new ≡ ranges self.old ++ form_of range ∷ []) }
        ensures same_names { OnErr result (names self.new ≡ names self.old) }
        ensures same_ranges { OnErr result (ranges self.new ≡ ranges self.old) }
    {
        if self.find(name.bytes()).is_some() {
            return Err(AddRefusal::DuplicateVar);
        }
        if !range.is_good() {
            return Err(AddRefusal::BadRange);
        }
        if self.count() == 64 {
            return Err(AddRefusal::TooManyVars);
        }
        let id = VarId(self.count());
        let all = all_below(range.size() as u8);
        let variable = Variable { name, range };
        push_all(
            &mut self.variables,
            variable,
            &mut self.places,
            &mut self.full,
            all,
        )?;
        Ok(id)
    }
}
