//! The variables of an attribute in a space: one for each member, under its joined name. What the
//! space can not take is refused before it is touched.

ghost use Rattle.std.specs.Prelude.{◌≡◌, ◌≢◌, ◌⊎◌, ◌<◌, ◌≤◌, ◌+◌, [], ◌∷◌, ◌++◌, false, None, length, map, bytes_eq, AllPairs, Contains, IfOk, OnOk, IfErr};
ghost use Rattle.std.specs.List.{list_any};
ghost use Rattle.state_space.specs.Ranges.{form_of, IsGoodRange};
ghost use Rattle.state_space.specs.Spaces.{names, ranges};
ghost use Rattle.entity_types.specs.Joined.{joined_name, joined_names, is_long, first_taken};
ghost use Rattle.entity_types.specs.Attributes.{is_some_long, RefusesAttribute, TakesAttribute};
ghost use Rattle.entity_types.specs.declared.entities.EntityRefusal.TheVariants.{Memory as MemoryCause};

use crate::entities::EntityRefusal;
use source_sink::Memory;
use state_space::{AddRefusal, Name, NameRefusal, Range, Space};
use std::alloc::Global;

// Whether the joined name has more bytes than a name can have.
fn is_long(attr: &Name, member: &Name) -> bool
    ensures { result ≡ is_long (joined_name attr.now member.now) }
{
    attr.bytes().len() + 1 + member.bytes().len() > 40
}

/// Whether that is so for some member.
pub(crate) fn is_some_long(attr: &Name, members: &[Name]) -> bool
    ensures { result ≡ is_some_long attr.now members.now }
{
    members.iter().any(|member| is_long(attr, member))
}

// The joined name, which is short enough. It is no keyword, since none has a `_`.
fn joined_name(alloc: Global, attr: &Name, member: &Name) -> Result<Name, Memory>
    requires short { is_long (joined_name attr.now member.now) ≡ false }
    ensures { IfOk result (λ n. n ≡ joined_name attr.now member.now) }
{
    let mut bytes = Vec::from_slice(alloc, attr.bytes())?;
    bytes.push(b'_')?;
    bytes.extend_from_slice(member.bytes())?;
    match Name::new(alloc, &bytes) {
        Ok(name) => Ok(name),
        Err(NameRefusal::Memory) => Err(Memory),
        Err(NameRefusal::NotAName) => unreachable!(),
    }
}

/// The joined names of all members, which are short enough.
pub(crate) fn joined_names(
    alloc: Global,
    attr: &Name,
    members: &[Name],
) -> Result<Vec<Name>, Memory>
    requires short { is_some_long attr.now members.now ≡ false }
    ensures { IfOk result (λ v. v.items ≡ joined_names attr.now members.now) }
{
    let mut joined = Vec::with_capacity(alloc, members.len())?;
    'members: for member in members {
        joined.push(joined_name(alloc, attr, member)?)?;
    }
    Ok(joined)
}

// Whether the space has a variable of the name.
fn is_taken(space: &Space, name: &Name) -> bool
    ensures { result ≡ list_any (bytes_eq name.now) (names space.now) }
{
    space.find(name.bytes()).is_some()
}

// The first of the joined names that the space has.
fn first_taken(space: &Space, joined: &[Name]) -> Option<usize>
    ensures { result ≡ first_taken (names space.now) joined.now }
{
    joined.iter().position(|name| is_taken(space, name))
}

// The joined names, where the space can take variables of these names and the range.
fn new_names(
    alloc: Global,
    space: &Space,
    attr: &Name,
    members: &[Name],
    range: &Range,
) -> Result<Vec<Name>, EntityRefusal>
    requires few { length members.now ≤ 8 }
    ensures refused { IfErr result (λ e. (e ≡ MemoryCause) ⊎ RefusesAttribute (names space.now) attr.now members.now (form_of range.now) e) }
    ensures taken { OnOk result (TakesAttribute (names space.now) attr.now members.now (form_of range.now)) }
    ensures joined { IfOk result (λ v. v.items ≡ joined_names attr.now members.now) }
{
    if !range.is_good() {
        return Err(EntityRefusal::BadRange);
    }
    if is_some_long(attr, members) {
        return Err(EntityRefusal::LongName);
    }
    let joined = joined_names(alloc, attr, members)?;
    if let Some(member) = first_taken(space, &joined) {
        return Err(EntityRefusal::DuplicateName(member as u8));
    }
    if usize::from(space.count()) + members.len() > 64 {
        return Err(EntityRefusal::TooManyVars);
    }
    Ok(joined)
}

// Appends a variable that the space can take, so that only memory can be wanting.
fn add_variable(space: &mut Space, name: Name, range: Range) -> Result<(), Memory>
    requires free { ¬ (Contains (names space.old) name) }
    requires good { IsGoodRange (form_of range) }
    requires room { length (names space.old) < 64 }
    ensures names { OnOk result (names space.new ≡ names space.old ++ name ∷ []) }
    ensures ranges { OnOk result (ranges space.new ≡ ranges space.old ++ form_of range ∷ []) }
{
    match space.add(name, range) {
        Ok(_) => Ok(()),
        Err(AddRefusal::Memory) => Err(Memory),
        Err(AddRefusal::DuplicateVar) => unreachable!(),
        Err(AddRefusal::BadRange) => unreachable!(),
        Err(AddRefusal::TooManyVars) => unreachable!(),
    }
}

// Appends a variable of each of the names, all of which the space can take.
fn add_variables(
    alloc: Global,
    space: &mut Space,
    joined: &[Name],
    range: &Range,
) -> Result<(), Memory>
    requires free { first_taken (names space.old) joined.now ≡ None }
    requires distinct { AllPairs (λ a b. a ≢ b) joined.now }
    requires good { IsGoodRange (form_of range.now) }
    requires room { length (names space.old) + length joined.now ≤ 64 }
    ensures names { OnOk result (names space.new ≡ names space.old ++ joined.now) }
    ensures ranges { OnOk result (ranges space.new ≡ ranges space.old ++ map (λ n. form_of range.now) joined.now) }
{
    'names: for name in joined {
        let name = name.clone(alloc)?;
        let range = range.clone(alloc)?;
        add_variable(space, name, range)?;
    }
    Ok(())
}

/// Appends a variable of the range for each member, in order and side by side, and gives the first
/// one's number. After a refusal other than `Memory` the space is as it was; after that it may have
/// some of the variables.
pub(crate) fn add_row(
    alloc: Global,
    space: &mut Space,
    attr: &Name,
    members: &[Name],
    range: &Range,
) -> Result<u8, EntityRefusal>
    requires few { length members.now ≤ 8 }
    requires distinct { AllPairs (λ a b. a ≢ b) members.now }
    ensures refused { IfErr result (λ e. (e ≡ MemoryCause) ⊎ RefusesAttribute (names space.old) attr.now members.now (form_of range.now) e) }
    ensures taken { OnOk result (TakesAttribute (names space.old) attr.now members.now (form_of range.now)) }
    ensures first { IfOk result (λ first. first ≡ length (names space.old)) }
    ensures names { OnOk result (names space.new ≡ names space.old ++ joined_names attr.now members.now) }
    ensures ranges { OnOk result (ranges space.new ≡ ranges space.old ++ map (λ m. form_of range.now) members.now) }
    ensures same_names { IfErr result (λ e. e ≢ MemoryCause → names space.new ≡ names space.old) }
    ensures same_ranges { IfErr result (λ e. e ≢ MemoryCause → ranges space.new ≡ ranges space.old) }
{
    let first = space.count();
    let joined = new_names(alloc, space, attr, members, range)?;
    add_variables(alloc, space, &joined, range)?;
    Ok(first)
}
