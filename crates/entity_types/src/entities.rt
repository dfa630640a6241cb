//! Entity types of 2 to 8 members, and their attributes, each a row of variables of a space.

ghost use Rattle.std.specs.Prelude.{◌≡◌, ◌≢◌, ◌≤◌, length, map, AllPairs, bytes_eq, position as place_in};
ghost use Rattle.entity_types.specs.Rows.{IsPlaced};
ghost use Rattle.entity_types.specs.OneProof.{IsPlaced-prop};

use crate::joined::{add_row, is_some_long, joined_names};
use source_sink::Memory;
use state_space::{Name, Range, Space, VarId};
use std::alloc::{AllocError, AllocFailed, Global};

/// Why an entity type or an attribute is not added.
#[derive(Clone, Copy, Debug, PartialEq, Eq)]
pub enum EntityRefusal {
    /// There are not 2 to 8 members, or a variable can not have the range.
    BadRange,
    /// The name of one of the attribute's variables is over 40 bytes.
    LongName,
    /// The space has the variable of this member, which is the first such one.
    DuplicateName(u8),
    /// More than 64 variables would be there.
    TooManyVars,
    /// Memory ran out.
    Memory,
}

impl From<AllocError> for EntityRefusal {
    ghost use Rattle.entity_types.specs.declared.entities.EntityRefusal.TheVariants.{Memory};

    ghost from_gives = { λ _ e. e ≡ Memory };

    fn from(_: AllocError) -> EntityRefusal {
        EntityRefusal::Memory
    }
}

impl<T: Drop> From<AllocFailed<T>> for EntityRefusal {
    ghost use Rattle.entity_types.specs.declared.entities.EntityRefusal.TheVariants.{Memory};

    ghost from_gives = { λ _ e. e ≡ Memory };

    fn from(_: AllocFailed<T>) -> EntityRefusal {
        EntityRefusal::Memory
    }
}

impl From<Memory> for EntityRefusal {
    ghost use Rattle.entity_types.specs.declared.entities.EntityRefusal.TheVariants.{Memory};

    ghost from_gives = { λ _ e. e ≡ Memory };

    fn from(_: Memory) -> EntityRefusal {
        EntityRefusal::Memory
    }
}

// A type: 2 to 8 members, no two of one name.
#[derive(Drop)]
struct EntityType {
    name: Name,
    members: Vec<Name>,
    ghost several: { 2 ≤ length members.items },
    ghost few: { length members.items ≤ 8 },
    ghost apart: { AllPairs (λ a b. a ≢ b) members.items },
}

// An attribute of a type. Its variables stand side by side.
#[derive(Drop)]
struct Attribute {
    name: Name,
    entity: u16,
    first: u8,
}

// The place of a name in a list.
fn position(names: &[Name], name: &[u8]) -> Option<usize>
    ensures { result ≡ place_in (λ n. bytes_eq n name.now) names.now }
{
    names.iter().position(|other| other.bytes() == name)
}

/// Entity types and their attributes, in the order in which they were added.
#[derive(Drop)]
pub struct Entities {
    types: Vec<EntityType>,
    attributes: Vec<Attribute>,
    pub ghost few: { length types.items ≤ 2000 },
    pub ghost placed: { IsPlaced (record { counts = map (λ t. length t.members.items) types.items; owners = map (λ a. a.entity) attributes.items; firsts = map (λ a. a.first) attributes.items }) } by { IsPlaced-prop (record { counts = map (λ t. length t.members.items) types.items; owners = map (λ a. a.entity) attributes.items; firsts = map (λ a. a.first) attributes.items }) },
}

impl Entities {
    ghost use Rattle.std.specs.Prelude.{◌⊎◌, ◌↔◌, ℕ, ◌+◌, ◌<◌, [], ◌∷◌, ◌++◌, IfOk, OnOk, OnErr, IfErr, IfSome, IsErrOf, is_none, position, bytes_eq};
    ghost use Rattle.entity_types.specs.Rows.{count_of, owner_of, variable_of};
    ghost use Rattle.entity_types.specs.View.{type_names, member_names, attribute_names, attributes, rows_of};
    ghost use Rattle.entity_types.specs.Joined.{joined_names, members_of, AreAmong};
    ghost use Rattle.entity_types.specs.Attributes.{is_some_long, RefusesAttribute, TakesAttribute};
    ghost use Rattle.entity_types.specs.declared.entities.EntityRefusal.TheVariants.{BadRange as BadRangeCause, Memory as MemoryCause};
    ghost use Rattle.state_space.specs.Ranges.{form_of};
    ghost use Rattle.state_space.specs.Spaces.{names, ranges};

    /// No types. It takes no memory.
    pub fn new(alloc: Global) -> Entities
        ensures types { type_names result ≡ [] }
        ensures members { member_names result ≡ [] }
        ensures attributes { attribute_names result ≡ [] }
    {
        Entities {
            types: Vec::new(alloc),
            attributes: Vec::new(alloc),
        }
    }

    /// How many members a type has, which is there: 2 to 8.
    pub fn member_count(&self, entity: u16) -> u8
        requires { entity < length (rows_of self.now).counts }
        ensures count { result ≡ count_of (rows_of self.now) entity }
        ensures several { 2 ≤ result }
        ensures few { result ≤ 8 }
    {
        self.types[entity as usize].members.len() as u8
    }

    /// The type of an attribute, which is there.
    pub fn entity_of(&self, attr: u8) -> u16
        requires { attr < length (rows_of self.now).owners }
        ensures entity { result ≡ owner_of (rows_of self.now) attr }
        ensures inside { result < length (rows_of self.now).counts }
    {
        self.attributes[attr as usize].entity
    }

    /// The place of the member of this name in a type that is there.
    pub fn member(&self, entity: u16, name: &[u8]) -> Option<u8>
        requires { entity < length (rows_of self.now).counts }
        ensures place { result ≡ position (λ m. bytes_eq m name.now) (members_of self.now entity) }
    {
        let place = position(self.members(entity), name)?;
        Some(place as u8)
    }

    /// The names that the variables of an attribute of this name would have, in member order, or
    /// nothing where one of them has over 40 bytes.
    pub fn joined_names(
        &self,
        alloc: Global,
        attr: &Name,
        entity: u16,
    ) -> Result<Option<Vec<Name>>, Memory>
        requires { entity < length (rows_of self.now).counts }
        ensures long { IfOk result (λ o. is_none o ≡ is_some_long attr.now (members_of self.now entity)) }
        ensures names { IfOk result (λ o. IfSome o (λ v. v.items ≡ joined_names attr.now (members_of self.now entity))) }
    {
        let members = self.members(entity);
        if is_some_long(attr, members) {
            return Ok(None);
        }
        Ok(Some(joined_names(alloc, attr, members)?))
    }

    // The members of a type, which is there.
    fn members(&self, entity: u16) -> &[Name]
        requires { entity < length (rows_of self.now).counts }
        ensures members { result.now ≡ members_of self.now entity }
        ensures few { length result.now ≤ 8 }
        ensures distinct { AllPairs (λ a b. a ≢ b) result.now }
    {
        &self.types[entity as usize].members
    }

    /// The variable of an attribute and a member of its type, which are there.
    pub fn variable(&self, attr: u8, member: u8) -> VarId
        requires attr { attr < length (rows_of self.now).owners }
        requires member { member < count_of (rows_of self.now) (owner_of (rows_of self.now) attr) }
        ensures variable { result.0 ≡ variable_of (rows_of self.now) attr member }
    {
        VarId(self.attributes[attr as usize].first + member)
    }

    /// Appends a type of members of distinct names, whose number is the old count. `BadRange` comes
    /// exactly where there are not 2 to 8 members, and else only memory can be wanting. After a
    /// refusal the entities are as they were.
    pub fn add_entity(&mut self, name: Name, members: Vec<Name>) -> Result<u16, EntityRefusal>
        requires distinct { AllPairs (λ a b. a ≢ b) members.items }
        requires few { length (type_names self.old) < 2000 }
        ensures bad_range { IsErrOf result EntityRefusal.BadRange ↔ ¬ ((2 ≤ length members.items) × (length members.items ≤ 8)) }
        ensures causes { IfErr result (λ e. (e ≡ BadRangeCause) ⊎ (e ≡ MemoryCause)) }
        ensures id { IfOk result (λ id. id ≡ length (type_names self.old)) }
        ensures names { OnOk result (type_names self.new ≡ type_names self.old ++ name ∷ []) }
        ensures members { OnOk result (member_names self.new ≡ member_names self.old ++ members.items ∷ []) }
        ensures same_names { OnErr result (type_names self.new ≡ type_names self.old) }
        ensures same_members { OnErr result (member_names self.new ≡ member_names self.old) }
        ensures attributes { attributes self.new ≡ attributes self.old }
    {
        if !(2..=8).contains(&members.len()) {
            return Err(EntityRefusal::BadRange);
        }
        let id = self.types.len() as u16;
        self.types.push(EntityType { name, members })?;
        Ok(id)
    }

    /// Appends an attribute of a type that is there: to the space one variable of the range for each
    /// member, in order, named by the attribute, a `_` and the member. Its number is the old count.
    /// `BadRange` comes where a variable can not have the range, `LongName` else where a name is over
    /// 40 bytes, `DuplicateName` else where the space has a name, `TooManyVars` else where more than
    /// 64 variables would be there, and `Memory` in place of any. After a refusal the entities are as
    /// they were, and so is the space, but that after `Memory` it may have some of the variables.
    pub fn add_attr(
        &mut self,
        space: &mut Space,
        name: Name,
        entity: u16,
        range: Range,
    ) -> Result<u8, EntityRefusal>
        requires entity { entity < length (rows_of self.old).counts }
        requires among { AreAmong self.old (names space.old) }
        ensures refused { IfErr result (λ e. (e ≡ MemoryCause) ⊎ RefusesAttribute (names space.old) name (members_of self.old entity) (form_of range) e) }
        ensures taken { OnOk result (TakesAttribute (names space.old) name (members_of self.old entity) (form_of range)) }
        ensures id { IfOk result (λ id. id ≡ length (attribute_names self.old)) }
        ensures attributes { OnOk result (attributes self.new ≡ attributes self.old ++ (record { name = name; entity = entity; first = length (names space.old) }) ∷ []) }
        ensures names { OnOk result (names space.new ≡ names space.old ++ joined_names name (members_of self.old entity)) }
        ensures ranges { OnOk result (ranges space.new ≡ ranges space.old ++ map (λ m. form_of range) (members_of self.old entity)) }
        ensures among { OnOk result (AreAmong self.new (names space.new)) }
        ensures same_types { type_names self.new ≡ type_names self.old }
        ensures same_members { member_names self.new ≡ member_names self.old }
        ensures same_attributes { OnErr result (attributes self.new ≡ attributes self.old) }
        ensures same_names { IfErr result (λ e. e ≢ MemoryCause → names space.new ≡ names space.old) }
        ensures same_ranges { IfErr result (λ e. e ≢ MemoryCause → ranges space.new ≡ ranges space.old) }
    {
        let alloc = *self.types.allocator();
        let id = self.attributes.len() as u8;
        let first = add_row(alloc, space, &name, self.members(entity), &range)?;
        self.attributes.push(Attribute {
            name,
            entity,
            first,
        })?;
        Ok(id)
    }
}
