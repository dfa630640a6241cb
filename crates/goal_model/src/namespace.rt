//! The one namespace of declared names. Variables are found in the space; every other name has a kind and a place in the model's list of
//! that kind. What may name something asks a `Scope`, so that a further kind of name is added here alone. The names that quantifiers bind
//! stand apart from it.

ghost use Rattle.std.specs.Prelude.{◌≡◌, ◌<◌, [], ◌∷◌, ◌++◌, map, find, bytes_eq, Option, option_map, length, IfOk, IfSome};
ghost use Rattle.state_space.specs.Spaces.{names as names_of};
ghost use Rattle.goal_model.specs.Refusals.{Gives};
ghost use Rattle.goal_model.specs.Scopes.{number_of, scope_of, meaning_of, fresh as fresh_form, variable_in, used as used_form, level_of, fresh_bound as fresh_bound_form, listed_from, listed};
ghost use Rattle.goal_model.specs.Resolution.{all_fresh as all_fresh_form};
ghost use Rattle.goal_model.specs.WholeScopes.{IsScope};
ghost use Rattle.goal_model.specs.declared.namespace.Kind.TheVariants.{EntityType as EntityTypeKind, Attribute as AttributeKind};
ghost use Rattle.goal_model.specs.Meanings.{meaning_view, IsVariableOf};

use crate::name_index::Namespace;
use crate::refusal::{RefusalKind, Stop, refused};
use crate::value_index::apart;
use entity_types::Entities;
use source_sink::Memory;
use state_space::{Name, Space, VarId};
use std::alloc::{AllocError, Global};

/// What a name is declared as, if it is no variable's.
#[derive(Clone, Copy, Debug)]
pub(crate) enum Kind {
    /// A domain property or a rule.
    Property,
    Goal,
    Obstacle,
    Agent,
    Operation,
    Requirement,
    Conflict,
    Trace,
    EntityType,
    Attribute,
}

impl Kind {
    /// The place of a kind among them.
    pub(crate) fn number(self) -> u8
        ensures { result ≡ number_of self }
    {
        match self {
            Kind::Property => 0,
            Kind::Goal => 1,
            Kind::Obstacle => 2,
            Kind::Agent => 3,
            Kind::Operation => 4,
            Kind::Requirement => 5,
            Kind::Conflict => 6,
            Kind::Trace => 7,
            Kind::EntityType => 8,
            Kind::Attribute => 9,
        }
    }
}

/// A declared name that is no variable's, and where the model has what it names.
#[derive(Debug, Drop)]
pub(crate) struct Declared {
    pub(crate) name: Name,
    pub(crate) kind: Kind,
    pub(crate) place: usize,
}

/// What a name is.
#[derive(Clone, Copy)]
pub(crate) enum Meaning {
    Variable(VarId),
    // Another declared name: its kind and its place.
    Another(Kind, usize),
}

/// A name that a quantifier binds, and the entity type whose members it stands for.
#[derive(Debug, Drop)]
pub(crate) struct Bound {
    pub(crate) name: Name,
    pub(crate) entity: u16,
}

/// What may be named: the variables of a space, other declared names, and the names that the quantifiers around bind, the outermost first.
#[derive(Clone, Copy)]
pub(crate) struct Scope<'m> {
    pub(crate) space: &'m Space,
    pub(crate) entities: &'m Entities,
    pub(crate) names: &'m Namespace,
    pub(crate) bound: &'m [Bound],
}

impl Scope<'_> {
    /// What a name is, if it is declared.
    pub(crate) fn meaning(&self, name: &Name) -> Option<Meaning>
        ensures exact { option_map meaning_view result ≡ meaning_of (scope_of self.now) name.now }
        ensures inside { IfSome result (IsVariableOf (length (names_of self.now.space.now))) }
    {
        if let Some(x) = self.space.find(name.bytes()) {
            return Some(Meaning::Variable(x));
        }
        let found = self.names.entry(name)?;
        Some(Meaning::Another(found.kind, found.place))
    }

    /// A name that is declared has to be new.
    pub(crate) fn fresh(&self, alloc: Global, name: &Name) -> Result<(), Stop>
        ensures { Gives (λ _. tt) result (fresh_form (scope_of self.now) name.now) }
    {
        if self.meaning(name).is_some() {
            return refused(alloc, RefusalKind::DuplicateName, name);
        }
        Ok(())
    }

    /// The variable of a name that is used.
    pub(crate) fn variable(&self, alloc: Global, name: &Name) -> Result<VarId, Stop>
        ensures exact { Gives (λ x. x.0) result (variable_in (scope_of self.now) name.now) }
        ensures inside { IfOk result (λ x. x.0 < length (names_of self.now.space.now)) }
    {
        match self.meaning(name) {
            Some(Meaning::Variable(x)) => Ok(x),
            Some(Meaning::Another(_, _)) => refused(alloc, RefusalKind::WrongKind, name),
            None => refused(alloc, RefusalKind::UnknownName, name),
        }
    }

    /// The place of a name that is used, which has to be of this kind.
    pub(crate) fn used(&self, alloc: Global, kind: Kind, name: &Name) -> Result<usize, Stop>
        ensures { Gives (λ p. p) result (used_form (scope_of self.now) kind name.now) }
    {
        match self.meaning(name) {
            Some(Meaning::Another(found, place)) => {
                if found.number() == kind.number() {
                    return Ok(place);
                }
                refused(alloc, RefusalKind::WrongKind, name)
            }
            Some(Meaning::Variable(_)) => refused(alloc, RefusalKind::WrongKind, name),
            None => refused(alloc, RefusalKind::UnknownName, name),
        }
    }

    /// The places of the names of a list, each of this kind and none of them twice.
    #[tactic(auto, unfolding(crate::specs::Scopes::listed_from))]
    pub(crate) fn places(
        &self,
        alloc: Global,
        kind: Kind,
        names: &[Name],
    ) -> Result<Vec<usize>, Stop>
        ensures { Gives (λ ps. ps.items) result (listed (used_form (scope_of self.now) kind) names.now) }
    {
        let mut places = Vec::new(alloc);
        'names: for at in 0..names.len() {
            let place = self.used(alloc, kind, &names[at])?;
            apart(alloc, names, at)?;
            places.push(place)?;
        }
        Ok(places)
    }

    /// The number of the entity type of a name that is used.
    pub(crate) fn entity_type(&self, alloc: Global, name: &Name) -> Result<u16, Stop>
        requires { IsScope (scope_of self.now) }
        ensures exact { Gives (λ e. e) result (used_form (scope_of self.now) EntityTypeKind name.now) }
        ensures inside { IfOk result (λ e. e < length (scope_of self.now).members) }
    {
        Ok(self.used(alloc, Kind::EntityType, name)? as u16)
    }

    /// The number of the attribute of a name that is used.
    pub(crate) fn attribute(&self, alloc: Global, name: &Name) -> Result<u8, Stop>
        requires { IsScope (scope_of self.now) }
        ensures exact { Gives (λ a. a) result (used_form (scope_of self.now) AttributeKind name.now) }
        ensures inside { IfOk result (λ a. a < length (scope_of self.now).attributes) }
    {
        Ok(self.used(alloc, Kind::Attribute, name)? as u8)
    }

    /// The level of the quantifier that binds a name, from 0 for the outermost.
    pub(crate) fn level(&self, name: &Name) -> Option<usize>
        ensures { result ≡ level_of (scope_of self.now) name.now }
    {
        self.bound
            .iter()
            .position(|bound| bound.name.bytes() == name.bytes())
    }

    /// A name that a quantifier binds is neither declared nor bound further out.
    pub(crate) fn fresh_bound(&self, alloc: Global, name: &Name) -> Result<(), Stop>
        ensures { Gives (λ _. tt) result (fresh_bound_form (scope_of self.now) name.now) }
    {
        if self.meaning(name).is_some() || self.level(name).is_some() {
            return refused(alloc, RefusalKind::DuplicateName, name);
        }
        Ok(())
    }

    /// The bound names, and one further in.
    pub(crate) fn binding(
        &self,
        alloc: Global,
        name: &Name,
        entity: u16,
    ) -> Result<Vec<Bound>, Memory>
        ensures { IfOk result (λ v. v.items ≡ (scope_of self.now).bound ++ (record { name = name.now; entity = entity }) ∷ []) }
    {
        let mut binding = Vec::with_capacity(alloc, self.bound.len() + 1)?;
        'bound: for bound in self.bound {
            binding.push(Bound {
                name: bound.name.clone(alloc)?,
                entity: bound.entity,
            })?;
        }
        binding.push(Bound {
            name: name.clone(alloc)?,
            entity,
        })?;
        Ok(binding)
    }

    /// Names that are declared with a statement have to be new.
    #[tactic(auto, unfolding(crate::specs::Resolution::all_fresh))]
    pub(crate) fn all_fresh(&self, alloc: Global, names: &[Name]) -> Result<(), Stop>
        ensures { Gives (λ _. tt) result (all_fresh_form (scope_of self.now) names.now) }
    {
        'names: for name in names {
            self.fresh(alloc, name)?;
        }
        Ok(())
    }
}
