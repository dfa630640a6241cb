//! Models: what the statements of a text declare, with every name looked up. A model carries what is known of it: its parts fit its space,
//! each place is one of it, and each of its demands is small enough to be answered.

ghost use Rattle.std.specs.Prelude.{◌≡◌, ◌==◌, true, map, find, Option, option_map};
ghost use Rattle.std.specs.List.{list_all};
ghost use Rattle.goal_model.specs.Models.{WrittenForm, written_of, contents_of, IsWellFormed};
ghost use Rattle.goal_model.specs.Items.{items_of, is_small_item};
ghost use Rattle.goal_model.specs.OneProof.{IsWellFormed-prop};

use crate::contents::{
    Agent, Contents, Goal, Link, NamedTrace, Obstacle, Operation, Property, Requirement,
    WrittenStatement,
};
use crate::item_size::first_large;
use crate::refusal::{ModelRefusal, RefusalKind};
use entity_types::{Entities, Written};
use state_space::Space;
use std::alloc::Global;

// The formulas of the statement of a number.
fn written_at(all: &[WrittenStatement], statement: u32) -> Option<&WrittenStatement>
    ensures { option_map (λ w. written_of w.now) result ≡ find (λ w. w.statement == statement) (map written_of all.now) }
{
    'statements: for written in all {
        if written.statement == statement {
            return Some(written);
        }
    }
    None
}

/// The model of a text. Each list is in statement order.
#[derive(Drop)]
pub struct Model {
    pub(crate) contents: Contents,
    pub ghost well_formed: { IsWellFormed (contents_of contents) } by { IsWellFormed-prop (contents_of contents) },
    pub ghost small: { list_all (is_small_item (contents_of contents)) (items_of (contents_of contents)) ≡ true },
}

impl Model {
    ghost use Rattle.state_space.specs.Spaces.{names, ranges};
    ghost use Rattle.entity_types.specs.View.{type_names, member_names, attributes as attributes_of, written_tree};
    ghost use Rattle.goal_model.specs.Models.{formulas_at, property_of, goal_of, obstacle_of, agent_of, operation_of, requirement_of, link_of, trace_of};
    ghost use Rattle.goal_model.specs.ModelViews.{model_of};
    ghost use Rattle.goal_model.specs.Resolution.{made};
    ghost use Rattle.goal_model.specs.Outcomes.{sized_all, AnswersBy};

    /// The model of all that is declared, unless a demand of it is too large to be answered.
    pub(crate) fn of_contents(alloc: Global, contents: Contents) -> Result<Model, ModelRefusal>
        requires { IsWellFormed (contents_of contents) }
        ensures answer { AnswersBy (λ m. made (model_of m)) result (sized_all (contents_of contents)) }
    {
        match first_large(alloc, &contents)? {
            Some(blamed) => Err(ModelRefusal::Refused {
                kind: RefusalKind::TooLarge,
                statement: blamed.statement,
                name: blamed.name,
            }),
            None => Ok(Model { contents }),
        }
    }

    /// The variables.
    pub fn space(&self) -> &Space
        ensures names { names result.now ≡ (model_of self.now).names }
        ensures ranges { ranges result.now ≡ (model_of self.now).ranges }
    {
        &self.contents.space
    }

    /// The entity types and attributes; version 1 has none.
    pub fn entities(&self) -> &Entities
        ensures types { type_names result.now ≡ (model_of self.now).types }
        ensures members { member_names result.now ≡ (model_of self.now).members }
        ensures attributes { attributes_of result.now ≡ (model_of self.now).attributes }
    {
        &self.contents.entities
    }

    /// The formulas of the statement of a number, from 1, as they are written, in text order: two of a rule and of an operation, one of
    /// another statement with a formula. Of version 1 there are none.
    pub fn written(&self, statement: u32) -> &[Written]
        ensures { map written_tree result.now ≡ formulas_at (model_of self.now) statement }
    {
        match written_at(&self.contents.written, statement) {
            Some(found) => &found.formulas,
            None => &[],
        }
    }

    /// The domain properties and rules.
    pub fn domains(&self) -> &[Property]
        ensures { map property_of result.now ≡ (model_of self.now).domains }
    {
        &self.contents.domains
    }

    /// The goals.
    pub fn goals(&self) -> &[Goal]
        ensures { map goal_of result.now ≡ (model_of self.now).goals }
    {
        &self.contents.goals
    }

    /// The obstacles.
    pub fn obstacles(&self) -> &[Obstacle]
        ensures { map obstacle_of result.now ≡ (model_of self.now).obstacles }
    {
        &self.contents.obstacles
    }

    /// The agents.
    pub fn agents(&self) -> &[Agent]
        ensures { map agent_of result.now ≡ (model_of self.now).agents }
    {
        &self.contents.agents
    }

    /// The operations.
    pub fn operations(&self) -> &[Operation]
        ensures { map operation_of result.now ≡ (model_of self.now).operations }
    {
        &self.contents.operations
    }

    /// The requirements.
    pub fn requirements(&self) -> &[Requirement]
        ensures { map requirement_of result.now ≡ (model_of self.now).requirements }
    {
        &self.contents.requirements
    }

    /// The links.
    pub fn links(&self) -> &[Link]
        ensures { map link_of result.now ≡ (model_of self.now).links }
    {
        &self.contents.links
    }

    /// The traces.
    pub fn traces(&self) -> &[NamedTrace]
        ensures { map trace_of result.now ≡ (model_of self.now).traces }
    {
        &self.contents.traces
    }
}
