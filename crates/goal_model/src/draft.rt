//! A model under way: what is declared so far, and what a statement's formulas are in it.

ghost use Rattle.std.specs.Prelude.{◌≡◌, ◌≤◌, ◌++◌, ◌∷◌, [], map, IfOk, OnOk};
ghost use Rattle.temporal_logic.specs.Trees.{tree_of};
ghost use Rattle.model_text.specs.Limits.{depth_of};
ghost use Rattle.model_text.specs.RawView.{raw_tree};
ghost use Rattle.entity_types.specs.Fits.{Fits};
ghost use Rattle.entity_types.specs.View.{rows_of, written_tree};
ghost use Rattle.goal_model.specs.Refusals.{Gives};
ghost use Rattle.goal_model.specs.Scopes.{scope_of as scope_form};
ghost use Rattle.goal_model.specs.Drafts.{draft_of, no_draft, scope_of, keeps};
ghost use Rattle.goal_model.specs.WholeDrafts.{IsDraft};
ghost use Rattle.goal_model.specs.Resolution.{plain_in, one_taken, two_taken};

use crate::contents::{Contents, WrittenStatement};
use crate::formula::written;
use crate::name_index::Namespace;
use crate::namespace::{Declared, Kind, Scope};
use crate::refusal::{RefusalKind, Stop, refused};
use entity_types::{Entities, Written, ground, ground_size};
use model_text::RawFormula;
use source_sink::Memory;
use state_space::{Name, Space};
use std::alloc::Global;
use temporal_logic::Formula;

/// The most operators and atoms that the plain form of a formula may have in a text of version 2.
const WIDEST: u64 = 4096;

/// What is declared so far. The states of its traces have indexes of those variables alone that were declared before them.
#[derive(Drop)]
pub(crate) struct Draft {
    /// The version of the text, 0 before its statement.
    pub(crate) version: u8,
    pub(crate) names: Namespace,
    pub(crate) contents: Contents,
}

impl Draft {
    /// Nothing is declared.
    pub(crate) fn new(alloc: Global) -> Draft
        ensures { draft_of result ≡ no_draft }
    {
        Draft {
            version: 0,
            names: Namespace::new(alloc),
            contents: Contents {
                space: Space::new(alloc),
                entities: Entities::new(alloc),
                domains: Vec::new(alloc),
                goals: Vec::new(alloc),
                obstacles: Vec::new(alloc),
                agents: Vec::new(alloc),
                operations: Vec::new(alloc),
                requirements: Vec::new(alloc),
                links: Vec::new(alloc),
                traces: Vec::new(alloc),
                written: Vec::new(alloc),
            },
        }
    }

    /// What a formula or a state may name.
    pub(crate) fn scope(&self) -> Scope<'_>
        ensures scope { scope_form result ≡ scope_of (draft_of self.now) }
    {
        Scope {
            space: &self.contents.space,
            entities: &self.contents.entities,
            names: &self.names,
            bound: &[],
        }
    }

    /// Declares a name, which is given back in memory of its own.
    pub(crate) fn declare(
        &mut self,
        alloc: Global,
        name: &Name,
        kind: Kind,
        place: usize,
    ) -> Result<Name, Memory>
        ensures name { IfOk result (λ x. x ≡ name.now) }
        ensures declared { OnOk result (self.new.names.entries.items ≡ self.old.names.entries.items ++ (record { name = name.now; kind = kind; place = place }) ∷ []) }
        ensures version { self.new.version ≡ self.old.version }
        ensures contents { self.new.contents ≡ self.old.contents }
    {
        let declared = Declared {
            name: name.clone(alloc)?,
            kind,
            place,
        };
        self.names.push(alloc, declared)?;
        Ok(name.clone(alloc)?)
    }

    // The plain formula of a written one, in a statement that declares this name.
    fn plain(&self, alloc: Global, name: &Name, written: &Written) -> Result<Formula, Stop>
        requires { Fits (rows_of self.now.contents.entities) [] (written_tree written.now) }
        ensures { Gives tree_of result (plain_in (draft_of self.now) name.now (written_tree written.now)) }
    {
        let entities = &self.contents.entities;
        if self.version == 2 && ground_size(entities, written) > WIDEST {
            return refused(alloc, RefusalKind::TooWide, name);
        }
        Ok(ground(alloc, entities, written)?)
    }

    // Keeps the formulas of a statement as they are written, where the text is of version 2.
    fn keep(&mut self, statement: u32, formulas: Vec<Written>) -> Result<(), Memory>
        ensures { OnOk result (draft_of self.new ≡ keeps (draft_of self.old) statement (map written_tree formulas.items)) }
    {
        if self.version == 2 {
            self.contents.written.push(WrittenStatement {
                statement,
                formulas,
            })?;
        }
        Ok(())
    }

    /// The plain formula of a statement's only formula.
    pub(crate) fn one_formula(
        &mut self,
        alloc: Global,
        number: u32,
        name: &Name,
        body: &RawFormula,
    ) -> Result<Formula, Stop>
        requires draft { IsDraft (draft_of self.old) }
        requires shallow { depth_of (raw_tree body.now) ≤ 100 }
        ensures { Gives (λ f. (draft_of self.new, tree_of f)) result (one_taken (draft_of self.old) number name.now (raw_tree body.now)) }
    {
        let written = written(alloc, &self.scope(), body)?;
        let formula = self.plain(alloc, name, &written)?;
        let mut formulas = Vec::with_capacity(alloc, 1)?;
        formulas.push(written)?;
        self.keep(number, formulas)?;
        Ok(formula)
    }

    /// The plain formulas of a statement's two formulas.
    pub(crate) fn two_formulas(
        &mut self,
        alloc: Global,
        number: u32,
        name: &Name,
        first: &RawFormula,
        second: &RawFormula,
    ) -> Result<(Formula, Formula), Stop>
        requires draft { IsDraft (draft_of self.old) }
        requires first { depth_of (raw_tree first.now) ≤ 100 }
        requires second { depth_of (raw_tree second.now) ≤ 100 }
        ensures { Gives (λ p. (draft_of self.new, tree_of p.0, tree_of p.1)) result (two_taken (draft_of self.old) number name.now (raw_tree first.now) (raw_tree second.now)) }
    {
        let scope = self.scope();
        let first = written(alloc, &scope, first)?;
        let second = written(alloc, &scope, second)?;
        let plain = (
            self.plain(alloc, name, &first)?,
            self.plain(alloc, name, &second)?,
        );
        let mut formulas = Vec::with_capacity(alloc, 2)?;
        formulas.push(first)?;
        formulas.push(second)?;
        self.keep(number, formulas)?;
        Ok(plain)
    }
}
