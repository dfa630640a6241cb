//! Demands: the formulas that an item's parts stand for, behind the domain properties.

ghost use Rattle.std.specs.Prelude.{◌≡◌, ◌<◌, ◌∷◌, [], All, map, length, slice_index_or, IfOk};
ghost use Rattle.temporal_logic.specs.Trees.{tree_of};
ghost use Rattle.temporal_logic.specs.Ltl.{conj, next as next_form, entails as entails_form};
ghost use Rattle.goal_model.specs.Models.{contents_of, link_of, requirement_of, PartsFit};
ghost use Rattle.goal_model.specs.ModelViews.{model_of};
ghost use Rattle.goal_model.specs.KnownParts.{PartIsOf};
ghost use Rattle.goal_model.specs.Requirements.{requirement_tree as requirement_tree_form};
ghost use Rattle.goal_model.specs.Items.{requirement_formula as requirement_formula_form, boundary_of, part_formula, signed, list_of, domain_item, no_link, link_items_of};
ghost use Rattle.goal_model.specs.Demands.{demand_of, demands_of, IsAnswerable};

use crate::contents::{Contents, Link, Requirement};
use crate::item::{Label, LabelKind, Part, Wanted, link_items};
use crate::model::Model;
use model_text::Role;
use source_sink::Memory;
use std::alloc::Global;
use temporal_logic::Formula;

// A formula's clone in a place of its own.
fn boxed(alloc: Global, formula: &Formula) -> Result<Box<Formula>, Memory>
    ensures { IfOk result (λ f. tree_of f.value ≡ tree_of formula.now) }
{
    Ok(Box::new(alloc, formula.clone(alloc)?)?)
}

// At each position from here on, if the first formula is true, so is the second.
fn entails(alloc: Global, cause: Formula, effect: Formula) -> Result<Formula, Memory>
    ensures { IfOk result (λ f. tree_of f ≡ entails_form (tree_of cause) (tree_of effect)) }
{
    Ok(Formula::Entails(Box::new(alloc, cause)?, Box::new(alloc, effect)?))
}

// Both formulas.
fn both(alloc: Global, first: &Formula, second: Formula) -> Result<Formula, Memory>
    ensures { IfOk result (λ f. tree_of f ≡ conj (tree_of first.now) (tree_of second)) }
{
    Ok(Formula::And(boxed(alloc, first)?, Box::new(alloc, second)?))
}

// The formula at the next position.
fn next(alloc: Global, formula: &Formula) -> Result<Formula, Memory>
    ensures { IfOk result (λ f. tree_of f ≡ next_form (tree_of formula.now)) }
{
    Ok(Formula::Next(boxed(alloc, formula)?))
}

/// The formula of a requirement on an operation. The operation is applied where `dompre` is true, and `dompost` is true at the next
/// position.
pub fn requirement_tree(
    alloc: Global,
    role: Role,
    dompre: &Formula,
    dompost: &Formula,
    formula: &Formula,
) -> Result<Formula, Memory>
    ensures { IfOk result (λ f. tree_of f ≡ requirement_tree_form role (tree_of dompre.now) (tree_of dompost.now) (tree_of formula.now)) }
{
    let after = next(alloc, dompost)?;
    match role {
        Role::Pre => {
            let applied = both(alloc, dompre, after)?;
            entails(alloc, applied, formula.clone(alloc)?)
        }
        Role::Trig => {
            let triggered = both(alloc, formula, dompre.clone(alloc)?)?;
            entails(alloc, triggered, after)
        }
        Role::Post => {
            let applied = both(alloc, dompre, after)?;
            entails(alloc, applied, next(alloc, formula)?)
        }
    }
}

/// The formula that a requirement of a model stands for.
pub(crate) fn compiled(
    alloc: Global,
    contents: &Contents,
    requirement: &Requirement,
) -> Result<Formula, Memory>
    requires { requirement.now.operation < length (contents_of contents.now).operations }
    ensures { IfOk result (λ f. tree_of f ≡ requirement_formula_form (contents_of contents.now) (requirement_of requirement.now)) }
{
    let operation = &contents.operations[requirement.operation];
    requirement_tree(
        alloc,
        requirement.role,
        &operation.dompre,
        &operation.dompost,
        &requirement.formula,
    )
}

// The boundary condition of a conflict; of another link that which is always true.
fn boundary(alloc: Global, link: &Link) -> Result<Formula, Memory>
    ensures { IfOk result (λ f. tree_of f ≡ boundary_of (link_of link.now)) }
{
    match link {
        Link::Conflict { boundary, .. } => Ok(boundary.clone(alloc)?),
        _ => Ok(Formula::True),
    }
}

/// The formula of a part.
pub(crate) fn formula_of(alloc: Global, contents: &Contents, part: Part) -> Result<Formula, Memory>
    requires fit { PartsFit (contents_of contents.now) }
    requires known { PartIsOf (contents_of contents.now) part }
    ensures { IfOk result (λ f. tree_of f ≡ part_formula (contents_of contents.now) part) }
{
    match part {
        Part::Goal(place) => Ok(contents.goals[place].formula.clone(alloc)?),
        Part::Obstacle(place) => Ok(contents.obstacles[place].formula.clone(alloc)?),
        Part::Requirement(place) => compiled(alloc, contents, &contents.requirements[place]),
        Part::Boundary(place) => boundary(alloc, &contents.links[place]),
    }
}

// The formula of a part as it is, or its negation.
fn signed_formula(
    alloc: Global,
    contents: &Contents,
    part: Part,
    positive: bool,
) -> Result<Formula, Memory>
    requires fit { PartsFit (contents_of contents.now) }
    requires known { PartIsOf (contents_of contents.now) part }
    ensures { IfOk result (λ f. tree_of f ≡ signed positive (part_formula (contents_of contents.now) part)) }
{
    let formula = formula_of(alloc, contents, part)?;
    if positive {
        return Ok(formula);
    }
    Ok(Formula::Not(Box::new(alloc, formula)?))
}

// The domain properties.
fn domain_list(alloc: Global, contents: &Contents) -> Result<Vec<Formula>, Memory>
    ensures { IfOk result (λ fs. map tree_of fs.items ≡ map (λ p. p.formula) (contents_of contents.now).domains) }
{
    let mut list = Vec::new(alloc);
    'domains: for property in &contents.domains {
        list.push(property.formula.clone(alloc)?)?;
    }
    Ok(list)
}

/// The domain properties, and then the formulas of parts of the model, each as it is (true) or negated.
pub fn demand_list(
    alloc: Global,
    model: &Model,
    parts: &[(Part, bool)],
) -> Result<Vec<Formula>, Memory>
    requires { All (λ p. PartIsOf (model_of model.now) p.0) parts.now }
    ensures { IfOk result (λ fs. map tree_of fs.items ≡ list_of (model_of model.now) parts.now) }
{
    let mut list = domain_list(alloc, &model.contents)?;
    'parts: for (part, positive) in parts {
        list.push(signed_formula(alloc, &model.contents, *part, *positive)?)?;
    }
    Ok(list)
}

/// What is asked of traces: that none meets a list of formulas, or that some does.
#[derive(Drop)]
pub struct Demand {
    pub label: Label,
    pub list: Vec<Formula>,
    pub wanted: Wanted,
}

/// The demand that the domain properties have a trace.
pub fn domain_demand(alloc: Global, model: &Model) -> Result<Demand, Memory>
    ensures demand { IfOk result (λ d. demand_of d ∷ [] ≡ demands_of (model_of model.now) (domain_item ∷ [])) }
    ensures answerable { IfOk result (λ d. IsAnswerable (model_of model.now) (map tree_of d.list.items)) }
{
    Ok(Demand {
        label: Label {
            kind: LabelKind::Domain,
            statement: 0,
            names: Vec::new(alloc),
        },
        list: domain_list(alloc, &model.contents)?,
        wanted: Wanted::SomeTrace,
    })
}

/// The demands of the link at a place, in the order of the report; an assignment has none, as it asks nothing of traces.
pub fn link_demands(alloc: Global, model: &Model, link: usize) -> Result<Vec<Demand>, Memory>
    requires { link < length (model_of model.now).links }
    ensures demands { IfOk result (λ ds. map demand_of ds.items ≡ demands_of (model_of model.now) (link_items_of (model_of model.now) link (slice_index_or (model_of model.now).links link no_link))) }
    ensures answerable { IfOk result (λ ds. All (λ d. IsAnswerable (model_of model.now) (map tree_of d.list.items)) ds.items) }
{
    let items = link_items(alloc, model, link)?;
    let mut demands = Vec::new(alloc);
    'items: for item in items {
        if let Some(wanted) = item.wanted {
            let list = demand_list(alloc, model, &item.parts)?;
            demands.push(Demand {
                label: item.label,
                list,
                wanted,
            })?;
        }
    }
    Ok(demands)
}
