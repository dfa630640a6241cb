//! What the formulas of a model's parts weigh, each counted once: so that the size of a list is mostly known without a table.

ghost use Rattle.std.specs.Prelude.{◌≡◌, ◌+◌, ℕ, List, All, map, min, slice_index_or, IfOk};
ghost use Rattle.state_space.specs.Spaces.{ranges, sizes};
ghost use Rattle.temporal_logic.specs.Fits.{Fits};
ghost use Rattle.goal_model.specs.Models.{ModelForm, contents_of, link_of, PartsFit};
ghost use Rattle.goal_model.specs.Items.{requirement_formula, boundary_of, list_of};
ghost use Rattle.goal_model.specs.KnownParts.{PartIsOf};
ghost use Rattle.goal_model.specs.Sizes.{both_weights, both_of, IsBounded};
ghost use Rattle.goal_model.specs.PartWeights.{weights_in, too_heavy, of_sign, weights_at, AreWeights};

use crate::contents::{Contents, Link};
use crate::demand::compiled;
use crate::item::Part;
use crate::list_size::{Weight, weigh};
use source_sink::Memory;
use std::alloc::Global;
use temporal_logic::Formula;

/// The weights of all parts, each list as that of the model; those of links are their boundary conditions'.
#[derive(Drop)]
pub(crate) struct PartWeights {
    goals: Vec<Weight>,
    obstacles: Vec<Weight>,
    requirements: Vec<Weight>,
    boundaries: Vec<Weight>,
}

// What the goals weigh.
fn goal_weights(alloc: Global, contents: &Contents) -> Result<Vec<Weight>, Memory>
    requires { PartsFit (contents_of contents.now) }
    ensures { IfOk result (λ ws. weights_in ws.items ≡ map (λ g. both_weights (sizes contents.now.space) g.formula) (contents_of contents.now).goals) }
{
    let mut weights = Vec::new(alloc);
    'goals: for goal in &contents.goals {
        weights.push(weigh(&contents.space, &goal.formula))?;
    }
    Ok(weights)
}

// What the obstacles weigh.
fn obstacle_weights(alloc: Global, contents: &Contents) -> Result<Vec<Weight>, Memory>
    requires { PartsFit (contents_of contents.now) }
    ensures { IfOk result (λ ws. weights_in ws.items ≡ map (λ o. both_weights (sizes contents.now.space) o.formula) (contents_of contents.now).obstacles) }
{
    let mut weights = Vec::new(alloc);
    'obstacles: for obstacle in &contents.obstacles {
        weights.push(weigh(&contents.space, &obstacle.formula))?;
    }
    Ok(weights)
}

// What the formulas weigh that requirements stand for.
fn requirement_weights(alloc: Global, contents: &Contents) -> Result<Vec<Weight>, Memory>
    requires { PartsFit (contents_of contents.now) }
    ensures { IfOk result (λ ws. weights_in ws.items ≡ map (λ r. both_weights (sizes contents.now.space) (requirement_formula (contents_of contents.now) r)) (contents_of contents.now).requirements) }
{
    let mut weights = Vec::new(alloc);
    'requirements: for requirement in &contents.requirements {
        let formula = compiled(alloc, contents, requirement)?;
        weights.push(weigh(&contents.space, &formula))?;
    }
    Ok(weights)
}

// What the boundary condition of a link weighs; that of another link is always true.
fn boundary_weight(contents: &Contents, link: &Link) -> Weight
    requires { Fits (ranges contents.now.space) (boundary_of (link_of link.now)) }
    ensures { both_of result ≡ both_weights (sizes contents.now.space) (boundary_of (link_of link.now)) }
{
    match link {
        Link::Conflict { boundary, .. } => weigh(&contents.space, boundary),
        _ => weigh(&contents.space, &Formula::True),
    }
}

// What the boundary conditions of all links weigh.
fn boundary_weights(alloc: Global, contents: &Contents) -> Result<Vec<Weight>, Memory>
    requires { PartsFit (contents_of contents.now) }
    ensures { IfOk result (λ ws. weights_in ws.items ≡ map (λ l. both_weights (sizes contents.now.space) (boundary_of l)) (contents_of contents.now).links) }
{
    let mut weights = Vec::new(alloc);
    'links: for link in &contents.links {
        weights.push(boundary_weight(contents, link))?;
    }
    Ok(weights)
}

// What the formula at a place weighs, as it is or negated; what is not there is too heavy.
fn at(weights: &[Weight], place: usize, positive: bool) -> u64
    ensures { result ≡ of_sign positive (slice_index_or (weights_in weights.now) place too_heavy) }
{
    match weights.get(place) {
        Some(weight) if positive => weight.positive,
        Some(weight) => weight.negative,
        None => 4097,
    }
}

// A sum of at most 4096, or else 4097.
fn sum(total: u64, weight: u64) -> u64
    ensures { result ≡ min (total + weight) 4097 }
{
    total.saturating_add(weight).min(4097)
}

impl PartWeights {
    /// What the formulas of a model's parts weigh.
    pub(crate) fn of_contents(alloc: Global, contents: &Contents) -> Result<PartWeights, Memory>
        requires { PartsFit (contents_of contents.now) }
        ensures { IfOk result (AreWeights (sizes contents.now.space) (contents_of contents.now)) }
    {
        Ok(PartWeights {
            goals: goal_weights(alloc, contents)?,
            obstacles: obstacle_weights(alloc, contents)?,
            requirements: requirement_weights(alloc, contents)?,
            boundaries: boundary_weights(alloc, contents)?,
        })
    }

    // What a part weighs, as it is or negated.
    fn of(&self, part: Part, positive: bool) -> u64
        ensures { result ≡ of_sign positive (weights_at self.now part) }
    {
        match part {
            Part::Goal(place) => at(&self.goals, place, positive),
            Part::Obstacle(place) => at(&self.obstacles, place, positive),
            Part::Requirement(place) => at(&self.requirements, place, positive),
            Part::Boundary(place) => at(&self.boundaries, place, positive),
        }
    }

    /// How many formulas there are at most in the table of a list that begins with the domain properties, of which there are so many, and
    /// goes on with these parts; 4097 where there may be more than 4096.
    pub(crate) fn total(&self, domains: u64, parts: &[(Part, bool)]) -> u64
        ensures { (sizes : List ℕ) (m : ModelForm) → AreWeights sizes m self.now → All (λ p. PartIsOf m p.0) parts.now → IsBounded sizes (map (λ p. p.formula) m.domains) domains → IsBounded sizes (list_of m parts.now) result }
    {
        let mut total = domains;
        'parts: for (part, positive) in parts {
            total = sum(total, self.of(*part, *positive));
        }
        total
    }
}
