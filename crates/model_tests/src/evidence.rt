//! Whether the lassos of a report show what they are there for, by the truth of goals that a model has which is read anew. Nothing is
//! asked of the program that made the report.

ghost use Rattle.std.specs.Prelude.{◌≡◌, ◌↔◌, IsTrue, IfSome, IfOk};
ghost use Rattle.state_space.specs.Spaces.{ranges, sizes};
ghost use Rattle.temporal_logic.specs.Fits.{Fits};
ghost use Rattle.temporal_logic.specs.Lassos.{IsOfSpace};
ghost use Rattle.temporal_logic.specs.Trees.{tree_of};
ghost use Rattle.goal_model.specs.Models.{sizes_of};
ghost use Rattle.goal_model.specs.ModelViews.{model_of};

use crate::texts::cut;
use goal_model::Model;
use lasso_checker::{scratch_len, truth_at_start};
use source_sink::Memory;
use state_space::Space;
use std::alloc::Global;
use std::test::Fail;
use temporal_logic::{Formula, Lasso};
use verdict_report::{Evidence, Report};

fn is_of_space(space: &Space, lasso: &Lasso) -> bool
    ensures { IsTrue result ↔ IsOfSpace (sizes space.now) lasso.now }
{
    let prefix = lasso.prefix.iter().all(|state| state.fits(space));
    prefix && lasso.cycle.iter().all(|state| state.fits(space))
}

// The variables of a model.
fn space(model: &Model) -> &Space
    ensures ranges { ranges result.now ≡ (model_of model.now).ranges }
    ensures sizes { sizes result.now ≡ sizes_of (model_of model.now) }
{
    model.space()
}

// The formula of the goal or the property of a name.
fn formula_of<'m>(model: &'m Model, name: &[u8]) -> Option<&'m Formula>
    ensures fits { IfSome result (λ f. Fits (model_of model.now).ranges (tree_of f.now)) }
{
    let goals = model.goals();
    if let Some(place) = goals.iter().position(|goal| goal.name.bytes() == name) {
        return Some(&goals[place].formula);
    }
    let domains = model.domains();
    let place = domains
        .iter()
        .position(|property| property.name.bytes() == name)?;
    Some(&domains[place].formula)
}

// Whether a formula is true at the start of a lasso.
fn is_true(alloc: Global, space: &Space, lasso: &Lasso, formula: &Formula) -> Result<bool, Memory>
    requires of_space { IsOfSpace (sizes space.now) lasso.now }
    requires fits { Fits (ranges space.now) (tree_of formula.now) }
{
    let mut scratch = vec![in alloc; 0; scratch_len(lasso, formula) as usize]?;
    Ok(truth_at_start(space, lasso, formula, &mut scratch))
}

// Whether a name's formula is true, or false where `not` stands before the name. Of `any trace` nothing has to be true.
fn shows_one(alloc: Global, model: &Model, lasso: &Lasso, claim: &str) -> Result<bool, Fail>
    requires of_space { IsOfSpace (sizes_of (model_of model.now)) lasso.now }
{
    if claim == "any trace" {
        return Ok(true);
    }
    let (name, due) = match claim.strip_prefix("not ") {
        Some(name) => (name, false),
        None => (claim, true),
    };
    let formula = formula_of(model, name.as_bytes()).ok_or("an unknown goal")?;
    Ok(is_true(alloc, space(model), lasso, formula)? == due)
}

// Whether a lasso shows all that a line claims.
fn shows(alloc: Global, model: &Model, lasso: &Lasso, line: &str) -> Result<bool, Fail> {
    if !is_of_space(space(model), lasso) {
        return Ok(false);
    }
    'claims: for claim in line.split(", ") {
        if !shows_one(alloc, model, lasso, claim)? {
            return Ok(false);
        }
    }
    Ok(true)
}

// The next line with two blanks before it, and what stands behind it.
fn next_claims(due: &str) -> Result<(&str, &str), Fail> {
    let (_, claims) = cut(due, "\n  ")?;
    cut(claims, "\n")
}

/// Whether the lassos of a report on a model show what is due: a line with two blanks before it for each of them.
pub(crate) fn are_shown(
    alloc: Global,
    model: &Model,
    report: &Report,
    due: &str,
) -> Result<bool, Fail> {
    let mut rest = due;
    'entries: for entry in &report.entries {
        if let Evidence::Trace(lasso) = &entry.evidence {
            let (line, behind) = next_claims(rest)?;
            if !shows(alloc, model, lasso, line)? {
                return Ok(false);
            }
            rest = behind;
        }
    }
    Ok(rest.split_once("\n  ").is_none())
}
