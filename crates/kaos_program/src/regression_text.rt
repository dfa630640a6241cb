//! The text of candidates for obstacles: a first line, one for each candidate in the order in which they were found, and one that says
//! whether a candidate was left out. The bytes are those of specs/Regressing.antt.

ghost use Rattle.std.specs.Prelude.{◌≡◌, ◌++◌, All, map, OnOk, IfOk};
ghost use Rattle.bound_unfolding.specs.CoreTexts.{CoreFits};
ghost use Rattle.bound_unfolding.specs.CoreView.{core_tree_of};
ghost use Rattle.goal_model.specs.ModelViews.{model_of};
ghost use Rattle.obstacle_regression.specs.Views.{regressed_of};
ghost use Rattle.kaos_program.specs.Regressing.{standing_text, candidate_line, candidate_lines, more_line, regression_text as text_of_regression};

use crate::regression::Assessed;
use bound_unfolding::{Core, core_text};
use goal_model::Model;
use obstacle_regression::Standing;
use source_sink::{Memory, put, put_decimal};
use std::alloc::Global;

fn put_standing(out: &mut Vec<u8>, standing: Standing) -> Result<(), Memory>
    ensures { OnOk result (out.new.items ≡ out.old.items ++ standing_text standing) }
{
    match standing {
        Standing::Possible => put(out, b"possible"),
        Standing::Impossible => put(out, b"impossible"),
        Standing::Withheld(budget) => {
            put(out, b"withheld at ")?;
            put_decimal(out, budget as u64)
        }
    }
}

// The line of the candidate of a number, from 1.
#[tactic(auto, unfolding(crate::specs::Regressing::candidate_line))]
fn put_line(
    out: &mut Vec<u8>,
    alloc: Global,
    model: &Model,
    number: u64,
    candidate: &Core,
    standing: Standing,
) -> Result<(), Memory>
    requires fits { CoreFits (model_of model.now).ranges (core_tree_of candidate.now) }
    ensures { OnOk result (out.new.items ≡ out.old.items ++ candidate_line (model_of model.now) number (core_tree_of candidate.now) standing) }
{
    put(out, b"candidate ")?;
    put_decimal(out, number)?;
    put(out, b": ")?;
    put(out, &core_text(alloc, model.space(), candidate)?)?;
    put(out, b": ")?;
    put_standing(out, standing)?;
    put(out, b"\n")
}

// There is a standing for each candidate, in order; past the shorter of the two there is nothing to write.
fn put_lines(
    out: &mut Vec<u8>,
    alloc: Global,
    model: &Model,
    candidates: &[Core],
    standings: &[Standing],
) -> Result<(), Memory>
    requires fits { All (λ c. CoreFits (model_of model.now).ranges (core_tree_of c)) candidates.now }
    ensures { OnOk result (out.new.items ≡ out.old.items ++ candidate_lines (model_of model.now) 1 (map core_tree_of candidates.now) standings.now) }
{
    let count = candidates.len().min(standings.len());
    'candidates: for place in 0..count {
        put_line(
            out,
            alloc,
            model,
            place as u64 + 1,
            &candidates[place],
            standings[place],
        )?;
    }
    Ok(())
}

/// The text of the candidates of a goal that was looked into under a budget.
#[tactic(auto, unfolding(crate::specs::Regressing::regression_text))]
pub(crate) fn regression_text(
    alloc: Global,
    model: &Model,
    budget: u32,
    regression: &Assessed,
) -> Result<Vec<u8>, Memory>
    requires fits { All (λ c. CoreFits (model_of model.now).ranges (core_tree_of c)) regression.now.found.list.items }
    ensures { IfOk result (λ out. out.items ≡ text_of_regression budget (model_of model.now) (regressed_of regression.now.found) regression.now.standings.items) }
{
    let mut out = Vec::new(alloc);
    put(&mut out, b"kaos regress 1 budget ")?;
    put_decimal(&mut out, budget as u64)?;
    put(&mut out, b"\n")?;
    put_lines(
        &mut out,
        alloc,
        model,
        &regression.found.list,
        &regression.standings,
    )?;
    put(
        &mut out,
        if regression.found.more {
            b"more: yes\n"
        } else {
            b"more: no\n"
        },
    )?;
    Ok(out)
}
