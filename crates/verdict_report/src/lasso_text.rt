//! The text of a lasso: a line with the lengths of its prefix and of its loop, and a line for each state. The bytes are those of
//! specs/LassoTexts.antt.

ghost use Rattle.std.specs.Prelude.{◌≡◌, ◌<◌, ◌++◌, decimal, OnOk};
ghost use Rattle.std.specs.List.{flat_map};
ghost use Rattle.state_space.specs.Fitting.{ValuesFit};
ghost use Rattle.state_space.specs.Ranges.{form_of, size_of};
ghost use Rattle.state_space.specs.Spaces.{names, ranges, sizes};
ghost use Rattle.temporal_logic.specs.Lassos.{IsOfSpace};
ghost use Rattle.temporal_logic.specs.Rows.{rows, AllFit};
ghost use Rattle.verdict_report.specs.LassoTexts.{setting_text, values_text, state_text, lasso_text};

use source_sink::{Memory, put, put_decimal};
use state_space::{Name, Range, Space, State, VarId};
use temporal_logic::Lasso;

#[tactic(auto, unfolding(crate::specs::LassoTexts::setting_text))]
fn put_setting(out: &mut Vec<u8>, name: &Name, range: &Range, value: u8) -> Result<(), Memory>
    requires { value < size_of (form_of range.now) }
    ensures { OnOk result (out.new.items ≡ out.old.items ++ setting_text name.now (form_of range.now) value) }
{
    put(out, b" ")?;
    put(out, name.bytes())?;
    put(out, b"=")?;
    range.put_value(out, value)?;
    Ok(())
}

fn put_values(out: &mut Vec<u8>, space: &Space, values: &[u8]) -> Result<(), Memory>
    requires { ValuesFit (sizes space.now) values.now }
    ensures { OnOk result (out.new.items ≡ out.old.items ++ values_text (names space.now) (ranges space.now) values.now) }
{
    'values: for x in 0..space.count() {
        let id = VarId(x);
        put_setting(
            out,
            space.name_of(id),
            space.range_of(id),
            values[x as usize],
        )?;
    }
    Ok(())
}

fn put_states(out: &mut Vec<u8>, space: &Space, states: &[State]) -> Result<(), Memory>
    requires { AllFit (sizes space.now) states.now }
    ensures { OnOk result (out.new.items ≡ out.old.items ++ flat_map (state_text (names space.now) (ranges space.now)) (rows states.now)) }
{
    'states: for state in states {
        put(out, b"  state")?;
        put_values(out, space, &state.values)?;
        put(out, b"\n")?;
    }
    Ok(())
}

/// Appends the text of a lasso of the space.
pub(crate) fn put_lasso(out: &mut Vec<u8>, space: &Space, lasso: &Lasso) -> Result<(), Memory>
    requires { IsOfSpace (sizes space.now) lasso.now }
    ensures { OnOk result (out.new.items ≡ out.old.items ++ lasso_text (names space.now) (ranges space.now) lasso.now) }
{
    put(out, b"  lasso ")?;
    put_decimal(out, lasso.prefix.len() as u64)?;
    put(out, b" ")?;
    put_decimal(out, lasso.cycle.len() as u64)?;
    put(out, b"\n")?;
    put_states(out, space, &lasso.prefix)?;
    put_states(out, space, &lasso.cycle)
}
