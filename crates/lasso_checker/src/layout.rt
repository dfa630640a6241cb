//! How the positions of a lasso lie in a row of bits: first the prefix, then the loop once, a bit
//! each. What is past the last place in the last word means nothing.

ghost use Rattle.std.specs.Prelude.{◌≡◌, ◌+◌, ◌/◌, ◌<◌, ◌^◌, length};

use temporal_logic::Lasso;

/// The lengths of a lasso's prefix and loop, and how many words a row over it takes.
#[derive(Clone, Copy)]
pub struct Layout {
    pub start: usize,
    pub turn: usize,
    pub words: usize,
    pub ghost turns: { 0 < turn },
    pub ghost fits: { start + turn < 2 ^ 64 },
    pub ghost enough: { words ≡ (start + turn + 63) / 64 },
}

impl Layout {
    ghost use Rattle.lasso_checker.specs.Layouts.{IsLayoutOf};

    /// The layout of the rows over a lasso.
    pub fn of(lasso: &Lasso) -> Layout
        ensures layout { IsLayoutOf result lasso.now }
    {
        let start = lasso.prefix.len();
        let turn = lasso.cycle.len();
        Layout {
            start,
            turn,
            words: (start + turn).div_ceil(64),
        }
    }
}
