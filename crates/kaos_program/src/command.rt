//! What a run may be asked for. A further command is a variant here; its words are in options.rt, and in specs/Commands.antt.

use verdict_report::Form;

/// What a run is asked for, by words that it borrows from.
#[derive(Clone, Copy)]
pub(crate) enum Command<'w> {
    /// The answer to each demand of a model, in a form. A demand is withheld whose tableau has more nodes than the budget.
    Check {
        budget: u32,
        form: Form,
    },
    /// The candidates for obstacles of the goal of a name, found by so many steps of regression, and whether each is possible. One is withheld
    /// whose tableau has more nodes than the budget.
    Regress {
        goal: &'w str,
        depth: u8,
        budget: u32,
    },
    /// The truth of each goal on each trace of a model.
    Trace,
}
