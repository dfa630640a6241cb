//! How many demands of a report have each verdict.

ghost use Rattle.std.specs.Prelude.{◌≡◌};
ghost use Rattle.verdict_report.specs.Reports.{held_count, failed_count, withheld_count};

use crate::report::{Report, Verdict};

/// How many demands have each verdict.
#[derive(Clone, Copy, Debug)]
pub struct Totals {
    pub held: u64,
    pub failed: u64,
    pub withheld: u64,
}

/// How many demands of a report hold, fail and are withheld.
pub fn counts(report: &Report) -> Totals
    ensures held { result.held ≡ held_count report.now }
    ensures failed { result.failed ≡ failed_count report.now }
    ensures withheld { result.withheld ≡ withheld_count report.now }
{
    let mut totals = Totals {
        held: 0,
        failed: 0,
        withheld: 0,
    };
    'entries: for entry in &report.entries {
        match entry.verdict {
            Verdict::Holds => totals.held += 1,
            Verdict::Fails => totals.failed += 1,
            Verdict::Withheld(_) => totals.withheld += 1,
        }
    }
    totals
}
