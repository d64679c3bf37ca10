//! Whether all checks passed.

ghost use Rattle.std.specs.Prelude.{IsTrue, ◌↔◌};
ghost use Rattle.rx_checks.specs.Reports.{HasPassed, AllPassed};

use crate::report::{Line, Report};
use crate::verdict::Verdict;

fn has_passed(verdict: &Verdict) -> bool
    ensures { IsTrue result ↔ HasPassed verdict.now }
{
    match verdict {
        Verdict::Passed(_) => true,
        Verdict::Failed(_) => false,
        Verdict::Undecided { .. } => false,
    }
}

fn all_passed(lines: &[Line]) -> bool
    ensures { IsTrue result ↔ AllPassed lines.now }
{
    lines.iter().all(|line| has_passed(&line.verdict))
}

/// Whether every check of the message has passed. With a report of the message this tells that it is sound.
pub fn accepted(report: &Report) -> bool
    ensures { IsTrue result ↔ AllPassed report.now.lines.items }
{
    all_passed(&report.lines)
}
