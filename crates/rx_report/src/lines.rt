//! The lines of a message, added to a report and counted.

ghost use Rattle.std.specs.Prelude.{◌≡◌, ◌≤◌, ◌++◌, OnOk, length};
ghost use Rattle.rx_lines.specs.Reports.{line_text, lines_text};
ghost use Rattle.rx_report.specs.Counts.{counted, with_verdict};
ghost use Rattle.rx_report.specs.Reported.{counts_in, total_in};

use crate::fault::NoMemory;
use crate::reported::Reported;
use rx_checks::Line;
use rx_graph::Elaborated;
use rx_lines::put_line;
use rx_prover::Splits;
use std::alloc::Global;

// Adds the line of a check, and counts it.
fn add_line(
    alloc: Global,
    message: &Elaborated<'_>,
    splits: Splits,
    line: &Line,
    reported: &mut Reported,
) -> Result<(), NoMemory>
    requires bounded { total_in reported.old ≤ length reported.old.text.items }
    ensures text { OnOk result (reported.new.text.items ≡ reported.old.text.items ++ line_text message.now.domains message.now.graph splits line.now) }
    ensures counts { OnOk result (counts_in reported.new ≡ with_verdict line.now.verdict (counts_in reported.old)) }
    ensures bounded { OnOk result (total_in reported.new ≤ length reported.new.text.items) }
{
    put_line(alloc, &mut reported.text, message, splits, line)?;
    reported.count(&line.verdict);
    Ok(())
}

/// Adds the lines of a message, and counts them.
pub(crate) fn add_lines(
    alloc: Global,
    message: &Elaborated<'_>,
    splits: Splits,
    lines: &[Line],
    reported: &mut Reported,
) -> Result<(), NoMemory>
    requires bounded { total_in reported.old ≤ length reported.old.text.items }
    ensures text { OnOk result (reported.new.text.items ≡ reported.old.text.items ++ lines_text message.now.domains message.now.graph splits lines.now) }
    ensures counts { OnOk result (counts_in reported.new ≡ counted lines.now (counts_in reported.old)) }
    ensures bounded { OnOk result (total_in reported.new ≤ length reported.new.text.items) }
{
    for line in lines {
        add_line(alloc, message, splits, line, reported)?;
    }
    Ok(())
}
