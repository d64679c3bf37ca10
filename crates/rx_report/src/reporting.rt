//! Reports of the messages of a package, and of one message.

ghost use Rattle.std.specs.Prelude.{◌≡◌, ◌∷◌, ◌≤◌, [], Some, IfOk, OnOk, length, slice_get};
ghost use Rattle.std.specs.Str.{str_eq_ignore_ascii_case};
ghost use Rattle.rx_graph.specs.Graph.{Graph};
ghost use Rattle.rx_report.specs.Reported.{messages_of, total_in, Adds, AddsIf, HasOpen, IsReported, Examines};
ghost use Rattle.rx_checks.specs.Reports.{AllPassed, IsReport};

use crate::fault::NoMemory;
use crate::lines::add_lines;
use crate::reported::{Examined, Reported};
use rx_checks::{Report, accepted, report_of};
use rx_forms::{Checkable, CheckableSpec};
use rx_graph::Elaborated;
use rx_prover::Splits;
use rx_types::Name;
use std::alloc::Global;

// Whether a message is of a package, whatever the case of the letters of its name.
fn is_of(message: &Elaborated<'_>, name: &Name) -> bool
    ensures { result ≡ str_eq_ignore_ascii_case message.now.graph.«package» name.now }
{
    let message = message.message();
    message.package.bytes().eq_ignore_ascii_case(name.bytes())
}

// Adds the lines of a message, and counts its checks.
fn add_message(
    alloc: Global,
    message: &Checkable<'_>,
    splits: Splits,
    reported: &mut Reported,
) -> Result<(), NoMemory>
    requires { total_in reported.old ≤ length reported.old.text.items }
    ensures adds { OnOk result (Adds message.now.domains splits message.now.graph reported.old reported.new) }
    ensures bounded { OnOk result (total_in reported.new ≤ length reported.new.text.items) }
{
    let report = report_of(alloc, message, splits)?;
    let lines = report.lines.as_slice();
    add_lines(alloc, message.elaborated(), splits, lines, reported)?;
    Ok(())
}

// Adds the lines of a message and counts its checks, if it is asked for.
fn add_if_asked(
    alloc: Global,
    message: &Checkable<'_>,
    asked: bool,
    splits: Splits,
    reported: &mut Reported,
) -> Result<(), NoMemory>
    requires { total_in reported.old ≤ length reported.old.text.items }
    ensures adds { OnOk result (AddsIf message.now.domains splits asked message.now.graph reported.old reported.new) }
    ensures bounded { OnOk result (total_in reported.new ≤ length reported.new.text.items) }
{
    if !asked {
        return Ok(());
    }
    add_message(alloc, message, splits, reported)?;
    Ok(())
}

// Adds the lines of the message at a place and counts its checks, if it is of the package.
fn add_at(
    alloc: Global,
    spec: &CheckableSpec,
    place: usize,
    name: &Name,
    splits: Splits,
    reported: &mut Reported,
) -> Result<(), NoMemory>
    requires { total_in reported.old ≤ length reported.old.text.items }
    ensures adds { OnOk result ((m : Graph) → slice_get spec.now.graphs place ≡ Some m → AddsIf spec.now.domains splits (str_eq_ignore_ascii_case m.«package» name.now) m reported.old reported.new) }
    ensures bounded { OnOk result (total_in reported.new ≤ length reported.new.text.items) }
{
    let Some(message) = spec.message(place) else {
        return Ok(());
    };
    let asked = is_of(message.elaborated(), name);
    add_if_asked(alloc, &message, asked, splits, reported)?;
    Ok(())
}

/// The report of all messages of a package, in their order.
pub fn report_package(
    alloc: Global,
    spec: &CheckableSpec,
    name: &Name,
    splits: Splits,
) -> Result<Reported, NoMemory>
    ensures { IfOk result (IsReported spec.now.domains splits (messages_of name.now spec.now.graphs)) }
{
    let mut reported = Reported::new(alloc);
    for place in 0..spec.count() {
        add_at(alloc, spec, place, name, splits, &mut reported)?;
    }
    reported.close(alloc)?;
    Ok(reported)
}

// The report of one message with these checks.
fn report_lines(
    alloc: Global,
    message: &Checkable<'_>,
    splits: Splits,
    report: &Report,
) -> Result<Reported, NoMemory>
    requires is { IsReport message.now.domains message.now.graph splits report.now }
    requires unpassed { AllPassed report.now.lines.items → ⊥ }
    ensures is { IfOk result (IsReported message.now.domains splits (message.now.graph ∷ [])) }
    ensures unpassed { IfOk result HasOpen }
{
    let mut reported = Reported::new(alloc);
    let lines = report.lines.as_slice();
    add_lines(alloc, message.elaborated(), splits, lines, &mut reported)?;
    reported.close(alloc)?;
    Ok(reported)
}

/// Whether all checks of a message pass, or its report.
pub fn examine(alloc: Global, message: &Checkable<'_>, splits: Splits) -> Result<Examined, NoMemory>
    ensures { IfOk result (Examines message.now.domains splits message.now.graph) }
{
    let report = report_of(alloc, message, splits)?;
    if accepted(&report) {
        return Ok(Examined::Accepted);
    }
    let reported = report_lines(alloc, message, splits, &report)?;
    Ok(Examined::Rejected(reported))
}
