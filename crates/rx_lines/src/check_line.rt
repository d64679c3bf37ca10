//! The line of a check.

ghost use Rattle.std.specs.Prelude.{◌≡◌, ◌++◌, OnOk, codes};
ghost use Rattle.rx_layout.specs.declared.goal.Goal.{Goal};
ghost use Rattle.rx_lines.specs.Subjects.{check_name, subject_text};
ghost use Rattle.rx_lines.specs.Reports.{line_text};

use crate::fault::NoMemory;
use crate::line::put;
use crate::subject::{check_name, put_subject};
use crate::verdict::put_verdict;
use rx_checks::Line;
use rx_graph::Elaborated;
use rx_layout::Goal;
use rx_prover::Splits;
use std::alloc::Global;

// Puts the name of a message at the end.
fn put_message(text: &mut Vec<u8>, message: &Elaborated<'_>) -> Result<(), NoMemory>
    ensures { OnOk result (text.new.items ≡ text.old.items ++ (message.now.graph.«package» ++ codes "::" ++ message.now.graph.name ++ codes " ")) }
{
    let message = message.message();
    put(text, message.package.bytes())?;
    put(text, b"::")?;
    put(text, message.name.bytes())?;
    put(text, b" ")
}

// Puts a check with its subject at the end.
fn put_check(
    alloc: Global,
    text: &mut Vec<u8>,
    message: &Elaborated<'_>,
    goal: Goal,
) -> Result<(), NoMemory>
    ensures { OnOk result (text.new.items ≡ text.old.items ++ (check_name goal ++ codes " " ++ subject_text message.now.graph goal ++ codes ": ")) }
{
    put(text, check_name(goal).as_bytes())?;
    put(text, b" ")?;
    put_subject(alloc, text, message, goal)?;
    put(text, b": ")
}

/// Puts the line of a check at the end.
pub fn put_line(
    alloc: Global,
    text: &mut Vec<u8>,
    message: &Elaborated<'_>,
    splits: Splits,
    line: &Line,
) -> Result<(), NoMemory>
    ensures { OnOk result (text.new.items ≡ text.old.items ++ line_text message.now.domains message.now.graph splits line.now) }
{
    put_message(text, message)?;
    put_check(alloc, text, message, line.goal)?;
    put_verdict(alloc, text, message, splits, &line.verdict)?;
    put(text, b"\n")
}
