//! Verdicts as text.

ghost use Rattle.std.specs.Prelude.{◌≡◌, ◌++◌, OnOk, codes, decimal, length};
ghost use Rattle.rx_values.specs.Printing.{json_text};
ghost use Rattle.rx_checks.specs.Steps.{total_steps};
ghost use Rattle.rx_lines.specs.Subjects.{path_text, values_along};
ghost use Rattle.rx_lines.specs.Reports.{evidence_text, verdict_text};

use crate::fault::NoMemory;
use crate::line::{put, put_counted};
use crate::path::put_path;
use crate::steps::total_steps;
use crate::values::values_along;
use rx_checks::{Evidence, Verdict};
use rx_graph::Elaborated;
use rx_proof::Proof;
use rx_prover::Splits;
use rx_values::json_of;
use std::alloc::Global;

// Puts how many steps the proofs have at the end. Each step stands in memory, so there are no more than a word counts.
fn put_steps(alloc: Global, text: &mut Vec<u8>, proofs: &[Proof]) -> Result<(), NoMemory>
    ensures { OnOk result (text.new.items ≡ text.old.items ++ (decimal (total_steps proofs.now) ++ codes " steps")) }
{
    match total_steps(proofs) {
        Some(steps) => put_counted(alloc, text, steps as u64, b" steps"),
        None => Err(NoMemory),
    }
}

// Puts how many proofs there are, and their steps, at the end.
fn put_proofs(alloc: Global, text: &mut Vec<u8>, proofs: &[Proof]) -> Result<(), NoMemory>
    ensures { OnOk result (text.new.items ≡ text.old.items ++ (codes " by " ++ decimal (length proofs.now) ++ codes " proofs of " ++ decimal (total_steps proofs.now) ++ codes " steps")) }
{
    put(text, b" by ")?;
    put_counted(alloc, text, proofs.len() as u64, b" proofs of ")?;
    put_steps(alloc, text, proofs)
}

// Puts the scalars of a path with these numbers at the end.
fn put_values(
    alloc: Global,
    text: &mut Vec<u8>,
    message: &Elaborated<'_>,
    path: &[u16],
    numbers: &[u64],
) -> Result<(), NoMemory>
    ensures { OnOk result (text.new.items ≡ text.old.items ++ json_text message.now.domains message.now.graph (values_along message.now.domains message.now.graph path.now numbers.now)) }
{
    let values = values_along(alloc, message, path, numbers)?;
    let json = json_of(alloc, message, &values)?;
    put(text, json.as_slice())
}

// Puts a path and its length at the end.
fn put_end(
    alloc: Global,
    text: &mut Vec<u8>,
    message: &Elaborated<'_>,
    path: &[u16],
    length: u32,
) -> Result<(), NoMemory>
    ensures { OnOk result (text.new.items ≡ text.old.items ++ (codes " on " ++ path_text message.now.graph path.now ++ codes " length " ++ decimal length ++ codes " ")) }
{
    put(text, b" on ")?;
    put_path(alloc, text, message, path)?;
    put(text, b" length ")?;
    put_counted(alloc, text, u64::from(length), b" ")
}

// Puts what shows a verdict at the end.
fn put_evidence(
    alloc: Global,
    text: &mut Vec<u8>,
    message: &Elaborated<'_>,
    evidence: &Evidence,
) -> Result<(), NoMemory>
    ensures { OnOk result (text.new.items ≡ text.old.items ++ evidence_text message.now.domains message.now.graph evidence.now) }
{
    match evidence {
        Evidence::Proofs(proofs) => put_proofs(alloc, text, proofs.as_slice()),
        Evidence::Found {
            path,
            length,
            numbers,
        } => {
            put_end(alloc, text, message, path.links(), *length)?;
            put_values(alloc, text, message, path.links(), numbers.as_slice())
        }
    }
}

// Puts a word and what shows it at the end.
fn put_shown(
    alloc: Global,
    text: &mut Vec<u8>,
    message: &Elaborated<'_>,
    word: &[u8],
    evidence: &Evidence,
) -> Result<(), NoMemory>
    ensures { OnOk result (text.new.items ≡ text.old.items ++ (word.now ++ evidence_text message.now.domains message.now.graph evidence.now)) }
{
    put(text, word)?;
    put_evidence(alloc, text, message, evidence)
}

// Puts after how many splits a check is undecided at the end.
fn put_undecided(alloc: Global, text: &mut Vec<u8>, splits: Splits) -> Result<(), NoMemory>
    ensures { OnOk result (text.new.items ≡ text.old.items ++ (codes "Undecided after " ++ decimal splits ++ codes " splits")) }
{
    put(text, b"Undecided after ")?;
    put_counted(alloc, text, u64::from(splits.count()), b" splits")
}

/// Puts what became of a check at the end.
pub(crate) fn put_verdict(
    alloc: Global,
    text: &mut Vec<u8>,
    message: &Elaborated<'_>,
    splits: Splits,
    verdict: &Verdict,
) -> Result<(), NoMemory>
    ensures { OnOk result (text.new.items ≡ text.old.items ++ verdict_text message.now.domains message.now.graph splits verdict.now) }
{
    match verdict {
        Verdict::Passed(evidence) => put_shown(alloc, text, message, b"Passed", evidence),
        Verdict::Failed(evidence) => put_shown(alloc, text, message, b"Failed", evidence),
        Verdict::Undecided { .. } => put_undecided(alloc, text, splits),
    }
}
