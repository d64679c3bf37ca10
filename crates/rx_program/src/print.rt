//! The text of an answer, and its status.
ghost use Rattle.std.specs.Prelude.{◌≡◌, ℕ, List, [], ◌∷◌, ◌++◌, IfOk, codes};
ghost use Rattle.std.specs.Io.KnownBytes.{Appends};
ghost use Rattle.rx_io.specs.Faults.{HasRisen};
ghost use Rattle.rx_lines.specs.Lines.{line, file_of, name_text};
ghost use Rattle.rx_program.specs.Outcome.{status_of, reason_name, decoded_text, status_of_report, status_of_rejected, status_of_decoded, status_of_encoded, unfit_name, key_line, encoded_text, IsText, IsShown, Prints};

use crate::answer::Answer;
use crate::fault::NoMemory;
use crate::status::Status;
use rx_decode::Decoded;
use rx_encode::{Encoded, key_text};
use rx_io::{Sink, write_all};
use rx_lines::{file_of, line_of, name_text, put, put_both, refused};
use rx_report::Reported;
use rx_serial::UnfitReason;
use rx_types::{Name, Reason};
use std::alloc::Global;

// The line of a name that a package lacks, or that is no package's.
fn unknown(alloc: Global, name: &Name, lacking: &Name) -> Result<Vec<u8>, NoMemory>
    ensures { IfOk result (λ text. text.items ≡ file_of name.now ++ codes ": 8 UnknownName " ++ lacking.now ++ 10 ∷ []) }
{
    let file = file_of(alloc, name)?;
    Ok(line_of(alloc, &file, b": 8 UnknownName ", lacking.bytes())?)
}

// The name of a reason.
fn reason_name(reason: Reason) -> &'static str
    ensures { result.now ≡ reason_name reason }
{
    match reason {
        Reason::Condition => "Condition",
        Reason::Trailing => "Trailing",
        Reason::Short => "Short",
        Reason::Value => "Value",
    }
}

// NotAccepted where a check failed, else Undecided where one is undecided.
fn status_of_report(reported: &Reported) -> Status
    ensures { result ≡ status_of_report reported.now }
{
    if reported.failed != 0 {
        return Status::NotAccepted;
    }
    if reported.undecided != 0 {
        return Status::Undecided;
    }
    Status::Done
}

// The same where some check did not pass.
fn status_of_rejected(reported: &Reported) -> Status
    ensures { result ≡ status_of_rejected reported.now }
{
    if reported.failed != 0 {
        return Status::NotAccepted;
    }
    Status::Undecided
}

// The status of what a buffer is.
fn status_of_decoded(decoded: &Decoded) -> Status
    ensures { result ≡ status_of_decoded decoded.now }
{
    match decoded {
        Decoded::Json(_) => Status::Done,
        Decoded::Refused(_) => Status::InputRefused,
    }
}

// The status of what a text is.
fn status_of_encoded(encoded: &Encoded) -> Status
    ensures { result ≡ status_of_encoded encoded.now }
{
    match encoded {
        Encoded::Bytes(_) => Status::Done,
        Encoded::TooLong => Status::Limit,
        _ => Status::InputRefused,
    }
}

// The status of an answer.
fn status_of(answer: &Answer) -> Status
    ensures { result ≡ status_of answer.now }
{
    match answer {
        Answer::Usage => Status::Words,
        Answer::ShelfFault => Status::ShelfFault,
        Answer::NoPackage(_) => Status::Specification,
        Answer::TextLimit(_) => Status::Limit,
        Answer::Refused(_, _) => Status::Specification,
        Answer::PackageLimit => Status::Limit,
        Answer::NoMessage(_, _) => Status::Specification,
        Answer::Checked(reported) => status_of_report(reported),
        Answer::Rejected(reported) => status_of_rejected(reported),
        Answer::SourceFault => Status::SourceFault,
        Answer::InputLimit => Status::Limit,
        Answer::Decoded(decoded, _) => status_of_decoded(decoded),
        Answer::Encoded(encoded, _) => status_of_encoded(encoded),
    }
}

// A text as a line.
fn as_line(mut text: Vec<u8>) -> Result<Vec<u8>, NoMemory>
    ensures { IfOk result (λ line. line.items ≡ text.items ++ 10 ∷ []) }
{
    put(&mut text, b"\n")?;
    Ok(text)
}

// The text of what a buffer is.
fn decoded_text(alloc: Global, decoded: Decoded, name: &Option<Name>) -> Result<Vec<u8>, NoMemory>
    ensures { IfOk result (λ text. text.items ≡ decoded_text decoded name.now) }
{
    match decoded {
        Decoded::Json(json) => as_line(json),
        Decoded::Refused(stuck) => {
            let name = name_text(alloc, name)?;
            let reason = reason_name(stuck.reason);
            Ok(line_of(alloc, b"refused: ", reason.as_bytes(), &name)?)
        }
    }
}

// The name of a reason why a valuation fits no path.
fn unfit_name(reason: UnfitReason) -> &'static str
    ensures { result.now ≡ unfit_name reason }
{
    match reason {
        UnfitReason::Condition => "Condition",
        UnfitReason::Missing => "Missing",
        UnfitReason::Value => "Value",
        UnfitReason::Size => "Size",
        UnfitReason::Short => "Short",
        UnfitReason::Overlay => "Overlay",
    }
}

// The line of a member that is refused.
fn key_line(alloc: Global, rule: &str, key: &[u8]) -> Result<Vec<u8>, NoMemory>
    ensures { IfOk result (λ text. text.items ≡ key_line rule.now key.now) }
{
    let key = key_text(alloc, key)?;
    let mut rule_and_key = Vec::new(alloc);
    put_both(&mut rule_and_key, rule.as_bytes(), b" ")?;
    Ok(line_of(alloc, b"refused: ", &rule_and_key, &key)?)
}

// The line of a valuation that does not lead on.
fn unsatisfied(alloc: Global, name: &Option<Name>, reason: UnfitReason) -> Result<Vec<u8>, NoMemory>
    ensures { IfOk result (λ text. text.items ≡ line (codes "refused: 41 Unsatisfied" ++ name_text name.now ++ codes " " ++ unfit_name reason)) }
{
    let mut told = name_text(alloc, name)?;
    put_both(&mut told, b" ", unfit_name(reason).as_bytes())?;
    Ok(line_of(alloc, b"refused: 41 Unsatisfied", &told, b"")?)
}

// The text of what a JSON text is.
fn encoded_text(alloc: Global, encoded: Encoded, name: &Option<Name>) -> Result<Vec<u8>, NoMemory>
    ensures { IfOk result (λ text. text.items ≡ encoded_text encoded name.now) }
{
    match encoded {
        Encoded::Bytes(bytes) => Ok(bytes),
        Encoded::NotJson => Ok(line_of(alloc, b"refused: 30 NotJson", b"", b"")?),
        Encoded::NotObject => Ok(line_of(alloc, b"refused: 31 NotObject", b"", b"")?),
        Encoded::UnknownField(key) => key_line(alloc, "32 UnknownField", &key),
        Encoded::BadValue(key) => key_line(alloc, "33 BadValue", &key),
        Encoded::Duplicate(key) => key_line(alloc, "34 Duplicate", &key),
        Encoded::TooLong => Ok(line_of(alloc, b"limit: input", b"", b"")?),
        Encoded::Unsatisfied(_, reason) => unsatisfied(alloc, name, reason),
        Encoded::Unused(_) => {
            let name = name_text(alloc, name)?;
            Ok(line_of(alloc, b"refused: 42 Unused", &name, b"")?)
        }
    }
}

// The text of an answer.
fn text_of(alloc: Global, answer: Answer) -> Result<Vec<u8>, NoMemory>
    ensures { IfOk result (λ text. IsText answer text.items) }
{
    match answer {
        Answer::Usage => Ok(line_of(
            alloc,
            b"usage: rflx check P, decode P::M [--deep Q], encode P::M, run P::S, load N, all with [--splits K]",
            b"",
            b"",
        )?),
        Answer::ShelfFault => Ok(line_of(alloc, b"fault: shelf", b"", b"")?),
        Answer::NoPackage(name) => unknown(alloc, &name, &name),
        Answer::TextLimit(name) => {
            let file = file_of(alloc, &name)?;
            Ok(line_of(alloc, b"limit: text ", &file, b"")?)
        }
        Answer::Refused(name, refusal) => Ok(refused(alloc, &name, &refusal)?),
        Answer::PackageLimit => Ok(line_of(alloc, b"limit: packages", b"", b"")?),
        Answer::NoMessage(name, message) => unknown(alloc, &name, &message),
        Answer::Checked(reported) => Ok(reported.text),
        Answer::Rejected(reported) => Ok(reported.text),
        Answer::SourceFault => Ok(line_of(alloc, b"fault: source", b"", b"")?),
        Answer::InputLimit => Ok(line_of(alloc, b"limit: input", b"", b"")?),
        Answer::Decoded(decoded, name) => decoded_text(alloc, decoded, &name),
        Answer::Encoded(encoded, name) => encoded_text(alloc, encoded, &name),
    }
}

/// Writes the text of an answer.
pub fn print<O: Sink>(alloc: Global, answer: Answer, out: &mut O) -> Status
    ensures written { (written : List ℕ) × Appends (O.written out.old) (O.written out.new) written × Prints answer result written }
    ensures cause { result ≡ Status.SinkFault → HasRisen (O.faults out.old) (O.faults out.new) }
    ensures status { IsShown answer result }
{
    let status = status_of(&answer);
    match text_of(alloc, answer) {
        Ok(text) => match write_all(out, &text) {
            Ok(()) => status,
            Err(_) => Status::SinkFault,
        },
        Err(NoMemory) => Status::NoMemory,
    }
}
