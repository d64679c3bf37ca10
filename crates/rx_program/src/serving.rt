//! What packages that were read answer: what they mean, the message that is asked for, and each command.
ghost use Rattle.std.specs.Prelude.{◌≡◌, length, None, IfOk, IfErr, IfSome};
ghost use Rattle.std.specs.Io.KnownBytes.{IsAtEnd};
ghost use Rattle.rx_io.specs.Faults.{HasRisen};
ghost use Rattle.rx_closure.specs.Closure.{ArePaired};
ghost use Rattle.rx_program.specs.Words.{message_asked};
ghost use Rattle.rx_program.specs.Asked.{does_of, ask_of};
ghost use Rattle.rx_program.specs.Stage.{IsWithin, IsToldIn};
ghost use Rattle.rx_program.specs.Heard.{IsOfMessages, IsEarly, IfAnswered, IsHeard};
ghost use Rattle.rx_program.specs.Refusals.{IsRefusedFor, Means};
ghost use Rattle.rx_program.specs.Request.{Serves, IsDenied, AnswersTo};

use crate::answer::{Answer, Early};
use crate::fault::NoMemory;
use crate::inputs::{read_input, write_input};
use crate::operand::find_message;
use crate::stage::all_served;
use crate::words::{Ask, Does};
use rx_checks::reports_show_soundness;
use rx_closure::Packages;
use rx_encode::all_are_named;
use rx_forms::CheckableSpec;
use rx_graph::Sound;
use rx_io::Source;
use rx_report::{Examined, examine, report_package};
use rx_spec::{ElabFault, elaborate};
use rx_types::Name;
use std::alloc::Global;

// The answer where packages are refused.
fn refused(alloc: Global, asked: &[Name], fault: ElabFault) -> Result<Answer, NoMemory>
    requires { IsWithin (length asked.now) fault }
    ensures { IfOk result (IsToldIn asked.now fault) }
{
    match fault {
        ElabFault::Refused { package, refusal } => {
            let file = asked[package].copy(alloc)?;
            Ok(Answer::Refused(file, refusal))
        }
        ElabFault::NoMemory => Err(NoMemory),
    }
}

/// What the packages mean.
pub fn meaning_of(alloc: Global, packages: &Packages) -> Result<CheckableSpec, Early>
    requires { ArePaired packages.now.asked.items packages.now.trees.items }
    ensures means { IfOk result (Means packages.now.asked.items packages.now.trees.items) }
    ensures refused { IfErr result (IsEarly (IsRefusedFor packages.now.asked.items packages.now.trees.items)) }
{
    let asked = packages.asked.as_slice();
    let trees = packages.trees.as_slice();
    if let Err(fault) = all_served(alloc, trees) {
        let answer = refused(alloc, asked, fault)?;
        return Err(Early::Answer(answer));
    }
    match elaborate(alloc, asked, trees) {
        Ok(spec) => Ok(CheckableSpec::of(spec)),
        Err(fault) => {
            let answer = refused(alloc, asked, fault)?;
            Err(Early::Answer(answer))
        }
    }
}

// The answer where no message of the package has the name.
fn no_message(alloc: Global, owner: &Name, name: &Name) -> Result<Answer, NoMemory>
    ensures { IfOk result (λ answer. answer ≡ Answer.NoMessage owner.now name.now) }
{
    let owner = owner.copy(alloc)?;
    let name = name.copy(alloc)?;
    Ok(Answer::NoMessage(owner, name))
}

// The message of a name, all of whose checks pass.
fn accepted<'s>(
    alloc: Global,
    ask: &Ask,
    name: &Name,
    spec: &'s CheckableSpec,
) -> Result<Sound<'s>, Early>
    ensures types { IfOk result (λ message. message.domains ≡ spec.now.domains) }
    ensures serves { IfOk result (λ message. Serves spec.now ask.now.name ask.now.splits name.now message.graph) }
    ensures denied { IfErr result (IsEarly (IsDenied spec.now ask.now.name ask.now.splits name.now)) }
{
    let Some(message) = find_message(spec, &ask.name, name) else {
        let answer = no_message(alloc, &ask.name, name)?;
        return Err(Early::Answer(answer));
    };
    let examined = examine(alloc, &message, ask.splits)?;
    match examined {
        Examined::Accepted => {
            let elaborated = message.elaborated();
            reports_show_soundness(elaborated);
            all_are_named(elaborated);
            Ok(Sound::of(elaborated))
        }
        Examined::Rejected(reported) => Err(Early::Answer(Answer::Rejected(reported))),
    }
}

/// What is asked for of the packages whose meaning this is. Each command is one case.
pub fn serve<I: Source>(
    alloc: Global,
    ask: &Ask,
    spec: &CheckableSpec,
    input: &mut I,
) -> Result<Answer, Early>
    ensures answers { IfAnswered result (λ answer. IfSome (I.left input.old) (λ left. AnswersTo (ask_of ask.now) spec.now left answer)) }
    ensures kind { IfAnswered result IsOfMessages }
    ensures heard { IfAnswered result (IsHeard (message_asked (does_of ask.now.does) ≡ None) (input.new ≡ input.old) (IsAtEnd (I.left input.new)) (HasRisen (I.faults input.old) (I.faults input.new))) }
    ensures untouched { message_asked (does_of ask.now.does) ≡ None → input.new ≡ input.old }
{
    match &ask.does {
        Does::Checks => {
            let reported = report_package(alloc, spec, &ask.name, ask.splits)?;
            Ok(Answer::Checked(reported))
        }
        Does::Decodes(name) => {
            let message = accepted(alloc, ask, name, spec)?;
            let answer = read_input(alloc, &message, input)?;
            Ok(answer)
        }
        Does::Encodes(name) => {
            let message = accepted(alloc, ask, name, spec)?;
            let answer = write_input(alloc, &message, input)?;
            Ok(answer)
        }
    }
}
