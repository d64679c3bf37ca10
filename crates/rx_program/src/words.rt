//! What the words of a command ask for.
ghost use Rattle.std.specs.Prelude.{◌≡◌, ◌≤◌, Some, None, true, IfOk, IfErr, map, string_bytes};
ghost use Rattle.rx_words.specs.Names.{is_name};
ghost use Rattle.rx_words.specs.Read.{wanted_of};
ghost use Rattle.rx_program.specs.Words.{ask_with, asked_for, HaveNoForm};
ghost use Rattle.rx_words.specs.Words.{HasNames};
ghost use Rattle.rx_program.specs.Asked.{ask_of};
ghost use Rattle.rx_program.specs.Heard.{IsEarly};

use crate::answer::{Answer, Early};
use crate::fault::NoMemory;
use rx_prover::Splits;
use rx_types::Name;
use rx_words::{Command, Request, WordsFault};
use std::alloc::Global;

/// What is done: all messages of a package are checked, or an input is decoded or encoded as this message.
#[derive(Debug, Drop)]
pub enum Does {
    Checks,
    Decodes(Name),
    Encodes(Name),
}

/// What is asked for: a package, and how many splits a query may take.
#[derive(Debug, Drop)]
pub struct Ask {
    pub name: Name,
    pub does: Does,
    pub splits: Splits,
}

// The name of this text.
fn name_of(alloc: Global, text: &str) -> Result<Name, NoMemory>
    requires { is_name text.now ≡ true }
    ensures { IfOk result (λ name. name ≡ text.now) }
{
    Ok(Name::make(alloc, text.as_bytes())?)
}

// What a request asks for; where it is not served, its words have no form.
fn ask_by(alloc: Global, request: Request<'_>) -> Result<Ask, Early>
    requires names { HasNames (wanted_of request).command }
    requires few { (1 ≤ (wanted_of request).splits) × ((wanted_of request).splits ≤ 4096) }
    ensures some { IfOk result (λ ask. ask_with (wanted_of request.entry).splits (wanted_of request.entry).command ≡ Some (ask_of ask)) }
    ensures none { IfErr result (IsEarly (λ answer. ask_with (wanted_of request.entry).splits (wanted_of request.entry).command ≡ None)) }
    ensures usage { IfErr result (IsEarly (λ answer. answer ≡ Answer.Usage)) }
{
    let splits = Splits::of(request.splits);
    let (package, does) = match request.command {
        Command::Check { package } => (package, Does::Checks),
        Command::Decode {
            package,
            message,
            deep: None,
        } => (package, Does::Decodes(name_of(alloc, message)?)),
        Command::Encode { package, message } => (package, Does::Encodes(name_of(alloc, message)?)),
        _ => return Err(Early::Answer(Answer::Usage)),
    };
    let name = name_of(alloc, package)?;
    Ok(Ask { name, does, splits })
}

/// What the words after the program's own name ask for; Usage where they have no form that is served.
pub fn read_words(alloc: Global, words: &[String]) -> Result<Ask, Early>
    ensures some { IfOk result (λ ask. asked_for (map string_bytes words.now) ≡ Some (ask_of ask)) }
    ensures none { IfErr result (IsEarly (λ answer. HaveNoForm (map string_bytes words.now))) }
    ensures usage { IfErr result (IsEarly (λ answer. answer ≡ Answer.Usage)) }
{
    match rx_words::read_words(alloc, words) {
        Ok(request) => ask_by(alloc, request),
        Err(WordsFault::Form) => Err(Early::Answer(Answer::Usage)),
        Err(WordsFault::NoMemory) => Err(Early::NoMemory),
    }
}
