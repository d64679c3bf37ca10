//! What the words ask for.

ghost use Rattle.std.specs.Prelude.{◌≡◌, map, option_map, Some};
ghost use Rattle.std.specs.String.{string_bytes};
ghost use Rattle.rx_words.specs.Read.{texts_of, asked_of, wanted_of, ReadsWords};
ghost use Rattle.rx_words.specs.Words.{asked, deep_for, form_of, judged, splits_of};

use crate::fault::WordsFault;
use crate::line::{CommandName, Given, parts};
use crate::names::{named, pair_in};
use crate::numbers::number_in;
use std::alloc::Global;

/// A command with its names and numbers, as the words have them.
#[derive(Clone, Copy, Debug, Drop)]
pub enum Command<'a> {
    /// All messages of a package.
    Check {
        package: &'a str,
    },
    /// A message of a package, and a package that has further refinements of it.
    Decode {
        package: &'a str,
        message: &'a str,
        deep: Option<&'a str>,
    },
    Encode {
        package: &'a str,
        message: &'a str,
    },
    Run {
        package: &'a str,
        machine: &'a str,
    },
    /// 1 to 1,000 messages.
    Load {
        count: u32,
    },
}

/// A command, and how many splits a query may take: 1 to 4,096.
#[derive(Clone, Copy, Debug, Drop)]
pub struct Request<'a> {
    pub command: Command<'a>,
    pub splits: u32,
}

// The splits that are given, or 1,024.
fn splits_of(given: Option<&str>) -> Option<u32>
    ensures { result ≡ splits_of (option_map (λ s. s.now) given.entry) }
{
    match given {
        None => Some(1024),
        Some(text) => number_in(1, 4096, text),
    }
}

// The package of `--deep`, which goes with one command alone; none where it is not given.
fn deep_for<'a>(name: CommandName, given: Option<&'a str>) -> Option<Option<&'a str>>
    ensures { option_map (option_map (λ s. s.now)) result ≡ deep_for name (option_map (λ s. s.now) given.entry) }
{
    match (name, given) {
        (_, None) => Some(None),
        (CommandName::Decode, Some(text)) => Some(Some(named(text)?)),
        (_, Some(_)) => None,
    }
}

// The command of this operand.
fn asked<'a>(name: CommandName, operand: &'a str, deep: Option<&'a str>) -> Option<Command<'a>>
    ensures { option_map asked_of result ≡ asked name operand.entry.now (option_map (λ s. s.now) deep.entry) }
{
    match name {
        CommandName::Check => {
            let package = named(operand)?;
            Some(Command::Check { package })
        }
        CommandName::Decode => {
            let (package, message) = pair_in(operand)?;
            Some(Command::Decode {
                package,
                message,
                deep,
            })
        }
        CommandName::Encode => {
            let (package, message) = pair_in(operand)?;
            Some(Command::Encode { package, message })
        }
        CommandName::Run => {
            let (package, machine) = pair_in(operand)?;
            Some(Command::Run { package, machine })
        }
        CommandName::Load => {
            let count = number_in(1, 1000, operand)?;
            Some(Command::Load { count })
        }
    }
}

// The request of a command that is given these.
fn judged<'a>(name: CommandName, given: Given<'a>) -> Option<Request<'a>>
    ensures { option_map wanted_of result ≡ judged name (texts_of given.entry) }
{
    let operand = given.operand?;
    let deep = deep_for(name, given.deep)?;
    let splits = splits_of(given.splits)?;
    let command = asked(name, operand, deep)?;
    Some(Request { command, splits })
}

/// What the words after the program's own name ask for; `Form` exactly where they have no command's
/// form, as `check P` or `decode P::M --splits 5` have one.
pub fn read_words<'a>(alloc: Global, words: &'a [String]) -> Result<Request<'a>, WordsFault>
    ensures { ReadsWords (form_of (map string_bytes words.entry.now)) result }
{
    match parts(alloc, words) {
        Ok((name, given)) => match judged(name, given) {
            Some(request) => Ok(request),
            None => Err(WordsFault::Form),
        },
        Err(fault) => Err(fault),
    }
}
