//! The command line, and what its words give to an operand and options.
//!
//! - One level of subcommands, all with the same arguments: an operand, `--splits` and `--deep`.
//! - No help, no version, no abbreviations, and the program's own name is not among the words.

ghost use Rattle.std.specs.Prelude.{◌≡◌, IfOk, map, false};
ghost use Rattle.std.specs.String.{string_bytes};
ghost use Rattle.clap.specs.Words.{app_of, kind_of, shape_of};
ghost use Rattle.clap.specs.declared.Command.TheViews.{out-Command as fields_of};
ghost use Rattle.rx_words.specs.declared.line.CommandName.{CommandName};
ghost use Rattle.rx_words.specs.Form.{command_named, parts_of, name_of};
ghost use Rattle.rx_words.specs.App.{app, sub_shape};
ghost use Rattle.rx_words.specs.Read.{ReadsParts};

use crate::fault::WordsFault;
use clap::error::ErrorKind;
use clap::{Arg, Command, Error};
use std::alloc::{AllocError, Global};

/// What the first word asks for.
#[derive(Clone, Copy, Debug, Drop, PartialEq, Eq)]
pub(crate) enum CommandName {
    Check,
    Decode,
    Encode,
    Run,
    Load,
}

/// The operand and the values of the options, as they are written.
#[derive(Clone, Copy, Debug, Drop)]
pub(crate) struct Given<'a> {
    pub operand: Option<&'a str>,
    pub splits: Option<&'a str>,
    pub deep: Option<&'a str>,
}

// The command that a word names.
fn command_of(word: &str) -> Option<CommandName>
    ensures { result ≡ command_named word.now }
{
    if "check" == word {
        Some(CommandName::Check)
    } else if "decode" == word {
        Some(CommandName::Decode)
    } else if "encode" == word {
        Some(CommandName::Encode)
    } else if "run" == word {
        Some(CommandName::Run)
    } else if "load" == word {
        Some(CommandName::Load)
    } else {
        None
    }
}

// One command with its arguments.
fn subcommand<'a>(alloc: Global, name: &'a str) -> Result<Command<'a>, AllocError>
    ensures shape { (c : CommandName) → name.entry.now ≡ name_of c → IfOk result (λ r. shape_of r ≡ sub_shape c) }
    ensures local { IfOk result (λ r. (fields_of r).has_globals ≡ false) }
{
    Command::new(alloc, name)
        .arg(Arg::new(alloc, "operand"))?
        .arg(Arg::new(alloc, "splits").long("splits"))?
        .arg(Arg::new(alloc, "deep").long("deep"))
}

// The command line.
fn application<'a>(alloc: Global) -> Result<Command<'a>, AllocError>
    ensures { IfOk result (λ r. app_of r ≡ app) }
{
    Command::new(alloc, "rflx")
        .no_binary_name(true)
        .disable_help_flag(true)
        .disable_help_subcommand(true)
        .disable_version_flag(true)
        .subcommand_required(true)
        .subcommand(subcommand(alloc, "check")?)?
        .subcommand(subcommand(alloc, "decode")?)?
        .subcommand(subcommand(alloc, "encode")?)?
        .subcommand(subcommand(alloc, "run")?)?
        .subcommand(subcommand(alloc, "load")?)
}

// Why the words were not taken.
fn fault_in(error: &Error) -> WordsFault
    ensures { result ≡ WordsFault.Form → kind_of error.now ≡ ErrorKind.OutOfMemory → ⊥ }
{
    match error.kind() {
        ErrorKind::OutOfMemory => WordsFault::NoMemory,
        _ => WordsFault::Form,
    }
}

/// The command that the words name and what they give it.
pub(crate) fn parts<'a>(
    alloc: Global,
    words: &'a [String],
) -> Result<(CommandName, Given<'a>), WordsFault>
    ensures { ReadsParts (parts_of (map string_bytes words.entry.now)) result }
{
    let matches = match application(alloc)?.try_get_matches_from(words) {
        Ok(matches) => matches,
        Err(error) => return Err(fault_in(&error)),
    };
    let Some((name, inner)) = matches.subcommand() else {
        return Err(WordsFault::Form);
    };
    let Some(command) = command_of(name) else {
        return Err(WordsFault::Form);
    };
    let given = Given {
        operand: inner.get_str("operand"),
        splits: inner.get_str("splits"),
        deep: inner.get_str("deep"),
    };
    Ok((command, given))
}
