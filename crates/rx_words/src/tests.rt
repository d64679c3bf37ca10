//! Which words have a form, and which come near one.

use crate::{Command, Request, WordsFault, read_words};
use std::alloc::Global;
use std::process::Abort;
use std::string::String;
use std::test::Fail;

// The command with its names and numbers, and the splits.
fn text_of(alloc: Global, request: Request) -> Result<String, Fail> {
    let splits = request.splits;
    Ok(match request.command {
        Command::Check { package } => format!(in alloc; "check {package} {splits}")?,
        Command::Decode {
            package,
            message,
            deep,
        } => {
            let deep = deep.unwrap_or("-");
            format!(in alloc; "decode {package} {message} {deep} {splits}")?
        }
        Command::Encode { package, message } => {
            format!(in alloc; "encode {package} {message} {splits}")?
        }
        Command::Run { package, machine } => format!(in alloc; "run {package} {machine} {splits}")?,
        Command::Load { count } => format!(in alloc; "load {count} {splits}")?,
    })
}

// What the words ask for, as text; `none` where they have no form.
fn shown(alloc: Global, words: &[&str]) -> Result<String, Fail> {
    let mut owned: Vec<String> = Vec::new(alloc);
    for word in words {
        owned.push(String::from_str(alloc, word)?)?;
    }
    match read_words(alloc, owned.as_slice()) {
        Ok(request) => text_of(alloc, request),
        Err(WordsFault::Form) => Ok(String::from_str(alloc, "none")?),
        Err(WordsFault::NoMemory) => Err(Fail::from("memory")),
    }
}

fn asks(rt: &impl Abort, alloc: Global, words: &[&str], text: &str) -> Result<(), Fail> {
    assert!(rt; shown(alloc, words)?.as_str() == text, "{words:?}");
    Ok(())
}

fn refuses(rt: &impl Abort, alloc: Global, words: &[&str]) -> Result<(), Fail> {
    asks(rt, alloc, words, "none")
}

#[test]
fn reads_every_command(rt: HostRuntime) -> Result<(), Fail> {
    let alloc = rt.alloc();
    asks(&rt, alloc, &["check", "P"], "check P 1024")?;
    asks(&rt, alloc, &["decode", "P::M"], "decode P M - 1024")?;
    asks(&rt, alloc, &["encode", "P::M"], "encode P M 1024")?;
    asks(&rt, alloc, &["run", "P::S"], "run P S 1024")?;
    asks(&rt, alloc, &["load", "1000"], "load 1000 1024")?;
    asks(&rt, alloc, &["load", "1"], "load 1 1024")?;
    asks(&rt, alloc, &["check", "help"], "check help 1024")
}

#[test]
fn reads_options_anywhere(rt: HostRuntime) -> Result<(), Fail> {
    let alloc = rt.alloc();
    asks(
        &rt,
        alloc,
        &["check", "P", "--splits", "4096"],
        "check P 4096",
    )?;
    asks(&rt, alloc, &["check", "--splits=1", "P"], "check P 1")?;
    asks(
        &rt,
        alloc,
        &["check", "--splits", "5", "--", "P"],
        "check P 5",
    )?;
    asks(&rt, alloc, &["check", "P", "--"], "check P 1024")?;
    let both = ["decode", "--splits", "5", "--deep=Q", "--", "P::M"];
    asks(&rt, alloc, &both, "decode P M Q 5")?;
    let turned = ["decode", "P::M", "--deep", "Q", "--splits=7"];
    asks(&rt, alloc, &turned, "decode P M Q 7")
}

#[test]
fn refuses_options_near_the_form(rt: HostRuntime) -> Result<(), Fail> {
    let alloc = rt.alloc();
    refuses(
        &rt,
        alloc,
        &["check", "P", "--splits", "5", "--splits", "5"],
    )?;
    refuses(&rt, alloc, &["check", "P", "--splits=5", "--splits", "5"])?;
    refuses(&rt, alloc, &["check", "P", "--splits"])?;
    refuses(&rt, alloc, &["check", "P", "--splits="])?;
    refuses(&rt, alloc, &["check", "P", "--splits", ""])?;
    refuses(&rt, alloc, &["check", "--splits", "--", "5", "P"])?;
    refuses(&rt, alloc, &["check", "--", "P", "--splits", "5"])?;
    refuses(&rt, alloc, &["check", "--", "--splits=5"])?;
    refuses(&rt, alloc, &["check", "P", "--split", "5"])?;
    refuses(&rt, alloc, &["check", "P", "-splits", "5"])?;
    refuses(&rt, alloc, &["check", "P", "--splits=5=6"])?;
    refuses(&rt, alloc, &["check", "P", "--deep", "Q"])
}

#[test]
fn refuses_numbers_near_the_form(rt: HostRuntime) -> Result<(), Fail> {
    let alloc = rt.alloc();
    refuses(&rt, alloc, &["check", "P", "--splits", "0"])?;
    refuses(&rt, alloc, &["check", "P", "--splits", "05"])?;
    refuses(&rt, alloc, &["check", "P", "--splits", "+5"])?;
    refuses(&rt, alloc, &["check", "P", "--splits", "-5"])?;
    refuses(&rt, alloc, &["check", "P", "--splits", "4097"])?;
    refuses(
        &rt,
        alloc,
        &["check", "P", "--splits", "18446744073709551617"],
    )?;
    refuses(&rt, alloc, &["load", "1001"])?;
    refuses(&rt, alloc, &["load", "0"])?;
    refuses(&rt, alloc, &["load", "P"])
}

#[test]
fn refuses_operands_near_the_form(rt: HostRuntime) -> Result<(), Fail> {
    let alloc = rt.alloc();
    refuses(&rt, alloc, &["check", "P", "Q"])?;
    refuses(&rt, alloc, &["check", "--", "--", "P"])?;
    refuses(&rt, alloc, &["check"])?;
    refuses(&rt, alloc, &["check", ""])?;
    refuses(&rt, alloc, &["check", "-"])?;
    refuses(&rt, alloc, &["check", "é"])?;
    refuses(&rt, alloc, &["check", "package"])?;
    refuses(&rt, alloc, &["check", "P::M"])?;
    refuses(&rt, alloc, &["decode", "P"])?;
    refuses(&rt, alloc, &["decode", "P::"])?;
    refuses(&rt, alloc, &["decode", "P:M"])?;
    refuses(&rt, alloc, &["decode", "P:::M"])?;
    refuses(&rt, alloc, &["decode", "P::M::N"])
}

#[test]
fn refuses_commands_near_the_form(rt: HostRuntime) -> Result<(), Fail> {
    let alloc = rt.alloc();
    refuses(&rt, alloc, &[])?;
    refuses(&rt, alloc, &[""])?;
    refuses(&rt, alloc, &["help"])?;
    refuses(&rt, alloc, &["--help"])?;
    refuses(&rt, alloc, &["-h"])?;
    refuses(&rt, alloc, &["--version"])?;
    refuses(&rt, alloc, &["check", "--help"])?;
    refuses(&rt, alloc, &["check", "-h"])?;
    refuses(&rt, alloc, &["--", "check", "P"])?;
    refuses(&rt, alloc, &["--splits", "5", "check", "P"])?;
    refuses(&rt, alloc, &["chec", "P"])?;
    refuses(&rt, alloc, &["Check", "P"])
}
