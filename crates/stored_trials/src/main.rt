//! Runs commands over the packages of the folder, one after the other, and prints how each ends.
//!
//! Each argument is a command: `whole` or `last`, for what is shown of what it writes, and its own words. The first
//! command that reads an input reads standard input to its end.
#![tactic(auto)]

use anyhow::Context;
use rx_io::MemorySink;
use rx_program::{FolderShelf, StdSource, run};
use std::{env, str};

// At most so many bytes are written by a command.
const ROOM: usize = 2_097_152;

// Runs one command, and prints all that it wrote or its last line, and its status.
fn show(rt: &HostRuntime, source: &mut StdSource, command: &str) -> anyhow::Result<()> {
    let alloc = rt.alloc();
    let mut words = Vec::new(alloc);
    for word in command.split_whitespace().skip(1) {
        words.push(String::from_str(alloc, word)?)?;
    }
    let mut shelf = FolderShelf::make(rt);
    let mut sink = MemorySink::make(alloc, ROOM, ROOM, &[])
        .ok()
        .context("no memory")?;
    let status = run(alloc, &words, &mut shelf, source, &mut sink);
    let text = str::from_utf8(sink.written()).ok().context("no text")?;
    if command.starts_with("whole") {
        print!(rt; "{text}")?;
    } else {
        println!(rt; "{}", text.lines().last().unwrap_or(text))?;
    }
    println!(rt; "status {}", status.code())?;
    Ok(())
}

fn main(rt: HostRuntime) -> anyhow::Result<()> {
    let mut source = StdSource::make(rt.stdin());
    for command in env::args(&rt)?.skip(1) {
        show(&rt, &mut source, &command)?;
    }
    Ok(())
}
