//! Sends messages both ways: each line of standard input has the words of a message and a JSON text.
//!
//! The text is encoded, the bytes are decoded, and what was printed is encoded again. The bytes are printed as they were
//! first written, in hexadecimal, and behind them what they were decoded as.
#![tactic(auto)]

use anyhow::{Context, bail};
use rx_io::{MemorySink, MemorySource};
use rx_program::{FolderShelf, Status, run};
use std::io::Write;
use std::{io, str};

// At most so many bytes are written by a command.
const ROOM: usize = 65_536;

// What a command writes that ends well.
fn done(rt: &HostRuntime, command: &str, operand: &str, input: &[u8]) -> anyhow::Result<Vec<u8>> {
    let alloc = rt.alloc();
    let mut words = Vec::new(alloc);
    words.push(String::from_str(alloc, command)?)?;
    words.push(String::from_str(alloc, operand)?)?;
    let mut source = MemorySource::make(alloc, input, ROOM, &[])
        .ok()
        .context("no memory")?;
    let mut sink = MemorySink::make(alloc, ROOM, ROOM, &[])
        .ok()
        .context("no memory")?;
    let mut shelf = FolderShelf::make(rt);
    let status = run(alloc, &words, &mut shelf, &mut source, &mut sink);
    if status != Status::Done {
        bail!("{command} {operand} ends with {}", status.code());
    }
    Ok(sink.written().to_vec(alloc)?)
}

// Sends one text both ways, and prints its message.
fn show(rt: &HostRuntime, operand: &str, text: &str) -> anyhow::Result<()> {
    let message = done(rt, "encode", operand, text.as_bytes())?;
    let printed = done(rt, "decode", operand, &message)?;
    let again = done(rt, "encode", operand, &printed)?;
    if again.as_slice() != message.as_slice() {
        bail!("{operand} is encoded as other bytes");
    }
    for byte in &message {
        print!(rt; "{byte:02x}")?;
    }
    let text = str::from_utf8(&printed).ok().context("no text is printed")?;
    print!(rt; " {text}")?;
    Ok(())
}

fn main(rt: HostRuntime) -> anyhow::Result<()> {
    let input = io::read_to_string(rt.alloc(), rt.stdin())?;
    for line in input.lines() {
        let (operand, text) = line.split_once(' ').context("a line has no text")?;
        show(&rt, operand, text)?;
    }
    Ok(())
}
