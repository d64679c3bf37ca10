//! Commands over objects in memory: what they write and how they end.
use rx_io::{MemoryShelf, MemorySink, MemorySource};
use rx_program::{Status, run};
use std::alloc::Global;
use std::test::Fail;

/// These words.
pub fn words_of(alloc: Global, texts: &[&str]) -> Result<Vec<String>, Fail> {
    let mut words = Vec::new(alloc);
    for text in texts {
        words.push(String::from_str(alloc, *text)?)?;
    }
    Ok(words)
}

/// The status of a command of two words, as below.
pub fn ran(
    alloc: Global,
    command: &str,
    operand: &str,
    name: &str,
    text: &[u8],
    input: &[u8],
) -> Result<(Status, Vec<u8>), Fail> {
    ran_with(alloc, &[command, operand], name, text, input)
}

/// The status of a command over one package's text and an input, and what was written.
pub fn ran_with(
    alloc: Global,
    words: &[&str],
    name: &str,
    text: &[u8],
    input: &[u8],
) -> Result<(Status, Vec<u8>), Fail> {
    let words = words_of(alloc, words)?;
    let mut shelf = MemoryShelf::make(alloc, &[])?;
    shelf.add(alloc, name, text)?;
    let mut source = MemorySource::make(alloc, input, 64, &[])?;
    let mut sink = MemorySink::make(alloc, 65_536, 4096, &[])?;
    let status = run(alloc, &words, &mut shelf, &mut source, &mut sink);
    Ok((status, sink.written().to_vec(alloc)?))
}
