//! The longest input, and one that is a byte longer.
use rx_io::{MemoryShelf, MemorySink, MemorySource};
use rx_program::{Status, run};
use std::alloc::Global;
use std::test::Fail;

const ONE: &[u8] = b"package One is type M is message D : Opaque; end message; end One;";

fn words(alloc: Global) -> Result<Vec<String>, Fail> {
    let mut words = Vec::new(alloc);
    words.push(String::from_str(alloc, "decode")?)?;
    words.push(String::from_str(alloc, "One::M")?)?;
    Ok(words)
}

// So many bytes 171.
fn bytes(alloc: Global, count: usize) -> Result<Vec<u8>, Fail> {
    let mut bytes = Vec::new(alloc);
    bytes.resize(count, 171)?;
    Ok(bytes)
}

// The status of `decode One::M` of so many bytes, and what was written.
fn decoded(alloc: Global, count: usize) -> Result<(Status, Vec<u8>), Fail> {
    let words = words(alloc)?;
    let input = bytes(alloc, count)?;
    let mut shelf = MemoryShelf::make(alloc, &[])?;
    shelf.add(alloc, "one", ONE)?;
    let mut source = MemorySource::make(alloc, &input, 65536, &[])?;
    let mut sink = MemorySink::make(alloc, 33_554_440, 65536, &[])?;
    let status = run(alloc, &words, &mut shelf, &mut source, &mut sink);
    Ok((status, sink.written().to_vec(alloc)?))
}

#[test]
fn decodes_the_longest_input(rt: HostRuntime) -> Result<(), Fail> {
    let (status, text) = decoded(rt.alloc(), 16_777_215)?;
    assert_eq!(rt; status, Status::Done);
    assert_eq!(rt; text.len(), 33_554_439);
    assert!(rt; text.starts_with(b"{\"D\":\"abab"));
    assert!(rt; text.ends_with(b"abab\"}\n"));
    Ok(())
}

#[test]
fn refuses_a_longer_input(rt: HostRuntime) -> Result<(), Fail> {
    let (status, text) = decoded(rt.alloc(), 16_777_216)?;
    assert_eq!(rt; status, Status::Limit);
    assert_eq!(rt; text.as_slice(), b"limit: input\n".as_slice());
    Ok(())
}
