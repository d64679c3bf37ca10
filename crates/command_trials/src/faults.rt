//! A check over objects that fail.
use crate::checked::TLV;
use crate::commands::words_of;
use rx_io::{MemoryShelf, MemorySink, MemorySource};
use rx_program::{Status, run};
use std::alloc::Global;
use std::test::Fail;

// The status of a check where these calls of the shelf, the source and the sink fail, and what was written.
fn checked(
    alloc: Global,
    shelf: &[u64],
    source: &[u64],
    sink: &[u64],
) -> Result<(Status, Vec<u8>), Fail> {
    let words = words_of(alloc, &["check", "TLV"])?;
    let mut shelf = MemoryShelf::make(alloc, shelf)?;
    shelf.add(alloc, "tlv", TLV)?;
    let mut source = MemorySource::make(alloc, b"AB", 8, source)?;
    let mut sink = MemorySink::make(alloc, 65_536, 8, sink)?;
    let status = run(alloc, &words, &mut shelf, &mut source, &mut sink);
    Ok((status, sink.written().to_vec(alloc)?))
}

#[test]
fn a_fault_ends_a_check(rt: HostRuntime) -> Result<(), Fail> {
    let none: [u64; 0] = [];
    let (status, text) = checked(rt.alloc(), &[1], &none, &none)?;
    assert_eq!(rt; status, Status::ShelfFault);
    assert_eq!(rt; text.as_slice(), b"fault: shelf\n".as_slice());
    // a front of the report stands
    let (status, text) = checked(rt.alloc(), &none, &none, &[3])?;
    assert_eq!(rt; status, Status::SinkFault);
    assert_eq!(rt; text.as_slice(), b"TLV::Message Exc".as_slice());
    // no input is read
    let (status, text) = checked(rt.alloc(), &none, &[1], &none)?;
    assert_eq!(rt; status, Status::Done);
    assert!(rt; text.ends_with(b"20 passed, 0 failed, 0 undecided\n"));
    Ok(())
}
