use crate::{
    Failed, Fetched, MemoryShelf, MemorySink, MemorySource, ReadFault, Shelf, ShelfFault, Sink,
    Source, TEXT_LIMIT, read_all, write_all,
};
use std::test::Fail;

#[test]
fn reads_all_up_to_the_limit(rt: HostRuntime) -> Result<(), Fail> {
    for piece in [1, 2, 8] {
        let mut source = MemorySource::make(rt.alloc(), &[1, 2], piece, &[])?;
        let all = read_all(rt.alloc(), &mut source, 2)?;
        assert_eq!(rt; all.as_slice(), [1, 2].as_slice(), "by {piece}");
        let mut source = MemorySource::make(rt.alloc(), &[1, 2], piece, &[])?;
        let all = read_all(rt.alloc(), &mut source, 1);
        assert_eq!(rt; all.err(), Some(ReadFault::TooLong), "by {piece}");
    }
    Ok(())
}

#[test]
fn a_source_moves_pieces_and_fails_when_told(rt: HostRuntime) -> Result<(), Fail> {
    let mut source = MemorySource::make(rt.alloc(), &[1, 2, 3, 4, 5], 2, &[2, 6])?;
    let mut into = [0; 3];
    // what each read gives, and what then lies in the buffer
    let reads = [
        (Ok(2), [1, 2, 0]),
        (Err(Failed), [1, 2, 0]),
        (Ok(2), [3, 4, 0]),
        (Ok(1), [5, 4, 0]),
        (Ok(0), [5, 4, 0]),
        (Err(Failed), [5, 4, 0]),
    ];
    for (given, left) in reads {
        assert_eq!(rt; source.read(&mut into), given);
        assert_eq!(rt; into, left);
    }
    Ok(())
}

#[test]
fn a_sink_moves_pieces_and_fails_when_told_or_full(rt: HostRuntime) -> Result<(), Fail> {
    let mut sink = MemorySink::make(rt.alloc(), 4, 3, &[1])?;
    for taken in [Err(Failed), Ok(3), Ok(1), Err(Failed), Err(Failed)] {
        assert_eq!(rt; sink.write(b"abcd"), taken);
    }
    assert_eq!(rt;
        sink.write(b""),
        Ok(0),
        "nothing fits where no room is left"
    );
    assert_eq!(rt; sink.written(), b"abca".as_slice());
    let mut sink = MemorySink::make(rt.alloc(), 8, 3, &[3])?;
    assert_eq!(rt; write_all(&mut sink, b"abcdefgh"), Err(Failed));
    assert_eq!(rt;
        sink.written(),
        b"abcdef".as_slice(),
        "a prefix was written"
    );
    Ok(())
}

#[test]
fn a_shelf_finds_its_texts(rt: HostRuntime) -> Result<(), Fail> {
    let mut shelf = MemoryShelf::make(rt.alloc(), &[2])?;
    shelf.add(rt.alloc(), "pair", b"old")?;
    shelf.add(rt.alloc(), "other", b"text")?;
    shelf.add(rt.alloc(), "pair", b"new")?;
    let mut into = Vec::new(rt.alloc());
    let fetches: [(&str, Result<Fetched, ShelfFault>, &[u8]); 4] = [
        ("pair", Ok(Fetched::Text), b"new"),
        ("pair", Err(ShelfFault::Failed), b""),
        ("other", Ok(Fetched::Text), b"text"),
        ("absent", Ok(Fetched::Absent), b""),
    ];
    for (name, found, text) in fetches {
        assert_eq!(rt; shelf.fetch(rt.alloc(), name, &mut into), found, "{name}");
        assert_eq!(rt; into.as_slice(), text, "{name}");
    }
    Ok(())
}

#[test]
fn a_shelf_gives_texts_up_to_the_limit(rt: HostRuntime) -> Result<(), Fail> {
    let mut shelf = MemoryShelf::make(rt.alloc(), &[])?;
    let mut text = vec![in rt.alloc(); 32u8; TEXT_LIMIT]?;
    shelf.add(rt.alloc(), "long", &text)?;
    text.push(32)?;
    shelf.add(rt.alloc(), "longer", &text)?;
    let mut into = Vec::new(rt.alloc());
    assert_eq!(rt;
        shelf.fetch(rt.alloc(), "long", &mut into),
        Ok(Fetched::Text)
    );
    assert_eq!(rt; into.len(), TEXT_LIMIT);
    assert_eq!(rt;
        shelf.fetch(rt.alloc(), "longer", &mut into),
        Ok(Fetched::TooLong)
    );
    assert_eq!(rt; into.len(), 0);
    Ok(())
}
