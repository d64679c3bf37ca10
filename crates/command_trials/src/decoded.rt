//! The command `decode` over objects in memory, and one trial of each object of the real world.
use rx_io::{Fetched, MemoryShelf, MemorySink, MemorySource, Shelf, Sink, Source};
use rx_program::{FolderShelf, Status, StdSink, StdSource, run};
use std::alloc::Global;
use std::test::Fail;

const PAIR: &[u8] =
    b"package Pair is type Byte is unsigned 8; type M is message Left : Byte; Right : Byte; end message; end Pair;";

// The words of `decode` of this operand.
pub fn decode_words(alloc: Global, operand: &str) -> Result<Vec<String>, Fail> {
    let mut words = Vec::new(alloc);
    words.push(String::from_str(alloc, "decode")?)?;
    words.push(String::from_str(alloc, operand)?)?;
    Ok(words)
}

// The status of `decode` of this operand over objects in memory, and what was written.
pub fn decoded(
    alloc: Global,
    name: &str,
    text: &[u8],
    operand: &str,
    input: &[u8],
) -> Result<(Status, Vec<u8>), Fail> {
    let words = decode_words(alloc, operand)?;
    let mut shelf = MemoryShelf::make(alloc, &[])?;
    shelf.add(alloc, name, text)?;
    let mut source = MemorySource::make(alloc, input, 3, &[])?;
    let mut sink = MemorySink::make(alloc, 4096, 7, &[])?;
    let status = run(alloc, &words, &mut shelf, &mut source, &mut sink);
    Ok((status, sink.written().to_vec(alloc)?))
}

// The status where these calls of the shelf, the source and the sink fail, and what was written.
fn faulty(
    alloc: Global,
    shelf: &[u64],
    source: &[u64],
    sink: &[u64],
) -> Result<(Status, Vec<u8>), Fail> {
    let words = decode_words(alloc, "Pair::M")?;
    let mut shelf = MemoryShelf::make(alloc, shelf)?;
    shelf.add(alloc, "pair", PAIR)?;
    let mut source = MemorySource::make(alloc, b"AB", 8, source)?;
    let mut sink = MemorySink::make(alloc, 4096, 8, sink)?;
    let status = run(alloc, &words, &mut shelf, &mut source, &mut sink);
    Ok((status, sink.written().to_vec(alloc)?))
}

#[test]
fn decodes_the_pair_or_says_why_not(rt: HostRuntime) -> Result<(), Fail> {
    // operand, input, status, what is written
    let cases: [(&str, &[u8], Status, &[u8]); 8] = [
        (
            "Pair::M",
            b"AB",
            Status::Done,
            b"{\"Left\":65,\"Right\":66}\n",
        ),
        (
            "pAIR::m",
            b"AB",
            Status::Done,
            b"{\"Left\":65,\"Right\":66}\n",
        ),
        (
            "Pair::M",
            b"A",
            Status::InputRefused,
            b"refused: Short Right\n",
        ),
        (
            "Pair::M",
            b"",
            Status::InputRefused,
            b"refused: Short Left\n",
        ),
        (
            "Pair::M",
            b"ABC",
            Status::InputRefused,
            b"refused: Trailing Right\n",
        ),
        (
            "Pair::N",
            b"",
            Status::Specification,
            b"pair.rflx: 8 UnknownName N\n",
        ),
        (
            "Nope::M",
            b"",
            Status::Specification,
            b"nope.rflx: 8 UnknownName Nope\n",
        ),
        (
            "pair::type",
            b"",
            Status::Words,
            b"usage: rflx check P, decode P::M [--deep Q], encode P::M, run P::S, load N, all with [--splits K]\n",
        ),
    ];
    for (operand, input, status, written) in cases {
        let (given, text) = decoded(rt.alloc(), "pair", PAIR, operand, input)?;
        assert_eq!(rt; given, status, "{operand}");
        assert_eq!(rt; text.as_slice(), written, "{operand}");
    }
    Ok(())
}

// The text, the input, the status of `decode P::M` where the text of P is that one, and what is written.
const SERVED: [(&[u8], &[u8], Status, &[u8]); 5] = [
    (
        b"package P is type A is unsigned 1; type B is unsigned 63; type M is message Y : A; X : B; end message; end P;",
        b"\x80\0\0\0\0\0\0\x05",
        Status::Done,
        b"{\"X\":5,\"Y\":1}\n",
    ),
    (
        b"package p is -- a comment\n type A is unsigned 8; type M is message a : a; end message; end P;",
        b"\x07",
        Status::Done,
        b"{\"a\":7}\n",
    ),
    (
        b"package P is type M is null message; end P;",
        b"",
        Status::Done,
        b"{}\n",
    ),
    (
        b"package P is type M is null message; end P;",
        b"x",
        Status::InputRefused,
        b"refused: Trailing\n",
    ),
    (
        b"package P is type B is unsigned 16; type M is message L : B; end message with Byte_Order => Low_Order_First; end P;",
        b"\x34\x12",
        Status::Done,
        b"{\"L\":4660}\n",
    ),
];

#[test]
fn serves_chains_of_1_to_63_bits_in_both_orders(rt: HostRuntime) -> Result<(), Fail> {
    for (text, input, status, written) in SERVED {
        let (given, line) = decoded(rt.alloc(), "p", text, "P::M", input)?;
        assert_eq!(rt; given, status);
        assert_eq!(rt; line.as_slice(), written);
    }
    Ok(())
}

const BOX: &[u8] =
    b"package P is type K is (Off, On) with Size => 8; type M is message K : K if K = On; L : A; D : Opaque with Size => L * 8; R : Opaque; end message; type A is range 0 .. 9 with Size => 8; end P;";

#[test]
fn serves_enumerations_conditions_and_bytes(rt: HostRuntime) -> Result<(), Fail> {
    // the input, the status, what is written
    let cases: [(&[u8], Status, &[u8]); 4] = [
        (
            b"\x01\x02\x0a\x0b\x0c",
            Status::Done,
            b"{\"D\":\"0a0b\",\"K\":\"On\",\"L\":2,\"R\":\"0c\"}\n",
        ),
        (b"\x00\x00", Status::InputRefused, b"refused: Condition K\n"),
        (b"\x02", Status::InputRefused, b"refused: Value K\n"),
        (b"\x01\x02\x0a", Status::InputRefused, b"refused: Short D\n"),
    ];
    for (input, status, written) in cases {
        let (given, line) = decoded(rt.alloc(), "p", BOX, "P::M", input)?;
        assert_eq!(rt; given, status);
        assert_eq!(rt; line.as_slice(), written);
    }
    Ok(())
}

#[test]
fn refuses_what_breaks_a_rule_or_is_not_served(rt: HostRuntime) -> Result<(), Fail> {
    // the text of P, what is written
    let cases: [(&[u8], &[u8]); 8] = [
        (
            b"package P is type A is unsigned 64; end P;",
            b"p.rflx:1:19: 20 BadRange A\n",
        ),
        (
            b"package P is type A is unsigned 8; type M is message Y : A; y : A; end message; end P;",
            b"p.rflx:1:61: 9 NameClash y\n",
        ),
        (
            b"package P is type A is unsigned 8; type M is message Y : B; end message; end P;",
            b"p.rflx:1:58: 8 UnknownName B\n",
        ),
        (
            b"with Q; package P is end P;",
            b"p.rflx:1:6: 8 UnknownName Q\n",
        ),
        (
            b"package P is type A is unsigned 8; type S is sequence of A; type A is unsigned 8; end P;",
            b"p.rflx:1:36: 7 Unsupported sequence\n",
        ),
        (
            b"package P is type A is unsigned 8; for M use (F => N); type N is new M; end P;",
            b"p.rflx:1:36: 7 Unsupported for\n",
        ),
        (
            b"package P is type A is unsigned 8; type N is new M; type S is sequence of A; end P;",
            b"p.rflx:1:36: 7 Unsupported new\n",
        ),
        (
            b"package P is type A is unsigned 8; type M is message X : A then Y with First => X'Last; Y : A; end message; end P;",
            b"p.rflx:1:72: 18 FirstForm First\n",
        ),
    ];
    for (text, written) in cases {
        let (given, line) = decoded(rt.alloc(), "p", text, "P::M", b"")?;
        assert_eq!(rt; given, Status::Specification);
        assert_eq!(rt; line.as_slice(), written);
    }
    Ok(())
}

#[test]
fn a_fault_ends_the_command(rt: HostRuntime) -> Result<(), Fail> {
    let none: [u64; 0] = [];
    let (status, text) = faulty(rt.alloc(), &none, &none, &[2])?;
    assert_eq!(rt; status, Status::SinkFault);
    assert_eq!(rt; text.as_slice(), b"{\"Left\":".as_slice());
    let (status, text) = faulty(rt.alloc(), &none, &[1], &none)?;
    assert_eq!(rt; status, Status::SourceFault);
    assert_eq!(rt; text.as_slice(), b"fault: source\n".as_slice());
    let (status, text) = faulty(rt.alloc(), &[1], &none, &none)?;
    assert_eq!(rt; status, Status::ShelfFault);
    assert_eq!(rt; text.as_slice(), b"fault: shelf\n".as_slice());
    Ok(())
}

// A package with a message of this many fields.
fn with_fields(alloc: Global, count: usize) -> Result<Vec<u8>, Fail> {
    let mut text = String::from_str(
        alloc,
        "package P is type A is unsigned 8; type M is message ",
    )?;
    for k in 0..count {
        let field = format!(in alloc; "F{k} : A;")?;
        text.push_str(field.as_str())?;
    }
    text.push_str(" end message; end P;")?;
    Ok(text.as_bytes().to_vec(alloc)?)
}

#[test]
fn serves_128_fields_and_no_more(rt: HostRuntime) -> Result<(), Fail> {
    let text = with_fields(rt.alloc(), 128)?;
    let (status, line) = decoded(rt.alloc(), "p", &text, "P::M", b"")?;
    assert_eq!(rt; status, Status::InputRefused);
    assert_eq!(rt; line.as_slice(), b"refused: Short F0\n".as_slice());
    let text = with_fields(rt.alloc(), 129)?;
    let (status, line) = decoded(rt.alloc(), "p", &text, "P::M", b"")?;
    assert_eq!(rt; status, Status::Specification);
    assert_eq!(rt;
        line.as_slice(),
        b"p.rflx:1:41: 21 GraphLimit M\n".as_slice()
    );
    Ok(())
}

#[test]
fn refuses_a_text_above_1_048_576_bytes(rt: HostRuntime) -> Result<(), Fail> {
    let blank = vec![in rt.alloc(); 32u8; 1048577]?;
    let (status, line) = decoded(rt.alloc(), "p", &blank, "P::M", b"")?;
    assert_eq!(rt; status, Status::Limit);
    assert_eq!(rt; line.as_slice(), b"limit: text p.rflx\n".as_slice());
    let (status, line) = decoded(rt.alloc(), "p", &blank[1..], "P::M", b"")?;
    assert_eq!(rt; status, Status::Specification);
    assert_eq!(rt;
        line.as_slice(),
        b"p.rflx:1:1048577: 5 Expected\n".as_slice()
    );
    Ok(())
}

#[test]
fn standard_input_is_read(rt: HostRuntime) -> Result<(), Fail> {
    let mut into = [0u8; 4];
    let mut source = StdSource::make(rt.stdin());
    assert!(rt; source.read(&mut into).is_ok());
    Ok(())
}

#[test]
fn standard_output_is_written(rt: HostRuntime) -> Result<(), Fail> {
    let mut sink = StdSink::make(rt.stdout());
    assert_eq!(rt; sink.write(b"\n"), Ok(1));
    Ok(())
}

#[test]
fn a_file_that_is_not_there_is_absent(rt: HostRuntime) -> Result<(), Fail> {
    let mut into = Vec::new(rt.alloc());
    let mut shelf = FolderShelf::make(&rt);
    let fetched = shelf.fetch(rt.alloc(), "no_package_of_this_name", &mut into);
    assert_eq!(rt; fetched, Ok(Fetched::Absent));
    Ok(())
}
