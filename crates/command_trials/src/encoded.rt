//! Texts that are encoded or refused, and messages that go both ways.
use crate::commands::ran;
use rx_program::Status;
use std::test::Fail;

// A tag that decides whether a length and bytes follow.
const TLV: &[u8] =
    b"package TLV is type Tag is (Data => 1, Error => 3) with Size => 8; type Length is unsigned 16;
type Message is message Tag : Tag then Length if Tag = Data then null if Tag = Error; Length : Length; Value : Opaque with Size => Length * 8; end message; end TLV;";

// The input, the status, and what is written.
const CASES: [(&[u8], Status, &[u8]); 14] = [
    (
        b"{\"Tag\":\"Data\",\"Length\":2,\"Value\":\"0A0b\"}",
        Status::Done,
        b"\x01\0\x02\x0a\x0b",
    ),
    (b"{\"tag\":3}\n", Status::Done, b"\x03"),
    (
        b"{\"Length\":0,\"Tag\":\"Data\",\"Value\":\"\"}",
        Status::Done,
        b"\x01\0\0",
    ),
    (b"{\"Tag\":", Status::InputRefused, b"refused: 30 NotJson\n"),
    (b"[1]", Status::InputRefused, b"refused: 31 NotObject\n"),
    (
        b"{\"Extra\":1,\"Tag\":3}",
        Status::InputRefused,
        b"refused: 32 UnknownField \"Extra\"\n",
    ),
    (
        b"{\"Tag\":3,\"tag\":3}",
        Status::InputRefused,
        b"refused: 34 Duplicate \"tag\"\n",
    ),
    (
        b"{\"Tag\":3.0}",
        Status::InputRefused,
        b"refused: 33 BadValue \"Tag\"\n",
    ),
    (
        b"{\"Tag\":2}",
        Status::InputRefused,
        b"refused: 33 BadValue \"Tag\"\n",
    ),
    (
        b"{\"Length\":1,\"Tag\":1}",
        Status::InputRefused,
        b"refused: 41 Unsatisfied Value Missing\n",
    ),
    (
        b"{\"Length\":1,\"Tag\":1,\"Value\":\"\"}",
        Status::InputRefused,
        b"refused: 41 Unsatisfied Value Size\n",
    ),
    (
        b"{\"Length\":0,\"Tag\":3}",
        Status::InputRefused,
        b"refused: 42 Unused Length\n",
    ),
    (
        b"{}",
        Status::InputRefused,
        b"refused: 41 Unsatisfied Tag Missing\n",
    ),
    (b"", Status::InputRefused, b"refused: 30 NotJson\n"),
];

#[test]
fn encodes_a_text_or_says_why_not(rt: HostRuntime) -> Result<(), Fail> {
    for (input, status, written) in CASES {
        let (given, bytes) = ran(rt.alloc(), "encode", "TLV::Message", "tlv", TLV, input)?;
        assert_eq!(rt; given, status);
        assert_eq!(rt; bytes.as_slice(), written);
    }
    Ok(())
}

#[test]
fn what_is_decoded_is_encoded_as_the_same_bytes(rt: HostRuntime) -> Result<(), Fail> {
    let messages: [&[u8]; 3] = [b"\x03", b"\x01\0\0", b"\x01\0\x03abc"];
    for message in messages {
        let (_, text) = ran(rt.alloc(), "decode", "TLV::Message", "tlv", TLV, message)?;
        let (status, bytes) = ran(rt.alloc(), "encode", "TLV::Message", "tlv", TLV, &text)?;
        assert_eq!(rt; status, Status::Done);
        assert_eq!(rt; bytes.as_slice(), message);
    }
    Ok(())
}

#[test]
fn an_overlay_has_the_bits_below_it(rt: HostRuntime) -> Result<(), Fail> {
    let over =
        b"package Over is type U8 is unsigned 8; type M is message A : U8; B : U8 with First => A'First; end message; end Over;";
    let (status, bytes) = ran(
        rt.alloc(),
        "encode",
        "Over::M",
        "over",
        over,
        b"{\"A\":7,\"B\":7}",
    )?;
    assert_eq!(rt; status, Status::Done);
    assert_eq!(rt; bytes.as_slice(), b"\x07".as_slice());
    let (status, text) = ran(
        rt.alloc(),
        "encode",
        "Over::M",
        "over",
        over,
        b"{\"A\":1,\"B\":2}",
    )?;
    assert_eq!(rt; status, Status::InputRefused);
    assert_eq!(rt;
        text.as_slice(),
        b"refused: 41 Unsatisfied B Overlay\n".as_slice()
    );
    Ok(())
}
