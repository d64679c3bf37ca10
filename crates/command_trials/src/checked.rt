//! A format for each check that fails it, and formats that pass all checks.
use crate::commands::ran;
use rx_program::Status;
use std::test::Fail;

// Whether some line of the text begins so.
fn has_line(text: &[u8], front: &[u8]) -> bool {
    for start in 0..text.len() {
        let begins = start == 0 || text[start - 1] == 10;
        if begins && text[start..].starts_with(front) {
            return true;
        }
    }
    false
}

// The name and the text of a package P, the front of the line of the check that fails, and the last line.
const FAULTS: [(&[u8], &[u8], &[u8]); 8] = [
    (
        b"package P is type U is unsigned 8; type M is message A : U then B if A <= 10 then C if A >= 10; B : U then null; C : U; end message; end P;",
        b"P::M Exclusive A 1 2: Failed on 1 length ",
        b"18 passed, 1 failed, 0 undecided\n",
    ),
    (
        b"package P is type U is unsigned 8; type M is message A : U then B if A <= 200 then null if A > 255; B : U; end message; end P;",
        b"P::M Taken A 2: Failed by 1 proofs of ",
        b"14 passed, 1 failed, 0 undecided\n",
    ),
    (
        b"package P is type U is unsigned 8; type M is message A : U then null then B if A = 0 and A = 1; B : U; end message; end P;",
        b"P::M Reached B: Failed by 1 proofs of ",
        b"12 passed, 3 failed, 0 undecided\n",
    ),
    (
        b"package P is type U is unsigned 8; type M is message A : U; B : Opaque with Size => A * 8 - 16; end message; end P;",
        b"P::M Position A 1: Failed on 1 length ",
        b"11 passed, 1 failed, 0 undecided\n",
    ),
    (
        b"package P is type U is unsigned 8; type M is message A : U; B : Opaque with Size => A; C : Opaque; end message; end P;",
        b"P::M Grid A 1: Failed on 1 length ",
        b"15 passed, 2 failed, 0 undecided\n",
    ),
    (
        b"package P is type U is unsigned 8; type V is unsigned 16; type M is message A : U; B : V with First => A'First; end message; end P;",
        b"P::M Overlay A 1: Failed on 1 length ",
        b"11 passed, 1 failed, 0 undecided\n",
    ),
    (
        b"package P is type U is unsigned 8; type M is message A : U; B : U with First => A'Last + 9; end message; end P;",
        b"P::M Cover A 1: Failed on 1 length ",
        b"10 passed, 1 failed, 0 undecided\n",
    ),
    (
        b"package P is type U is unsigned 4; type M is message A : U; end message; end P;",
        b"P::M Whole A 1: Failed on 1 length ",
        b"6 passed, 1 failed, 0 undecided\n",
    ),
];

#[test]
fn each_check_fails_where_a_format_breaks_it(rt: HostRuntime) -> Result<(), Fail> {
    for (text, front, last) in FAULTS {
        let (status, written) = ran(rt.alloc(), "check", "P", "p", text, b"")?;
        assert_eq!(rt; status, Status::NotAccepted);
        assert!(rt; has_line(&written, front));
        assert!(rt; written.ends_with(last));
    }
    Ok(())
}

#[test]
fn a_message_that_fails_a_check_is_not_decoded(rt: HostRuntime) -> Result<(), Fail> {
    for (text, front, last) in FAULTS {
        let (status, written) = ran(rt.alloc(), "decode", "P::M", "p", text, b"\0\0")?;
        assert_eq!(rt; status, Status::NotAccepted);
        assert!(rt; has_line(&written, front));
        assert!(rt; written.ends_with(last));
    }
    Ok(())
}

/// A tag that decides whether a length and bytes follow.
pub const TLV: &[u8] =
    b"package TLV is type Tag is (Data => 1, Error => 3) with Size => 8; type Length is unsigned 16;
type Message is message Tag : Tag then Length if Tag = Data then null if Tag = Error; Length : Length; Value : Opaque with Size => Length * 8; end message; end TLV;";

#[test]
fn decodes_a_message_that_branches(rt: HostRuntime) -> Result<(), Fail> {
    // input, status, what is written
    let cases: [(&[u8], Status, &[u8]); 5] = [
        (
            b"\x01\0\x02\x0a\x0b",
            Status::Done,
            b"{\"Length\":2,\"Tag\":\"Data\",\"Value\":\"0a0b\"}\n",
        ),
        (b"\x03", Status::Done, b"{\"Tag\":\"Error\"}\n"),
        (b"\x03\0", Status::InputRefused, b"refused: Trailing Tag\n"),
        (b"\x02", Status::InputRefused, b"refused: Value Tag\n"),
        (
            b"\x01\0\x02\x0a",
            Status::InputRefused,
            b"refused: Short Value\n",
        ),
    ];
    let (status, report) = ran(rt.alloc(), "check", "TLV", "tlv", TLV, b"")?;
    assert_eq!(rt; status, Status::Done);
    assert!(rt; report.ends_with(b"20 passed, 0 failed, 0 undecided\n"));
    for (input, status, text) in cases {
        let (given, written) = ran(rt.alloc(), "decode", "TLV::Message", "tlv", TLV, input)?;
        assert_eq!(rt; given, status);
        assert_eq!(rt; written.as_slice(), text);
    }
    Ok(())
}

#[test]
fn what_no_number_meets_fails_by_proofs(rt: HostRuntime) -> Result<(), Fail> {
    let text =
        b"package Hard is type U is unsigned 8; type M is message A : U; B : U then null if 3 * A + 5 * B = 7; end message; end Hard;";
    let (status, written) = ran(rt.alloc(), "check", "Hard", "hard", text, b"")?;
    assert_eq!(rt; status, Status::NotAccepted);
    assert!(rt; has_line(&written, b"Hard::M Taken B 1: Failed by 1 proofs of "));
    Ok(())
}
