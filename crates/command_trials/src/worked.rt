//! Commands over worked formats: whole reports, but for steps, lengths and numbers, and what inputs read as.
use crate::commands::ran_with;
use rx_program::Status;
use std::alloc::Global;
use std::test::Fail;

// The lines of a report up to what a report leaves open: the steps of proofs, and the length and the numbers of a point.
fn fixed(alloc: Global, text: &[u8]) -> Result<Vec<u8>, Fail> {
    let mut lines = Vec::new(alloc);
    let mut keeps = true;
    for index in 0..text.len() {
        let rest = &text[index..];
        if rest.starts_with(b" of ") || rest.starts_with(b" length ") {
            keeps = false;
        }
        if text[index] == 10 {
            keeps = true;
        }
        if keeps {
            lines.push(text[index])?;
        }
    }
    Ok(lines)
}

// Two links of one field are both true at 10.
const EXCL: &[u8] =
    b"package Excl is type U8 is unsigned 8; type M is message A : U8 then B if A <= 10, then C if A >= 10; B : U8 then null; C : U8; end message; end Excl; ";

// A length that counts its own two bytes.
const NEG: &[u8] =
    b"package Neg is type U8 is unsigned 8; type M is message Length : U8; Value : Opaque with Size => Length * 8 - 16; end message; end Neg; ";

// A link that no numbers take, which only a search by halves tells.
const HARD: &[u8] =
    b"package Hard is type U8 is unsigned 8; type M is message A : U8; B : U8 then null if 3 * A + 5 * B = 7; end message; end Hard; ";

// A tag that decides whether a length and bytes follow.
const TLV: &[u8] =
    b"package TLV is type Tag is (Msg_Data => 1, Msg_Error => 3) with Size => 8; type Length is unsigned 16; type Message is message Tag : Tag then Length if Tag = Msg_Data then null if Tag = Msg_Error; Length : Length; Value : Opaque with Size => Length * 8; end message; end TLV; ";

// A message without fields.
const NIL: &[u8] = b"package Nil is type M is null message; end Nil; ";

// A byte, and another that lies over it.
const OVER: &[u8] =
    b"package Over is type U8 is unsigned 8; type M is message A : U8; B : U8 with First => A'First; end message; end Over; ";

// A byte that may stand between two fields.
const GAP: &[u8] =
    b"package Gap is type U8 is unsigned 8; type M is message A : U8 then B if A = 1 then C if A = 0; B : U8; C : Opaque with Size => B * 8; end message; end Gap; ";

// The frame of Ethernet, with and without a tag.
const ETHERNET: &[u8] =
    b"package Ethernet is type Address is unsigned 48; type Type_Length is range 46 .. 2 ** 16 - 1 with Size => 16; type TPID is range 16#8100# .. 16#8100# with Size => 16; type TCI is unsigned 16; type Frame is message Destination : Address; Source : Address; Type_Length_TPID : Type_Length then TPID with First => Type_Length_TPID'First if Type_Length_TPID = 16#8100# then Payload with Size => Type_Length_TPID * 8 if Type_Length_TPID <= 1500 then Payload with Size => Message'Last - Type_Length_TPID'Last if Type_Length_TPID >= 1536 and Type_Length_TPID /= 16#8100#; TPID : TPID; TCI : TCI; Type_Length : Type_Length then Payload with Size => Type_Length * 8 if Type_Length <= 1500 then Payload with Size => Message'Last - Type_Length'Last if Type_Length >= 1536; Payload : Opaque then null if Payload'Size / 8 >= 46 and Payload'Size / 8 <= 1500; end message; end Ethernet; ";

// The words, the file and the text of the package, the status, and the fixed part of the report.
const REPORTS: [(&[&str], &str, &[u8], Status, &[u8]); 11] = [
    (
        &["check", "Excl"],
        "excl",
        EXCL,
        Status::NotAccepted,
        b"Excl::M Exclusive A 1 2: Failed on 1\nExcl::M Taken - 1: Passed on -\nExcl::M Taken A 1: Passed on 1\nExcl::M Taken A 2: Passed on 1\nExcl::M Taken B 1: Passed on 1.1\nExcl::M Taken C 1: Passed on 1.2\nExcl::M Reached A: Passed on 1\nExcl::M Reached B: Passed on 1.1\nExcl::M Reached C: Passed on 1.2\nExcl::M Position - 1: Passed by 1 proofs\nExcl::M Position A 1: Passed by 1 proofs\nExcl::M Position A 2: Passed by 1 proofs\nExcl::M Cover - 1: Passed by 1 proofs\nExcl::M Cover A 1: Passed by 1 proofs\nExcl::M Cover A 2: Passed by 1 proofs\nExcl::M Cover B 1: Passed by 1 proofs\nExcl::M Cover C 1: Passed by 1 proofs\nExcl::M Whole B 1: Passed by 1 proofs\nExcl::M Whole C 1: Passed by 1 proofs\n18 passed, 1 failed, 0 undecided\n",
    ),
    (
        &["decode", "Excl::M"],
        "excl",
        EXCL,
        Status::NotAccepted,
        b"Excl::M Exclusive A 1 2: Failed on 1\nExcl::M Taken - 1: Passed on -\nExcl::M Taken A 1: Passed on 1\nExcl::M Taken A 2: Passed on 1\nExcl::M Taken B 1: Passed on 1.1\nExcl::M Taken C 1: Passed on 1.2\nExcl::M Reached A: Passed on 1\nExcl::M Reached B: Passed on 1.1\nExcl::M Reached C: Passed on 1.2\nExcl::M Position - 1: Passed by 1 proofs\nExcl::M Position A 1: Passed by 1 proofs\nExcl::M Position A 2: Passed by 1 proofs\nExcl::M Cover - 1: Passed by 1 proofs\nExcl::M Cover A 1: Passed by 1 proofs\nExcl::M Cover A 2: Passed by 1 proofs\nExcl::M Cover B 1: Passed by 1 proofs\nExcl::M Cover C 1: Passed by 1 proofs\nExcl::M Whole B 1: Passed by 1 proofs\nExcl::M Whole C 1: Passed by 1 proofs\n18 passed, 1 failed, 0 undecided\n",
    ),
    (
        &["check", "Neg"],
        "neg",
        NEG,
        Status::NotAccepted,
        b"Neg::M Taken - 1: Passed on -\nNeg::M Taken Length 1: Passed on 1\nNeg::M Taken Value 1: Passed on 1.1\nNeg::M Reached Length: Passed on 1\nNeg::M Reached Value: Passed on 1.1\nNeg::M Position - 1: Passed by 1 proofs\nNeg::M Position Length 1: Failed on 1\nNeg::M Grid Length 1: Passed by 1 proofs\nNeg::M Cover - 1: Passed by 1 proofs\nNeg::M Cover Length 1: Passed by 1 proofs\nNeg::M Cover Value 1: Passed by 1 proofs\nNeg::M Whole Value 1: Passed by 1 proofs\n11 passed, 1 failed, 0 undecided\n",
    ),
    (
        &["check", "Hard", "--splits", "254"],
        "hard",
        HARD,
        Status::Undecided,
        b"Hard::M Taken - 1: Passed on -\nHard::M Taken A 1: Passed on 1\nHard::M Taken B 1: Undecided after 254 splits\nHard::M Reached A: Passed on 1\nHard::M Reached B: Passed on 1.1\nHard::M Position - 1: Passed by 1 proofs\nHard::M Position A 1: Passed by 1 proofs\nHard::M Cover - 1: Passed by 1 proofs\nHard::M Cover A 1: Passed by 1 proofs\nHard::M Cover B 1: Passed by 1 proofs\nHard::M Whole B 1: Passed by 1 proofs\n10 passed, 0 failed, 1 undecided\n",
    ),
    (
        &["check", "Hard", "--splits", "1"],
        "hard",
        HARD,
        Status::Undecided,
        b"Hard::M Taken - 1: Passed on -\nHard::M Taken A 1: Passed on 1\nHard::M Taken B 1: Undecided after 1 splits\nHard::M Reached A: Passed on 1\nHard::M Reached B: Passed on 1.1\nHard::M Position - 1: Passed by 1 proofs\nHard::M Position A 1: Passed by 1 proofs\nHard::M Cover - 1: Passed by 1 proofs\nHard::M Cover A 1: Passed by 1 proofs\nHard::M Cover B 1: Passed by 1 proofs\nHard::M Whole B 1: Passed by 1 proofs\n10 passed, 0 failed, 1 undecided\n",
    ),
    (
        &["check", "Hard", "--splits", "255"],
        "hard",
        HARD,
        Status::NotAccepted,
        b"Hard::M Taken - 1: Passed on -\nHard::M Taken A 1: Passed on 1\nHard::M Taken B 1: Failed by 1 proofs\nHard::M Reached A: Passed on 1\nHard::M Reached B: Passed on 1.1\nHard::M Position - 1: Passed by 1 proofs\nHard::M Position A 1: Passed by 1 proofs\nHard::M Cover - 1: Passed by 1 proofs\nHard::M Cover A 1: Passed by 1 proofs\nHard::M Cover B 1: Passed by 1 proofs\nHard::M Whole B 1: Passed by 1 proofs\n10 passed, 1 failed, 0 undecided\n",
    ),
    (
        &["check", "Hard"],
        "hard",
        HARD,
        Status::NotAccepted,
        b"Hard::M Taken - 1: Passed on -\nHard::M Taken A 1: Passed on 1\nHard::M Taken B 1: Failed by 1 proofs\nHard::M Reached A: Passed on 1\nHard::M Reached B: Passed on 1.1\nHard::M Position - 1: Passed by 1 proofs\nHard::M Position A 1: Passed by 1 proofs\nHard::M Cover - 1: Passed by 1 proofs\nHard::M Cover A 1: Passed by 1 proofs\nHard::M Cover B 1: Passed by 1 proofs\nHard::M Whole B 1: Passed by 1 proofs\n10 passed, 1 failed, 0 undecided\n",
    ),
    (
        &["check", "TLV"],
        "tlv",
        TLV,
        Status::Done,
        b"TLV::Message Exclusive Tag 1 2: Passed by 1 proofs\nTLV::Message Taken - 1: Passed on -\nTLV::Message Taken Tag 1: Passed on 1\nTLV::Message Taken Tag 2: Passed on 1\nTLV::Message Taken Length 1: Passed on 1.1\nTLV::Message Taken Value 1: Passed on 1.1.1\nTLV::Message Reached Tag: Passed on 1\nTLV::Message Reached Length: Passed on 1.1\nTLV::Message Reached Value: Passed on 1.1.1\nTLV::Message Position - 1: Passed by 1 proofs\nTLV::Message Position Tag 1: Passed by 1 proofs\nTLV::Message Position Length 1: Passed by 1 proofs\nTLV::Message Grid Length 1: Passed by 1 proofs\nTLV::Message Cover - 1: Passed by 1 proofs\nTLV::Message Cover Tag 1: Passed by 1 proofs\nTLV::Message Cover Tag 2: Passed by 1 proofs\nTLV::Message Cover Length 1: Passed by 1 proofs\nTLV::Message Cover Value 1: Passed by 1 proofs\nTLV::Message Whole Tag 2: Passed by 1 proofs\nTLV::Message Whole Value 1: Passed by 1 proofs\n20 passed, 0 failed, 0 undecided\n",
    ),
    (
        &["check", "Nil"],
        "nil",
        NIL,
        Status::Done,
        b"Nil::M Taken - 1: Passed on -\nNil::M Cover - 1: Passed by 1 proofs\nNil::M Whole - 1: Passed by 1 proofs\n3 passed, 0 failed, 0 undecided\n",
    ),
    (
        &["check", "Over"],
        "over",
        OVER,
        Status::Done,
        b"Over::M Taken - 1: Passed on -\nOver::M Taken A 1: Passed on 1\nOver::M Taken B 1: Passed on 1.1\nOver::M Reached A: Passed on 1\nOver::M Reached B: Passed on 1.1\nOver::M Position - 1: Passed by 1 proofs\nOver::M Position A 1: Passed by 1 proofs\nOver::M Overlay A 1: Passed by 1 proofs\nOver::M Cover - 1: Passed by 1 proofs\nOver::M Cover A 1: Passed by 1 proofs\nOver::M Cover B 1: Passed by 1 proofs\nOver::M Whole B 1: Passed by 1 proofs\n12 passed, 0 failed, 0 undecided\n",
    ),
    (
        &["check", "Gap"],
        "gap",
        GAP,
        Status::Done,
        b"Gap::M Exclusive A 1 2: Passed by 1 proofs\nGap::M Taken - 1: Passed on -\nGap::M Taken A 1: Passed on 1\nGap::M Taken A 2: Passed on 1\nGap::M Taken B 1: Passed on 1.1\nGap::M Taken C 1: Passed on 1.1.1\nGap::M Reached A: Passed on 1\nGap::M Reached B: Passed on 1.1\nGap::M Reached C: Passed on 1.1.1\nGap::M Position - 1: Passed by 1 proofs\nGap::M Position A 1: Passed by 1 proofs\nGap::M Position A 2: Passed by 1 proofs\nGap::M Position B 1: Passed by 1 proofs\nGap::M Grid A 2: Passed by 1 proofs\nGap::M Grid B 1: Passed by 1 proofs\nGap::M Cover - 1: Passed by 1 proofs\nGap::M Cover A 1: Passed by 1 proofs\nGap::M Cover A 2: Passed by 1 proofs\nGap::M Cover B 1: Passed by 1 proofs\nGap::M Cover C 1: Passed by 2 proofs\nGap::M Whole C 1: Passed by 2 proofs\n21 passed, 0 failed, 0 undecided\n",
    ),
];

#[test]
fn reports_are_those_of_the_worked_formats(rt: HostRuntime) -> Result<(), Fail> {
    for (words, file, text, status, report) in REPORTS {
        let (given, written) = ran_with(rt.alloc(), words, file, text, b"")?;
        assert_eq!(rt; given, status);
        assert_eq!(rt; fixed(rt.alloc(), &written)?.as_slice(), report);
    }
    Ok(())
}

// The words, the file and the text of the package, the input, the status, and what is written.
const INPUTS: [(&[&str], &str, &[u8], &[u8], Status, &[u8]); 9] = [
    (
        &["decode", "Nil::M"],
        "nil",
        NIL,
        b"",
        Status::Done,
        b"{}\n",
    ),
    (
        &["decode", "Nil::M"],
        "nil",
        NIL,
        b"\x00",
        Status::InputRefused,
        b"refused: Trailing\n",
    ),
    (
        &["decode", "Over::M"],
        "over",
        OVER,
        b"\x07",
        Status::Done,
        b"{\"A\":7,\"B\":7}\n",
    ),
    (
        &["decode", "Gap::M"],
        "gap",
        GAP,
        b"\x00",
        Status::Done,
        b"{\"A\":0,\"C\":\"\"}\n",
    ),
    (
        &["decode", "Gap::M"],
        "gap",
        GAP,
        b"\x01\x02\n\x0b",
        Status::Done,
        b"{\"A\":1,\"B\":2,\"C\":\"0a0b\"}\n",
    ),
    (
        &["decode", "Gap::M"],
        "gap",
        GAP,
        b"\x00\n",
        Status::InputRefused,
        b"refused: Trailing C\n",
    ),
    (
        &["decode", "Ethernet::Frame"],
        "ethernet",
        ETHERNET,
        b"\xff\xff\xff\xff\xff\xff\x00\x00\x00\x00\x00\x01\x08\x00\x00\x00\x00\x00\x00\x00\x00\x00\x00\x00\x00\x00\x00\x00\x00\x00\x00\x00\x00\x00\x00\x00\x00\x00\x00\x00\x00\x00\x00\x00\x00\x00\x00\x00\x00\x00\x00\x00\x00\x00\x00\x00\x00\x00\x00\x00",
        Status::Done,
        b"{\"Destination\":281474976710655,\"Payload\":\"00000000000000000000000000000000000000000000000000000000000000000000000000000000000000000000\",\"Source\":1,\"Type_Length_TPID\":2048}\n",
    ),
    (
        &["decode", "Ethernet::Frame"],
        "ethernet",
        ETHERNET,
        b"\xff\xff\xff\xff\xff\xff\x00\x00\x00\x00\x00\x01\x08\x00\x00\x00\x00\x00\x00\x00\x00\x00\x00\x00\x00\x00\x00\x00\x00\x00\x00\x00\x00\x00\x00\x00\x00\x00\x00\x00\x00\x00\x00\x00\x00\x00\x00\x00\x00\x00\x00\x00\x00\x00\x00\x00\x00\x00\x00",
        Status::InputRefused,
        b"refused: Condition Payload\n",
    ),
    (
        &["decode", "Ethernet::Frame"],
        "ethernet",
        ETHERNET,
        b"\xff\xff\xff\xff\xff\xff\x00\x00\x00\x00\x00\x01\x81\x00\x00\x01\x08\x00\x00\x00\x00\x00\x00\x00\x00\x00\x00\x00\x00\x00\x00\x00\x00\x00\x00\x00\x00\x00\x00\x00\x00\x00\x00\x00\x00\x00\x00\x00\x00\x00\x00\x00\x00\x00\x00\x00\x00\x00\x00\x00\x00\x00\x00\x00",
        Status::Done,
        b"{\"Destination\":281474976710655,\"Payload\":\"00000000000000000000000000000000000000000000000000000000000000000000000000000000000000000000\",\"Source\":1,\"TCI\":1,\"TPID\":33024,\"Type_Length\":2048,\"Type_Length_TPID\":33024}\n",
    ),
];

#[test]
fn inputs_read_as_those_of_the_worked_formats(rt: HostRuntime) -> Result<(), Fail> {
    for (words, file, text, input, status, output) in INPUTS {
        let (given, written) = ran_with(rt.alloc(), words, file, text, input)?;
        assert_eq!(rt; given, status);
        assert_eq!(rt; written.as_slice(), output);
    }
    Ok(())
}
