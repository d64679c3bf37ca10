//! Puts that are refused and puts that are done, and drafts that are sealed.
use crate::puts::{Given, Step, all_end_as_told, told};
use crate::worked::{OVER, TLV, planned};
use rx_context::{Opened, Verified};
use rx_draft::{Draft, PutFault};
use rx_types::FieldId;
use std::test::Fail;

// Steps of a message of four bytes.
const SHORT: [Step; 6] = [
    (Given::Number(1, 2), Some(PutFault::NotNext)),
    (Given::Number(0, 2), Some(PutFault::Value)),
    (Given::Number(0, 1), None),
    (Given::Number(1, 2), None),
    (Given::Bytes(2, b"\x0a"), Some(PutFault::Size)),
    (Given::Bytes(2, b"\x0a\x0b"), Some(PutFault::Short)),
];

// The buffer behind each of these steps.
const BEHIND: [&[u8]; 6] = [
    b".....",
    b".....",
    b"\x01....",
    b"\x01\0\x02..",
    b"\x01\0\x02..",
    b"\x01\0\x02..",
];

#[test]
fn a_refused_put_changes_nothing(rt: HostRuntime) -> Result<(), Fail> {
    let plan = planned(rt.alloc(), TLV)?;
    for count in 0..SHORT.len() {
        let mut buffer = *b".....";
        let mut draft = Draft::over(&mut buffer, &plan, 4);
        assert!(rt; all_end_as_told(&plan, &mut draft, &SHORT[..count + 1])?);
        assert_eq!(rt; &*draft.give_back(), BEHIND[count]);
    }
    Ok(())
}

#[test]
fn a_number_that_does_not_lie_in_the_message_is_refused(rt: HostRuntime) -> Result<(), Fail> {
    let steps: [Step; 2] = [
        (Given::Number(0, 1), None),
        (Given::Number(1, 2), Some(PutFault::Short)),
    ];
    let plan = planned(rt.alloc(), TLV)?;
    let mut buffer = *b"...";
    let mut draft = Draft::over(&mut buffer, &plan, 2);
    assert!(rt; all_end_as_told(&plan, &mut draft, &steps)?);
    assert_eq!(rt; &*draft.give_back(), b"\x01..".as_slice());
    Ok(())
}

// The number of a scalar and the bytes of another field, if they are present.
fn read<'b>(verified: &Verified<'b>, scalar: FieldId, other: FieldId) -> Option<(u64, &'b [u8])> {
    if verified.present(scalar) && verified.present(other) {
        Some((verified.number(scalar), verified.bytes(other)))
    } else {
        None
    }
}

// Steps that fill a message of five bytes, with a refusal before each.
const FILLED: [Step; 7] = [
    (Given::Bytes(2, b""), Some(PutFault::NotNext)),
    (Given::Number(0, 256), Some(PutFault::Value)),
    (Given::Number(0, 1), None),
    (Given::Number(1, 65_536), Some(PutFault::Value)),
    (Given::Number(1, 2), None),
    (Given::Bytes(2, b"\x0a\x0b\x0c"), Some(PutFault::Size)),
    (Given::Bytes(2, b"\x0a\x0b"), None),
];

#[test]
fn a_draft_that_was_refused_is_filled_and_sealed(rt: HostRuntime) -> Result<(), Fail> {
    let plan = planned(rt.alloc(), TLV)?;
    let mut buffer = *b".......";
    let mut draft = Draft::over(&mut buffer, &plan, 5);
    assert!(rt; told(&draft) == (None, Some(0), false));
    assert!(rt; all_end_as_told(&plan, &mut draft, &FILLED)?);
    assert!(rt; told(&draft) == (Some(2), None, true));
    let Ok(sealed) = draft.seal() else {
        return Err(Fail::new("it is not sealed"));
    };
    let wanted = Some((2, b"\x0a\x0b".as_slice()));
    assert_eq!(rt; sealed.whole(), b"\x01\0\x02\x0a\x0b".as_slice());
    assert!(rt; read(&sealed.verified(), 1, 2) == wanted);
    let Ok(verified) = Opened::over(sealed.whole(), &plan).verify() else {
        return Err(Fail::new("it is not read"));
    };
    assert!(rt; read(&verified, 1, 2) == wanted);
    assert_eq!(rt; &*sealed.give_back(), b"\x01\0\x02\x0a\x0b..".as_slice());
    Ok(())
}

#[test]
fn an_overlay_is_compared_and_not_written(rt: HostRuntime) -> Result<(), Fail> {
    let steps: [Step; 3] = [
        (Given::Number(0, 1), None),
        (Given::Number(1, 2), Some(PutFault::Overlay)),
        (Given::Number(1, 1), None),
    ];
    let plan = planned(rt.alloc(), OVER)?;
    let mut buffer = *b"..";
    let mut draft = Draft::over(&mut buffer, &plan, 1);
    assert!(rt; all_end_as_told(&plan, &mut draft, &steps)?);
    let Ok(sealed) = draft.seal() else {
        return Err(Fail::new("it is not sealed"));
    };
    assert_eq!(rt; sealed.whole(), b"\x01".as_slice());
    assert_eq!(rt; &*sealed.give_back(), b"\x01.".as_slice());
    Ok(())
}

// The steps before a seal of three bytes, and what the draft tells that comes back.
const UNSEALED: [(&[Step], (Option<FieldId>, Option<FieldId>, bool)); 3] = [
    (&[], (None, Some(0), false)),
    (
        &[(Given::Number(0, 1), None), (Given::Number(1, 0), None)],
        (Some(1), Some(2), false),
    ),
    (&[(Given::Number(0, 3), None)], (Some(0), None, true)),
];

#[test]
fn a_seal_before_the_end_gives_the_draft_again(rt: HostRuntime) -> Result<(), Fail> {
    let plan = planned(rt.alloc(), TLV)?;
    for (steps, tells) in UNSEALED {
        let mut buffer = *b"....";
        let mut draft = Draft::over(&mut buffer, &plan, 3);
        assert!(rt; all_end_as_told(&plan, &mut draft, steps)?);
        let Err(draft) = draft.seal() else {
            return Err(Fail::new("it is sealed"));
        };
        assert_eq!(rt; told(&draft), tells);
    }
    Ok(())
}
