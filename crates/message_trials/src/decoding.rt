//! What buffers are of a message: JSON, or the reason and the field where the longest path stops.
use crate::worked::{known, message_of, plan_of, spec_of};
use rx_decode::{Decoded, decode};
use rx_types::{Reason, Stuck};
use std::alloc::Global;
use std::test::Fail;

// A kind that has to be On, a length, and so many bytes: fields 0, 1 and 2.
const BOX: &[u8] = b"package P is type Kind is (Off, On) with Size => 8; type Len is unsigned 16;
type M is message Kind : Kind then Len if Kind = On; Len : Len; Data : Opaque with Size => Len * 8; end message with Byte_Order => Low_Order_First; end P;";

// What a buffer is of the message.
fn answer(alloc: Global, bytes: &[u8]) -> Result<Decoded, Fail> {
    if bytes.len() >= 1 << 24 {
        return Err(Fail::new("the buffer is too long"));
    }
    let spec = spec_of(alloc, BOX)?;
    let message = message_of(&spec)?;
    let plan = plan_of(alloc, &spec, message)?;
    let decoded = decode(alloc, &known(&spec, message), &plan, bytes)?;
    Ok(decoded)
}

#[test]
fn a_buffer_that_a_path_fits_is_told_as_json(rt: HostRuntime) -> Result<(), Fail> {
    let cases: [(&[u8], &[u8]); 2] = [
        (
            b"\x01\x02\0\x0a\x0b",
            b"{\"Data\":\"0a0b\",\"Kind\":\"On\",\"Len\":2}",
        ),
        (b"\x01\0\0", b"{\"Data\":\"\",\"Kind\":\"On\",\"Len\":0}"),
    ];
    for (bytes, text) in cases {
        let Decoded::Json(json) = answer(rt.alloc(), bytes)? else {
            return Err(Fail::new("it is refused"));
        };
        assert_eq!(rt; json.as_slice(), text);
    }
    Ok(())
}

#[test]
fn another_buffer_is_told_by_its_reason_and_field(rt: HostRuntime) -> Result<(), Fail> {
    let cases: [(&[u8], Reason, u16); 5] = [
        (b"\0\x02\0\x0a\x0b", Reason::Condition, 0),
        (b"\x01\x01\0\x0a\x0b", Reason::Trailing, 2),
        (b"\x01\0\x02\x0a\x0b", Reason::Short, 2),
        (b"\x01\0", Reason::Short, 1),
        (b"\x02\0\0", Reason::Value, 0),
    ];
    for (bytes, reason, field) in cases {
        let Decoded::Refused(stuck) = answer(rt.alloc(), bytes)? else {
            return Err(Fail::new("it is read"));
        };
        assert_eq!(rt; stuck.reason, reason);
        assert_eq!(rt; stuck.field, Some(field));
    }
    Ok(())
}
