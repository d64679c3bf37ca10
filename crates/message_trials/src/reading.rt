//! Buffers that are read by a plan: where their fields lie, and why others are refused.
use crate::worked::planned;
use rx_context::{Opened, Plan, Verified};
use rx_types::{FieldId, Reason, Stuck};
use std::test::Fail;

// A byte, and the rest: fields 0 and 1.
const HEADED: &[u8] =
    b"package P is type U is unsigned 8; type M is message Head : U; Rest : Opaque; end message; end P;";

// The buffer that was read.
fn read<'b>(opened: Opened<'b>) -> Result<Verified<'b>, Fail> {
    match opened.verify() {
        Ok(verified) => Ok(verified),
        Err(_) => Err(Fail::new("it is not read")),
    }
}

// Where the field lies, if it is present.
fn place(verified: &Verified<'_>, field: FieldId) -> Option<(u32, u32)> {
    if verified.present(field) {
        Some(verified.place(field))
    } else {
        None
    }
}

// The number of a scalar, if it is present.
fn number(verified: &Verified<'_>, field: FieldId) -> Option<u64> {
    if verified.present(field) {
        Some(verified.number(field))
    } else {
        None
    }
}

#[test]
fn fields_lie_where_they_are_read(rt: HostRuntime) -> Result<(), Fail> {
    let plan = planned(rt.alloc(), HEADED)?;
    let buffer = [0x2a, 0x0b, 0x0c];
    let verified = read(Opened::over(&buffer, &plan))?;
    assert_eq!(rt; number(&verified, 0), Some(42));
    assert_eq!(rt; place(&verified, 0), Some((0, 8)));
    assert_eq!(rt; place(&verified, 1), Some((8, 16)));
    assert_eq!(rt; place(&verified, 2), None, "no such field");
    assert_eq!(rt; verified.whole(), buffer.as_slice());
    Ok(())
}

// The bytes of a field, to be read by a plan, if it is present.
fn inner<'b>(verified: &Verified<'b>, field: FieldId, plan: &'b Plan) -> Option<Opened<'b>> {
    if verified.present(field) {
        Some(verified.inner(field, plan))
    } else {
        None
    }
}

#[test]
fn a_field_is_read_by_another_plan(rt: HostRuntime) -> Result<(), Fail> {
    let plan = planned(rt.alloc(), HEADED)?;
    let verified = read(Opened::over(&[0x2a, 0x0b, 0x0c], &plan))?;
    let Some(opened) = inner(&verified, 1, &plan) else {
        return Err(Fail::new("the field is not present"));
    };
    let inside = read(opened)?;
    assert_eq!(rt; number(&inside, 0), Some(0x0b));
    assert_eq!(rt; inside.whole(), [0x0b, 0x0c].as_slice());
    Ok(())
}

#[test]
fn a_buffer_that_is_not_read_is_given_back(rt: HostRuntime) -> Result<(), Fail> {
    let plan = planned(rt.alloc(), HEADED)?;
    let Err(refused) = Opened::over(&[], &plan).verify() else {
        return Err(Fail::new("it is read"));
    };
    let short = Stuck {
        reason: Reason::Short,
        field: Some(0),
    };
    assert_eq!(rt; refused.stuck, short);
    assert!(rt; refused.context.verify().is_err());
    Ok(())
}
