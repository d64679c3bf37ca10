//! Valuations of JSON texts that are written, or why they are not.
ghost use Rattle.rx_graph.specs.Graph.{domains_of, graph_of};
ghost use Rattle.rx_draft.specs.Drafts.{StandsForSound, IsSoundPlan};
ghost use Rattle.rx_forms.specs.PathLimit.{MayBeChecked};
ghost use Rattle.rx_serial.specs.Rooms.{HaveKinds, IsAtMost};

use crate::worked::{OVER, TLV, message_of, plan_of, spec_of};
use rx_context::Plan;
use rx_graph::{Message, Spec};
use rx_serial::{UnfitReason, WriteFault, is_within, room, write};
use rx_values::{Valuation, from_json};
use std::alloc::Global;
use std::test::Fail;

/// How many bytes the message needs, and how many were written, or why none were.
type Outcome = (usize, Result<usize, WriteFault>);

// What is written of a valuation.
fn written_by(plan: &Plan, valuation: &Valuation, buffer: &mut [u8]) -> Outcome
    requires sound { IsSoundPlan plan.now }
    requires kinds { HaveKinds plan.now valuation.now }
    requires short { IsAtMost plan.now valuation.now 16777215 }
{
    let needed = room(plan, valuation);
    match write(plan, valuation, buffer) {
        Ok(sealed) => (needed, Ok(sealed.whole().len())),
        Err(unfit) => (needed, Err(unfit.why)),
    }
}

// What is written of a text, by the message's plan.
fn written_of(
    alloc: Global,
    spec: &Spec,
    message: &Message,
    plan: &Plan,
    json: &[u8],
    buffer: &mut [u8],
) -> Result<Outcome, Fail>
    requires message { MayBeChecked (domains_of spec.now) (graph_of message.now) }
    requires stands { StandsForSound (domains_of spec.now) (graph_of message.now) plan.now }
{
    let Ok(valuation) = from_json(alloc, message, spec, json) else {
        return Err(Fail::new("the text is no valuation"));
    };
    if is_within(plan, &valuation, 16_777_215) {
        Ok(written_by(plan, &valuation, buffer))
    } else {
        Err(Fail::new("the message is too long"))
    }
}

// What is written of a text, by the first message of a package.
fn written(alloc: Global, text: &[u8], json: &[u8], buffer: &mut [u8]) -> Result<Outcome, Fail> {
    let spec = spec_of(alloc, text)?;
    let message = message_of(&spec)?;
    let plan = plan_of(alloc, &spec, message)?;
    written_of(alloc, &spec, message, &plan, json, buffer)
}

#[test]
fn a_valuation_is_written_at_the_front(rt: HostRuntime) -> Result<(), Fail> {
    // the package, the values, and a buffer of eight bytes behind
    let cases: [(&[u8], &[u8], usize, &[u8]); 4] = [
        (
            TLV,
            b"{\"Tag\":1,\"Length\":2,\"Value\":\"0a0b\"}",
            5,
            b"\x01\0\x02\x0a\x0b...",
        ),
        (
            TLV,
            b"{\"Tag\":1,\"Length\":0,\"Value\":\"\"}",
            3,
            b"\x01\0\0.....",
        ),
        (TLV, b"{\"Tag\":3}", 1, b"\x03......."),
        (OVER, b"{\"A\":7,\"B\":7}", 1, b"\x07......."),
    ];
    for (text, json, total, wanted) in cases {
        let mut buffer = *b"........";
        let outcome = written(rt.alloc(), text, json, &mut buffer)?;
        assert_eq!(rt; outcome, (total, Ok(total)));
        assert_eq!(rt; buffer.as_slice(), wanted);
    }
    Ok(())
}

// A byte behind which no link is taken but at 1.
const ONE: &[u8] =
    b"package One is type U8 is unsigned 8; type M is message A : U8 then null if A = 1; end message; end One;";

// The package, the values, how many bytes they need, why they are not written into four bytes, and from where on those stay.
const UNFIT: [(&[u8], &[u8], usize, WriteFault, usize); 7] = [
    (
        TLV,
        b"{\"Tag\":1,\"Length\":2,\"Value\":\"0a0b\"}",
        5,
        WriteFault::NoRoom(5, 4),
        0,
    ),
    (
        TLV,
        b"{}",
        0,
        WriteFault::Unsatisfied(Some(0), UnfitReason::Missing),
        0,
    ),
    (
        TLV,
        b"{\"Tag\":1,\"Length\":1}",
        3,
        WriteFault::Unsatisfied(Some(2), UnfitReason::Missing),
        3,
    ),
    (
        TLV,
        b"{\"Tag\":1,\"Length\":1,\"Value\":\"\"}",
        3,
        WriteFault::Unsatisfied(Some(2), UnfitReason::Size),
        3,
    ),
    (
        OVER,
        b"{\"A\":1,\"B\":2}",
        1,
        WriteFault::Unsatisfied(Some(1), UnfitReason::Overlay),
        1,
    ),
    (
        ONE,
        b"{\"A\":2}",
        1,
        WriteFault::Unsatisfied(Some(0), UnfitReason::Condition),
        1,
    ),
    (
        TLV,
        b"{\"Tag\":3,\"Length\":0}",
        3,
        WriteFault::Unused(1),
        3,
    ),
];

#[test]
fn what_is_not_written_is_told(rt: HostRuntime) -> Result<(), Fail> {
    for (text, json, needed, why, kept) in UNFIT {
        let mut buffer = *b"....";
        let outcome = written(rt.alloc(), text, json, &mut buffer)?;
        assert_eq!(rt; outcome, (needed, Err(why)));
        assert!(rt; buffer.iter().skip(kept).all(|byte| *byte == b'.'));
    }
    Ok(())
}
