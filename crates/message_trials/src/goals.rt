//! The goals of a message, in the order in which their checks are told.
use crate::worked::{known, message_of, spec_of};
use rx_graph::Node;
use rx_layout::{Goal, goals};
use std::test::Fail;

// Bytes that may be left out: from the start to them and to null, and from them to null.
const MAYBE: &[u8] =
    b"package P is type M is message null then Data then null; Data : Opaque; end message; end P;";

#[test]
fn goals_come_by_check_and_then_by_node(rt: HostRuntime) -> Result<(), Fail> {
    let spec = spec_of(rt.alloc(), MAYBE)?;
    let message = message_of(&spec)?;
    let wanted = [
        Goal::Exclusive(Node::Start, 1, 2),
        Goal::Taken(Node::Start, 1),
        Goal::Taken(Node::Start, 2),
        Goal::Taken(Node::At(0), 1),
        Goal::Reached(0),
        Goal::Position(Node::Start, 1),
        Goal::Grid(Node::Start, 1),
        Goal::Cover(Node::Start, 1),
        Goal::Cover(Node::Start, 2),
        Goal::Cover(Node::At(0), 1),
        Goal::Whole(Node::Start, 2),
        Goal::Whole(Node::At(0), 1),
    ];
    let listed = goals(rt.alloc(), &known(&spec, message))?;
    assert_eq!(rt; listed.as_slice(), wanted.as_slice());
    Ok(())
}
