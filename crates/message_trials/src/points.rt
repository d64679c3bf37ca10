//! Points of checks: of those that fail, and of those that one point lets pass.
use crate::shown::shows;
use crate::worked::{TLV, message_of, spec_of};
use rx_checks::{Evidence, Report, Verdict, check};
use rx_graph::{Message, Node, Spec};
use rx_layout::Goal;
use std::test::Fail;

// Packages whose message breaks a check on some path, and that check.
const BROKEN: [(&[u8], Goal); 6] = [
    (
        b"package P is type U is unsigned 8; type M is message A : U then B if A <= 10 then C if A >= 10; B : U then null; C : U; end message; end P;",
        Goal::Exclusive(Node::At(0), 1, 2),
    ),
    (
        b"package P is type U is unsigned 8; type M is message A : U; B : Opaque with Size => A * 8 - 16; end message; end P;",
        Goal::Position(Node::At(0), 1),
    ),
    (
        b"package P is type U is unsigned 8; type M is message A : U; B : Opaque with Size => A * 4; C : Opaque; end message; end P;",
        Goal::Grid(Node::At(0), 1),
    ),
    (
        b"package P is type U is unsigned 8; type V is unsigned 16; type M is message A : U; B : V with First => A'First; C : Opaque; end message; end P;",
        Goal::Overlay(Node::At(0), 1),
    ),
    (
        b"package P is type U is unsigned 8; type M is message A : U; B : U with First => A'Last + 9; end message; end P;",
        Goal::Cover(Node::At(0), 1),
    ),
    (
        b"package P is type U is unsigned 4; type M is message A : U; end message; end P;",
        Goal::Whole(Node::At(0), 1),
    ),
];

// Packages whose message has no path that meets a check, this check, and the links of the one path to its node.
const DEAD: [(&[u8], Goal, &[u16]); 2] = [
    (
        b"package P is type U is unsigned 8; type M is message A : U then B if A <= 200 then null if A > 200 then null if A > 255; B : U; end message; end P;",
        Goal::Taken(Node::At(0), 3),
        &[0],
    ),
    (
        b"package P is type U is unsigned 8; type M is message A : U then B if A = 0 and A = 1 then null if A >= 0; B : U; end message; end P;",
        Goal::Reached(1),
        &[0, 1],
    ),
];

// What shows that a check fails, if it does.
fn fault(report: &Report, goal: Goal) -> Option<&Evidence> {
    for line in report.lines.as_slice() {
        if line.goal == goal {
            return match &line.verdict {
                Verdict::Failed(evidence) => Some(evidence),
                _ => None,
            };
        }
    }
    None
}

// Whether this is a point that meets the goal.
fn is_met_by(message: &Message, spec: &Spec, goal: Goal, evidence: &Evidence) -> bool {
    match evidence {
        Evidence::Found {
            path,
            length,
            numbers,
        } => shows(
            message,
            spec,
            &goal,
            path.links(),
            *length,
            numbers.as_slice(),
        ),
        Evidence::Proofs(_) => false,
    }
}

#[test]
fn a_check_that_fails_on_a_path_is_broken_by_its_point(rt: HostRuntime) -> Result<(), Fail> {
    for (text, goal) in BROKEN {
        let spec = spec_of(rt.alloc(), text)?;
        let message = message_of(&spec)?;
        let report = check(rt.alloc(), message, &spec, 1024)?;
        let Some(evidence) = fault(&report, goal) else {
            return Err(Fail::new("the check does not fail"));
        };
        assert!(rt; is_met_by(message, &spec, goal, evidence));
    }
    Ok(())
}

// Whether each line that is passed by a point has one that meets its goal, and how many there are.
fn met(message: &Message, spec: &Spec, report: &Report) -> (bool, usize) {
    let mut count = 0;
    for line in report.lines.as_slice() {
        if let Verdict::Passed(evidence) = &line.verdict {
            if let Evidence::Found { .. } = evidence {
                if !is_met_by(message, spec, line.goal, evidence) {
                    return (false, count);
                }
                count = count.saturating_add(1);
            }
        }
    }
    (true, count)
}

#[test]
fn what_passes_by_a_point_is_met_by_it(rt: HostRuntime) -> Result<(), Fail> {
    let spec = spec_of(rt.alloc(), TLV)?;
    let message = message_of(&spec)?;
    let report = check(rt.alloc(), message, &spec, 1024)?;
    // five links are taken, three fields reached
    assert_eq!(rt; met(message, &spec, &report), (true, 8));
    Ok(())
}

// Whether a number of a byte, in a message of 1 to 3 bytes, meets the goal at the end of the path.
fn is_met_by_a_byte(message: &Message, spec: &Spec, goal: Goal, path: &[u16]) -> bool {
    for total in 1..4 {
        for number in 0..256 {
            if shows(message, spec, &goal, path, total, &[number]) {
                return true;
            }
        }
    }
    false
}

#[test]
fn what_fails_by_proofs_is_met_by_no_byte(rt: HostRuntime) -> Result<(), Fail> {
    for (text, goal, path) in DEAD {
        let spec = spec_of(rt.alloc(), text)?;
        let message = message_of(&spec)?;
        let report = check(rt.alloc(), message, &spec, 1024)?;
        let Some(evidence) = fault(&report, goal) else {
            return Err(Fail::new("the check does not fail"));
        };
        assert!(rt; matches!(evidence, Evidence::Proofs(_)));
        assert!(rt; !is_met_by_a_byte(message, &spec, goal, path));
        assert!(rt; is_met_by_a_byte(message, &spec, Goal::Taken(Node::At(0), 2), &[0]));
    }
    Ok(())
}
