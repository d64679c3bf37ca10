//! Whole packages, the places of their faults, their limits, and their longest parts.
use rx_grammar::{Part, SyntaxFault, parse_package, parse_part, trees_derive};
use rx_syntax::lex;
use std::alloc::Global;
use std::test::Fail;

/// The number of the refusal, or 0, and its place, or the end.
fn outcome(alloc: Global, text: &[u8]) -> Result<(u8, u32, u32), Fail> {
    if text.len() > 1048576 {
        return Ok((8, 0, 0));
    }
    let tokens = lex(alloc, text)?;
    Ok(match parse_package(alloc, &tokens) {
        Ok(_) => (0, tokens.end.line, tokens.end.column),
        Err(SyntaxFault::Expected(place)) => (5, place.line, place.column),
        Err(SyntaxFault::TooDeep(place)) => (6, place.line, place.column),
        Err(SyntaxFault::Unsupported(place, _)) => (7, place.line, place.column),
        Err(SyntaxFault::NoMemory) => (9, 0, 0),
    })
}

#[test]
fn reads_packages(rt: HostRuntime) -> Result<(), Fail> {
    let table = [
        "package Q is end Q;",
        "with A; with B; package Q is type T is new A::B; for A::M use (F => null); end Q;",
        "package Q is type T is (A, B) with Size => 8, Always_Valid; end Q;",
        "package Q is type T is (A => 1, B => 2) with Always_Valid => False, Size => 8; end Q;",
        "package Q is type T is range 0 .. 2 ** 4 - 1 with Size => 4; type S is sequence of T; end Q;",
        "package Q is type M is null message; end Q;",
        "package Q is type M is message null then A if 1 = 1; A : T with Size => A'Size * 8 if not A.B then null with First => A'First, Size => 1, then null if A and B or C; end message with Byte_Order => Low_Order_First; end Q;",
        "package Q is type M is message A : U8 then B if A <= 10, then C if A >= 10; B : U8 then null; C : U8; end message; end Q;",
    ];
    for text in table {
        let (number, _, _) = outcome(rt.alloc(), text.as_bytes())?;
        assert_eq!(rt; number, 0, "at {text}");
    }
    Ok(())
}

#[test]
fn tells_the_first_fault(rt: HostRuntime) -> Result<(), Fail> {
    let table = [
        ("", (5, 1, 1)),
        ("package Q is", (5, 1, 13)),
        ("package Q is end Q", (5, 1, 19)),
        ("package Q is end Q; x", (5, 1, 21)),
        ("package is is", (5, 1, 9)),
        ("package Q is type T is unsigned; end Q;", (5, 1, 32)),
        ("package Q is type T is unsigned 1 + ); end Q;", (5, 1, 37)),
        ("package Q is type T is (A, B => 1); end Q;", (5, 1, 30)),
        (
            "package Q is type M is message A : T with Size => 1, then B; end message; end Q;",
            (5, 1, 54),
        ),
        (
            "package Q is type M is message A : T'Foo; end message; end Q;",
            (5, 1, 37),
        ),
        ("package Q is type T is mod 8; end Q;", (7, 1, 24)),
        (
            "package Q is type T (A : B) is unsigned 1; end Q;",
            (7, 1, 21),
        ),
        ("package Q is machine S is", (7, 1, 14)),
        ("package Q is GENERIC", (7, 1, 14)),
        (
            "package Q is type M is message A : T; end message with CHECKSUM => 1; end Q;",
            (7, 1, 56),
        ),
    ];
    for (text, want) in table {
        let got = outcome(rt.alloc(), text.as_bytes())?;
        assert_eq!(rt; got, want, "at {text}");
    }
    Ok(())
}

/// A text with parts that stand so often.
fn repeated(
    alloc: Global,
    head: &str,
    part: &str,
    times: usize,
    tail: &str,
) -> Result<String, Fail> {
    let mut text = String::new(alloc);
    text.push_str(head)?;
    for _ in 0..times {
        text.push_str(part)?;
    }
    text.push_str(tail)?;
    Ok(text)
}

#[test]
fn stops_at_the_limits(rt: HostRuntime) -> Result<(), Fail> {
    let head = "package Q is type T is unsigned ";
    let deep = repeated(rt.alloc(), head, "(", 65, "1")?;
    assert_eq!(rt; outcome(rt.alloc(), deep.as_bytes())?, (6, 1, 97));
    let open = repeated(rt.alloc(), head, "(", 64, "1")?;
    assert_eq!(rt; outcome(rt.alloc(), open.as_bytes())?, (5, 1, 98));
    let long = repeated(
        rt.alloc(),
        "package Q is type T is unsigned 1",
        "+1",
        257,
        "; end Q;",
    )?;
    assert_eq!(rt; outcome(rt.alloc(), long.as_bytes())?, (6, 1, 546));
    let most = repeated(rt.alloc(), head, "not ", 256, "1; end Q;")?;
    let (number, _, _) = outcome(rt.alloc(), most.as_bytes())?;
    assert_eq!(rt; number, 0);
    let marks = repeated(rt.alloc(), "", ";", 262144, "")?;
    assert_eq!(rt; outcome(rt.alloc(), marks.as_bytes())?, (5, 1, 1));
    Ok(())
}

#[test]
fn reads_the_longest_part(rt: HostRuntime) -> Result<(), Fail> {
    let table = [
        ("a + )", Part::Expression, 1),
        ("1 + 2 * a'Size ;", Part::Expression, 7),
        ("(1", Part::Expression, 0),
        ("type T is new A; type", Part::Declaration, 6),
        ("type T is", Part::Declaration, 0),
        ("with A; package P is end", Part::Header, 6),
        ("package is", Part::Header, 0),
    ];
    for (text, part, want) in table {
        let tokens = lex(rt.alloc(), text.as_bytes())?;
        let next = match parse_part(rt.alloc(), &tokens, 0, part) {
            Ok((_, next)) => next,
            Err(_) => 0,
        };
        assert_eq!(rt; next, want, "at {text}");
    }
    trees_derive();
    Ok(())
}
