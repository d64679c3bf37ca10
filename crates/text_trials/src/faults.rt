//! A fault in the middle of each rule, told where the longest front that begins a package ends.
use rx_grammar::{SyntaxFault, parse_package};
use rx_syntax::{Place, lex};
use std::alloc::Global;
use std::test::Fail;

// The fault of a text that is the front and then the rest.
fn fault_of(alloc: Global, front: &str, rest: &str) -> Result<Option<SyntaxFault>, Fail> {
    let mut text = String::new(alloc);
    text.push_str("package Q is ")?;
    text.push_str(front)?;
    text.push_str(rest)?;
    if text.len() > 1048576 {
        return Ok(None);
    }
    let tokens = lex(alloc, text.as_bytes())?;
    match parse_package(alloc, &tokens) {
        Ok(_) => Ok(None),
        Err(fault) => Ok(Some(fault)),
    }
}

// Whether the place is where the rest begins.
fn is_behind(front: &str, place: Place) -> bool {
    place.line == 1 && place.column as u64 == front.len() as u64 + 14
}

// Whether the text is refused as Expected where the rest begins.
fn is_expected(alloc: Global, front: &str, rest: &str) -> Result<bool, Fail> {
    match fault_of(alloc, front, rest)? {
        Some(SyntaxFault::Expected(place)) => Ok(is_behind(front, place)),
        _ => Ok(false),
    }
}

#[test]
fn stops_in_each_declaration(rt: HostRuntime) -> Result<(), Fail> {
    let texts = [
        ("", "Q"),
        ("end ", ";"),
        ("end Q ", "is"),
        ("type ", "is"),
        ("type T ", "unsigned"),
        ("type T is ", ";"),
        ("type T is unsigned ", ";"),
        ("type T is unsigned 8 ", "end"),
        ("type T is range 1 ", "with"),
        ("type T is range 1 .. ", "with"),
        ("type T is range 1 .. 2 ", ";"),
        ("type T is range 1 .. 2 with ", "First => 1"),
        ("type T is range 1 .. 2 with Size ", "8"),
        ("type T is (", ")"),
        ("type T is (A, ", ")"),
        ("type T is (A, B ", "=> 1)"),
        ("type T is (A => 1, B ", ")"),
        ("type T is (A) with ", ";"),
        ("type T is (A) with Size => 8, ", ";"),
        ("type T is (A) with Always_Valid => ", "Maybe"),
        ("type T is sequence ", "T"),
        ("type T is sequence of ", ";"),
        ("type T is new ", ";"),
        ("type T is null ", ";"),
        ("for ", "use"),
        ("for M ", "(F"),
        ("for M use ", "F"),
        ("for M use (F ", ")"),
        ("for M use (F => ", ")"),
        ("for M use (F => N) ", "then"),
        ("for M use (F => N) if ", ";"),
    ];
    for (front, rest) in texts {
        assert!(rt; is_expected(rt.alloc(), front, rest)?, "at {front}");
    }
    Ok(())
}

#[test]
fn stops_in_each_part_of_a_message(rt: HostRuntime) -> Result<(), Fail> {
    let texts = [
        ("type M is message ", "end message;"),
        ("type M is message null ", ";"),
        ("type M is message null then A; ", "end"),
        ("type M is message A ", "T"),
        ("type M is message A : ", ";"),
        ("type M is message A : T ", "end"),
        ("type M is message A : T with ", ";"),
        ("type M is message A : T with ", "Last => 1"),
        ("type M is message A : T with Size ", "8"),
        ("type M is message A : T with Size => 8, ", ";"),
        ("type M is message A : T if ", ";"),
        ("type M is message A : T then ", ";"),
        ("type M is message A : T then B, ", ";"),
        ("type M is message A : T then B with ", ";"),
        ("type M is message A : T then B if ", ";"),
        ("type M is message A : T if A ", "with"),
        ("type M is message A : T; end ", ";"),
        ("type M is message A : T; end message ", "end"),
        ("type M is message A : T; end message with ", "Size"),
        ("type M is message A : T; end message with Byte_Order ", "="),
        (
            "type M is message A : T; end message with Byte_Order => ",
            "Low",
        ),
    ];
    for (front, rest) in texts {
        assert!(rt; is_expected(rt.alloc(), front, rest)?, "at {front}");
    }
    Ok(())
}

// Whether the word is refused as it stands, as a form that is not supported.
fn is_unsupported(alloc: Global, word: &str) -> Result<bool, Fail> {
    match fault_of(alloc, "", word)? {
        Some(SyntaxFault::Unsupported(place, told)) => {
            Ok(is_behind("", place) && told.is_written(word))
        }
        _ => Ok(false),
    }
}

#[test]
fn tells_each_form_that_is_not_supported(rt: HostRuntime) -> Result<(), Fail> {
    let words = [
        "Checksum",
        "Valid_Checksum",
        "Head",
        "function",
        "renames",
        "all",
        "some",
        "case",
        "when",
        "mod",
        "session",
        "machine",
        "generic",
    ];
    for word in words {
        assert!(rt; is_unsupported(rt.alloc(), word)?, "at {word}");
        let upper = word.to_ascii_uppercase(rt.alloc())?;
        assert!(rt; is_unsupported(rt.alloc(), upper.as_str())?, "at {word}");
        let lower = word.to_ascii_lowercase(rt.alloc())?;
        assert!(rt; is_unsupported(rt.alloc(), lower.as_str())?, "at {word}");
    }
    Ok(())
}

#[test]
fn tells_parameters(rt: HostRuntime) -> Result<(), Fail> {
    let front = "type T ";
    match fault_of(rt.alloc(), front, "(A : B) is message")? {
        Some(SyntaxFault::Unsupported(place, word)) => {
            assert!(rt; is_behind(front, place) && word.is_written("parameters"))
        }
        _ => assert!(rt; false),
    }
    Ok(())
}
