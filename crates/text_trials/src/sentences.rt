//! A sentence of each rule, with each of its alternatives.
use rx_grammar::parse_package;
use rx_syntax::lex;
use std::alloc::Global;
use std::test::Fail;

// Whether a package with these declarations has a tree.
fn is_package(alloc: Global, declarations: &str) -> Result<bool, Fail> {
    let mut text = String::new(alloc);
    text.push_str("package Q is ")?;
    text.push_str(declarations)?;
    text.push_str(" end Q;")?;
    if text.len() > 1048576 {
        return Ok(false);
    }
    let tokens = lex(alloc, text.as_bytes())?;
    Ok(parse_package(alloc, &tokens).is_ok())
}

#[test]
fn reads_declarations(rt: HostRuntime) -> Result<(), Fail> {
    let texts = [
        "",
        "type T is unsigned 8;",
        "type T is range 0 .. 5 with Size => 3;",
        "type T is range A'First .. B::C with SIZE => 2 ** 3;",
        "type T is (A, B, C);",
        "type T is (A) with Size => 8;",
        "type T is (A => 1, B => 2) with Always_Valid, Size => 8;",
        "type T is (A) with Always_Valid => True;",
        "type T is (A) with always_valid => false;",
        "type T is sequence of B::T;",
        "type T is new M;",
        "type T is null message;",
        "for M use (F => B::N);",
        "for B::M use (F => null) if A = 1;",
    ];
    for text in texts {
        assert!(rt; is_package(rt.alloc(), text)?, "at {text}");
    }
    Ok(())
}

#[test]
fn reads_messages(rt: HostRuntime) -> Result<(), Fail> {
    let texts = [
        "type M is message A : T; end message;",
        "type M is message A : B::T; end message with Byte_Order => High_Order_First;",
        "type M is message A : T; end message with byte_order => low_order_first;",
        "type M is message null then A; A : T; end message;",
        "type M is message null then A if 1 = 1 then B, then C; A : T; end message;",
        "type M is message A : T with Size => 8; end message;",
        "type M is message A : T with Size => 8, First => B'First if A = 1; end message;",
        "type M is message A : T then null; end message;",
        "type M is message A : T then B then C, then null then D; end message;",
        "type M is message A : T then B with First => A'Last + 1, then C; end message;",
        "type M is message A : T with Size => 1 if A then B with Size => 2 if B; end message;",
    ];
    for text in texts {
        assert!(rt; is_package(rt.alloc(), text)?, "at {text}");
    }
    Ok(())
}

// Whether a package with a type of this size has a tree.
fn is_expression(alloc: Global, expression: &str) -> Result<bool, Fail> {
    let mut text = String::new(alloc);
    text.push_str("type T is unsigned ")?;
    text.push_str(expression)?;
    text.push_str(";")?;
    is_package(alloc, text.as_str())
}

#[test]
fn reads_expressions(rt: HostRuntime) -> Result<(), Fail> {
    let texts = [
        "1",
        "A",
        "B::A",
        "(A)",
        "not A",
        "not not (A)",
        "-1",
        "- A + 1",
        "A or B or C",
        "A and B and C",
        "A or B and not C",
        "A = 1",
        "A /= B",
        "A < 1",
        "A <= 1",
        "A > 1",
        "A >= 1",
        "1 + 2 - 3",
        "1 * 2 / 3 mod 4",
        "2 ** 8",
        "A'First",
        "A'Last",
        "A'size",
        "A'Valid",
        "A'HAS_DATA",
        "B::A'Opaque",
        "A.F",
        "B::A.F",
        "(1 + 2) * (A - (B))",
    ];
    for text in texts {
        assert!(rt; is_expression(rt.alloc(), text)?, "at {text}");
    }
    Ok(())
}

#[test]
fn reads_no_other_expression(rt: HostRuntime) -> Result<(), Fail> {
    let texts = [
        "",
        "()",
        "1 2",
        "A = B = C",
        "A < B < C",
        "2 ** 3 ** 4",
        "1 + - 1",
        "1 +",
        "+ 1",
        "A'",
        "A.",
        "A::",
        "::A",
        "A'Foo",
        "A.F.G",
        "A'Size'Size",
        "-",
        "not",
        "1'First",
        "(1).F",
        "[1]",
    ];
    for text in texts {
        assert!(rt; !is_expression(rt.alloc(), text)?, "at {text}");
    }
    Ok(())
}

#[test]
fn reserved_words_are_no_names(rt: HostRuntime) -> Result<(), Fail> {
    let words = [
        "and",
        "begin",
        "end",
        "exception",
        "for",
        "generic",
        "goto",
        "if",
        "is",
        "machine",
        "message",
        "mod",
        "new",
        "not",
        "null",
        "of",
        "or",
        "package",
        "range",
        "sequence",
        "session",
        "state",
        "then",
        "transition",
        "type",
        "unsigned",
        "use",
        "with",
    ];
    for word in words {
        assert!(rt; !is_expression(rt.alloc(), word)?, "at {word}");
        let name = word.to_ascii_uppercase(rt.alloc())?;
        assert!(rt; is_expression(rt.alloc(), name.as_str())?, "at {word}");
    }
    Ok(())
}
