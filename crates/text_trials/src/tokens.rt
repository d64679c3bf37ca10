//! Every mark, both forms of numbers with their faults, and every reserved word.
use rx_syntax::{LexFault, Token, TokenKind, lex};
use std::alloc::Global;
use std::test::Fail;

// How the token is written, where it is a word or a mark; else its number.
fn shown(alloc: Global, token: &Token) -> Result<String, Fail> {
    let mut text = String::new(alloc);
    match &token.kind {
        TokenKind::Word(word) => text.push_str(word.as_str())?,
        TokenKind::Mark(mark) => text.push_str(mark.text())?,
        TokenKind::Number(number) => {
            let digits = number.to_string(alloc)?;
            text.push_str(digits.as_str())?
        }
    }
    Ok(text)
}

// The one token of the text; empty where it has none or more.
fn only_token(alloc: Global, text: &str) -> Result<String, Fail> {
    if text.len() > 1048576 {
        return Ok(String::new(alloc));
    }
    let tokens = lex(alloc, text.as_bytes())?;
    match tokens.items.as_slice() {
        [token] => shown(alloc, token),
        _ => Ok(String::new(alloc)),
    }
}

// The number of the first fault, or 0.
fn fault_of(alloc: Global, text: &str) -> u8 {
    if text.len() > 1048576 {
        return 9;
    }
    match lex(alloc, text.as_bytes()) {
        Ok(_) => 0,
        Err(LexFault::BadByte(_)) => 1,
        Err(LexFault::BadNumber(_)) => 2,
        Err(LexFault::BadName(_)) => 3,
        Err(LexFault::TextLimit(_)) => 4,
        Err(LexFault::NoMemory) => 9,
    }
}

#[test]
fn takes_every_mark(rt: HostRuntime) -> Result<(), Fail> {
    let marks = [
        "(", ")", "[", "]", ",", ";", ":", "::", ":=", "=>", "=", "/=", "/", "<", "<=", ">", ">=",
        "+", "-", "*", "**", ".", "..", "'",
    ];
    for mark in marks {
        assert_eq!(rt; only_token(rt.alloc(), mark)?.as_str(), mark);
    }
    Ok(())
}

#[test]
fn takes_both_forms_of_numbers(rt: HostRuntime) -> Result<(), Fail> {
    let numbers = [
        ("0", "0"),
        ("007", "7"),
        ("1_000_000", "1000000"),
        ("2#1010#", "10"),
        ("8#17#", "15"),
        ("16#fF_0a#", "65290"),
        ("1_6#A#", "10"),
        ("16#7FFF_FFFF_FFFF_FFFF#", "9223372036854775807"),
    ];
    for (text, number) in numbers {
        assert_eq!(rt; only_token(rt.alloc(), text)?.as_str(), number, "at {text}");
    }
    Ok(())
}

#[test]
fn refuses_every_other_number(rt: HostRuntime) {
    let numbers = [
        "1_",
        "1__0",
        "1a",
        "0x10",
        "1#0#",
        "17#0#",
        "16#",
        "16##",
        "16#1",
        "16#_1#",
        "16#1_#",
        "16#1__2#",
        "16#G#",
        "8#8#",
        "2#102#",
        "1_#1#",
        "16#1#2",
        "16#8000_0000_0000_0000_0000_0000_0000_0000#",
    ];
    for text in numbers {
        assert_eq!(rt; fault_of(rt.alloc(), text), 2, "at {text}");
    }
}

#[test]
fn refuses_names_and_bytes(rt: HostRuntime) {
    let texts = [
        ("a_", 3),
        ("a__b", 3),
        ("A_B_", 3),
        ("_a", 1),
        ("\"", 1),
        ("#", 1),
        ("!", 1),
        ("a%", 1),
        ("{", 1),
        ("é", 1),
    ];
    for (text, number) in texts {
        assert_eq!(rt; fault_of(rt.alloc(), text), number, "at {text}");
    }
}

#[test]
fn passes_over_white_space_and_comments(rt: HostRuntime) -> Result<(), Fail> {
    let texts = [
        " \t\r\nend",
        "-- _ % \"\nend",
        "end--",
        "--\r still the comment\n end -- é",
    ];
    for text in texts {
        assert_eq!(rt; only_token(rt.alloc(), text)?.as_str(), "end", "at {text}");
    }
    Ok(())
}
