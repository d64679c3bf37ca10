use super::*;
use std::alloc::Global;
use std::test::Fail;

/// The number of the fault, or 0, and the place of the fault, or of the end.
fn outcome(alloc: Global, text: &[u8]) -> (u8, u32, u32) {
    if text.len() > 1048576 {
        return (8, 0, 0);
    }
    match lex(alloc, text) {
        Ok(tokens) => (0, tokens.end.line, tokens.end.column),
        Err(LexFault::BadByte(place)) => (1, place.line, place.column),
        Err(LexFault::BadNumber(place)) => (2, place.line, place.column),
        Err(LexFault::BadName(place)) => (3, place.line, place.column),
        Err(LexFault::TextLimit(place)) => (4, place.line, place.column),
        Err(LexFault::NoMemory) => (9, 0, 0),
    }
}

/// The tokens, each written out and followed by a space.
fn written(alloc: Global, text: &str) -> Result<String, Fail> {
    let mut shown = String::new(alloc);
    if text.len() > 1048576 {
        return Ok(shown);
    }
    let tokens = lex(alloc, text.as_bytes())?;
    for token in &tokens.items {
        match &token.kind {
            TokenKind::Word(word) => shown.push_str(word.as_str())?,
            TokenKind::Number(number) => {
                let digits = number.to_string(alloc)?;
                shown.push_str(digits.as_str())?
            }
            TokenKind::Mark(mark) => shown.push_str(mark.text())?,
        }
        shown.push_str(" ")?;
    }
    Ok(shown)
}

#[test]
fn tells_the_first_fault(rt: HostRuntime) {
    let table = [
        ("", (0, 1, 1)),
        ("a\n-- \x01 \r b\n", (0, 3, 1)),
        ("package Q is type T is unsigned 16#G#; end Q;", (2, 1, 33)),
        ("package Q__R is", (3, 1, 9)),
        ("A_", (3, 1, 1)),
        ("_A", (1, 1, 1)),
        ("\t\r\n  a !", (1, 2, 5)),
        ("a $ b__c", (1, 1, 3)),
        ("b__c $ a", (3, 1, 1)),
        ("1_", (2, 1, 1)),
        ("1__0", (2, 1, 1)),
        ("1#1#", (2, 1, 1)),
        ("17#1#", (2, 1, 1)),
        ("16##", (2, 1, 1)),
        ("16#1", (2, 1, 1)),
        ("16#1_#", (2, 1, 1)),
        ("2#2#", (2, 1, 1)),
        ("12a", (2, 1, 1)),
        ("170141183460469231731687303715884105728", (2, 1, 1)),
    ];
    for (text, want) in table {
        assert_eq!(rt; outcome(rt.alloc(), text.as_bytes()), want, "at {text}");
    }
}

#[test]
fn takes_the_longest_run(rt: HostRuntime) -> Result<(), Fail> {
    let table = [
        ("A::B:=c..d'First", "A :: B := c .. d ' First "),
        ("a:b=>c=d/=e/f", "a : b => c = d /= e / f "),
        ("<<=>>=+-***.()[],;", "< <= > >= + - ** * . ( ) [ ] , ; "),
        (":::", ":: : "),
        ("a-b--c\nd", "a - b d "),
        ("16#88B5# 2#1_01# 16#fF# 1_000", "34997 5 255 1000 "),
        (
            "170141183460469231731687303715884105727",
            "170141183460469231731687303715884105727 ",
        ),
        ("Message message", "Message message "),
    ];
    for (text, want) in table {
        let shown = written(rt.alloc(), text)?;
        assert_eq!(rt; shown.as_str(), want, "at {text}");
    }
    Ok(())
}

#[test]
fn stops_at_the_limits(rt: HostRuntime) -> Result<(), Fail> {
    let mut text = Vec::new(rt.alloc());
    for _ in 0..262144 {
        text.push(b';')?;
    }
    assert_eq!(rt; outcome(rt.alloc(), &text), (0, 1, 262145));
    text.push(b';')?;
    assert_eq!(rt; outcome(rt.alloc(), &text), (4, 1, 262145));
    let mut name = Vec::new(rt.alloc());
    for _ in 0..128 {
        name.push(b'a')?;
    }
    assert_eq!(rt; outcome(rt.alloc(), &name), (0, 1, 129));
    name.push(b'a')?;
    assert_eq!(rt; outcome(rt.alloc(), &name), (3, 1, 1));
    Ok(())
}

#[test]
fn compares_words(rt: HostRuntime) -> Result<(), Fail> {
    let word = Word::make(rt.alloc(), "Tag")?;
    let second = word.copy(rt.alloc())?;
    assert!(rt;
        word.same(&second)
            && word.is("TAG")
            && !word.is("Ta")
            && word.is_written("Tag")
            && !word.is_written("tag")
    );
    assert!(rt;
        is_name(b"Tag_1")
            && !is_name(b"Tag_")
            && is_letter(b'T')
            && is_digit(b'1')
            && is_word_byte(b'_')
    );
    one_outcome();
    Ok(())
}
