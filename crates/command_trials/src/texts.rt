//! What is told of one text: each refusal with its place, and an answer to any bytes.
use crate::decoded::decoded;
use rx_program::Status;
use std::alloc::Global;
use std::test::Fail;

// The status of `decode Q::M` where the text of Q is this one, and what was written.
fn of_text(alloc: Global, text: &[u8]) -> Result<(Status, Vec<u8>), Fail> {
    decoded(alloc, "q", text, "Q::M", b"")
}

#[test]
fn tells_the_place_of_a_fault(rt: HostRuntime) -> Result<(), Fail> {
    let cases: [(&[u8], &[u8]); 9] = [
        (
            b"package Q is\n   type T is unsigned 8 % 2;\nend Q;\n",
            b"q.rflx:2:25: 1 BadByte\n",
        ),
        (b"package Q is ?", b"q.rflx:1:14: 1 BadByte\n"),
        (
            b"package Q is\n   type T is unsigned 16#G#;\nend Q;\n",
            b"q.rflx:2:23: 2 BadNumber\n",
        ),
        (b"package Q__R is\nend Q__R;\n", b"q.rflx:1:9: 3 BadName\n"),
        (b"", b"q.rflx:1:1: 5 Expected\n"),
        (b"package Q is", b"q.rflx:1:13: 5 Expected\n"),
        (b"package Q is end Q", b"q.rflx:1:19: 5 Expected\n"),
        (
            b"package Q is\n   type M is message A : ; end message;\nend Q;\n",
            b"q.rflx:2:26: 5 Expected\n",
        ),
        (
            b"package Q is\n   type U8 is unsigned 8;\n   type M is message A : U8; end message with Checksum => (A);\nend Q;\n",
            b"q.rflx:3:47: 7 Unsupported Checksum\n",
        ),
    ];
    for (text, line) in cases {
        let (status, written) = of_text(rt.alloc(), text)?;
        assert_eq!(rt; status, Status::Specification);
        assert_eq!(rt; written.as_slice(), line);
    }
    Ok(())
}

#[test]
fn token_262_145_is_refused(rt: HostRuntime) -> Result<(), Fail> {
    let text = vec![in rt.alloc(); 59u8; 262145]?;
    let (status, written) = of_text(rt.alloc(), &text)?;
    assert_eq!(rt; status, Status::Specification);
    assert_eq!(rt;
        written.as_slice(),
        b"q.rflx:1:262145: 4 TextLimit\n".as_slice()
    );
    Ok(())
}

#[test]
fn bracket_65_is_refused(rt: HostRuntime) -> Result<(), Fail> {
    let mut text = b"package Q is type T is unsigned ".to_vec(rt.alloc())?;
    for _ in 0..65 {
        text.push(40)?;
    }
    let (status, written) = of_text(rt.alloc(), &text)?;
    assert_eq!(rt; status, Status::Specification);
    assert_eq!(rt; written.as_slice(), b"q.rflx:1:97: 6 TooDeep\n".as_slice());
    Ok(())
}

// The next number of a fixed sequence.
fn next(number: u64) -> u64 {
    number
        .wrapping_mul(6364136223846793005)
        .wrapping_add(1442695040888963407)
}

// Whether a command over any text may end so.
fn is_stated(status: Status) -> bool {
    match status {
        Status::Done => true,
        Status::InputRefused => true,
        Status::Specification => true,
        _ => false,
    }
}

const BYTES: &[u8; 32] = b"packge Qistynduwhm :;()=>9#_-\n%x";

#[test]
fn any_bytes_have_an_answer(rt: HostRuntime) -> Result<(), Fail> {
    let mut number = 1;
    for _ in 0..300 {
        let mut text = Vec::new(rt.alloc());
        for _ in 0..30 {
            number = next(number);
            text.push(BYTES[(number >> 40) as usize % 32])?;
        }
        let (status, _) = of_text(rt.alloc(), &text)?;
        assert!(rt; is_stated(status));
    }
    Ok(())
}

const GOOD: &[u8] =
    b"with A; package Q is type T is (X => 1, Y => 2) with Size => 8; type M is message F : T then G if F = X then null if F = Y; G : Opaque with Size => 8 * (F + 1); end message; for A::N use (D => M); end Q;";

#[test]
fn any_cut_of_a_text_has_an_answer(rt: HostRuntime) -> Result<(), Fail> {
    let mut number = 7;
    for _ in 0..300 {
        number = next(number);
        let end = (number >> 40) as usize % (GOOD.len() + 1);
        number = next(number);
        let begin = (number >> 40) as usize % (end + 1);
        let (status, _) = of_text(rt.alloc(), &GOOD[begin..end])?;
        assert!(rt; is_stated(status));
    }
    Ok(())
}
