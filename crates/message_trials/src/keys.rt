//! What keys look like in a refusal.
use rx_encode::key_text;
use std::test::Fail;

#[test]
fn keys_are_escaped(rt: HostRuntime) -> Result<(), Fail> {
    let text = key_text(rt.alloc(), b"A\"\\\n\x01\x1f\xc3\xa9")?;
    assert_eq!(rt;
        text.as_slice(),
        b"\"A\\\"\\\\\\n\\u0001\\u001f\xc3\xa9\"".as_slice()
    );
    Ok(())
}
