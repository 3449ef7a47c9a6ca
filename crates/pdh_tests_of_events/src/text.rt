//! Worked texts.

use pdh_text::Text;
use std::test::Fail;

#[test]
fn bytes_in_hexadecimal_behind_a_part(rt: HostRuntime) -> Result<(), Fail> {
    let mut text = Text::new();
    text.text("feac ");
    text.hex(&[0, 27, 255]);
    assert!(rt; text.bytes() == b"feac 001bff".as_slice());
    Ok(())
}
