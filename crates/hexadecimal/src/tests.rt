// Bytes to digits and back.
use crate::{Hex, HexText};
use std::alloc::AllocError;

#[test]
fn bytes_are_displayed_in_capitals(rt: HostRuntime) -> Result<(), AllocError> {
    let shown = Hex(&[0x47, 0xFF, 0x0A]).to_string(rt.alloc())?;
    assert_eq!(rt; shown.as_str(), "47FF0A");
    Ok(())
}

#[test]
fn digits_of_either_case_are_read(rt: HostRuntime) -> Result<(), AllocError> {
    let text = HexText::new(b"47fF0a").expect(&rt, "digits");
    assert_eq!(rt; text.byte_count(), 3);
    let bytes = text.to_vec(rt.alloc())?;
    assert_eq!(rt; bytes.as_slice(), [0x47, 0xFF, 0x0A].as_slice());
    assert!(rt; HexText::new(b"47f").is_none());
    assert!(rt; HexText::new(b"4G").is_none());
    Ok(())
}
