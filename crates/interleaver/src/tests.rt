// The interleaver at both kinds of element.
use crate::calls::{deinterleave, interleave};
use crate::trust::TrustMark;
use std::test::Fail;

// Row 4, column 102 of a block, and where it goes.
const STORED: usize = 203 * 3 + 101;

const SENT: usize = 811;

#[test]
fn bytes_go_and_come_back(rt: HostRuntime) -> Result<(), Fail> {
    let mut block = [0u8; 1624];
    block[STORED] = 71;
    let mut sent = [1u8; 1624];
    interleave(&block, &mut sent)?;
    assert_eq!(rt; sent[SENT], 71);
    let mut back = [1u8; 1624];
    deinterleave(&sent, &mut back)?;
    assert_eq!(rt; back[STORED], 71);
    Ok(())
}

#[test]
fn a_refusal_leaves_rest(rt: HostRuntime) {
    let block = [TrustMark::Doubtful(3); 2];
    let mut target = [TrustMark::Doubtful(9); 3];
    assert!(rt; deinterleave(&block, &mut target).is_err());
    assert_eq!(rt; target[2], TrustMark::Sound);
}
