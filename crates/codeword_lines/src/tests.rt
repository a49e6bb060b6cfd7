// How answers are displayed.
use crate::answer::Answer;
use crate::request::Kind;
use outer_code::CodeFault;
use std::alloc::AllocError;

#[test]
fn an_answer_is_displayed_as_its_text(rt: HostRuntime) -> Result<(), AllocError> {
    let heap = rt.alloc();
    let word = Answer::Word(vec![in heap; 0x47u8, 0xFF, 0x0A]?);
    assert_eq!(rt; word.to_string(heap)?.as_str(), "47FF0A");
    let refusal = Answer::Refusal {
        kind: Kind::Slot,
        fault: CodeFault::Uncorrectable,
    };
    assert_eq!(rt; refusal.to_string(heap)?.as_str(), "REFUSED 16");
    assert_eq!(rt; Answer::Unknown.to_string(heap)?.as_str(), "?");
    Ok(())
}
