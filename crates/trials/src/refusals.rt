// The numbers, words and places of refusals.
use crate::helpers::REFUSALS;
use refusal::{Fault, Refusal};
use sample::Ending;
use std::alloc::Global;
use std::process::Abort;
use std::test::Fail;

/// The words of refusals, from number 1 on.
const WORDS: &str = "cut
surplus
count
node
span
range
armed
memory
idle
full
dry
backward
unseen
gone
open
bare
tray full
tray empty
pattern";

fn check_refusal(
    rt: &impl Abort,
    heap: Global,
    refusal: Refusal,
    word: &str,
    number: u32,
    place: u64,
) -> Result<(), Fail> {
    assert_eq!(rt;
        (refusal.number(), refusal.place()),
        (number, place),
        "{}",
        word
    );
    let text = refusal.to_string(heap)?;
    assert_eq!(rt; (text.as_str(), refusal.word()), (word, word));
    Ok(())
}

#[test]
fn refusals(rt: HostRuntime) -> Result<(), Fail> {
    let heap = rt.alloc();
    assert_eq!(rt; WORDS.lines().count(), REFUSALS.len());
    for ((refusal, word), number) in REFUSALS.iter().zip(WORDS.lines()).zip(1..) {
        check_refusal(&rt, heap, *refusal, word, number, 0)?;
    }
    check_refusal(&rt, heap, Ending::Dry.refusal(), "dry", 11, 0)?;
    check_refusal(&rt, heap, Refusal::from(Ending::Dry), "dry", 11, 0)?;
    for (number, place) in [(0, 0), (6, 63), (77, 12345), (u32::MAX, u64::MAX)] {
        let fault = Fault { number, place };
        check_refusal(&rt, heap, Refusal::Fault(fault), "fault", number, place)?;
        check_refusal(&rt, heap, Refusal::from(fault), "fault", number, place)?;
        let ending = Ending::Fault(fault);
        check_refusal(&rt, heap, ending.refusal(), "fault", number, place)?;
        check_refusal(&rt, heap, Refusal::from(ending), "fault", number, place)?;
    }
    Ok(())
}
