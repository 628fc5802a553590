//! Answers to lists of steps.
use crate::tests::testing::{BLOCKS, SHIFTED, SMALLER, SQUARE, Words, drive};
use overlay_engine::step::Reply;
use std::test::Fail;
use test_machines::machine::Machine;

/// A tile of I is taken, and finished after a layer under it was put anew; then it is taken again.
const OVERTAKEN: &[Words] = &[
    Words::Put("A", SQUARE),
    Words::Put("B", SHIFTED),
    Words::Define("I", "A & B"),
    Words::Take("I", 16),
    Words::Put("A", SMALLER),
    Words::Finish(0),
    Words::Take("I", 16),
    Words::Finish(1),
    Words::Finish(1),
];

const ANSWERS: &[Reply] = &[
    Reply::Accepted(1),
    Reply::Accepted(2),
    Reply::Accepted(3),
    Reply::Taken(0),
    Reply::Accepted(4),
    Reply::Stale,
    Reply::Taken(1),
    Reply::Kept,
    Reply::NoJob,
];

#[test]
fn a_result_that_is_overtaken_is_stale_and_the_next_is_kept(rt: HostRuntime) -> Result<(), Fail> {
    let mut engine = Machine::in_memory(rt.alloc(), BLOCKS)?;
    let replies = drive(rt.alloc(), &mut engine, OVERTAKEN)?;
    assert!(rt; replies.as_slice() == ANSWERS);
    Ok(())
}
