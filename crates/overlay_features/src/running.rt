//! Blocks in, replies out.
ghost use Rattle.std.specs.Prelude.{◌≡◌, false, IfOk};
ghost use Rattle.block_reading.specs.Block.{block_of};
ghost use Rattle.feature_jobs.specs.Answers.{IsReplyOf};
ghost use Rattle.feature_jobs.specs.Reply.{bytes_of};

use crate::reading::{Next, next_block};
use block_reading::{ReadFault, read_block};
use fault_texts::CommonFault;
use feature_jobs::{Reply, answer, refusal, too_long};
use std::alloc::Global;
use std::io::{BufReader, BufWriter, Read, Write};

/// The reply to some bytes.
#[tactic(auto, using(crate::proofs::ReplyLemmas::answered_so, crate::proofs::ReplyLemmas::refused_so))]
fn reply_to(alloc: Global, bytes: &[u8]) -> Result<Reply, CommonFault>
    ensures { IfOk result (λ reply. IsReplyOf (block_of bytes.now) reply) }
{
    match read_block(alloc, bytes) {
        Ok(block) => match answer(alloc, &block) {
            Ok(reply) => Ok(reply),
            Err(_) => Err(CommonFault::OutOfMemory),
        },
        Err(ReadFault::Refused(fault)) => Ok(refusal(alloc, &fault)),
        Err(ReadFault::OutOfMemory) => Err(CommonFault::OutOfMemory),
    }
}

/// The reply to what comes next; none at the end.
fn next_reply<R: Read>(
    alloc: Global,
    from: &mut R,
    memory: u64,
) -> Result<Option<Reply>, CommonFault> {
    match next_block(alloc, from, memory)? {
        Next::Block(bytes) => Ok(Some(reply_to(alloc, &bytes)?)),
        Next::End => Ok(None),
        Next::TooLong => Ok(Some(too_long(alloc))),
    }
}

/// A reply as bytes, or as lines.
fn spelled(alloc: Global, reply: &Reply, is_text: bool) -> Result<Vec<u8>, CommonFault>
    ensures { IfOk result (λ all. is_text ≡ false → all.items ≡ bytes_of reply.now) }
{
    if is_text {
        return match reply.lines(alloc) {
            Ok(lines) => Ok(lines.into_bytes()),
            Err(_) => Err(CommonFault::OutOfMemory),
        };
    }
    match reply.bytes(alloc) {
        Ok(bytes) => Ok(bytes),
        Err(_) => Err(CommonFault::OutOfMemory),
    }
}

/// Writes bytes, and hands them on.
fn write<W: Write>(to: &mut W, bytes: &[u8]) -> Result<(), CommonFault> {
    if to.write_all(bytes).is_err() || to.flush().is_err() {
        return Err(CommonFault::Write);
    }
    Ok(())
}

/// Answers each block as soon as it is read, up to so many of them; whether more may come.
fn some<R: Read, W: Write>(
    alloc: Global,
    from: &mut R,
    to: &mut W,
    is_text: bool,
    memory: u64,
) -> Result<bool, CommonFault> {
    let Some(reply) = next_reply(alloc, from, memory)? else {
        return Ok(false);
    };
    let bytes = spelled(alloc, &reply, is_text)?;
    write(to, &bytes)?;
    Ok(true)
}

/// Answers each block of an input as soon as it is read: 2^62 blocks at most.
pub fn run<R: Read + Drop, W: Write + Drop>(
    alloc: Global,
    input: R,
    output: W,
    is_text: bool,
    memory: u64,
) -> Result<(), CommonFault> {
    let Ok(mut from) = BufReader::new(alloc, input) else {
        return Err(CommonFault::OutOfMemory);
    };
    let Ok(mut to) = BufWriter::new(alloc, output) else {
        return Err(CommonFault::OutOfMemory);
    };
    for _ in 0..4611686018427387904_u64 {
        if !some(alloc, &mut from, &mut to, is_text, memory)? {
            return Ok(());
        }
    }
    Ok(())
}
