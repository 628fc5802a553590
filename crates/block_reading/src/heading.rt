//! The head at the front of some bytes.
ghost use Rattle.std.specs.Prelude.{◌≡◌, ◌≤◌, ◌+◌, length, drop};
ghost use Rattle.block_reading.specs.Answers.{Gives};
ghost use Rattle.block_reading.specs.Block.{field, head, head_held, head_of, size_of};

use crate::fault::{BlockFault, ReadFault};
use crate::head::Head;
use byteorder::{ByteOrder, LittleEndian};

/// What a block begins with, after its length: OVFB.
const MAGIC: u32 = 1111905871;

/// The number of four bytes from a place on.
fn field_at(bytes: &[u8], at: usize) -> u32
    requires { at + 4 ≤ length bytes.now }
    ensures { result ≡ field at bytes.now }
{
    LittleEndian::read_u32(&bytes[at..])
}

/// The head that the first bytes are.
fn first_bytes(bytes: &[u8]) -> Head
    requires { 56 ≤ length bytes.now }
    ensures { result ≡ head_of bytes.now }
{
    Head {
        length: LittleEndian::read_u64(bytes),
        magic: field_at(bytes, 8),
        version: field_at(bytes, 12),
        kind: field_at(bytes, 16),
        flags: field_at(bytes, 20),
        limit: field_at(bytes, 24),
        features: field_at(bytes, 28),
        rings: field_at(bytes, 32),
        points: field_at(bytes, 36),
        jobs: field_at(bytes, 40),
        job_words: field_at(bytes, 44),
        expression: field_at(bytes, 48),
        layers: field_at(bytes, 52),
    }
}

/// How many bytes a block of these counts has.
fn size(head: &Head) -> u64
    ensures { result ≡ size_of head.now }
{
    56 + 4 * u64::from(head.features)
        + 4 * u64::from(head.rings)
        + 16 * u64::from(head.points)
        + 4 * u64::from(head.job_words)
        + u64::from(head.expression)
        + 4
}

/// The head, where a block of so many bytes may have it.
fn held_head(head: Head, count: u64) -> Result<Head, ReadFault>
    ensures { Gives (λ h. h) result (head_held head count) }
{
    if head.magic != MAGIC {
        Err(ReadFault::Refused(BlockFault::NoBlock))
    } else if head.version != 1 {
        Err(ReadFault::Refused(BlockFault::OtherVersion))
    } else if count < head.length {
        Err(ReadFault::Refused(BlockFault::Cut))
    } else if head.length < count {
        Err(ReadFault::Refused(BlockFault::TooLong))
    } else if size(&head) != count {
        Err(ReadFault::Refused(BlockFault::OtherLength))
    } else if head.kind > 2 {
        Err(ReadFault::Refused(BlockFault::UnknownKind))
    } else if head.flags > 3 {
        Err(ReadFault::Refused(BlockFault::UnknownFlag))
    } else {
        Ok(head)
    }
}

/// The head that the first bytes are, where a block of all these bytes may have it.
fn front(bytes: &[u8]) -> Result<Head, ReadFault>
    requires { 56 ≤ length bytes.now }
    ensures { Gives (λ h. h) result (head_held (head_of bytes.now) (length bytes.now)) }
{
    held_head(first_bytes(bytes), bytes.len() as u64)
}

/// What follows the head.
fn after_head(bytes: &[u8]) -> &[u8]
    requires { 56 ≤ length bytes.now }
    ensures { result.now ≡ drop 56 bytes.now }
{
    &bytes[56..]
}

/// The head of a block, and what follows it.
pub(crate) fn head_at(bytes: &[u8]) -> Result<(Head, &[u8]), ReadFault>
    ensures { Gives (λ x. (x.0, x.1.now)) result (head bytes.now) }
{
    if bytes.len() < 56 {
        return Err(ReadFault::Refused(BlockFault::Cut));
    }
    let head = front(bytes)?;
    Ok((head, after_head(bytes)))
}
