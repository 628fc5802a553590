//! Numbers at the front of some bytes.
ghost use Rattle.std.specs.Prelude.{◌≡◌};
ghost use Rattle.block_reading.specs.Answers.{Gives};
ghost use Rattle.block_reading.specs.Block.{count};
ghost use Rattle.block_reading.specs.Jobs.{word};
ghost use Rattle.block_reading.specs.Reading.{number, signed, taken};
ghost use Rattle.block_reading.specs.declared.fault.BlockFault.TheVariants as faults;

use crate::fault::{BlockFault, ReadFault};
use byteorder::{ByteOrder, LittleEndian};

/// A count, and what follows it.
pub(crate) fn count_at(at: usize, bytes: &[u8]) -> Result<(u32, &[u8]), ReadFault>
    ensures { Gives (λ x. (x.0, x.1.now)) result (count at bytes.now) }
{
    let _at = at;
    if bytes.len() < 4 {
        return Err(ReadFault::Refused(BlockFault::Cut));
    }
    Ok((LittleEndian::read_u32(bytes), &bytes[4..]))
}

/// A number of a job, and what follows it.
pub(crate) fn word_at(job: usize, bytes: &[u8]) -> Result<(u32, &[u8]), ReadFault>
    ensures { Gives (λ x. (x.0, x.1.now)) result (word job bytes.now) }
{
    if bytes.len() < 4 {
        return Err(ReadFault::Refused(BlockFault::JobCut(job)));
    }
    Ok((LittleEndian::read_u32(bytes), &bytes[4..]))
}

/// A coordinate, and what follows it.
pub(crate) fn coordinate_at(bytes: &[u8]) -> Result<(i64, &[u8]), ReadFault>
    ensures { Gives (λ x. (x.0, x.1.now)) result (signed faults.Cut bytes.now) }
{
    if bytes.len() < 8 {
        return Err(ReadFault::Refused(BlockFault::Cut));
    }
    Ok((LittleEndian::read_i64(bytes), &bytes[8..]))
}

/// A signed number of a job, and what follows it.
pub(crate) fn signed_at(job: usize, bytes: &[u8]) -> Result<(i64, &[u8]), ReadFault>
    ensures { Gives (λ x. (x.0, x.1.now)) result (signed (faults.JobCut job) bytes.now) }
{
    if bytes.len() < 8 {
        return Err(ReadFault::Refused(BlockFault::JobCut(job)));
    }
    Ok((LittleEndian::read_i64(bytes), &bytes[8..]))
}

/// So many bytes as they are, and what follows them.
pub(crate) fn taken_at(count: u64, bytes: &[u8]) -> Result<(&[u8], &[u8]), ReadFault>
    ensures { Gives (λ x. (x.0.now, x.1.now)) result (taken faults.Cut count bytes.now) }
{
    if (bytes.len() as u64) < count {
        return Err(ReadFault::Refused(BlockFault::Cut));
    }
    let count = count as usize;
    Ok((&bytes[..count], &bytes[count..]))
}
