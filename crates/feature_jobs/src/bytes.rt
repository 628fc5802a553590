//! Numbers as bytes, their lowest byte first.
ghost use Rattle.std.specs.Prelude.{◌≡◌, ◌++◌, OnOk};
ghost use Rattle.byteorder.specs.Endian.{little_bytes};
ghost use Rattle.feature_jobs.specs.Bytes.{small, wide, words};

use byteorder::{ByteOrder, LittleEndian};
use std::alloc::AllocError;

/// A count as a number of 32 bits, or the greatest of these.
pub(crate) fn small(count: usize) -> u32
    ensures { result ≡ small count }
{
    match u32::try_from(count) {
        Ok(own) => own,
        Err(_) => u32::MAX,
    }
}

/// The number of 4 bytes from a place on; 0 where there are fewer.
pub(crate) fn word_at(row: &[u8], at: usize) -> u32 {
    match row.get(at..at.saturating_add(4)) {
        Some(bytes) => LittleEndian::read_u32(bytes),
        None => 0,
    }
}

/// Adds a number of 4 bytes.
pub(crate) fn add_u32(to: &mut Vec<u8>, number: u32) -> Result<(), AllocError>
    ensures { OnOk result (to.new.items ≡ to.old.items ++ little_bytes 4 number) }
{
    to.extend_from_slice(&number.to_le_bytes())?;
    Ok(())
}

/// Adds a number of 8 bytes.
pub(crate) fn add_u64(to: &mut Vec<u8>, number: u64) -> Result<(), AllocError>
    ensures { OnOk result (to.new.items ≡ to.old.items ++ little_bytes 8 number) }
{
    to.extend_from_slice(&number.to_le_bytes())?;
    Ok(())
}

/// A signed number as 16 bytes.
fn wide(number: i128) -> [u8; 16]
    ensures { result ≡ wide number }
{
    number.to_le_bytes()
}

/// Adds a signed number of 16 bytes.
pub(crate) fn add_i128(to: &mut Vec<u8>, number: i128) -> Result<(), AllocError>
    ensures { OnOk result (to.new.items ≡ to.old.items ++ wide number) }
{
    to.extend_from_slice(&wide(number))?;
    Ok(())
}

/// Adds numbers of 4 bytes each.
pub(crate) fn add_words(to: &mut Vec<u8>, numbers: &[u32]) -> Result<(), AllocError>
    ensures { OnOk result (to.new.items ≡ to.old.items ++ words numbers.now) }
{
    for number in numbers {
        add_u32(to, *number)?;
    }
    Ok(())
}
