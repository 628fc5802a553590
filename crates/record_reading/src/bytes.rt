//! Numbers at the front of some bytes.
ghost use Rattle.std.specs.Prelude.{◌≡◌, ◌∷◌, IfOk};
ghost use Rattle.record_reading.specs.Answers.{Gives};
ghost use Rattle.store_terms.specs.Fields.{number};

use crate::fault::ReadFault;
use byteorder::{BigEndian, ByteOrder};

/// The first byte, and what follows it.
pub(crate) fn byte_at(bytes: &[u8]) -> Result<(u8, &[u8]), ReadFault>
    ensures front { IfOk result (λ x. bytes.now ≡ x.0 ∷ x.1.now) }
    ensures gives { Gives (λ x. (x.0, x.1.now)) result ((number 1).read bytes.now) }
{
    if bytes.is_empty() {
        return Err(ReadFault::Form);
    }
    Ok((bytes[0], &bytes[1..]))
}

/// The number that two bytes spell, and what follows them.
pub(crate) fn two_bytes_at(bytes: &[u8]) -> Result<(u16, &[u8]), ReadFault>
    ensures { Gives (λ x. (x.0, x.1.now)) result ((number 2).read bytes.now) }
{
    if bytes.len() < 2 {
        return Err(ReadFault::Form);
    }
    Ok((BigEndian::read_u16(bytes), &bytes[2..]))
}

/// The number that four bytes spell, and what follows them.
pub(crate) fn four_bytes_at(bytes: &[u8]) -> Result<(u32, &[u8]), ReadFault>
    ensures { Gives (λ x. (x.0, x.1.now)) result ((number 4).read bytes.now) }
{
    if bytes.len() < 4 {
        return Err(ReadFault::Form);
    }
    Ok((BigEndian::read_u32(bytes), &bytes[4..]))
}

/// The number that eight bytes spell, and what follows them.
pub(crate) fn eight_bytes_at(bytes: &[u8]) -> Result<(u64, &[u8]), ReadFault>
    ensures { Gives (λ x. (x.0, x.1.now)) result ((number 8).read bytes.now) }
{
    if bytes.len() < 8 {
        return Err(ReadFault::Form);
    }
    Ok((BigEndian::read_u64(bytes), &bytes[8..]))
}
