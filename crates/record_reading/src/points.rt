//! Points at the front of some bytes.
ghost use Rattle.std.specs.Prelude.{◌≡◌, ◌≤◌, ◌↔◌, length, drop};
ghost use Rattle.overlay_terms.specs.Plane.{InRange};
ghost use Rattle.record_reading.specs.Answers.{Gives};
ghost use Rattle.record_reading.specs.Added.{before, number_in};
ghost use Rattle.store_terms.specs.BaseRecord.{whole_point};

use crate::fault::ReadFault;
use byteorder::{BigEndian, ByteOrder};
use plane_base::{COORD_MAX, Pt};

/// The point that eight bytes spell, and what follows them.
pub(crate) fn point_at(bytes: &[u8]) -> Result<(Pt, &[u8]), ReadFault>
    ensures { Gives (λ x. (x.0, x.1.now)) result (whole_point.read bytes.now) }
{
    if bytes.len() < 8 {
        return Err(ReadFault::Form);
    }
    match point_in(bytes) {
        Some(point) => Ok((point, &bytes[8..])),
        None => Err(ReadFault::Form),
    }
}

/// The point that the first eight bytes spell.
pub(crate) fn point_in(bytes: &[u8]) -> Option<Pt>
    requires { 8 ≤ length bytes.now }
    ensures { whole_point.read bytes.now ≡ before (drop 8 bytes.now) result }
{
    match Pt::new(coordinate_in(bytes), coordinate_in(&bytes[4..])) {
        Ok(point) => Some(point),
        Err(_) => None,
    }
}

/// The coordinate that the first four bytes spell; a number out of range where they spell none. The sum
/// keeps their number in 32 bits until it is known: widened at once it would be put together byte by byte.
fn coordinate_in(bytes: &[u8]) -> i64
    requires { 4 ≤ length bytes.now }
    ensures in_range { InRange result ↔ InRange (number_in bytes.now) }
    ensures value { InRange result → result ≡ number_in bytes.now }
{
    let moved = BigEndian::read_u32(bytes).wrapping_add(COORD_MAX as u32);
    i64::from(moved) - COORD_MAX
}
