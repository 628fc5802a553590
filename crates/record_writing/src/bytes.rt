//! Numbers written after some bytes.
ghost use Rattle.std.specs.Prelude.{◌≡◌, ◌++◌, true, OnOk};
ghost use Rattle.byteorder.specs.Endian.{big_bytes};
ghost use Rattle.overlay_terms.specs.Plane.{InRange};
ghost use Rattle.record_writing.specs.Putting.{IsPut};
ghost use Rattle.store_terms.specs.Fields.{number};
ghost use Rattle.store_terms.specs.BaseRecord.{coordinate, whole_point};

use byteorder::{BigEndian, ByteOrder};
use plane_base::Pt;
use std::alloc::AllocError;

/// Writes a number of two bytes after some bytes.
pub(crate) fn put_two_bytes(out: &mut Vec<u8>, n: u16) -> Result<(), AllocError>
    ensures { OnOk result (out.new.items ≡ out.old.items ++ big_bytes 2 n) }
{
    let mut bytes = [0; 2];
    BigEndian::write_u16(&mut bytes, n);
    out.extend_from_slice(&bytes)
}

/// Writes a number of four bytes after some bytes.
pub(crate) fn put_four_bytes(out: &mut Vec<u8>, n: u32) -> Result<(), AllocError>
    ensures { OnOk result (IsPut (number 4) n out.old.items out.new.items) }
{
    let mut bytes = [0; 4];
    BigEndian::write_u32(&mut bytes, n);
    out.extend_from_slice(&bytes)?;
    Ok(())
}

/// Writes a number of eight bytes after some bytes.
pub(crate) fn put_eight_bytes(out: &mut Vec<u8>, n: u64) -> Result<(), AllocError>
    ensures { OnOk result (IsPut (number 8) n out.old.items out.new.items) }
{
    let mut bytes = [0; 8];
    BigEndian::write_u64(&mut bytes, n);
    out.extend_from_slice(&bytes)?;
    Ok(())
}

fn put_coordinate(out: &mut Vec<u8>, z: i64) -> Result<(), AllocError>
    requires { InRange z }
    ensures spelled { OnOk result (out.new.items ≡ out.old.items ++ coordinate.text z) }
    ensures fits { coordinate.fits z ≡ true }
{
    let mut bytes = [0; 4];
    BigEndian::write_i32(&mut bytes, z as i32);
    out.extend_from_slice(&bytes)
}

/// Writes a point after some bytes: x, then y.
pub(crate) fn put_point(out: &mut Vec<u8>, point: Pt) -> Result<(), AllocError>
    ensures spelled { OnOk result (out.new.items ≡ out.old.items ++ whole_point.text point) }
    ensures fits { OnOk result (whole_point.fits point ≡ true) }
{
    put_coordinate(out, point.x())?;
    put_coordinate(out, point.y())
}
