//! The records of base layers are written: how many rings, and for each how many points, and its points.
ghost use Rattle.std.specs.Prelude.{◌≡◌, ◌<◌, ◌^◌, ◌++◌, length, Some, IfOk, OnOk};
ghost use Rattle.store_terms.specs.BaseRecord.{ring as spelled, rings as spelled_rings, base_of_record};

use crate::bytes::{put_point, put_two_bytes};
use plane_base::{BaseLayer, Ring};
use std::alloc::{AllocError, Global};

/// The record of a base layer.
pub fn write_base(alloc: Global, layer: &BaseLayer) -> Result<Vec<u8>, AllocError>
    ensures spelled { IfOk result (λ v. v.items ≡ spelled_rings.text layer.now) }
    ensures reads_back { IfOk result (λ v. base_of_record v.items ≡ Some layer.now) }
{
    let rings = layer.rings();
    let mut out = Vec::new(alloc);
    put_two_bytes(&mut out, rings.len() as u16)?;
    for ring in rings {
        put_ring(&mut out, ring)?;
    }
    Ok(out)
}

/// Writes a ring after some bytes.
fn put_ring(out: &mut Vec<u8>, ring: &Ring) -> Result<(), AllocError>
    requires { length ring.now < 2 ^ 16 }
    ensures { OnOk result (out.new.items ≡ out.old.items ++ spelled.text ring.now) }
{
    let points = ring.points();
    put_two_bytes(out, points.len() as u16)?;
    for point in points {
        put_point(out, *point)?;
    }
    Ok(())
}
