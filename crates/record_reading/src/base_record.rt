//! The records of base layers: how many rings, and for each how many points, and its points.
ghost use Rattle.std.specs.Prelude.{IfOk, IfErr};
ghost use Rattle.record_reading.specs.Answers.{Fails, Gives, Reads};
ghost use Rattle.record_reading.specs.Added.{IsAdded};
ghost use Rattle.store_terms.specs.Fields.{read_many};
ghost use Rattle.store_terms.specs.BaseRecord.{whole_point, ring as spelled, base_of_record};
ghost use Rattle.store_terms.specs.Image.{or_fault};
ghost use Rattle.store_terms.specs.declared.damage.Damage.TheVariants.{LayerForm};

use crate::bytes::two_bytes_at;
use crate::fault::{ReadFault, RecordFault};
use crate::points::point_at;
use plane_base::{BaseLayer, PlaneFault, Pt, Ring};
use std::alloc::Global;
use store_terms::damage::Damage;

/// The base layer that a base record spells.
pub fn read_base(alloc: Global, bytes: &[u8]) -> Result<BaseLayer, RecordFault>
    ensures { Reads (λ layer. layer) result (or_fault LayerForm (base_of_record bytes.now)) }
{
    match base_in(alloc, bytes) {
        Ok(layer) => Ok(layer),
        Err(fault) => Err(fault.as_record_fault(Damage::LayerForm)),
    }
}

/// The base layer that all of the bytes spell.
fn base_in(alloc: Global, bytes: &[u8]) -> Result<BaseLayer, ReadFault>
    ensures { Gives (λ layer. layer) result (base_of_record bytes.now) }
{
    let (count, rest) = two_bytes_at(bytes)?;
    let (rings, rest) = rings_at(alloc, count, rest)?;
    if !rest.is_empty() {
        return Err(ReadFault::Form);
    }
    match BaseLayer::new(alloc, rings) {
        Ok(layer) => Ok(layer),
        Err(PlaneFault::OutOfMemory) => Err(ReadFault::Memory),
        Err(_) => Err(ReadFault::Form),
    }
}

/// So many rings, one after another, and what follows them.
fn rings_at(alloc: Global, count: u16, bytes: &[u8]) -> Result<(Vec<Ring>, &[u8]), ReadFault>
    ensures { Gives (λ x. (x.0.items, x.1.now)) result (read_many spelled.read count bytes.now) }
{
    let mut rings = Vec::new(alloc);
    let mut rest = bytes;
    for _ in 0..count {
        let (ring, after) = ring_at(alloc, rest)?;
        rings.push(ring)?;
        rest = after;
    }
    Ok((rings, rest))
}

fn ring_at(alloc: Global, bytes: &[u8]) -> Result<(Ring, &[u8]), ReadFault>
    ensures { Gives (λ x. (x.0, x.1.now)) result (spelled.read bytes.now) }
{
    let (count, rest) = two_bytes_at(bytes)?;
    let (points, rest) = points_at(alloc, count, rest)?;
    Ok((Ring::new(points), rest))
}

/// So many points, one after another, and what follows them.
fn points_at(alloc: Global, count: u16, bytes: &[u8]) -> Result<(Vec<Pt>, &[u8]), ReadFault>
    ensures { Gives (λ x. (x.0.items, x.1.now)) result (read_many whole_point.read count bytes.now) }
{
    let mut points = Vec::new(alloc);
    let mut rest = bytes;
    for _ in 0..count {
        rest = push_point(&mut points, rest)?;
    }
    Ok((points, rest))
}

/// Adds the point at the front of some bytes, and gives what follows it.
fn push_point<'a>(points: &mut Vec<Pt>, bytes: &'a [u8]) -> Result<&'a [u8], ReadFault>
    ensures ok { IfOk result (λ rest. IsAdded whole_point bytes.now rest.now points.old.items points.new.items) }
    ensures err { IfErr result (λ fault. Fails fault (whole_point.read bytes.now)) }
{
    match point_at(bytes) {
        Ok((point, rest)) => {
            points.push(point)?;
            Ok(rest)
        }
        Err(fault) => Err(fault),
    }
}
