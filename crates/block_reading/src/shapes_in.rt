//! Features at the front of some bytes.
ghost use Rattle.std.specs.Prelude.{◌≡◌, IfOk, IfErr};
ghost use Rattle.block_reading.specs.Answers.{Fails, Gives, IsAdded};
ghost use Rattle.block_reading.specs.Block.{count, shapes};
ghost use Rattle.block_reading.specs.Jobs.{is_near, point};
ghost use Rattle.block_reading.specs.Reading.{many};

use crate::fault::{BlockFault, ReadFault};
use crate::head::Head;
use crate::numbers::{coordinate_at, count_at};
use crate::shape::{FarPoint, Shapes};
use std::alloc::Global;

/// The greatest coordinate, 2^41.
const FAR_MAX: i64 = 2199023255552;

/// Whether a coordinate lies within the range.
pub(crate) fn is_far_coordinate(z: i64) -> bool
    ensures { result ≡ is_near z }
{
    -FAR_MAX <= z && z <= FAR_MAX
}

/// So many counts, and what follows them.
fn counts_at(alloc: Global, many_are: u32, bytes: &[u8]) -> Result<(Vec<u32>, &[u8]), ReadFault>
    ensures { Gives (λ x. (x.0.items, x.1.now)) result (many count 0 many_are bytes.now) }
{
    let mut counts = Vec::new(alloc);
    let mut rest = bytes;
    for at in 0..many_are {
        let (next, after) = count_at(at as usize, rest)?;
        counts.push(next)?;
        rest = after;
    }
    Ok((counts, rest))
}

/// The point with a number, and what follows it.
fn point_at(at: usize, bytes: &[u8]) -> Result<(FarPoint, &[u8]), ReadFault>
    ensures { Gives (λ x. (x.0, x.1.now)) result (point at bytes.now) }
{
    let (x, rest) = coordinate_at(bytes)?;
    let (y, rest) = coordinate_at(rest)?;
    if is_far_coordinate(x) && is_far_coordinate(y) {
        return Ok((FarPoint { x, y }, rest));
    }
    Err(ReadFault::Refused(BlockFault::OutOfRange(at)))
}

/// Adds the point with a number, and gives what follows it.
fn push_point<'a>(
    points: &mut Vec<FarPoint>,
    at: usize,
    bytes: &'a [u8],
) -> Result<&'a [u8], ReadFault>
    ensures ok { IfOk result (λ rest. IsAdded (point at) bytes.now rest.now points.old.items points.new.items) }
    ensures err { IfErr result (λ fault. Fails fault (point at bytes.now)) }
{
    match point_at(at, bytes) {
        Ok((next, rest)) => {
            points.push(next)?;
            Ok(rest)
        }
        Err(fault) => Err(fault),
    }
}

/// So many points, and what follows them.
fn points_at(
    alloc: Global,
    many_are: u32,
    bytes: &[u8],
) -> Result<(Vec<FarPoint>, &[u8]), ReadFault>
    ensures { Gives (λ x. (x.0.items, x.1.now)) result (many point 0 many_are bytes.now) }
{
    let mut points = Vec::new(alloc);
    let mut rest = bytes;
    for at in 0..many_are {
        rest = push_point(&mut points, at as usize, rest)?;
    }
    Ok((points, rest))
}

/// The features of a block, and what follows them.
pub(crate) fn shapes_at<'a>(
    alloc: Global,
    head: &Head,
    bytes: &'a [u8],
) -> Result<(Shapes, &'a [u8]), ReadFault>
    ensures { Gives (λ x. (x.0, x.1.now)) result (shapes head.now bytes.now) }
{
    let (ring_counts, rest) = counts_at(alloc, head.features, bytes)?;
    let (point_counts, rest) = counts_at(alloc, head.rings, rest)?;
    let (points, rest) = points_at(alloc, head.points, rest)?;
    Ok((
        Shapes {
            ring_counts,
            point_counts,
            points,
        },
        rest,
    ))
}
