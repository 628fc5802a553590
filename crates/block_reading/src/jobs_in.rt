//! Jobs at the front of some bytes.
ghost use Rattle.std.specs.Prelude.{◌≡◌, ◌^◌, ◌*ℤ◌, pos, IfOk, IfErr};
ghost use Rattle.block_reading.specs.Answers.{Fails, Gives, IsAdded};
ghost use Rattle.block_reading.specs.Block.{jobs};
ghost use Rattle.overlay_terms.specs.Within.{IsWithin};
ghost use Rattle.block_reading.specs.Jobs.{cells_after, core, counted, far_max, fraction, is_core, is_fraction, is_near_fraction, is_span, job, member};
ghost use Rattle.block_reading.specs.Reading.{many};

use crate::fault::{BlockFault, ReadFault};
use crate::head::Head;
use crate::job::{Core, FarFraction, Job, Member, Members, Queries};
use crate::numbers::{signed_at, word_at};
use crate::shapes_in::is_far_coordinate;
use std::alloc::Global;

/// Whether two coordinates are the ends of a span.
fn is_ordered(low: i64, high: i64) -> bool
    ensures { result ≡ is_span low high }
{
    if !is_far_coordinate(low) {
        return false;
    }
    if !is_far_coordinate(high) {
        return false;
    }
    low <= high
}

/// Whether a core is a box within the coordinates.
fn is_box(core: &Core) -> bool
    ensures { result ≡ is_core core.now }
{
    if !is_ordered(core.low_x, core.high_x) {
        return false;
    }
    is_ordered(core.low_y, core.high_y)
}

/// The core of a job, and what follows it.
fn core_at(at: usize, bytes: &[u8]) -> Result<(Core, &[u8]), ReadFault>
    ensures { Gives (λ x. (x.0, x.1.now)) result (core at bytes.now) }
{
    let (low_x, rest) = signed_at(at, bytes)?;
    let (high_x, rest) = signed_at(at, rest)?;
    let (low_y, rest) = signed_at(at, rest)?;
    let (high_y, rest) = signed_at(at, rest)?;
    let core = Core {
        low_x,
        high_x,
        low_y,
        high_y,
    };
    if is_box(&core) {
        return Ok((core, rest));
    }
    Err(ReadFault::Refused(BlockFault::BadCore(at)))
}

/// A feature of a layer, and what follows it.
fn member_at(at: usize, bytes: &[u8]) -> Result<(Member, &[u8]), ReadFault>
    ensures { Gives (λ x. (x.0, x.1.now)) result (member at bytes.now) }
{
    let (feature, rest) = word_at(at, bytes)?;
    let (layer, rest) = word_at(at, rest)?;
    Ok((Member { feature, layer }, rest))
}

/// Adds a feature of a layer, and gives what follows it.
fn push_member<'a>(
    members: &mut Vec<Member>,
    at: usize,
    bytes: &'a [u8],
) -> Result<&'a [u8], ReadFault>
    ensures ok { IfOk result (λ rest. IsAdded (member at) bytes.now rest.now members.old.items members.new.items) }
    ensures err { IfErr result (λ fault. Fails fault (member at bytes.now)) }
{
    match member_at(at, bytes) {
        Ok((next, rest)) => {
            members.push(next)?;
            Ok(rest)
        }
        Err(fault) => Err(fault),
    }
}

/// So many features of layers, and what follows them.
fn members_at(
    alloc: Global,
    at: usize,
    many_are: u32,
    bytes: &[u8],
) -> Result<(Vec<Member>, &[u8]), ReadFault>
    ensures { Gives (λ x. (x.0.items, x.1.now)) result (many (λ _. member at) 0 many_are bytes.now) }
{
    let mut members = Vec::new(alloc);
    let mut rest = bytes;
    for _ in 0..many_are {
        rest = push_member(&mut members, at, rest)?;
    }
    Ok((members, rest))
}

/// The greatest numerator of a coordinate over w.
fn far_limit(w: i64) -> i128
    ensures value { result ≡ pos far_max *ℤ w }
    ensures small { IsWithin (2 ^ 104) result }
{
    i128::from(w) * 2199023255552
}

/// Whether x / w lies within the coordinates, w being at least 1.
fn is_far_fraction(x: i64, w: i64) -> bool
    ensures { result ≡ is_near_fraction x w }
{
    let limit = far_limit(w);
    if i128::from(x) < -limit {
        return false;
    }
    i128::from(x) <= limit
}

/// Whether (x / w, y / w) is a point within the coordinates.
fn is_point(x: i64, y: i64, w: i64) -> bool
    ensures { result ≡ is_fraction x y w }
{
    if w < 1 {
        return false;
    }
    if !is_far_fraction(x, w) {
        return false;
    }
    is_far_fraction(y, w)
}

/// A point of a job, and what follows it.
fn fraction_at(at: usize, bytes: &[u8]) -> Result<(FarFraction, &[u8]), ReadFault>
    ensures { Gives (λ x. (x.0, x.1.now)) result (fraction at bytes.now) }
{
    let (x, rest) = signed_at(at, bytes)?;
    let (y, rest) = signed_at(at, rest)?;
    let (w, rest) = signed_at(at, rest)?;
    if is_point(x, y, w) {
        return Ok((FarFraction { x, y, w }, rest));
    }
    Err(ReadFault::Refused(BlockFault::BadFraction(at)))
}

/// Adds a point of a job, and gives what follows it.
fn push_fraction<'a>(
    points: &mut Vec<FarFraction>,
    at: usize,
    bytes: &'a [u8],
) -> Result<&'a [u8], ReadFault>
    ensures ok { IfOk result (λ rest. IsAdded (fraction at) bytes.now rest.now points.old.items points.new.items) }
    ensures err { IfErr result (λ fault. Fails fault (fraction at bytes.now)) }
{
    match fraction_at(at, bytes) {
        Ok((next, rest)) => {
            points.push(next)?;
            Ok(rest)
        }
        Err(fault) => Err(fault),
    }
}

/// So many points of a job, and what follows them.
fn fractions_at(
    alloc: Global,
    at: usize,
    many_are: u32,
    bytes: &[u8],
) -> Result<(Vec<FarFraction>, &[u8]), ReadFault>
    ensures { Gives (λ x. (x.0.items, x.1.now)) result (many (λ _. fraction at) 0 many_are bytes.now) }
{
    let mut points = Vec::new(alloc);
    let mut rest = bytes;
    for _ in 0..many_are {
        rest = push_fraction(&mut points, at, rest)?;
    }
    Ok((points, rest))
}

/// A pair of features, and what follows it.
fn pair_at(at: usize, bytes: &[u8]) -> Result<(Job, &[u8]), ReadFault>
    ensures { Gives (λ x. (x.0, x.1.now)) result (job 0 at bytes.now) }
{
    let (a, rest) = word_at(at, bytes)?;
    let (b, rest) = word_at(at, rest)?;
    Ok((Job::Pair(a, b), rest))
}

/// The features of a job's layers, and what follows them.
fn counted_members_at(alloc: Global, at: usize, bytes: &[u8]) -> Result<(Members, &[u8]), ReadFault>
    ensures { Gives (λ x. (x.0, x.1.now)) result (counted member at bytes.now) }
{
    let (count, rest) = word_at(at, bytes)?;
    let (members, rest) = members_at(alloc, at, count, rest)?;
    Ok((Members { members }, rest))
}

/// The features of layers for a core, and what follows them.
fn cells_of(alloc: Global, at: usize, core: Core, bytes: &[u8]) -> Result<(Job, &[u8]), ReadFault>
    ensures { Gives (λ x. (x.0, x.1.now)) result (cells_after core at bytes.now) }
{
    let (members, rest) = counted_members_at(alloc, at, bytes)?;
    Ok((Job::Cells(core, members), rest))
}

/// A core with features of layers, and what follows it.
fn cells_at(alloc: Global, at: usize, bytes: &[u8]) -> Result<(Job, &[u8]), ReadFault>
    ensures { Gives (λ x. (x.0, x.1.now)) result (job 1 at bytes.now) }
{
    match core_at(at, bytes) {
        Ok((core, rest)) => cells_of(alloc, at, core, rest),
        Err(fault) => Err(fault),
    }
}

/// The points of a job, and what follows them.
fn counted_points_at(alloc: Global, at: usize, bytes: &[u8]) -> Result<(Queries, &[u8]), ReadFault>
    ensures { Gives (λ x. (x.0, x.1.now)) result (counted fraction at bytes.now) }
{
    let (count, rest) = word_at(at, bytes)?;
    let (points, rest) = fractions_at(alloc, at, count, rest)?;
    Ok((Queries { points }, rest))
}

/// Points against a feature, and what follows them.
fn locate_at(alloc: Global, at: usize, bytes: &[u8]) -> Result<(Job, &[u8]), ReadFault>
    ensures { Gives (λ x. (x.0, x.1.now)) result (job 2 at bytes.now) }
{
    let (feature, rest) = word_at(at, bytes)?;
    let (queries, rest) = counted_points_at(alloc, at, rest)?;
    Ok((Job::Locate(feature, queries), rest))
}

/// A job of a kind, and what follows it.
fn job_at(alloc: Global, kind: u32, at: usize, bytes: &[u8]) -> Result<(Job, &[u8]), ReadFault>
    ensures { Gives (λ x. (x.0, x.1.now)) result (job kind at bytes.now) }
{
    match kind {
        0 => pair_at(at, bytes),
        1 => cells_at(alloc, at, bytes),
        2 => locate_at(alloc, at, bytes),
        _ => Err(ReadFault::Refused(BlockFault::UnknownKind)),
    }
}

/// So many jobs of a kind, and what follows them.
fn many_jobs_at(
    alloc: Global,
    kind: u32,
    many_are: u32,
    bytes: &[u8],
) -> Result<(Vec<Job>, &[u8]), ReadFault>
    ensures { Gives (λ x. (x.0.items, x.1.now)) result (many (job kind) 0 many_are bytes.now) }
{
    let mut jobs = Vec::new(alloc);
    let mut rest = bytes;
    for at in 0..many_are {
        let (next, after) = job_at(alloc, kind, at as usize, rest)?;
        jobs.push(next)?;
        rest = after;
    }
    Ok((jobs, rest))
}

/// The jobs that some bytes are.
pub(crate) fn all_jobs_in(alloc: Global, head: &Head, bytes: &[u8]) -> Result<Vec<Job>, ReadFault>
    ensures { Gives (λ js. js.items) result (jobs head.now bytes.now) }
{
    let (jobs, rest) = many_jobs_at(alloc, head.kind, head.jobs, bytes)?;
    if !rest.is_empty() {
        return Err(ReadFault::Refused(BlockFault::JobsTooLong));
    }
    Ok(jobs)
}
