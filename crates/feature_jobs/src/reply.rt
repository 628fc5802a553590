//! Replies to blocks, as bytes; docs/FORMAT.md has the form.
ghost use Rattle.std.specs.Prelude.{◌≡◌, ◌<◌, ◌/◌, ◌++◌, length, IfOk, OnOk};
ghost use Rattle.feature_jobs.specs.Bytes.{small, wide};
ghost use Rattle.feature_jobs.specs.Rows.{fault_row, cells_head, most, bound_of, pair_head, HasFound, HasPair};
ghost use Rattle.feature_jobs.specs.Reply.{refused, row_size, corner_size, length_of, head_of, bytes_of};

use crate::bytes::{add_i128, add_u32, add_u64, add_words, small};
use crate::pair::PairFound;
use crate::rings::{RingForm, outline_bytes, ring_count};
use boundary_outlines::Outline;
use feature_windows::Found;
use std::alloc::{AllocError, Global};
use std::marker::Model;

/// What a reply begins with, after its length: OVFR.
const MAGIC: u32 = 1380341327;
/// What it ends with: OVFE.
const END: u32 = 1162237519;
/// How many bytes the head and the end mark have.
const FIXED: u64 = 52;

/// How many bytes a ring has.
pub(crate) const RING: usize = 16;

/// The rows of a block with their rings and corners, or why it is refused, with the job that is at fault.
#[derive(Debug, Drop)]
pub struct Reply {
    pub(crate) kind: u32,
    pub(crate) flags: u32,
    pub(crate) fault: u32,
    pub(crate) job: u32,
    pub(crate) rows: Vec<u8>,
    pub(crate) rings: Vec<u8>,
    pub(crate) corners: Vec<u8>,
}

impl Model for Reply {
    ghost use Rattle.feature_jobs.specs.Reply as terms;

    ghost Value = { terms.Reply };

    ghost view = { λ r. record {
      kind = r.kind;
      flags = r.flags;
      fault = r.fault;
      job = r.job;
      rows = r.rows.items;
      rings = r.rings.items;
      corners = r.corners.items;
    } };
}

/// The greater number.
fn most(a: i128, b: i128) -> i128
    ensures { result ≡ most a b }
{
    if a < b { b } else { a }
}

/// What a pair's row begins with.
fn pair_head(alloc: Global, one: &PairFound, rings: u32) -> Result<Vec<u8>, AllocError>
    ensures { IfOk result (λ row. row.items ≡ pair_head one.now rings) }
{
    let mut row = Vec::new(alloc);
    let proper = if one.is_proper { 1 } else { 0 };
    add_words(
        &mut row,
        &[
            0,
            one.relation.number(),
            proper,
            small(one.both.pieces),
            small(one.both.windows),
            rings,
            0,
            0,
        ],
    )?;
    Ok(row)
}

/// Adds twice the areas of both features of a pair.
fn add_own_areas(to: &mut Vec<u8>, one: &PairFound) -> Result<(), AllocError>
    ensures { OnOk result (to.new.items ≡ (to.old.items ++ wide one.now.a.twice) ++ wide one.now.b.twice) }
{
    add_i128(to, one.a.twice)?;
    add_i128(to, one.b.twice)
}

/// How far one of the areas of a pair may be off.
fn bound_of(one: &PairFound) -> i128
    ensures { result ≡ bound_of one.now }
{
    most(one.both.bound, most(one.a.bound, one.b.bound))
}

/// Adds twice the area of what both have in common, and how far one of the areas may be off.
fn add_common_area(to: &mut Vec<u8>, one: &PairFound) -> Result<(), AllocError>
    ensures { OnOk result (to.new.items ≡ (to.old.items ++ wide one.now.both.twice) ++ wide (bound_of one.now)) }
{
    add_i128(to, one.both.twice)?;
    add_i128(to, bound_of(one))
}

/// The row of a pair with its rings and corners.
pub(crate) fn pair_row(
    alloc: Global,
    one: &PairFound,
    form: &RingForm,
) -> Result<Vec<u8>, AllocError>
    ensures { IfOk result (λ row. HasPair one.now row.items) }
{
    let mut row = pair_head(alloc, one, ring_count(&one.outline))?;
    add_own_areas(&mut row, one)?;
    add_common_area(&mut row, one)?;
    let rest = outline_bytes(alloc, &one.outline, form)?;
    row.extend_from_slice(&rest)?;
    Ok(row)
}

/// What a core's row begins with.
fn cells_head(alloc: Global, found: &Found, rings: u32) -> Result<Vec<u8>, AllocError>
    ensures { IfOk result (λ row. row.items ≡ cells_head found.now rings) }
{
    let mut row = Vec::new(alloc);
    add_words(
        &mut row,
        &[0, small(found.pieces), small(found.windows), rings],
    )?;
    Ok(row)
}

/// Adds twice an area, and how far it may be off.
fn add_area(to: &mut Vec<u8>, found: &Found) -> Result<(), AllocError>
    ensures { OnOk result (to.new.items ≡ (to.old.items ++ wide found.now.twice) ++ wide found.now.bound) }
{
    add_i128(to, found.twice)?;
    add_i128(to, found.bound)
}

/// The row of a core with its rings and corners.
pub(crate) fn cells_row(
    alloc: Global,
    found: &Found,
    outline: &Option<Outline>,
    form: &RingForm,
) -> Result<Vec<u8>, AllocError>
    ensures { IfOk result (λ row. HasFound found.now row.items) }
{
    let mut row = cells_head(alloc, found, ring_count(outline))?;
    add_area(&mut row, found)?;
    let rest = outline_bytes(alloc, outline, form)?;
    row.extend_from_slice(&rest)?;
    Ok(row)
}

/// A row of so many bytes that names a fault.
pub(crate) fn fault_row(alloc: Global, fault: u32, size: usize) -> Result<Vec<u8>, AllocError>
    ensures { IfOk result (λ row. row.items ≡ fault_row fault size) }
{
    let mut row = Vec::new(alloc);
    add_u32(&mut row, fault)?;
    let zeros = vec![in alloc; 0_u8; size.saturating_sub(4)]?;
    row.extend_from_slice(&zeros)?;
    Ok(row)
}

/// How many bytes a row of a kind has.
pub(crate) fn row_size(kind: u32) -> usize
    ensures value { result ≡ row_size kind }
    ensures some { 0 < result }
{
    match kind {
        0 => 96,
        1 => 48,
        _ => 4,
    }
}

/// How many bytes a corner has, by a block's flags.
pub(crate) fn corner_size(flags: u32) -> usize
    ensures value { result ≡ corner_size flags }
    ensures some { 0 < result }
{
    if flags / 2 % 2 == 1 { 48 } else { 16 }
}

impl Reply {
    /// The reply to a block that is refused.
    pub(crate) fn refused(alloc: Global, fault: u32, job: u32) -> Reply
        ensures { result ≡ refused fault job }
    {
        Reply {
            kind: 0,
            flags: 0,
            fault,
            job,
            rows: Vec::new(alloc),
            rings: Vec::new(alloc),
            corners: Vec::new(alloc),
        }
    }

    /// How many rows there are.
    fn count(&self) -> u32
        ensures { result ≡ small (length self.now.rows / row_size self.now.kind) }
    {
        small(self.rows.len() / row_size(self.kind))
    }

    /// How many bytes the whole has.
    fn length(&self) -> u64
        ensures { result ≡ length_of self.now }
    {
        let rows = FIXED.saturating_add(self.rows.len() as u64);
        let rings = rows.saturating_add(self.rings.len() as u64);
        rings.saturating_add(self.corners.len() as u64)
    }

    /// The bytes before the rows.
    fn head(&self, alloc: Global) -> Result<Vec<u8>, AllocError>
        ensures { IfOk result (λ head. head.items ≡ head_of self.now) }
    {
        let mut head = Vec::new(alloc);
        add_u64(&mut head, self.length())?;
        add_words(
            &mut head,
            &[
                MAGIC,
                1,
                self.kind,
                self.flags,
                self.count(),
                small(self.rings.len() / RING),
                small(self.corners.len() / corner_size(self.flags)),
                self.fault,
                self.job,
                0,
            ],
        )?;
        Ok(head)
    }

    /// The whole reply: a head, the rows, the rings, the corners, an end mark.
    pub fn bytes(&self, alloc: Global) -> Result<Vec<u8>, AllocError>
        ensures bytes { IfOk result (λ all. all.items ≡ bytes_of self.now) }
    {
        let mut all = self.head(alloc)?;
        all.extend_from_slice(&self.rows)?;
        all.extend_from_slice(&self.rings)?;
        all.extend_from_slice(&self.corners)?;
        add_u32(&mut all, END)?;
        Ok(all)
    }
}
