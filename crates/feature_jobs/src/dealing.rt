//! Rows with their rings and corners dealt out: first all rows, then all rings, then all corners.
use crate::bytes::{add_u32, small, word_at};
use crate::reply::{RING, corner_size, row_size};
use std::alloc::{AllocError, Global};

/// Rows, rings and corners.
#[derive(Debug, Drop)]
pub(crate) struct Dealt {
    pub rows: Vec<u8>,
    pub rings: Vec<u8>,
    pub corners: Vec<u8>,
}

/// The first so many bytes, or all where there are fewer, and those after them.
fn parted(bytes: &[u8], count: usize) -> (&[u8], &[u8]) {
    if bytes.len() < count {
        return (bytes, &bytes[bytes.len()..]);
    }
    bytes.split_at(count)
}

/// Where a row says how many rings it has.
fn ring_count_at(kind: u32) -> usize {
    if kind == 0 { 20 } else { 12 }
}

/// Adds rings of one row, with its number; how many corners they have.
fn add_rings(to: &mut Vec<u8>, rings: &[u8], row: u32) -> Result<usize, AllocError> {
    let mut corners: usize = 0;
    for ring in rings.chunks(RING) {
        let (_, own) = parted(ring, 4);
        add_u32(to, row)?;
        to.extend_from_slice(own)?;
        corners = corners.saturating_add(word_at(ring, 8) as usize);
    }
    Ok(corners)
}

/// Deals out the first of some records: a row with its rings and corners.
fn deal_one<'a>(
    to: &mut Dealt,
    records: &'a [u8],
    kind: u32,
    flags: u32,
    row: u32,
) -> Result<&'a [u8], AllocError> {
    let (own, after) = parted(records, row_size(kind));
    to.rows.extend_from_slice(own)?;
    let count = word_at(own, ring_count_at(kind)) as usize;
    let (rings, rest) = parted(after, count.saturating_mul(RING));
    let corners = add_rings(&mut to.rings, rings, row)?;
    let (places, others) = parted(rest, corners.saturating_mul(corner_size(flags)));
    to.corners.extend_from_slice(places)?;
    Ok(others)
}

/// Deals out the records of so many jobs.
pub(crate) fn deal_out(
    alloc: Global,
    records: &[u8],
    kind: u32,
    flags: u32,
    jobs: usize,
) -> Result<Dealt, AllocError> {
    let mut all = Dealt {
        rows: Vec::new(alloc),
        rings: Vec::new(alloc),
        corners: Vec::new(alloc),
    };
    let mut rest = records;
    for job in 0..jobs {
        rest = deal_one(&mut all, rest, kind, flags, small(job))?;
    }
    Ok(all)
}
