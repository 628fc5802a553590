//! Stores in memory, and commits of one layer, for the tests. What cannot be made ends the test.
use crate::store::{Counts, Store, opened_disk};
use commit_plan::fault::StoreFault;
use commit_plan::image::Image;
use disk_model::mem_disk::{Call, MemDisk};
use layer_book::Layers;
use layer_book::command::Command;
use layer_expr::name::Name;
use layer_expr::reading::read_expr;
use plane_base::{BaseLayer, Pt, Ring};
use std::alloc::Global;
use std::process::Abort;
use std::sync::Arc;

/// The corners of a square, of which the last is the first.
const SQUARE: &[(i64, i64)] = &[(0, 0), (10, 0), (10, 10), (0, 10), (0, 0)];

/// How many device calls make a new store.
pub const CREATED: usize = 5;

/// How many more commit one layer.
pub const COMMITTED: usize = 8;

/// The entry of a tile of column 32 in a catalog: its record of 40 bytes is in block 7.
const ENTRY: [u8; 13] = [1, 0, 0, 0, 0, 0, 0, 0, 7, 0, 0, 0, 40];

/// The record of that tile: one vertical piece, both ends as whole points.
const TILE: [u8; 40] = [
    0, 32, 0, 0, 0, 1, 0, 16, 0, 0, 0, 15, 255, 255, 0, 16, 0, 0, 0, 16, 0, 0, 0, 0, 16, 0, 0, 0,
    15, 255, 255, 0, 0, 16, 0, 0, 0, 16, 0, 0,
];

/// A disk with these bytes.
pub fn disk_of(rt: &impl Abort, alloc: Global, bytes: &[u8]) -> MemDisk {
    let copy = Vec::from_slice(alloc, bytes).expect(rt, "memory");
    MemDisk::new(alloc, copy).expect(rt, "memory")
}

/// A new store in a file of these bytes, or the disk and the number of the fault.
pub fn created(
    rt: &impl Abort,
    alloc: Global,
    bytes: &[u8],
    max_blocks: u32,
) -> Result<Store, (MemDisk, u8)> {
    Store::created(alloc, disk_of(rt, alloc, bytes), max_blocks)
}

/// The store that nothing was refused to.
pub fn made(rt: &impl Abort, got: Result<Store, (MemDisk, u8)>) -> Store {
    match got {
        Ok(store) => store,
        Err((_, code)) => panic!(rt; "fault {code}"),
    }
}

/// The disk with these bytes once it was opened, and what it is opened as, or the fault.
pub fn opened(
    rt: &impl Abort,
    alloc: Global,
    bytes: &[u8],
) -> (MemDisk, Result<Counts, StoreFault>) {
    opened_disk(rt, alloc, disk_of(rt, alloc, bytes))
}

/// The ring through the corners of the square.
fn ring(rt: &impl Abort, alloc: Global) -> Ring {
    let mut points = Vec::new(alloc);
    for &(x, y) in SQUARE {
        let point = Pt::new(x, y).expect(rt, "in range");
        points.push(point).expect(rt, "memory");
    }
    Ring::new(points)
}

/// The base layer of the square alone.
fn square(rt: &impl Abort, alloc: Global) -> BaseLayer {
    let mut rings = Vec::new(alloc);
    rings.push(ring(rt, alloc)).expect(rt, "memory");
    BaseLayer::new(alloc, rings).expect(rt, "a layer")
}

/// The layers with the square under a name.
fn with_square(rt: &impl Abort, alloc: Global, layers: &Layers, name: &[u8]) -> Layers {
    let name = Name::new(alloc, name).expect(rt, "a name");
    let base = Arc::new(alloc, square(rt, alloc)).expect(rt, "memory");
    layers
        .apply(alloc, &Command::Put(name, base))
        .expect(rt, "accepted")
}

/// The layers with I = A & B.
fn with_overlap(rt: &impl Abort, alloc: Global, layers: &Layers) -> Layers {
    let name = Name::new(alloc, b"I").expect(rt, "a name");
    let expression = read_expr(alloc, b"A & B").expect(rt, "an expression");
    let shared = Arc::new(alloc, expression).expect(rt, "memory");
    layers
        .apply(alloc, &Command::Define(name, shared))
        .expect(rt, "accepted")
}

/// The image of version 1: the square A alone.
pub fn image_of_a(rt: &impl Abort, alloc: Global) -> Image {
    let layers = with_square(rt, alloc, &Layers::new(alloc), b"A");
    Image::new(alloc, 1, layers, Vec::new(alloc)).expect(rt, "memory")
}

/// The image of version 3: the squares A and B, and I = A & B with no tile.
fn image_of_three(rt: &impl Abort, alloc: Global) -> Image {
    let one = with_square(rt, alloc, &Layers::new(alloc), b"A");
    let two = with_square(rt, alloc, &one, b"B");
    let layers = with_overlap(rt, alloc, &two);
    Image::new(alloc, 3, layers, Vec::new(alloc)).expect(rt, "memory")
}

/// A disk on which a store was made and an image committed in so many steps.
fn disk_with(
    rt: &impl Abort,
    alloc: Global,
    max_blocks: u32,
    image: Image,
    steps: usize,
) -> MemDisk {
    let mut store = made(rt, created(rt, alloc, &[], max_blocks));
    assert!(rt; store.begin(rt, alloc, image).is_ok());
    assert!(rt; store.steps_to_done(steps) == Some(steps));
    store.into_disk()
}

/// A disk on which a store was made and the square A committed.
pub fn committed(rt: &impl Abort, alloc: Global) -> MemDisk {
    disk_with(rt, alloc, 5, image_of_a(rt, alloc), COMMITTED)
}

/// Puts bytes in the place of others; those that would lie after the end are left out.
pub fn put(file: &mut Vec<u8>, at: usize, bytes: &[u8]) {
    for (i, &byte) in bytes.iter().enumerate() {
        let target = at.saturating_add(i);
        if target < file.len() {
            file[target] = byte;
        }
    }
}

/// Whether these bytes are at a place of a file.
pub fn stand_at(file: &[u8], at: usize, bytes: &[u8]) -> bool {
    file.get(at..at.saturating_add(bytes.len())) == Some(bytes)
}

/// A file of eight blocks: the records of A and B in blocks 3 and 4, that of I in block 5, their catalog in
/// block 6 with a tile of I more, and that tile in block 7.
pub fn stored(rt: &impl Abort, alloc: Global) -> Vec<u8> {
    let disk = disk_with(rt, alloc, 100, image_of_three(rt, alloc), 10);
    let mut file = disk.bytes().to_vec(alloc).expect(rt, "memory");
    file.resize(32768, 0).expect(rt, "memory");
    put(&mut file, 24655, &ENTRY);
    put(&mut file, 4151, &[92]);
    put(&mut file, 28672, &TILE);
    file
}

/// Whether a sync was made and then only lengths and bytes were asked for.
pub fn only_reads(calls: &[Call]) -> bool {
    match calls.split_first() {
        Some((Call::Sync, others)) => others
            .iter()
            .all(|call| matches!(call, Call::Length | Call::Read(_, _))),
        _ => false,
    }
}
