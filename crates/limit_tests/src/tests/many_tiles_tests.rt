//! As many layers as there may be with all their tiles, of which one commit writes all that are pending.
use crate::tests::testing::{define, name_of, numbered, put};
use disk_model::mem_disk::MemDisk;
use layer_expr::name::Name;
use overlay_engine::step::{Reply, Step};
use std::alloc::Global;
use std::process::Abort;
use test_machines::machine::Machine;
use tile_build::Tile;
use versions::Version;

/// Two bands over all columns, the second half above the first.
const LOWER: &str = "POLYGON ((-1048576 0, 1048576 0, 1048576 10, -1048576 10, -1048576 0))";

const UPPER: &str = "POLYGON ((-1048576 5, 1048576 5, 1048576 15, -1048576 15, -1048576 5))";

/// How many layers there are, of which two are bands, how many columns, and the tiles of the others.
const LAYERS: u8 = 32;

const COLUMNS: u8 = 33;

const TILES: u32 = 990;

/// The device calls of a commit of all: two that shut the gate, one for each layer and tile, one for the catalog, and
/// four.
const CALLS: u32 = 1029;

fn layer(rt: &impl Abort, alloc: Global, number: u8) -> Name {
    name_of(rt, alloc, &numbered(rt, alloc, number))
}

/// Makes the bands, and under all other names what both have.
fn add_layers(rt: &impl Abort, alloc: Global, steps: &mut Vec<Step>) {
    let lower = Step::Submit(put(rt, alloc, "L0", LOWER));
    steps.push(lower).expect(rt, "memory");
    let upper = Step::Submit(put(rt, alloc, "L1", UPPER));
    steps.push(upper).expect(rt, "memory");
    for number in 2..LAYERS {
        let name = numbered(rt, alloc, number);
        let both = Step::Submit(define(rt, alloc, &name, "L0 & L1"));
        steps.push(both).expect(rt, "memory");
    }
}

/// Takes each tile and builds it.
fn add_tiles(rt: &impl Abort, alloc: Global, steps: &mut Vec<Step>) {
    for number in 2..LAYERS {
        for column in 0..COLUMNS {
            let taken = Step::Take(layer(rt, alloc, number), column);
            steps.push(taken).expect(rt, "memory");
            let job = 33 * u32::from(number - 2) + u32::from(column);
            steps.push(Step::Finish(job)).expect(rt, "memory");
        }
    }
}

/// All of that, the device calls of one commit, and a report.
fn steps(rt: &impl Abort, alloc: Global) -> Vec<Step> {
    let mut steps = Vec::new(alloc);
    add_layers(rt, alloc, &mut steps);
    add_tiles(rt, alloc, &mut steps);
    for _ in 0..CALLS {
        steps.push(Step::Device).expect(rt, "memory");
    }
    steps.push(Step::Report).expect(rt, "memory");
    steps
}

/// The answers to those steps.
fn answers(rt: &impl Abort, alloc: Global) -> Vec<Reply> {
    let mut list = Vec::new(alloc);
    for number in 1..33 {
        list.push(Reply::Accepted(number)).expect(rt, "memory");
    }
    for job in 0..TILES {
        list.push(Reply::Taken(job)).expect(rt, "memory");
        list.push(Reply::Kept).expect(rt, "memory");
    }
    for _ in 1..CALLS {
        list.push(Reply::Going).expect(rt, "memory");
    }
    list.push(Reply::Done(32)).expect(rt, "memory");
    list.push(Reply::Durable(32)).expect(rt, "memory");
    list
}

fn run(rt: &impl Abort, alloc: Global, engine: &mut Machine<MemDisk>) {
    let steps = steps(rt, alloc);
    let replies = engine.drive(alloc, &steps).expect(rt, "memory");
    assert!(rt; replies.as_slice() == answers(rt, alloc).as_slice());
}

/// The pieces of a band that begin in a column: its two sides, with its end on the left in the first column; its end on
/// the right alone in the last.
fn pieces_in(column: u8) -> usize {
    match column {
        0 => 3,
        32 => 1,
        _ => 2,
    }
}

/// Checks that each tile of a version is there.
fn check_tiles(rt: &impl Abort, alloc: Global, version: &Version) {
    for number in 2..LAYERS {
        let name = layer(rt, alloc, number);
        for column in 0..COLUMNS {
            match version.tile(&name, column) {
                Some(Tile::Pieces(pieces)) => assert!(rt; pieces.len() == pieces_in(column)),
                _ => panic!(rt; "no pieces of {number} in {column}"),
            }
        }
    }
}

/// Checks that a version has all layers, with all their tiles.
fn check_version(rt: &impl Abort, alloc: Global, version: &Version) {
    assert!(rt; version.number() == 32);
    assert!(rt; version.layers().len() == 32);
    assert!(rt; version.pending(alloc).expect(rt, "memory").is_empty());
    check_tiles(rt, alloc, version);
}

#[test]
fn thirty_two_layers_with_all_their_tiles_are_one_commit(rt: HostRuntime) {
    let alloc = rt.alloc();
    let mut engine = Machine::in_memory(alloc, 2000).expect(&rt, "a store");
    run(&rt, alloc, &mut engine);
    let disk = engine.into_disk();
    let opened = Machine::recover(alloc, disk, 2000).expect(&rt, "a store");
    check_version(&rt, alloc, opened.version());
}
