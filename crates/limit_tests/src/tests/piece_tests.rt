//! A tile of as many pieces as are kept: built, committed, opened again and compared; and one of a piece more.
//!
//! In one column rectangles that lie are crossed by all that stand. The two long sides of a lying one are cut at both
//! sides of each standing one, the two at its ends by none, and the other way round. Where just one of the two layers
//! is, all of that is boundary: N lying and M standing ones have N * (2 * (2 * M + 1) + 2) + M * (2 * (2 * N + 1) + 2)
//! pieces. 49 and 165 have 32,536 and 33,000, together 65,536. A corner that is cut off adds one.
use crate::tests::testing::{define, name_of, put};
use disk_model::mem_disk::MemDisk;
use overlay_engine::step::{Reply, Step};
use std::alloc::Global;
use std::process::Abort;
use test_machines::machine::Machine;
use tile_build::Tile;
use version_core::Answers;
use version_core::verifying::Verdict;
use versions::Version;

/// How many rectangles lie, and how many stand.
const LYING: u32 = 49;

const STANDING: u32 = 165;

/// The corner at the end of the first lying rectangle, and the same cut off.
const CORNER: &str = "663 2";

const CUT: &str = "663 1, 662 2";

/// The rectangles that lie, from 1 to 663, two high and two apart. The first ends with a corner.
fn lying(rt: &impl Abort, alloc: Global, corner: &str) -> String {
    let mut text = format!(in alloc; "MULTIPOLYGON (((1 0, 663 0, {corner}, 1 2, 1 0))").expect(
        rt, "memory",
    );
    for place in 1..LYING {
        let (low, high) = (4 * place, 4 * place + 2);
        let one = format!(in alloc; ", ((1 {low}, 663 {low}, 663 {high}, 1 {high}, 1 {low}))");
        text.push_str(&one.expect(rt, "memory"))
            .expect(rt, "memory");
    }
    text.push_str(")").expect(rt, "memory");
    text
}

/// The rectangles that stand, from -1 to 195, two wide and two apart.
fn standing(rt: &impl Abort, alloc: Global) -> String {
    let mut text = format!(in alloc; "MULTIPOLYGON (((2 -1, 4 -1, 4 195, 2 195, 2 -1))").expect(
        rt, "memory",
    );
    for place in 1..STANDING {
        let (left, right) = (4 * place + 2, 4 * place + 4);
        let one = format!(in alloc;
            ", (({left} -1, {right} -1, {right} 195, {left} 195, {left} -1))"
        );
        text.push_str(&one.expect(rt, "memory"))
            .expect(rt, "memory");
    }
    text.push_str(")").expect(rt, "memory");
    text
}

/// The layers and where just one of the two is, its tile, and the device calls of their commit: two that shut the gate,
/// one for each of three layers, one for the tile, one for the catalog, and four.
fn steps(rt: &impl Abort, alloc: Global, corner: &str) -> Vec<Step> {
    let mut steps = Vec::new(alloc);
    let first = Step::Submit(put(rt, alloc, "H", &lying(rt, alloc, corner)));
    steps.push(first).expect(rt, "memory");
    let second = Step::Submit(put(rt, alloc, "K", &standing(rt, alloc)));
    steps.push(second).expect(rt, "memory");
    let third = Step::Submit(define(rt, alloc, "X", "H ^ K"));
    steps.push(third).expect(rt, "memory");
    let taken = Step::Take(name_of(rt, alloc, "X"), 16);
    steps.push(taken).expect(rt, "memory");
    steps.push(Step::Finish(0)).expect(rt, "memory");
    for _ in 0..11 {
        steps.push(Step::Device).expect(rt, "memory");
    }
    steps.push(Step::Report).expect(rt, "memory");
    steps
}

/// The answers to the first of them and to the last.
const FIRST: &[Reply] = &[
    Reply::Accepted(1),
    Reply::Accepted(2),
    Reply::Accepted(3),
    Reply::Taken(0),
    Reply::Kept,
    Reply::Going,
];

const LAST: &[Reply] = &[Reply::Going, Reply::Done(3), Reply::Durable(3)];

/// Makes those steps in an engine, and checks their answers.
fn run(rt: &impl Abort, alloc: Global, engine: &mut Machine<MemDisk>, corner: &str) {
    let steps = steps(rt, alloc, corner);
    let replies = engine.drive(alloc, &steps).expect(rt, "memory");
    assert!(rt; replies.starts_with(FIRST));
    assert!(rt; replies.ends_with(LAST));
}

/// Checks that the tile is opened with so many pieces, is reported line by line, and is right.
fn check_pieces(rt: &impl Abort, alloc: Global, version: &Version) {
    let name = name_of(rt, alloc, "X");
    match version.tile(&name, 16) {
        Some(Tile::Pieces(pieces)) => assert!(rt; pieces.len() == 65_536),
        _ => panic!(rt; "no pieces"),
    }
    let reported = version.edges(alloc, &name, 16).expect(rt, "a text");
    assert!(rt; reported.starts_with(b"edges 65536\n"));
    let verdict = version.verify(alloc, &name, 16).expect(rt, "compared");
    assert!(rt; verdict == Verdict::Same);
}

#[test]
fn a_tile_of_65536_pieces_is_committed_and_opened(rt: HostRuntime) {
    let alloc = rt.alloc();
    let mut engine = Machine::in_memory(alloc, 2000).expect(&rt, "a store");
    run(&rt, alloc, &mut engine, CORNER);
    let disk = engine.into_disk();
    assert!(rt; disk.bytes().len() > 2_097_152);
    let opened = Machine::recover(alloc, disk, 2000).expect(&rt, "a store");
    check_pieces(&rt, alloc, opened.version());
}

/// Checks that the tile is opened as one of too many pieces, and is right.
fn check_oversize(rt: &impl Abort, alloc: Global, version: &Version) {
    let name = name_of(rt, alloc, "X");
    assert!(rt; matches!(version.tile(&name, 16), Some(Tile::Oversize)));
    match version.edges(alloc, &name, 16) {
        Ok(_) => panic!(rt; "a text of too many pieces"),
        Err(fault) => assert!(rt; fault.code() == 22),
    }
    let verdict = version.verify(alloc, &name, 16).expect(rt, "compared");
    assert!(rt; verdict == Verdict::Same);
}

#[test]
fn a_tile_of_65537_pieces_is_too_large(rt: HostRuntime) {
    let alloc = rt.alloc();
    let mut engine = Machine::in_memory(alloc, 2000).expect(&rt, "a store");
    run(&rt, alloc, &mut engine, CUT);
    let disk = engine.into_disk();
    let opened = Machine::recover(alloc, disk, 2000).expect(&rt, "a store");
    check_oversize(&rt, alloc, opened.version());
}
