//! Batches by their calls: what one makes, why one is refused, and which tiles it touches.
use crate::tests::edition::Edition;
use crate::tests::rows::check;
use crate::tests::testing::{Change, OVERLAP, SHIFTED, SQUARE, batch, command, layers_of};
use layer_book::Layers;
use layer_book::batch::Batch;
use layer_book::batch_fault::BatchFault;
use std::alloc::Global;
use std::process::Abort;
use versions::Version;

/// The number of the version after a batch and how many layers it has, or why there is none.
type Reply = Result<(u64, usize), BatchFault>;

/// Batches one after another, each with its reply.
const BATCHES: &[(&[Change], Reply)] = &[
    (OVERLAP, Ok((1, 3))),
    (
        &[Change::Put("C", SQUARE), Change::Remove("Z")],
        Err(BatchFault::At(1, 10)),
    ),
    (
        &[Change::Remove("A"), Change::Remove("I")],
        Err(BatchFault::At(0, 14)),
    ),
    (&[Change::Remove("I"), Change::Remove("A")], Ok((2, 1))),
];

#[test]
fn a_batch_makes_one_version_or_none(rt: HostRuntime) {
    let mut edition = Edition::after_all(&rt, rt.alloc(), &[]);
    for (row, (changes, want)) in BATCHES.iter().enumerate() {
        let batch = batch(&rt, rt.alloc(), changes);
        match edition.submit_all(rt.alloc(), &batch) {
            Ok(next) => {
                check(&rt, row, &Ok(counts(next.version())), want);
                edition = next;
            }
            Err(fault) => check(&rt, row, &Err(fault), want),
        }
    }
}

/// The number of a version, and how many layers it has.
fn counts(version: &Version) -> (u64, usize) {
    (version.number(), version.layers().len())
}

#[test]
fn a_batch_makes_the_layers_of_its_commands_in_turn(rt: HostRuntime) {
    let batch = batch(&rt, rt.alloc(), OVERLAP);
    let made = Layers::new(rt.alloc()).apply_all(rt.alloc(), &batch);
    let list = made.expect(&rt, "accepted").list(rt.alloc());
    let want = layers_of(&rt, rt.alloc(), SQUARE, SHIFTED, "A & B").list(rt.alloc());
    assert!(rt; list.expect(&rt, "memory") == want.expect(&rt, "memory"));
}

/// Numbers of commands, and whether so many are a batch.
const SIZES: &[(usize, bool)] = &[(0, false), (1, true), (64, true), (65, false)];

#[test]
fn a_batch_has_one_to_64_commands(rt: HostRuntime) {
    for (row, &(size, want)) in SIZES.iter().enumerate() {
        let mut drops = Vec::new(rt.alloc());
        for _ in 0..size {
            let one = command(&rt, rt.alloc(), &Change::Remove("A"));
            drops.push(one).expect(&rt, "memory");
        }
        check(&rt, row, &Batch::new(drops).is_ok(), &want);
    }
}

/// Batches on two squares and where both are, with one tile built, and how many tiles are pending then: of I all but
/// the one that is kept and the 33 of J, or all of I.
const TOUCHING: &[(&[Change], usize)] = &[
    (&[Change::Put("C", SQUARE), Change::Define("J", "C")], 65),
    (&[Change::Remove("I"), Change::Define("I", "A & B")], 33),
    (&[Change::Put("A", SHIFTED), Change::Put("A", SQUARE)], 33),
];

#[test]
fn a_batch_touches_the_tiles_of_each_of_its_commands(rt: HostRuntime) {
    let first = after_batch(
        &rt,
        rt.alloc(),
        &Edition::after_all(&rt, rt.alloc(), &[]),
        OVERLAP,
    );
    let edition = first.with_tile(&rt, rt.alloc(), "I", 16);
    for (row, (changes, want)) in TOUCHING.iter().enumerate() {
        let next = after_batch(&rt, rt.alloc(), &edition, changes);
        let pending = next.version().pending(rt.alloc()).expect(&rt, "memory");
        check(&rt, row, &pending.len(), want);
    }
}

/// The version after a batch that is accepted.
fn after_batch(rt: &impl Abort, alloc: Global, edition: &Edition, changes: &[Change]) -> Edition {
    let batch = batch(rt, alloc, changes);
    edition.submit_all(alloc, &batch).expect(rt, "accepted")
}
