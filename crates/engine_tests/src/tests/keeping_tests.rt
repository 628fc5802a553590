//! Which records a commit writes: those that the store does not hold already.
use crate::tests::testing::{
    BLOCKS, CREATED, SHIFTED, SMALLER, SQUARE, Words, disk_of, drive, put_square,
};
use disk_model::image::Choice;
use disk_model::mem_disk::{Call, MemDisk};
use layer_expr::name::Name;
use overlay_engine::step::Reply;
use std::alloc::Global;
use std::test::Fail;
use test_machines::machine::Machine;
use version_core::verifying::Verdict;

/// How many bytes a block has, and how many of them the slots take.
const BLOCK: usize = 4096;

const SLOTS: usize = 8192;

/// Steps, how many calls the commit after them makes, and the blocks of the extents that it writes, in order.
type Line = (&'static [Words], usize, &'static [usize]);

/// A list of lines, the one commit after the other.
type Lines = &'static [Line];

/// What the engine of a list is asked, and what it writes.
const LISTS: &[Lines] = &[
    // A layer keeps its record while others are put, and when it is put again with the same rings.
    &[
        (&[Words::Put("A", SQUARE)], 8, &[3, 4]),
        (&[Words::Put("B", SHIFTED)], 8, &[2, 5]),
        (&[Words::Put("A", SQUARE)], 7, &[4]),
    ],
    // With other rings its record is written anew: it is not kept for its name.
    &[
        (&[Words::Put("A", SQUARE)], 8, &[3, 4]),
        (&[Words::Put("A", SHIFTED)], 8, &[2, 5]),
    ],
    // Two layers with the same rings have two records.
    &[(
        &[Words::Put("A", SQUARE), Words::Put("B", SQUARE)],
        9,
        &[3, 4, 5],
    )],
    // A layer that was dropped and put again between two commits keeps its record, after the others.
    &[
        (
            &[Words::Put("A", SQUARE), Words::Put("B", SHIFTED)],
            9,
            &[3, 4, 5],
        ),
        (&[Words::Drop("A"), Words::Put("A", SQUARE)], 7, &[2]),
        (&[Words::Drop("B")], 7, &[5]),
    ],
    // A definition and a tile that is built again and equal keep theirs.
    &[
        (
            &[
                Words::Put("A", SQUARE),
                Words::Put("B", SHIFTED),
                Words::Define("I", "A & B"),
                Words::Take("I", 16),
                Words::Finish(0),
            ],
            11,
            &[3, 4, 5, 6, 7],
        ),
        (
            &[
                Words::Put("A", SMALLER),
                Words::Put("A", SQUARE),
                Words::Take("I", 16),
                Words::Finish(1),
            ],
            7,
            &[2],
        ),
        (
            &[
                Words::Put("A", SMALLER),
                Words::Take("I", 16),
                Words::Finish(2),
            ],
            9,
            &[7, 8, 9],
        ),
    ],
];

/// Makes so many device calls, and gives the reply to the last.
fn committed(
    alloc: Global,
    engine: &mut Machine<MemDisk>,
    calls: usize,
) -> Result<Option<Reply>, Fail> {
    let steps = vec![in alloc; Words::Device; calls]?;
    let replies = drive(alloc, engine, &steps)?;
    Ok(replies.last().copied())
}

/// The blocks of the extents that some calls write.
fn extents_of(alloc: Global, calls: &[Call]) -> Result<Vec<usize>, Fail> {
    let mut blocks = Vec::new(alloc);
    for call in calls {
        if let Call::Write(at, _) = call {
            if *at >= SLOTS {
                blocks.push(*at / BLOCK)?;
            }
        }
    }
    Ok(blocks)
}

/// Makes the steps of a line and a commit, and says whether the last reply is that it is done.
fn is_done(alloc: Global, engine: &mut Machine<MemDisk>, line: &Line) -> Result<bool, Fail> {
    drive(alloc, engine, line.0)?;
    let last = committed(alloc, engine, line.1)?;
    Ok(matches!(last, Some(Reply::Done(_))))
}

/// Whether each line's commit is done by its calls, and writes just its extents; and all calls together.
fn are_written(alloc: Global, lines: &[Line], calls: &[Call]) -> Result<bool, Fail> {
    let mut from = CREATED;
    for line in lines {
        let to = from.saturating_add(line.1);
        let written = extents_of(alloc, calls.get(from..to).unwrap_or(&[]))?;
        if written.as_slice() != line.2 {
            return Ok(false);
        }
        from = to;
    }
    Ok(calls.len() == from)
}

/// The layers of an engine, and whether it has the tile of I in column 16: the one that the lists build.
fn held(alloc: Global, engine: &Machine<MemDisk>) -> Result<(Vec<u8>, bool), Fail> {
    let has_tile = engine.has_tile(&Name::new(alloc, b"I")?, 16);
    Ok((engine.listed(alloc)?, has_tile))
}

/// Whether a disk recovers to just these layers and this tile, which is right.
fn is_recovered(
    alloc: Global,
    disk: &MemDisk,
    layers: &[u8],
    has_tile: bool,
) -> Result<bool, Fail> {
    let left = disk.image(disk.calls().len(), Choice::New)?;
    let engine = Machine::recover(alloc, left, BLOCKS)?;
    let (found, is_there) = held(alloc, &engine)?;
    if found.as_slice() != layers || is_there != has_tile {
        return Ok(false);
    }
    let name = Name::new(alloc, b"I")?;
    Ok(!has_tile || engine.verify(alloc, &name, 16)? == Verdict::Same)
}

/// Whether the commits of some lines write so, and what they write and keep is recovered.
fn writes_so(alloc: Global, lines: &[Line]) -> Result<bool, Fail> {
    let mut engine = Machine::in_memory(alloc, BLOCKS)?;
    for line in lines {
        if !is_done(alloc, &mut engine, line)? {
            return Ok(false);
        }
    }
    let (layers, has_tile) = held(alloc, &engine)?;
    let disk = engine.into_disk();
    Ok(are_written(alloc, lines, disk.calls())? && is_recovered(alloc, &disk, &layers, has_tile)?)
}

/// After how many of the lines the commits do not write so; 0 where they do after each.
fn broken_after(alloc: Global, lines: &[Line]) -> Result<usize, Fail> {
    for count in 1..=lines.len() {
        if !writes_so(alloc, lines.get(..count).unwrap_or(&[]))? {
            return Ok(count);
        }
    }
    Ok(0)
}

#[test]
fn a_commit_writes_only_what_changed(rt: HostRuntime) -> Result<(), Fail> {
    for (list, &lines) in LISTS.iter().enumerate() {
        let count = broken_after(rt.alloc(), lines)?;
        assert!(rt; count == 0, "list {list}, after {count} lines");
    }
    Ok(())
}

/// The most blocks of a file, how many device calls the second commit is asked for, and the reply to the last.
const LIMITS: [(u32, usize, Reply); 2] = [(6, 8, Reply::Done(2)), (5, 1, Reply::Refused(31))];

#[test]
fn six_blocks_are_enough_for_a_layer_beside_another(rt: HostRuntime) -> Result<(), Fail> {
    for &(limit, calls, reply) in &LIMITS {
        let mut engine = Machine::in_memory(rt.alloc(), limit)?;
        let first = put_square(rt.alloc(), &mut engine, 8)?;
        assert!(rt;
            first.last().copied() == Some(Reply::Done(1)),
            "at most {limit} blocks"
        );
        drive(rt.alloc(), &mut engine, &[Words::Put("B", SHIFTED)])?;
        let last = committed(rt.alloc(), &mut engine, calls)?;
        assert!(rt; last == Some(reply), "at most {limit} blocks");
    }
    Ok(())
}

#[test]
fn a_store_that_is_opened_and_committed_writes_its_catalog_alone(
    rt: HostRuntime,
) -> Result<(), Fail> {
    let mut engine = Machine::in_memory(rt.alloc(), BLOCKS)?;
    let line: Line = (&[Words::Put("A", SQUARE), Words::Put("B", SHIFTED)], 9, &[]);
    assert!(rt; is_done(rt.alloc(), &mut engine, &line)?);
    let copy = disk_of(rt.alloc(), engine.into_disk().bytes())?;
    let mut again = Machine::recover(rt.alloc(), copy, BLOCKS)?;
    let unchanged: Line = (&[], 7, &[]);
    assert!(rt; is_done(rt.alloc(), &mut again, &unchanged)?);
    let disk = again.into_disk();
    let written = extents_of(rt.alloc(), disk.calls())?;
    assert!(rt; written.as_slice() == [2].as_slice());
    Ok(())
}
