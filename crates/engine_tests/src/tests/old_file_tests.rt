//! A file of format 1: it opens with its layers and no tile, and the next commit makes it one of format 2.
use crate::tests::testing::{BLOCKS, CHOICES, Words, drive};
use disk_model::mem_disk::MemDisk;
use overlay_engine::step::Reply;
use std::alloc::Global;
use std::test::Fail;
use test_machines::machine::Machine;

/// The body of slot 1: format 1, sequence 1, version 2, a catalog of 61 bytes in block 5.
const BODY: &[u8] =
    b"OVLSTORE\0\0\0\x01\0\0\0\0\0\0\0\x01\0\0\0\0\0\0\0\x02\0\0\0\0\0\0\0\x05\0\0\0\x3d\0\0\0\0\0\0\0\0";

/// What opening writes while the gate of slot 0 is shut: the same with the next sequence, in its own format.
const TWIN: &[u8] =
    b"OVLSTORE\0\0\0\x01\0\0\0\0\0\0\0\x02\0\0\0\0\0\0\0\x02\0\0\0\0\0\0\0\x05\0\0\0\x3d\0\0\0\0\0\0\0\0";

/// The body of the next commit: format 2, sequence 2, version 2, a catalog of 65 bytes in block 2.
const NEXT: &[u8] =
    b"OVLSTORE\0\0\0\x02\0\0\0\0\0\0\0\x02\0\0\0\0\0\0\0\x02\0\0\0\0\0\0\0\x02\0\0\0\x41\0\0\0\0\0\0\0\0";

/// The square A, in block 3.
const RECORD: &[u8] =
    b"\0\x01\0\x05\0\0\0\0\0\0\0\0\0\0\0\x0a\0\0\0\0\0\0\0\x0a\0\0\0\x0a\0\0\0\0\0\0\0\x0a\0\0\0\0\0\0\0\0";

/// What both catalogs list of A, and of I but for its tiles, whose definition is in block 4.
const LISTED: &[u8] =
    b"\0\x02\x01A\0\0\0\0\0\0\0\0\x03\0\0\0\x2c\x01I\x01\0\0\0\0\0\0\0\x04\0\0\0\x01";

/// The entries of I's tiles in the old one: that of column 8 is in block 2.
const ENTRIES: &[u8] = b"\0\0\0\0\0\0\0\0\x01\0\0\0\0\0\0\0\x02\0\0\0\x8e\0\0\0\0\0\0\0\0";

/// The tile of I in column 8 of format 1: the four sides of A, their ends as whole points.
const TILE: &[u8] = b"\0\x08\0\0\0\x04\
\0\0\0\0\0\0\0\0\0\0\0\0\0\0\0\x0a\0\0\0\0\0\0\0\0\0\0\0\0\0\0\0\0\0\x0a\
\0\0\0\0\0\0\0\0\0\0\0\x0a\0\0\0\0\0\0\0\0\0\0\0\0\0\0\0\0\0\x0a\0\0\0\0\
\0\0\0\0\0\0\0\x0a\0\0\0\x0a\0\0\0\x0a\0\0\0\0\0\0\0\0\x0a\0\0\0\0\x0a\0\0\0\x0a\
\0\0\0\x0a\0\0\0\0\0\0\0\x0a\0\0\0\x0a\0\0\0\0\x0a\0\0\0\0\0\0\0\0\x0a\0\0\0\x0a";

const BLOCK: usize = 4096;

/// Bytes at places of a file.
type Part = (usize, &'static [u8]);

const FILE: &[Part] = &[
    (BLOCK, &[0xA7]),
    (BLOCK + 16, BODY),
    (2 * BLOCK, TILE),
    (3 * BLOCK, RECORD),
    (4 * BLOCK, b"A"),
    (5 * BLOCK, LISTED),
    (5 * BLOCK + 32, ENTRIES),
];

/// What the tile's record and its place are instead: no tile; beyond the file, in a slot, in the blocks of A and of the
/// catalog. Neither is looked at.
const UNREAD: &[Part] = &[
    (2 * BLOCK, b"no tile"),
    (5 * BLOCK + 48, &[77]),
    (5 * BLOCK + 48, &[0]),
    (5 * BLOCK + 48, &[3]),
    (5 * BLOCK + 48, &[5]),
];

const LAYERS: &[u8] = b"layers 2\nA MULTIPOLYGON (((0 0, 10 0, 10 10, 0 10, 0 0)))\nI = A\n";

fn put(file: &mut Vec<u8>, part: Part) {
    for (i, &byte) in part.1.iter().enumerate() {
        let at = part.0.saturating_add(i);
        if at < file.len() {
            file[at] = byte;
        }
    }
}

/// A disk with six blocks of these parts.
fn disk_of(alloc: Global, parts: &[Part]) -> Result<MemDisk, Fail> {
    let mut file = vec![in alloc; 0; 6 * BLOCK]?;
    for &part in FILE {
        put(&mut file, part);
    }
    for &part in parts {
        put(&mut file, part);
    }
    Ok(MemDisk::new(alloc, file)?)
}

fn stands(disk: &MemDisk, part: Part) -> bool {
    disk.bytes()
        .get(part.0..part.0.saturating_add(part.1.len()))
        == Some(part.1)
}

/// Whether all tiles of I are to be built, and no other.
fn lacks_tiles(alloc: Global, engine: &Machine<MemDisk>) -> Result<bool, Fail> {
    let pending = engine.pending(alloc)?;
    let mut columns = pending.len() == 33;
    for (column, (name, number)) in pending.iter().enumerate() {
        columns = columns && name.bytes() == b"I".as_slice() && usize::from(*number) == column;
    }
    Ok(columns)
}

/// Whether a disk recovers to version 2 with A and I and no tile, all of it durable; and the disk then.
fn is_left(alloc: Global, disk: MemDisk) -> Result<(bool, MemDisk), Fail> {
    let engine = Machine::recover(alloc, disk, BLOCKS)?;
    let numbers = engine.number() == 2 && engine.durable() == 2;
    let listed = engine.listed(alloc)?;
    let columns = lacks_tiles(alloc, &engine)?;
    Ok((
        numbers && columns && listed.as_slice() == LAYERS,
        engine.into_disk(),
    ))
}

/// The parts of one file: none is other in the first, and one in each that follows.
fn unread(change: usize) -> &'static [Part] {
    UNREAD.get(change.saturating_sub(1)..change).unwrap_or(&[])
}

#[test]
fn an_old_file_opens_with_its_layers_and_is_completed_in_its_own_format(
    rt: HostRuntime,
) -> Result<(), Fail> {
    for change in 0..=UNREAD.len() {
        let (is, disk) = is_left(rt.alloc(), disk_of(rt.alloc(), unread(change))?)?;
        assert!(rt; is, "with change {change}");
        assert!(rt;
            stands(&disk, (16, TWIN)) && stands(&disk, (BLOCK + 16, BODY)),
            "with change {change}"
        );
    }
    Ok(())
}

/// How many calls the completion makes, and the next commit after it.
const COMPLETION: usize = 2;

const COMMIT: usize = 7;

const ANSWERS: &[&[Reply]] = &[&[Reply::Going; COMMIT - 1], &[Reply::Done(2)]];

/// What is there after the commit: the new root and its catalog, the records where they were, and the old root.
const COMMITTED: &[Part] = &[
    (0, &[0xA7]),
    (16, NEXT),
    (BLOCK, &[0xA7]),
    (BLOCK + 16, BODY),
    (2 * BLOCK, LISTED),
    (2 * BLOCK + 32, &[0; 33]),
    (3 * BLOCK, RECORD),
    (4 * BLOCK, b"A"),
];

/// Whether the commit to an old file answers so, and leaves its parts; and the disk then.
fn is_committed(alloc: Global, parts: &[Part]) -> Result<(bool, MemDisk), Fail> {
    let mut engine = Machine::recover(alloc, disk_of(alloc, parts)?, BLOCKS)?;
    let replies = drive(alloc, &mut engine, &[Words::Device; COMMIT])?;
    let answers = ANSWERS.concat(alloc)?;
    let disk = engine.into_disk();
    let mut is = replies.as_slice() == answers.as_slice();
    for &part in COMMITTED {
        is = is && stands(&disk, part);
    }
    Ok((is, disk))
}

/// Whether a crash at each call of the completion and of the commit leaves the version.
fn are_left(alloc: Global, disk: &MemDisk) -> Result<bool, Fail> {
    let made = disk.calls().len();
    for calls in made.saturating_sub(COMPLETION + COMMIT)..=made {
        for &choice in &CHOICES {
            if !is_left(alloc, disk.image(calls, choice)?)?.0 {
                return Ok(false);
            }
        }
    }
    Ok(true)
}

#[test]
fn the_next_commit_is_of_the_new_format_and_a_crash_in_it_loses_nothing(
    rt: HostRuntime,
) -> Result<(), Fail> {
    for change in 0..=UNREAD.len() {
        let (is, disk) = is_committed(rt.alloc(), unread(change))?;
        assert!(rt; is, "with change {change}");
        assert!(rt; are_left(rt.alloc(), &disk)?, "with change {change}");
    }
    Ok(())
}
