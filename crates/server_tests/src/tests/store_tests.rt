//! That what sessions have put is in the store when that is opened again, and what is reported to them where it fails.
use crate::tests::runs::Run;
use crate::tests::testing::{BLOCKS, empty_disk, expect, reopened, served};
use disk_model::disk::Disk;
use disk_model::mem_disk::MemDisk;
use file_disk::file_disk::FileDisk;
use overlay_server::OpenGate;
use std::alloc::Global;
use std::fs;
use std::fs::File;
use std::process::Abort;
use std::rt::Files;
use std::sync::Wait;
use std::test::Fail;
use std::thread::Threads;
use test_disks::fault_disk::FaultDisk;
use test_disks::stop_disk::StopDisk;
use test_machines::machine::Machine;

const PUT_A: &[u8] = b"PUT A POLYGON ((0 0, 10 0, 10 10, 0 10, 0 0))\n";

const PUT_AND_SYNC: &[u8] = b"PUT A POLYGON ((0 0, 10 0, 10 10, 0 10, 0 0))\nSYNC\n";

/// Runs scripts over a new store.
fn first_run<D: Disk + Send + Drop>(
    rt: &(impl Threads + Wait + Sync + Abort),
    alloc: Global,
    disk: D,
    blocks: u32,
    script: &'static [u8],
) -> Result<Run<D>, Fail> {
    let engine = Machine::create(alloc, disk, blocks)?;
    let readers = Vec::from_array(alloc, [script])?;
    Ok(served(rt, alloc, &OpenGate, Some(engine), readers))
}

/// Runs a script over what a server has left.
fn next_run<D: Disk + Send + Drop>(
    rt: &(impl Threads + Wait + Sync + Abort),
    alloc: Global,
    disk: Option<D>,
    script: &'static [u8],
) -> Result<Run<D>, Fail> {
    let engine = reopened(alloc, disk)?;
    let readers = Vec::from_array(alloc, [script])?;
    Ok(served(rt, alloc, &OpenGate, Some(engine), readers))
}

#[test]
fn a_layer_is_there_when_the_store_is_opened_again(rt: HostRuntime) -> Result<(), Fail> {
    let alloc = rt.alloc();
    let first = first_run(&rt, alloc, empty_disk(alloc)?, BLOCKS, PUT_A)?;
    expect(&rt, &first, 0, "ok 1\n");
    assert_eq!(rt; first.stored(), 1);
    let next = next_run(
        &rt,
        alloc,
        first.into_disk(),
        b"LOCATE A 2 2\nLOCATE A 11 2\nSYNC\n",
    )?;
    expect(&rt, &next, 0, "in\nout\ndurable 1\n");
    Ok(())
}

// Caught: `end_commit_reports_nothing` (in store_flushing/src/flusher_loop.rt the number that a commit has reached is
// not reported): SYNC sleeps for ever.
#[test]
fn a_sync_ends_with_a_durable_version(rt: HostRuntime) -> Result<(), Fail> {
    let alloc = rt.alloc();
    let served = first_run(&rt, alloc, empty_disk(alloc)?, BLOCKS, PUT_AND_SYNC)?;
    expect(&rt, &served, 0, "ok 1\ndurable 1\n");
    assert_eq!(rt; served.durable(), 1);
    Ok(())
}

#[test]
fn a_sync_is_reported_why_nothing_is_stored(rt: HostRuntime) -> Result<(), Fail> {
    let alloc = rt.alloc();
    let full = first_run(&rt, alloc, empty_disk(alloc)?, 4, PUT_AND_SYNC)?;
    expect(&rt, &full, 0, "ok 1\nerror 31 full\n");
    assert_eq!(rt; full.stored(), 0);
    // Five calls make the store. The third of the commit after them fails.
    let disk = FaultDisk::new(empty_disk(alloc)?, 7);
    let failed = first_run(&rt, alloc, disk, BLOCKS, PUT_AND_SYNC)?;
    expect(&rt, &failed, 0, "ok 1\nerror 30 device\n");
    let next = next_run(&rt, alloc, failed.into_disk(), b"LAYERS\n")?;
    expect(&rt, &next, 0, "layers 0\n");
    Ok(())
}

/// The disk below one that has stopped.
fn works_again(disk: Option<StopDisk<MemDisk>>) -> Result<MemDisk, Fail> {
    Ok(disk.ok_or("no disk")?.into_disk())
}

/// By how many calls the disk passes on before it stops: what a PUT and a SYNC are answered, and what the store has.
/// The first five calls make the store, and eight commit a layer, of which the seventh opens the gate.
const STOPS: &[(u64, &str, &str)] = &[
    (5, "ok 1\nerror 30 device\n", "layers 0\n"),
    (11, "ok 1\nerror 30 device\n", "layers 0\n"),
    (12, "ok 1\nerror 30 device\n", A_LISTED),
    (13, "ok 1\ndurable 1\n", A_LISTED),
];

const A_LISTED: &str = "layers 1\nA MULTIPOLYGON (((0 0, 10 0, 10 10, 0 10, 0 0)))\n";

#[test]
fn a_disk_that_stops_has_what_was_reported_durable(rt: HostRuntime) -> Result<(), Fail> {
    let alloc = rt.alloc();
    for &(calls, reported, left) in STOPS {
        let disk = StopDisk::new(empty_disk(alloc)?, calls);
        let stopped = first_run(&rt, alloc, disk, BLOCKS, PUT_AND_SYNC)?;
        expect(&rt, &stopped, 0, reported);
        let below = works_again(stopped.into_disk())?;
        let next = next_run(&rt, alloc, Some(below), b"LAYERS\n")?;
        expect(&rt, &next, 0, left);
    }
    Ok(())
}

/// Runs a script over a new store in a file, and then asks for the layer when the file is opened again.
fn over_a_file(
    rt: &(impl Threads + Wait + Sync + Abort + Files<File = File> + AllocGlobal),
    path: &str,
    script: &'static [u8],
    replies: &str,
) -> Result<(), Fail> {
    let alloc = rt.alloc();
    let _absent = fs::remove_file(rt, path);
    let first = first_run(rt, alloc, FileDisk::at(rt, path, true)?, BLOCKS, script)?;
    expect(rt, &first, 0, replies);
    // The file is held as long as its disk is there.
    drop(first);
    let disk = Some(FileDisk::at(rt, path, false)?);
    let next = next_run(rt, alloc, disk, b"LOCATE A 2 2\nLOCATE A 11 2\nSYNC\n")?;
    expect(rt, &next, 0, "in\nout\ndurable 1\n");
    fs::remove_file(rt, path)?;
    Ok(())
}

#[test]
fn a_layer_is_there_when_the_file_is_opened_again(rt: HostRuntime) -> Result<(), Fail> {
    over_a_file(&rt, "reopened-store", PUT_A, "ok 1\n")
}

#[test]
fn a_file_has_what_is_reported_durable(rt: HostRuntime) -> Result<(), Fail> {
    over_a_file(&rt, "synced-store", PUT_AND_SYNC, "ok 1\ndurable 1\n")
}

#[test]
fn a_write_of_nothing_past_the_end_makes_a_file_longer(rt: HostRuntime) -> Result<(), Fail> {
    let path = "longer-file";
    let _absent = fs::remove_file(&rt, path);
    let mut disk = FileDisk::at(&rt, path, true)?;
    for (at, length) in [(5, 5), (3, 5), (6, 6)] {
        let written = disk.write_at(at, &[]);
        assert!(rt; written.is_ok(), "a write at {at}");
        assert!(rt;
            disk.length() == Ok(length),
            "the length after a write at {at}"
        );
    }
    fs::remove_file(&rt, path)?;
    Ok(())
}
