//! That workers build side by side, while the sessions are answered.
use crate::tests::runs::Run;
use crate::tests::testing::{BLOCKS, Lines, Watch, expect, name_of, reopened, served};
use disk_model::mem_disk::MemDisk;
use layer_expr::name::Name;
use overlay_server::Gate;
use plane_base::COLUMN_COUNT;
use std::alloc::Global;
use std::process::Abort;
use std::sync::atomic::Ordering;
use std::test::Fail;
use std::thread;
use std::time::{Clock, Duration};
use test_machines::machine::Machine;

/// A gate that holds the first worker until a second one has entered and the reader was asked often enough.
#[derive(Drop)]
struct Meeting<'a, R> {
    rt: &'a R,
    watch: &'a Watch,
    asked: u64,
}

impl<R: Clock> Gate for Meeting<'_, R> {
    fn enter(&self, _name: &Name, _column: u8) {
        if self.watch.entered.fetch_add(1, Ordering::SeqCst) == 0 {
            self.watch.wait_for(self.rt, 2, self.asked);
        }
    }
}

/// The fifth line, a command, is answered before the sixth is asked for, and the sixth, a question, before the seventh.
const MEETING: [&str; 7] = [
    "PUT A POLYGON ((0 0, 10 0, 10 10, 0 10, 0 0))\n",
    "PUT B POLYGON ((5 5, 15 5, 15 15, 5 15, 5 5))\n",
    "DEFINE I = A & B\n",
    "# The first worker is held from here on.\n",
    "PUT C POLYGON ((0 0, 1 0, 1 1, 0 1, 0 0))\n",
    "LOCATE I 7 7\n",
    "WAIT I\n",
];

// Caught: `one_thread_after_another` (in overlay_server/src/threads.rt the workers are run one after the other, or all
// threads before the sessions begin), where no second worker enters, or no line is answered while the first builds.
#[test]
fn workers_build_side_by_side_while_a_session_is_answered(rt: HostRuntime) -> Result<(), Fail> {
    let watch = Watch::new();
    let gate = Meeting {
        rt: &rt,
        watch: &watch,
        asked: 7,
    };
    let reader = Lines {
        rt: &rt,
        watch: &watch,
        lines: &MEETING,
        entered: 2,
    };
    let readers = Vec::from_array(rt.alloc(), [reader])?;
    let served = served(&rt, rt.alloc(), &gate, None::<Machine<MemDisk>>, readers);
    expect(&rt, &served, 0, "ok 1\nok 2\nok 3\nok 4\nin\nbuilt 4\n");
    watch.check(&rt);
    assert!(rt; watch.has_seen(2, 7));
    Ok(())
}

/// A gate that holds the first worker until the reader has ended, and then for a time in which the store's thread ends.
#[derive(Drop)]
struct Late<'a, R> {
    rt: &'a R,
    watch: &'a Watch,
    asked: u64,
}

impl<R: Clock> Gate for Late<'_, R> {
    fn enter(&self, _name: &Name, _column: u8) {
        if self.watch.entered.fetch_add(1, Ordering::SeqCst) == 0 {
            self.watch.wait_for(self.rt, 1, self.asked);
            thread::sleep(self.rt, Duration::from_millis(500));
        }
    }
}

/// What is stored at SYNC lacks the tile that the gate holds.
const LATE: [&str; 3] = [
    "PUT A POLYGON ((0 0, 10 0, 10 10, 0 10, 0 0))\n",
    "DEFINE I = A\n",
    "SYNC\n",
];

// Caught: `late_tile_left_out` (in overlay_server/src/hosting.rt `Hosted::run` closes the book without `keep_store`
// after the threads): the store's thread has ended before the tile is finished, and the file lacks it.
#[test]
fn a_tile_that_is_finished_after_the_last_commit_is_in_the_file(
    rt: HostRuntime,
) -> Result<(), Fail> {
    let watch = Watch::new();
    let gate = Late {
        rt: &rt,
        watch: &watch,
        asked: 4,
    };
    let reader = Lines {
        rt: &rt,
        watch: &watch,
        lines: &LATE,
        entered: 1,
    };
    let alloc = rt.alloc();
    let engine = Machine::in_memory(alloc, BLOCKS)?;
    let readers = Vec::from_array(alloc, [reader])?;
    let served = served(&rt, alloc, &gate, Some(engine), readers);
    expect(&rt, &served, 0, "ok 1\nok 2\ndurable 2\n");
    watch.check(&rt);
    let name = name_of(alloc, "I")?;
    let finished = finished(alloc, &served, &name)?;
    let engine = reopened(alloc, served.into_disk())?;
    check_tiles(&rt, &engine, &name, &finished);
    Ok(())
}

/// Checks that a store has the tile of a layer in just these columns, and that there are some.
fn check_tiles(rt: &impl Abort, engine: &Machine<MemDisk>, name: &Name, finished: &[u8]) {
    for column in 0..COLUMN_COUNT {
        let in_file = engine.has_tile(name, column);
        assert_eq!(rt; in_file, finished.contains(&column), "in column {column}");
    }
    assert!(rt; !finished.is_empty());
}

/// The columns in which the newest version has the tile of a layer.
fn finished(alloc: Global, run: &Run<MemDisk>, name: &Name) -> Result<Vec<u8>, Fail> {
    let mut columns = Vec::new(alloc);
    for column in 0..COLUMN_COUNT {
        if run.has_tile(name, column) {
            columns.push(column)?;
        }
    }
    Ok(columns)
}
