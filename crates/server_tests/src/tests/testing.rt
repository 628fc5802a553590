//! Servers for the tests: what they are asked, and what they answer.
ghost use Rattle.std.specs.Prelude.{◌<◌, ◌≤◌, length};

use crate::tests::runs::Run;
use disk_model::disk::Disk;
use disk_model::mem_disk::MemDisk;
use kept_store::begun::Begun;
use layer_expr::name::Name;
use overlay_server::outcome::ServeOptions;
use overlay_server::serving::serve;
use overlay_server::{Gate, SessionEnd};
use root_store::shut::Key;
use std::alloc::Global;
use std::io::Read;
use std::process::Abort;
use std::sync::Wait;
use std::sync::atomic::{AtomicU64, Ordering};
use std::test::Fail;
use std::thread::Threads;
use std::time::{Clock, Duration};
use std::{io, thread};
use test_machines::machine::Machine;

/// How many blocks a store of the tests may have.
pub const BLOCKS: u32 = 200;

/// What the threads of a server report to a test, and to each other.
#[derive(Drop)]
pub struct Watch {
    /// How many tiles workers have begun.
    pub entered: AtomicU64,
    /// How many lines the reader was asked for; of these all but the last are answered.
    pub asked: AtomicU64,
    /// How many gates have given up.
    pub failed: AtomicU64,
}

impl Watch {
    pub fn new() -> Watch {
        Watch {
            entered: AtomicU64::new(0),
            asked: AtomicU64::new(0),
            failed: AtomicU64::new(0),
        }
    }

    /// Whether so many tiles are begun, and so many lines asked for.
    pub fn has_seen(&self, entered: u64, asked: u64) -> bool {
        self.entered.load(Ordering::SeqCst) >= entered && self.asked.load(Ordering::SeqCst) >= asked
    }

    /// Waits until so many tiles are begun and so many lines asked for. It gives up after 10,000 turns of one
    /// millisecond.
    pub fn wait_for(&self, rt: &impl Clock, entered: u64, asked: u64) {
        for _ in 0..10_000 {
            if self.has_seen(entered, asked) {
                return;
            }
            thread::sleep(rt, Duration::from_millis(1));
        }
        self.failed.fetch_add(1, Ordering::SeqCst);
    }

    /// Checks that no gate has given up.
    pub fn check(&self, rt: &impl Abort) {
        assert_eq!(rt; self.failed.load(Ordering::SeqCst), 0);
    }
}

/// A reader that gives one line a read, and counts how often it is asked. It does not end
/// before so many tiles are begun.
#[derive(Drop)]
pub struct Lines<'a, R> {
    pub rt: &'a R,
    pub watch: &'a Watch,
    pub lines: &'a [&'a str],
    pub entered: u64,
}

impl<R: Clock> Read for Lines<'_, R> {
    fn read(&mut self, buf: &mut [u8]) -> io::Result<usize> {
        self.watch.asked.fetch_add(1, Ordering::SeqCst);
        match self.lines {
            [line, rest @ ..] => {
                let count = line.len().min(buf.len());
                buf[..count].copy_from_slice(&line.as_bytes()[..count]);
                self.lines = rest;
                Ok(count)
            }
            [] => {
                self.watch.wait_for(self.rt, self.entered, 0);
                Ok(0)
            }
        }
    }
}

/// What a server with two workers leaves that runs one session a reader. It has to run.
pub fn served<D, R, G, Q>(
    rt: &Q,
    alloc: Global,
    gate: &G,
    machine: Option<Machine<D>>,
    readers: Vec<R>,
) -> Run<D>
where
    D: Disk + Send + Drop,
    R: Read + Send + Drop,
    G: Gate + Sync,
    Q: Threads + Wait + Sync + Abort,
    requires { (0 < length readers.items) × (length readers.items ≤ 4) }
{
    let (begun, key) = begun_of(machine);
    match serve(rt, alloc, ServeOptions { workers: 2 }, gate, begun, readers) {
        Ok(served) => Run::new(served, key),
        Err(_) => panic!(rt; "no server"),
    }
}

/// The engine of what a server has left.
pub fn reopened<D: Disk + Drop>(alloc: Global, disk: Option<D>) -> Result<Machine<D>, Fail> {
    let disk = disk.ok_or("no disk")?;
    Ok(Machine::recover(alloc, disk, BLOCKS)?)
}

/// What a server takes, with the key of its disk.
pub fn begun_of<D: Disk + Drop>(machine: Option<Machine<D>>) -> (Begun<D>, Option<Key<D>>) {
    match machine {
        Some(machine) => {
            let (engine, key) = machine.into_parts();
            (Begun::of(Some(engine)), Some(key))
        }
        None => (Begun::of(None), None),
    }
}

/// What a session wrote.
pub fn written<D>(run: &Run<D>, session: usize) -> &[u8] {
    match run.session(session) {
        Some(finished) => &finished.writer,
        None => &[],
    }
}

/// Compares what a session wrote, which was read to its end.
pub fn expect<D>(rt: &impl Abort, run: &Run<D>, session: usize, text: &str) {
    let Some(finished) = run.session(session) else {
        panic!(rt; "no session {session}");
    };
    assert_eq!(rt; finished.writer.as_slice(), text.as_bytes());
    assert_eq!(rt; finished.end, SessionEnd::End);
}

/// A disk in memory of no bytes.
pub fn empty_disk(alloc: Global) -> Result<MemDisk, Fail> {
    Ok(MemDisk::new(alloc, Vec::new(alloc))?)
}

/// A layer's name.
pub fn name_of(alloc: Global, name: &str) -> Result<Name, Fail> {
    Ok(Name::new(alloc, name.as_bytes())?)
}
