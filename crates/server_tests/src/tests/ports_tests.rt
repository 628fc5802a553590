//! Servers of ports: where replies go, when they are there, and that a writer fails for its own session alone.
ghost use Rattle.std.specs.Prelude.{◌<◌, ◌≤◌, length};

use crate::tests::runs::PortsRun;
use crate::tests::testing::{BLOCKS, begun_of, expect, reopened, served};
use disk_model::disk::Disk;
use disk_model::mem_disk::MemDisk;
use overlay_server::outcome::ServeOptions;
use overlay_server::serving::serve_ports;
use overlay_server::{OpenGate, SessionEnd};
use session_threads::fuse::Fuse;
use session_threads::port::Port;
use std::alloc::Global;
use std::io;
use std::io::{ErrorKind, Read, Write};
use std::process::Abort;
use std::sync::Wait;
use std::sync::atomic::{AtomicU64, Ordering};
use std::test::Fail;
use std::thread::Threads;
use test_machines::machine::Machine;

/// The most bytes of a script that no limit is to end.
const MANY: usize = 4096;

/// What a server leaves that runs one session a port. It has to run.
fn left_of<D, R, W, Q>(
    rt: &Q,
    alloc: Global,
    machine: Option<Machine<D>>,
    ports: Vec<Port<Fuse<R>, W>>,
) -> PortsRun<W, D>
where
    D: Disk + Send + Drop,
    R: Read + Send + Drop,
    W: Write + Send + Drop,
    Q: Threads + Wait + Sync + Abort,
    requires { (0 < length ports.items) × (length ports.items ≤ 4) }
{
    let (begun, key) = begun_of(machine);
    let options = ServeOptions { workers: 1 };
    match serve_ports(rt, alloc, options, &OpenGate, begun, ports) {
        Ok(left) => PortsRun::new(left, key),
        Err(_) => panic!(rt; "no server"),
    }
}

/// A port from a script into a list that holds some bytes already.
fn port_of(
    alloc: Global,
    script: &'static [u8],
    held: &[u8],
) -> Result<Port<Fuse<&'static [u8]>, Vec<u8>>, Fail> {
    let mut writer = Vec::new(alloc);
    writer.extend_from_slice(held)?;
    Ok(Port {
        reader: Fuse::new(script),
        most: MANY,
        writer,
    })
}

#[test]
fn replies_follow_what_their_writer_held(rt: HostRuntime) -> Result<(), Fail> {
    let alloc = rt.alloc();
    let first = port_of(alloc, b"LAYERS\n", b"first: ")?;
    let second = port_of(alloc, b"HELLO\n", b"second: ")?;
    let ports = Vec::from_array(alloc, [first, second])?;
    let left = left_of(&rt, alloc, None::<Machine<MemDisk>>, ports);
    assert_eq!(rt; left.session_count(), 2);
    check_session(&rt, &left, 0, "first: layers 0\n", SessionEnd::End);
    let second = "second: error 41 command syntax\n";
    check_session(&rt, &left, 1, second, SessionEnd::End);
    Ok(())
}

/// Compares what is in the writer of a session, and how it ended.
fn check_session(
    rt: &impl Abort,
    left: &PortsRun<Vec<u8>, MemDisk>,
    session: usize,
    text: &str,
    end: SessionEnd,
) {
    let Some(writer) = left.writer(session) else {
        panic!(rt; "no session {session}");
    };
    assert_eq!(rt; writer.as_slice(), text.as_bytes());
    assert_eq!(rt; left.end(session), Some(end));
}

// The third line ends after the 20th byte.
#[test]
fn a_port_has_its_own_limit(rt: HostRuntime) -> Result<(), Fail> {
    let alloc = rt.alloc();
    for &(most, text, end) in &[
        (
            20,
            "layers 0\nlayers 0\nerror 47 read limit\n",
            SessionEnd::Failed(47),
        ),
        (21, "layers 0\nlayers 0\nlayers 0\n", SessionEnd::End),
    ] {
        let reader: &'static [u8] = b"LAYERS\nLAYERS\nLAYERS\n";
        let port = Port {
            reader: Fuse::new(reader),
            most,
            writer: Vec::new(alloc),
        };
        let ports = Vec::from_array(alloc, [port])?;
        let left = left_of(&rt, alloc, None::<Machine<MemDisk>>, ports);
        assert_eq!(rt; left.session_count(), 1);
        check_session(&rt, &left, 0, text, end);
    }
    Ok(())
}

/// A writer that takes six bytes at a write, and so many writes.
#[derive(Drop)]
struct Narrow {
    text: Vec<u8>,
    writes: usize,
}

impl Write for Narrow {
    fn write(&mut self, buf: &[u8]) -> io::Result<usize> {
        if self.writes == 0 {
            return Err(io::Error::from(ErrorKind::Other));
        }
        let count = buf.len().min(6);
        self.text.extend_from_slice(&buf[..count])?;
        self.writes -= 1;
        Ok(count)
    }

    fn flush(&mut self) -> io::Result<()> {
        Ok(())
    }
}

/// By how many writes the first session's writer takes: what is in it.
const NARROW: &[(usize, &str)] = &[(0, ""), (1, "ok 1\n"), (2, "ok 1\ndurabl")];

/// A port from a script into a writer of so many writes.
fn narrow_port(
    alloc: Global,
    script: &'static [u8],
    writes: usize,
) -> Port<Fuse<&'static [u8]>, Narrow> {
    Port {
        reader: Fuse::new(script),
        most: MANY,
        writer: Narrow {
            text: Vec::new(alloc),
            writes,
        },
    }
}

/// A server with a new store, of one session that puts a layer into a writer of so many writes, and one beside it.
fn narrow_run(
    rt: &(impl Threads + Wait + Sync + Abort),
    alloc: Global,
    writes: usize,
) -> Result<PortsRun<Narrow, MemDisk>, Fail> {
    let put = b"PUT A POLYGON ((0 0, 10 0, 10 10, 0 10, 0 0))\nSYNC\n";
    let first = narrow_port(alloc, put, writes);
    let second = narrow_port(alloc, b"HELLO\nHELLO\n", 100);
    let ports = Vec::from_array(alloc, [first, second])?;
    let engine = Machine::in_memory(alloc, BLOCKS)?;
    Ok(left_of(rt, alloc, Some(engine), ports))
}

/// What is in the writer of a session.
fn narrow_text(left: &PortsRun<Narrow, MemDisk>, session: usize) -> &[u8] {
    match left.writer(session) {
        Some(writer) => &writer.text,
        None => &[],
    }
}

/// Compares what is in the writer of a session, and how it ended.
fn check_writer(
    rt: &impl Abort,
    left: &PortsRun<Narrow, MemDisk>,
    session: usize,
    text: &str,
    end: SessionEnd,
) {
    assert_eq!(rt; narrow_text(left, session), text.as_bytes());
    assert_eq!(rt; left.end(session), Some(end));
}

/// Compares what is in the writer that failed, and checks that the other session is whole.
fn check_narrow(rt: &impl Abort, left: &PortsRun<Narrow, MemDisk>, text: &str) {
    assert_eq!(rt; left.session_count(), 2);
    check_writer(rt, left, 0, text, SessionEnd::Failed(49));
    let whole = "error 41 command syntax\nerror 41 command syntax\n";
    check_writer(rt, left, 1, whole, SessionEnd::End);
    assert_eq!(rt; left.stored(), 1);
}

// The first session's writer fails: the other session is whole, and what was put is stored.
#[test]
fn a_writer_fails_for_its_own_session_alone(rt: HostRuntime) -> Result<(), Fail> {
    let alloc = rt.alloc();
    for &(writes, text) in NARROW {
        let left = narrow_run(&rt, alloc, writes)?;
        check_narrow(&rt, &left, text);
        let engine = reopened(alloc, left.into_disk())?;
        let script: &'static [u8] = b"LOCATE A 2 2\n";
        let readers = Vec::from_array(alloc, [script])?;
        let next = served(&rt, alloc, &OpenGate, Some(engine), readers);
        expect(&rt, &next, 0, "in\n");
    }
    Ok(())
}

/// How many lines were asked for, how many bytes of replies were written, and whether a line was asked for too early.
#[derive(Drop)]
struct Turns {
    asked: AtomicU64,
    written: AtomicU64,
    early: AtomicU64,
}

impl Turns {
    /// None was taken yet.
    fn new() -> Turns {
        Turns {
            asked: AtomicU64::new(0),
            written: AtomicU64::new(0),
            early: AtomicU64::new(0),
        }
    }
}

/// A reader that gives one line a read, and looks whether the lines before it are answered.
#[derive(Drop)]
struct Asking<'a> {
    turns: &'a Turns,
    lines: &'a [&'a str],
}

impl Read for Asking<'_> {
    fn read(&mut self, buf: &mut [u8]) -> io::Result<usize> {
        let asked = self.turns.asked.fetch_add(1, Ordering::SeqCst);
        if self.turns.written.load(Ordering::SeqCst) < asked.saturating_mul(9) {
            self.turns.early.fetch_add(1, Ordering::SeqCst);
        }
        match self.lines {
            [line, rest @ ..] => {
                let count = line.len().min(buf.len());
                buf[..count].copy_from_slice(&line.as_bytes()[..count]);
                self.lines = rest;
                Ok(count)
            }
            [] => Ok(0),
        }
    }
}

/// A writer that counts its bytes.
#[derive(Drop)]
struct Counting<'a> {
    turns: &'a Turns,
}

impl Write for Counting<'_> {
    fn write(&mut self, buf: &[u8]) -> io::Result<usize> {
        let count = buf.len();
        self.turns.written.fetch_add(count as u64, Ordering::SeqCst);
        Ok(count)
    }

    fn flush(&mut self) -> io::Result<()> {
        Ok(())
    }
}

// Caught: `replies_kept_to_the_end` (in session_threads/src/running.rt the script is run into a list, which is written
// when it has ended).
#[test]
fn a_reply_stands_before_the_next_line_is_read(rt: HostRuntime) -> Result<(), Fail> {
    let alloc = rt.alloc();
    let turns = Turns::new();
    // Each reply, `layers 0` with its line's end, has 9 bytes.
    let port = Port {
        reader: Fuse::new(Asking {
            turns: &turns,
            lines: &["LAYERS\n", "LAYERS\n", "LAYERS\n"],
        }),
        most: MANY,
        writer: Counting { turns: &turns },
    };
    let ports = Vec::from_array(alloc, [port])?;
    let left = left_of(&rt, alloc, None::<Machine<MemDisk>>, ports);
    drop(left);
    assert_eq!(rt; turns.asked.load(Ordering::SeqCst), 4);
    assert_eq!(rt; turns.early.load(Ordering::SeqCst), 0);
    Ok(())
}

// Caught: `more_read_after_an_end` of session_threads.
#[test]
fn an_end_is_not_read_past(rt: HostRuntime) -> Result<(), Fail> {
    let turns = Turns::new();
    let mut reader = Fuse::new(Asking {
        turns: &turns,
        lines: &["LAYERS\n", "", "LAYERS\n"],
    });
    let mut chunk = [0; 16];
    for &count in &[7, 0, 0, 0] {
        assert_eq!(rt; reader.read(&mut chunk)?, count);
    }
    assert_eq!(rt; turns.asked.load(Ordering::SeqCst), 2);
    Ok(())
}
