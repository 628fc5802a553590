//! What no script shows: reads and writes that fail, and the limits of lines and of scripts.
use crate::tests::books::run_script;
use overlay_server::SessionEnd;
use std::alloc::{AllocError, Global};
use std::cell::Cell;
use std::io;
use std::io::{ErrorKind, Read, Write};
use std::process::Abort;
use std::sync::Wait;
use std::test::Fail;
use std::thread::Threads;

const SYNTAX: &str = "error 41 command syntax\n";

const TOO_LONG: &str = "error 42 line too long\n";

/// A reader of some bytes, so many at a read, which fails after them if it has a fault. It counts
/// the reads that failed.
#[derive(Drop)]
struct Feed<'a> {
    rest: &'a [u8],
    step: usize,
    fault: Option<ErrorKind>,
    failed: u64,
}

impl Read for Feed<'_> {
    fn read(&mut self, buf: &mut [u8]) -> io::Result<usize> {
        let count = self.step.min(self.rest.len()).min(buf.len());
        match self.fault {
            Some(kind) if count == 0 => {
                self.failed = self.failed.saturating_add(1);
                Err(io::Error::from(kind))
            }
            _ => {
                buf[..count].copy_from_slice(&self.rest[..count]);
                self.rest = &self.rest[count..];
                Ok(count)
            }
        }
    }
}

/// A writer that takes six bytes at a write, and so many writes: those after them fail, or take
/// nothing where there is no fault. It counts the writes that it refused.
#[derive(Drop)]
struct Sink {
    text: Vec<u8>,
    writes: usize,
    fault: Option<ErrorKind>,
    refused: u64,
}

impl Write for Sink {
    fn write(&mut self, buf: &[u8]) -> io::Result<usize> {
        if self.writes == 0 {
            self.refused = self.refused.saturating_add(1);
            return match self.fault {
                Some(kind) => Err(io::Error::from(kind)),
                None => Ok(0),
            };
        }
        let count = buf.len().min(6);
        self.text.extend_from_slice(&buf[..count])?;
        self.writes -= 1;
        Ok(count)
    }

    fn flush(&mut self) -> io::Result<()> {
        Ok(())
    }
}

/// Compares how a session ended, and checks that a reader or a writer failed once where it had to, and else never.
fn check_end(rt: &impl Abort, end: SessionEnd, wanted: SessionEnd, failed: u64, is_failed: bool) {
    assert_eq!(rt; end, wanted);
    assert_eq!(rt; failed, u64::from(is_failed));
}

/// Compares what was written in a case: the one after, by or at this number.
fn check_written(rt: &impl Abort, written: &[u8], text: &[u8], word: &str, number: u64) {
    assert_eq!(rt; written, text, "{word} {number}");
}

/// Runs a script to its end or its fault, by reads of so many bytes, and compares what it writes.
fn expect(
    rt: &(impl Abort + AllocGlobal + Threads + Wait + Sync),
    script: &[u8],
    step: usize,
    fault: Option<ErrorKind>,
    text: &str,
) {
    let mut reader = Feed {
        rest: script,
        step,
        fault,
        failed: 0,
    };
    let mut writer = Vec::new(rt.alloc());
    let end = run_script(rt, rt.alloc(), &mut reader, &mut writer);
    let wanted = match fault {
        Some(_) => SessionEnd::Failed(48),
        None => SessionEnd::End,
    };
    check_end(rt, end, wanted, reader.failed, fault.is_some());
    check_written(rt, &writer, text.as_bytes(), "by", step as u64);
}

#[test]
fn each_line_is_answered_without_its_ending(rt: HostRuntime) {
    for &(script, text) in &[
        (b"".as_slice(), ""),
        (b"\n\r\n\n", ""),
        (b"HELLO\r\n", SYNTAX),
        (b"HELLO", SYNTAX),
        (b" \t \r", SYNTAX),
        (b"\r\r\n", SYNTAX),
        (b"# HELLO\n#\r\n#", ""),
        (b"\r\nHELLO\r\n\r\n  ", SYNTAX),
    ] {
        for &step in &[1, 3, 4096] {
            expect(&rt, script, step, None, text);
        }
    }
}

/// So many bytes of one kind, and an end after them.
fn long_line(alloc: Global, byte: u8, count: usize, end: &[u8]) -> Result<Vec<u8>, AllocError> {
    let mut line = vec![in alloc; byte; count]?;
    line.extend_from_slice(end)?;
    Ok(line)
}

#[test]
fn a_line_holds_65536_bytes_without_its_ending(rt: HostRuntime) -> Result<(), Fail> {
    for &(byte, count, end, text) in &[
        (b'A', 65_536, b"\r\n".as_slice(), SYNTAX),
        (b'A', 65_536, b"", SYNTAX),
        (b'A', 65_536, b"\r", TOO_LONG),
        (b'A', 65_537, b"\n", TOO_LONG),
        (b'A', 65_536, b"\rA\n", TOO_LONG),
        (b'A', 65_536, b"A\r\r\n", TOO_LONG),
        (b' ', 65_536, b"\n", ""),
        (b'#', 65_537, b"\n", TOO_LONG),
        (b'A', 140_000, b"\n\n# HELLO\n", TOO_LONG),
    ] {
        let script = long_line(rt.alloc(), byte, count, end)?;
        expect(&rt, script.as_slice(), 4096, None, text);
    }
    Ok(())
}

#[test]
fn a_read_fault_is_reported_after_a_read_that_failed(rt: HostRuntime) {
    for &(script, text) in &[
        (b"".as_slice(), "error 48 read\n"),
        (b"HELLO\nHELLO", "error 41 command syntax\nerror 48 read\n"),
    ] {
        for &kind in &[ErrorKind::Other, ErrorKind::Interrupted] {
            expect(&rt, script, 4, Some(kind), text);
        }
    }
}

/// Runs two lines and a read fault, by so many writes, and compares what they take and refuse.
fn expect_writes(
    rt: &(impl Abort + AllocGlobal + Threads + Wait + Sync),
    writes: usize,
    fault: Option<ErrorKind>,
) {
    let text = b"error 41 command syntax\nerror 41 command syntax\nerror 48 read\n";
    let mut reader = Feed {
        rest: b"HELLO\nHELLO\n",
        step: 5,
        fault: Some(ErrorKind::Other),
        failed: 0,
    };
    let mut writer = Sink {
        text: Vec::new(rt.alloc()),
        writes,
        fault,
        refused: 0,
    };
    let end = run_script(rt, rt.alloc(), &mut reader, &mut writer);
    let is_cut = writes < 11;
    let wanted = SessionEnd::Failed(if is_cut { 49 } else { 48 });
    check_end(rt, end, wanted, writer.refused, is_cut);
    let reported = text.len().min(writes.saturating_mul(6));
    check_written(
        rt,
        &writer.text,
        &text[..reported],
        "at write",
        writes as u64,
    );
}

#[test]
fn a_write_fault_is_reported_after_a_write_that_was_refused(rt: HostRuntime) {
    for &fault in &[Some(ErrorKind::Other), Some(ErrorKind::Interrupted), None] {
        for &writes in &[0, 1, 2, 3, 7, 8, 9, 10, 11] {
            expect_writes(&rt, writes, fault);
        }
    }
}

#[test]
fn a_script_holds_16777216_bytes(rt: HostRuntime) {
    for &(feeds, text, end, replies) in &[
        (16_777_211, b"HELLO".as_slice(), SessionEnd::End, SYNTAX),
        (
            16_777_210,
            b"HELLO\n\n",
            SessionEnd::Failed(47),
            "error 41 command syntax\nerror 47 read limit\n",
        ),
    ] {
        let mut reader = io::repeat(b'\n').take(feeds).chain(text);
        let mut writer = Vec::new(rt.alloc());
        assert_eq!(rt; run_script(&rt, rt.alloc(), &mut reader, &mut writer), end);
        check_written(&rt, &writer, replies.as_bytes(), "line feeds", feeds);
    }
}

/// A reader of one line a read, which fails where the lines before have not been answered.
#[derive(Drop)]
struct Asker<'a> {
    answered: &'a Cell<usize>,
    asked: usize,
}

impl Read for Asker<'_> {
    fn read(&mut self, buf: &mut [u8]) -> io::Result<usize> {
        if self.answered.get() != self.asked {
            return Err(io::Error::from(ErrorKind::Other));
        }
        if self.asked >= 3 || buf.len() < 6 {
            return Ok(0);
        }
        buf[..6].copy_from_slice(b"HELLO\n");
        self.asked += 1;
        Ok(6)
    }
}

/// A writer that counts the lines that it was given.
#[derive(Drop)]
struct Counter<'a> {
    answered: &'a Cell<usize>,
}

impl Write for Counter<'_> {
    fn write(&mut self, buf: &[u8]) -> io::Result<usize> {
        let ends = buf.iter().filter(|byte| **byte == b'\n').count();
        self.answered.set(self.answered.get().saturating_add(ends));
        Ok(buf.len())
    }

    fn flush(&mut self) -> io::Result<()> {
        Ok(())
    }
}

#[test]
fn each_line_is_answered_before_more_is_read(rt: HostRuntime) {
    let answered = Cell::new(0);
    let mut reader = Asker {
        answered: &answered,
        asked: 0,
    };
    let mut writer = Counter {
        answered: &answered,
    };
    let end = run_script(&rt, rt.alloc(), &mut reader, &mut writer);
    assert_eq!(rt; end, SessionEnd::End);
    assert_eq!(rt; answered.get(), 3);
}
