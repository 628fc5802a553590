//! Where sessions read their lines, and where their replies go.
ghost use Rattle.std.specs.Prelude.{◌≡◌, ◌<◌, ◌≤◌, ◌^◌, length, max, IfOk};

use program_store::fault::ProgramFault;
use program_store::refusal::Refusal;
use program_store::replies::Replies;
use program_store::source::Source;
use program_store::store::is_store;
use session_threads::fuse::Fuse;
use session_threads::port::Port;
use std::fs::{File, OpenOptions, TryLockError};
use std::io::{ErrorKind, Stdin, Stdout};
use std::rt::Files;
use std::{fs, io};

/// The most bytes of a session, 2^62: none gets there.
const BYTES_MAX: usize = 4_611_686_018_427_387_904;

/// Where a session's lines come from: standard input, or a file.
type LiveSource = Source<Stdin, File>;

/// A session's lines, to their end.
type Lines = Fuse<LiveSource>;

/// A session's replies, to standard output or into a file. Where nobody reads any more a write is an error: no program
/// of the kit is ended by the signal.
pub type LiveReplies = Replies<Stdout, File>;

/// Opens the pairs of paths in their order, of each first where its lines come from: of a named pipe each opening waits
/// for the other end. Without a pair there is that of standard input and output. The fault is `Script` where a path
/// can't be opened for another reason than want of memory, or is a plain file that is in use: lines are read from none
/// that somebody writes, and replies go into none that somebody has, as the store or another pair, and into no store.
pub fn open_ports<'p, Q: Files<File = File> + AllocGlobal>(
    rt: &Q,
    input: Stdin,
    output: Stdout,
    pairs: &'p [(String, String)],
) -> Result<Vec<Port<Lines, LiveReplies>>, Refusal<'p>>
    requires { length pairs.now ≤ 4 }
    ensures each { IfOk result (λ ports. length ports.items ≡ max 1 (length pairs.now)) }
    ensures some { IfOk result (λ ports. 0 < length ports.items) }
    ensures few { IfOk result (λ ports. length ports.items ≤ 4) }
{
    let mut ports = Vec::new(rt.alloc());
    if pairs.is_empty() {
        ports.push(port(Source::Input(input), Replies::Output(output)))?;
        return Ok(ports);
    }
    'pairs: for pair in pairs {
        let (from, to) = pair;
        let reader = answered(open_to_read(rt, from), from)?;
        let writer = answered(open_to_write(rt, to), to)?;
        ports.push(port(Source::File(reader), Replies::File(writer)))?;
    }
    Ok(ports)
}

/// A pair that is open, for a session without end.
fn port(source: LiveSource, writer: LiveReplies) -> Port<Lines, LiveReplies>
    ensures { result.most ≡ 2 ^ 62 }
{
    Port {
        reader: Fuse::new(source),
        most: BYTES_MAX,
        writer,
    }
}

/// The file at a path, to be read. Nobody writes a plain file meanwhile.
fn open_to_read<Q: Files<File = File>>(rt: &Q, path: &str) -> io::Result<File> {
    let file = fs::open(rt, path)?;
    if file.metadata()?.is_file() {
        expect_free(file.try_lock_shared())?;
    }
    Ok(file)
}

/// The file at a path, to be written from its beginning: one that is there is emptied, once nobody
/// else has it, where it is no store.
fn open_to_write<Q: Files<File = File>>(rt: &Q, path: &str) -> io::Result<File> {
    let file = there_or_made(rt, path)?;
    if file.metadata()?.is_file() {
        expect_free(file.try_lock())?;
        expect_no_store(&file)?;
        file.set_len(0)?;
    }
    Ok(file)
}

/// The file at a path as it is, or a new one. A plain file can be read as well, for what is in it. A pipe that is there
/// is not asked to be made, which the system may refuse where it belongs to somebody else.
fn there_or_made<Q: Files<File = File>>(rt: &Q, path: &str) -> io::Result<File> {
    match fs::metadata(rt, path) {
        Ok(found) => OpenOptions::new()
            .read(found.is_file())
            .write(true)
            .open(rt, path),
        Err(error) if error.kind() == ErrorKind::NotFound => OpenOptions::new()
            .read(true)
            .write(true)
            .create(true)
            .open(rt, path),
        Err(error) => Err(error),
    }
}

/// A store is not written over.
fn expect_no_store(file: &File) -> io::Result<()> {
    if is_store(file)? {
        return Err(io::Error::new(ErrorKind::InvalidInput, "it is a store"));
    }
    Ok(())
}

/// That somebody has a lock on a file is an error. Where the system has no locks on it, nobody is kept out.
fn expect_free(lock: Result<(), TryLockError>) -> io::Result<()> {
    match lock {
        Err(TryLockError::WouldBlock) => {
            Err(io::Error::new(ErrorKind::WouldBlock, "it is in use"))
        }
        _ => Ok(()),
    }
}

/// What the system answered about a path of a pair, as a fault of the program's.
fn answered<'p>(opened: io::Result<File>, path: &'p str) -> Result<File, Refusal<'p>> {
    match opened {
        Ok(file) => Ok(file),
        Err(reason) => Err(Refusal::of_file(ProgramFault::Script, path, reason)),
    }
}
