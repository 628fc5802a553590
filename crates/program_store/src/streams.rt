//! The standard streams, before any file is opened.
use crate::fault::ProgramFault;
use std::fs::File;
use std::io;
use std::io::{ErrorKind, Stderr, Stdin, Stdout};
use std::os::fd::{AsFd, IntoRawFd};
use std::rt::Files;

/// What takes the place of a closed stream: it is in every file system, and can neither be read nor written.
const PLACE: &str = "/";

/// Sees to it that no file which is opened afterwards gets the number of a standard stream that the program was started
/// without: what is printed there would be written over the file. Such a stream stays one that can't be used. The fault
/// is `Script` where its number can't be taken for another reason than want of memory.
pub fn keep_streams<Q: Files<File = File>>(
    rt: &Q,
    input: &Stdin,
    output: &Stdout,
    errors: &Stderr,
) -> Result<(), ProgramFault> {
    answered(keep(rt, input))?;
    answered(keep(rt, output))?;
    answered(keep(rt, errors))
}

/// Takes a stream's number where it is closed. Those below it are taken by then, and the system gives the lowest one.
fn keep<Q: Files<File = File>, S: AsFd>(rt: &Q, stream: &S) -> io::Result<()> {
    if is_open(stream) {
        return Ok(());
    }
    let _never_closed = File::open(rt, PLACE)?.into_raw_fd();
    Ok(())
}

/// Whether a stream is open: of a closed one the system makes no second number.
fn is_open<S: AsFd>(stream: &S) -> bool {
    stream.as_fd().try_clone_to_owned().is_ok()
}

/// What the system answered, as a fault of the program's.
fn answered(kept: io::Result<()>) -> Result<(), ProgramFault> {
    match kept {
        Ok(()) => Ok(()),
        Err(error) if error.kind() == ErrorKind::OutOfMemory => Err(ProgramFault::OutOfMemory),
        Err(_) => Err(ProgramFault::Script),
    }
}
