//! Where a session's replies go.
ghost use Rattle.program_store.specs.Replies.{contents_of};

use std::io;
use std::io::Write;

/// Where replies go: an output such as the standard one, or a file. Each write is one of theirs, so that nothing waits
/// in a buffer of its own.
#[derive(Drop)]
pub enum Replies<O, F> {
    Output(O),
    File(F),
}

impl<O: Write, F: Write> Write for Replies<O, F> {
    ghost contents = { contents_of O.contents F.contents };

    fn write(&mut self, buf: &[u8]) -> io::Result<usize> {
        match self {
            Replies::Output(output) => output.write(buf),
            Replies::File(file) => file.write(buf),
        }
    }

    fn flush(&mut self) -> io::Result<()> {
        match self {
            Replies::Output(output) => output.flush(),
            Replies::File(file) => file.flush(),
        }
    }
}
