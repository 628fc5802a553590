//! Where a session's lines come from.
ghost use Rattle.program_store.specs.Source.{remaining_in};

use std::io;
use std::io::Read;

/// Where lines come from: an input such as the standard one, or a file.
#[derive(Drop)]
pub enum Source<I, F> {
    Input(I),
    File(F),
}

impl<I: Read, F: Read> Read for Source<I, F> {
    ghost remaining = { remaining_in I.remaining F.remaining };

    fn read(&mut self, buf: &mut [u8]) -> io::Result<usize> {
        match self {
            Source::Input(input) => input.read(buf),
            Source::File(file) => file.read(buf),
        }
    }
}
