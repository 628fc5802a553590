//! A reader that gives nothing after its end.
ghost use Rattle.std.specs.Prelude.{◌≡◌, ◌<◌, ℕ, List, Ok, Option, length, true, IfOk};
ghost use Rattle.std.specs.Io.{ReadsAtMost};
ghost use Rattle.std.specs.Io.KnownBytes.{ReadConsumes};
ghost use Rattle.session_threads.specs.Fuse.{has_ended, until_end};

use std::io;
use std::io::Read;

/// A reader that has ended at the first read that gives no byte into a buffer with room. From then on it gives nothing
/// and does not ask the reader in it again. So code that reads on after an end learns nothing of the reader's kind.
#[derive(Drop)]
pub struct Fuse<R> {
    reader: R,
    ended: bool,
}

impl<R> Fuse<R> {
    /// The reader until its end, which has not come.
    pub fn new(reader: R) -> Fuse<R>
        ensures { (remaining : R → Option (List ℕ)) → until_end remaining result ≡ remaining reader }
    {
        Fuse {
            reader,
            ended: false,
        }
    }
}

impl<R: Read> Read for Fuse<R> {
    ghost remaining = { until_end R.remaining };

    fn read(&mut self, buf: &mut [u8]) -> io::Result<usize>
        ensures bound { ReadsAtMost result buf.new }
        ensures bytes { ReadConsumes (until_end R.remaining self.old) (until_end R.remaining self.new) result buf.new }
        // After the end no byte is given, and nothing changes.
        ensures ended { has_ended self.old ≡ true → (result ≡ Ok 0) × ((buf.new ≡ buf.old) × (self.new ≡ self.old)) }
        // It ends where no byte is given, though there is room for one.
        ensures ends { IfOk result (λ count. count ≡ 0 → 0 < length buf.old → has_ended self.new ≡ true) }
    {
        if self.ended {
            return Ok(0);
        }
        let count = self.reader.read(buf)?;
        self.ended = count == 0 && !buf.is_empty();
        Ok(count)
    }
}
