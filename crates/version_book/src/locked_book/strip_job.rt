//! A strip of tiles that are handed out as one.
ghost use Rattle.std.specs.Prelude.{◌≡◌, ◌<◌, ◌≤◌, ◌+◌, ◌↔◌, IsTrue};
ghost use Rattle.book_history.specs.Logs.{newest_in};
ghost use Rattle.version_book.specs.Strips.{without_first, IsStripJob};

use book_history::seen_log::SeenLog;
use layer_expr::name::Name;
use std::marker::Model;
use tile_build::StripInput;

/// Tiles of neighbouring columns of one layer that are handed out, with what they are to be built from. They are spent one
/// after another. It is no value that may be dropped: the book hands it out, and takes it back once all are spent, or with
/// those that are left.
#[derive(Debug)]
pub struct StripJob {
    name: Name,
    input: StripInput,
    next: u8,
    seen_log: SeenLog,
    /// The number of the version at which they were handed out.
    number: u64,
}

impl Model for StripJob {
    ghost use Rattle.std.specs.Prelude.{◌≡◌};
    ghost use Rattle.book_history.specs.Logs.{newest_in};
    ghost use Rattle.version_book.specs.Strips.{HandedStrip, IsStripJob, strip_code};

    ghost Value = { HandedStrip };

    ghost coded = { strip_code };

    ghost view = { λ s. record { book = s.seen_log.book; log = s.seen_log.log; name = s.name; input = s.input; next = s.next } };

    ghost invariant = { λ s. IsStripJob (record { book = s.seen_log.book; log = s.seen_log.log; name = s.name; input = s.input; next = s.next })
        × ((newest_in s.seen_log.log).number ≡ s.number) };
}

impl StripJob {
    // Tiles that are pending in the newest version of a log, which has this number. None is spent.
    pub(super) fn new(name: Name, input: StripInput, seen_log: SeenLog, number: u64) -> StripJob
        requires number { (newest_in seen_log.log).number ≡ number }
        requires job { IsStripJob (record { book = seen_log.book; log = seen_log.log; name = name; input = input; next = input.strip.first }) }
        ensures { result ≡ record { book = seen_log.book; log = seen_log.log; name = name; input = input; next = input.strip.first } }
    {
        let next = input.strip().first().number();
        StripJob {
            name,
            input,
            next,
            seen_log,
            number,
        }
    }

    /// The name of the tiles' layer.
    pub fn name(&self) -> &Name
        ensures { result.now ≡ self.now.name }
    {
        &self.name
    }

    /// What the tiles are to be built from: its part in a column is the input of that column's tile in the newest version
    /// of its log, where the tile is pending.
    pub fn input(&self) -> &StripInput
        ensures value { result.now ≡ self.now.input }
        ensures strip { IsStripJob self.now }
    {
        &self.input
    }

    /// The number of the first column whose tile is not spent.
    pub fn next(&self) -> u8
        ensures { result ≡ self.now.next }
    {
        self.next
    }

    /// The log at whose newest version the tiles were pending.
    pub fn seen_log(&self) -> &SeenLog
        ensures { (result.now.book ≡ self.now.book) × (result.now.log ≡ self.now.log) }
    {
        &self.seen_log
    }

    /// The number of that version.
    /// The number of the version at which they were handed out.
    pub fn number(&self) -> u64
        ensures value { result ≡ (newest_in self.now.log).number }
        ensures strip { IsStripJob self.now }
    {
        self.number
    }

    /// Whether each of its tiles is spent.
    pub fn is_spent(&self) -> bool
        ensures { IsTrue result ↔ (self.now.input.strip.last < self.now.next) }
    {
        self.input.strip().last().number() < self.next
    }

    /// Ends a strip whose tiles are all spent.
    pub fn end_spent(self)
        requires { self.input.strip.last < self.next }
    {
        self.end();
    }

    // So many tiles more are spent.
    pub(super) fn go_on(&mut self, count: usize)
        requires { self.old.next + count ≤ self.old.input.strip.last + 1 }
        ensures { self.new ≡ without_first count self.old }
    {
        // The strip ends at a column that there is: the next number fits.
        let _ = self.input.strip().last().number();
        self.next += count as u8;
    }

    // Ends a strip of which no tile is handed out any more.
    pub(super) fn end(self) {
        let StripJob {
            name: _name,
            input: _input,
            next: _next,
            seen_log: _seen_log,
            number: _number,
        } = self;
    }
}
