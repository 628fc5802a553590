//! A tile that is handed out.
ghost use Rattle.std.specs.Prelude.{◌≡◌};
ghost use Rattle.version_book.specs.Jobs.{IsJob};

use arrange::TileInput;
use book_history::seen_log::SeenLog;
use layer_expr::name::Name;
use std::marker::Model;

/// A tile that is handed out, with what it is to be built from. It is no value that may be dropped: the book hands it
/// out, and takes it back with the built tile or without.
#[derive(Debug)]
pub struct Job {
    name: Name,
    input: TileInput,
    seen_log: SeenLog,
}

impl Model for Job {
    ghost use Rattle.version_book.specs.Jobs.{Handed, IsJob, handed_code};

    ghost Value = { Handed };

    ghost coded = { handed_code };

    ghost view = { λ j. record { book = j.seen_log.book; log = j.seen_log.log; name = j.name; input = j.input } };

    ghost invariant = { λ j. IsJob (record { book = j.seen_log.book; log = j.seen_log.log; name = j.name; input = j.input }) };
}

impl Job {
    // A job for a tile that is pending in the newest version of a log.
    pub(super) fn new(name: Name, input: TileInput, seen_log: SeenLog) -> Job
        requires { IsJob (record { book = seen_log.book; log = seen_log.log; name = name; input = input }) }
        ensures { result ≡ record { book = seen_log.book; log = seen_log.log; name = name; input = input } }
    {
        Job {
            name,
            input,
            seen_log,
        }
    }

    /// The name of the tile's layer.
    pub fn name(&self) -> &Name
        ensures { result.now ≡ self.now.name }
    {
        &self.name
    }

    /// What the tile is to be built from: its input in the newest version of its log, where it is pending.
    pub fn input(&self) -> &TileInput
        ensures value { result.now ≡ self.now.input }
        ensures job { IsJob self.now }
    {
        &self.input
    }

    /// The log at whose newest version the tile was pending.
    pub fn seen_log(&self) -> &SeenLog
        ensures { (result.now.book ≡ self.now.book) × (result.now.log ≡ self.now.log) }
    {
        &self.seen_log
    }

    // Ends a job, whose tile is not handed out any more.
    pub(super) fn end(self) {
        let Job {
            name: _name,
            input: _input,
            seen_log: _seen_log,
        } = self;
    }
}
