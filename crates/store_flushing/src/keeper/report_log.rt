//! The numbers that were reported durable, each with the disk's moment as it was reported.
ghost use Rattle.std.specs.Prelude.{◌≡◌, ◌++◌, []};
ghost use Rattle.book_history.specs.Logs.{history_of};
ghost use Rattle.store_flushing.specs.ReportNote.{news_in, notes_at, notes_in};

use disk_model::disk::Disk;
use kept_store::held_store::HeldStore;
use logbook::{Opening, Rule, Seen, Start};
use std::fmt;
use std::snapshot::Snapshot;
use version_book::reporter::Reporter;

/// A number that was reported durable, and the disk's moment then. No value of it is made: it is what a list of
/// them holds for the proofs.
#[derive(Drop)]
pub struct ReportNote {
    pub number: u64,
    pub moment: u64,
}

/// A list that one hand keeps has no rule of its own.
struct NoRule;

impl Rule<ReportNote, u64> for NoRule {
    ghost use Rattle.std.specs.Prelude.{[]};
    ghost use base.Fml.{ftrue};

    ghost holds = { λ cells log. Unit {0} };

    ghost first = { [] };

    ghost hinted = { λ n log. Unit {0} };

    ghost shows = { λ log. [] };

    ghost keeps = { λ names log. ftrue };

    ghost moves = { λ ask before after answer. Unit {0} };
}

/// Nothing is written down.
struct Nothing;

impl Opening<(), ReportNote> for Nothing {
    ghost use Rattle.std.specs.Prelude.{[]};

    ghost log = { λ n nothing. [] };
}

/// A list, a reporter before and after a call, and the store whose disk has the moment.
#[derive(Clone, Copy)]
struct News<'a, D: Disk> {
    notes: &'a ReportLog,
    was: &'a Snapshot<Reporter>,
    reporter: &'a Reporter,
    held: &'a HeldStore<D>,
}

/// What was written down, and after it the news with the disk's moment.
struct WithNews;

impl<'a, D: Disk> Opening<News<'a, D>, ReportNote> for WithNews {
    ghost use Rattle.std.specs.Prelude.{◌++◌};
    ghost use Rattle.book_history.specs.Logs.{history_of};
    ghost use Rattle.store_flushing.specs.ReportNote.{news_in, notes_at, notes_in};

    ghost log = { λ n news. notes_in news.notes.now
        ++ notes_at (D.moment news.held.now.flusher.commit.disk)
        (news_in (history_of news.was.now.value.log) (history_of news.reporter.now.log)) };
}

/// The numbers that were reported durable, in order, each with the disk's moment then. It has no bytes, and its
/// keeper alone can write it.
#[derive(Drop)]
pub struct ReportLog {
    seen: Seen<ReportNote, u64, NoRule>,
}

impl fmt::Debug for ReportLog {
    fn fmt<W: fmt::Write>(&self, f: &mut fmt::Formatter<W>) -> fmt::Result {
        f.debug_struct("ReportLog").finish_non_exhaustive()
    }
}

impl ReportLog {
    /// Nothing was reported.
    pub fn none() -> ReportLog
        ensures { notes_in result ≡ [] }
    {
        let nothing = ();
        let (seen, _pens) = Seen::open_row::<(), Nothing>(&nothing, Start::alone(), 0);
        ReportLog { seen }
    }

    /// Writes down what a reporter has seen reported since, with the moment that the store's disk has now.
    pub(super) fn write<D: Disk>(
        &mut self,
        was: &Snapshot<Reporter>,
        reporter: &Reporter,
        held: &HeldStore<D>,
    )
        ensures { notes_in self.new ≡ notes_in self.old ++ notes_at (D.moment held.now.flusher.commit.disk)
            (news_in (history_of was.now.value.log) (history_of reporter.now.log)) }
    {
        let news = News {
            notes: &*self,
            was,
            reporter,
            held,
        };
        let (seen, _pens) = Seen::open_row::<News<'_, D>, WithNews>(&news, Start::alone(), 0);
        self.seen = seen;
    }
}
