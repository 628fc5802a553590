//! Where a version is in a history.
ghost use Rattle.std.specs.Prelude.{◌≡◌, ◌++◌, ◌≤◌, [], List, length, IsTrue};
ghost use Rattle.overlay_terms.specs.Histories.{Entry};
ghost use Rattle.book_history.specs.Logs.{newest_in};
ghost use Rattle.kept_store.specs.Since.{HasTilesOf, kept_in, reported_in, reports_between};

use std::marker::Model;
use version_book::reporter::Reporter;
use version_book::seen_log::SeenLog;
use versions::Version;

/// Where a version is in a history: the log that it ends, its number, and what is durable there.
#[derive(Drop)]
pub(crate) struct VersionMark {
    seen_log: SeenLog,
    number: u64,
    durable: u64,
}

impl Model for VersionMark {
    ghost use Rattle.std.specs.Prelude.{◌≡◌};
    ghost use Rattle.book_history.specs.BookLogs.{BookLog};
    ghost use Rattle.book_history.specs.KnownCodes.{book_log_code};
    ghost use Rattle.book_history.specs.Logs.{newest_in};

    ghost Value = { BookLog };

    ghost coded = { book_log_code };

    ghost view = { λ m. m.seen_log };

    ghost invariant = { λ m. ((newest_in m.seen_log.log).number ≡ m.number)
        × ((newest_in m.seen_log.log).durable ≡ m.durable) };
}

impl VersionMark {
    /// That of the newest version that a reporter has seen.
    pub(crate) fn of(reporter: &Reporter, version: &Version) -> VersionMark
        requires { version.now ≡ newest_in reporter.now.log }
        ensures book { result.book ≡ reporter.now.book }
        ensures log { result.log ≡ reporter.now.log }
    {
        VersionMark {
            seen_log: reporter.seen_log().again(),
            number: version.number(),
            durable: version.durable(),
        }
    }

    /// Whether it is known that each tile of a later version is this one's. A batch raises the number by one and adds
    /// no tile, and a report shows in what is durable: where no more entries lie between than these, none kept a tile.
    pub(crate) fn has_tiles_of(&self, later: &VersionMark) -> bool
        requires { later.now.book ≡ self.now.book }
        ensures known { IsTrue result → HasTilesOf (newest_in self.now.log) (newest_in later.now.log) }
        // It is wherever no tile was kept since, and at most one number was reported.
        ensures reported { (since : List Entry) → later.now.log ≡ self.now.log ++ since → kept_in since ≡ []
            → length (reported_in since) ≤ 1 → IsTrue result }
    {
        // Of two logs of one book the shorter begins the longer: the clauses rest on that.
        self.seen_log.compare(&later.seen_log);
        let first = self.seen_log.at();
        let last = later.seen_log.at();
        if last < first {
            return false;
        }
        let others = (last - first).saturating_sub(self.reports_until(later));
        others <= later.number.saturating_sub(self.number)
    }

    /// The one report that is known of, where a later version differs in what is durable.
    fn reports_until(&self, later: &VersionMark) -> u64
        ensures { result ≡ reports_between (newest_in self.now.log) (newest_in later.now.log) }
    {
        if self.durable == later.durable { 0 } else { 1 }
    }
}
