//! The book of a server as it was opened.
ghost use Rattle.std.specs.Prelude.{◌≡◌, List, None};
ghost use Rattle.store_flushing.specs.Stores.{flusher_in};
ghost use Rattle.overlay_server.specs.Answering.{answer_in};
ghost use Rattle.overlay_server.specs.Given.{Given};
ghost use Rattle.overlay_server.specs.Moments.{HasOnlyNow};
ghost use Rattle.overlay_server.specs.Refusing.{IsRefusedFrom};
ghost use Rattle.overlay_server.specs.Serving.{first_log};

use crate::opening::BookAnswer;
use crate::outcome::ServerFault;
use crate::refusing::refused;
use disk_model::disk::Disk;
use root_store::shut::Shut;
use std::alloc::Global;
use std::snapshot::Snapshot;
use std::sync::Wait;
use store_flushing::keeper::store::Store;
use version_book::closer::Closer;
use version_book::seen_log::{BookName, SeenLog};
use version_book::session::Session;
use version_book::shared::Shared;
use versions::Version;

/// The book of a server that was opened: its first version with the number, the history that begins with it, what the
/// book answered, the right to close it, its store, and the sessions that it began with.
pub(crate) struct Hosted<J: BookName, S: Wait + Drop, D: Disk> {
    pub number: u64,
    pub version: Snapshot<Version>,
    pub seen_log: SeenLog,
    pub answer: BookAnswer,
    pub shared: Shared<J, S>,
    pub closer: Closer<J>,
    pub store: Store<D>,
    pub sessions: Vec<Session>,
}

impl<J: BookName, S: Wait + Drop, D: Disk> Hosted<J, S, D> {
    /// Ends the book of a server that had no memory for its ports: the disk comes back.
    pub fn unserved(self, alloc: Global) -> ServerFault<Shut<D>>
        requires answer { answer_in self.answer ≡ None }
        requires first { self.seen_log.log ≡ first_log self.version.value }
        requires now { HasOnlyNow D.Disk }
        ensures { (all : List Given) → IsRefusedFrom D.Disk self.version.value (flusher_in self.store) all result }
    {
        let Hosted {
            number: _,
            version: _version,
            seen_log,
            answer,
            shared: _shared,
            closer: _closer,
            store,
            sessions: _sessions,
        } = self;
        refused(alloc, answer, store.into_disk(), seen_log)
    }
}
