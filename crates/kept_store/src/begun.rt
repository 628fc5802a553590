//! What a server begins with: an engine, shut, or none.
ghost use Rattle.std.specs.Prelude.{◌≡◌, ◌∷◌, []};
ghost use Rattle.book_history.specs.Logs.{entry, no_event};
ghost use Rattle.book_history.specs.Rules.{head_of};
ghost use Rattle.kept_store.specs.Beginning.{flusher_of, start_of};

use crate::opened::Opened;
use disk_model::disk::Disk;
use flush_core::flusher::Flusher;
use overlay_engine::engine::Engine;
use std::alloc::Global;
use version_book::seen_log::{LogWord, SeenLog, open};
use versions::Version;

/// An engine that is shut, or none: a book that begins with its version has its store. No step of it is made any more.
#[derive(Drop)]
pub struct Begun<D: Disk> {
    engine: Option<Engine<D>>,
}

impl<D: Disk> Begun<D> {
    /// Shuts an engine.
    pub fn of(engine: Option<Engine<D>>) -> Begun<D>
        ensures { result.engine ≡ engine }
    {
        Begun { engine }
    }

    /// Begins the history of a book with the engine's version, or with no command where there is none: its word, what was
    /// seen of it, that version, and the store, where there is one, which no keeper of another book can have.
    pub fn opened<J>(self, alloc: Global) -> (LogWord<J>, SeenLog, Version, Opened<D>)
        ensures head { result.0 ≡ head_of result.1.book }
        ensures begun { result.1.log ≡ entry no_event result.2 ∷ [] }
        ensures version { result.2 ≡ start_of self.engine }
        ensures flusher { result.3.flusher ≡ flusher_of self.engine }
        ensures book { result.3.seen_log.book ≡ result.1.book }
    {
        let Begun { engine } = self;
        match engine {
            Some(engine) => {
                let (version, flusher) = engine.into_parts();
                opened_at(version, Some(flusher))
            }
            None => opened_at(Version::empty(alloc), None),
        }
    }
}

/// Begins the history of a book with a version, and hands it the store, where there is one.
fn opened_at<J, D: Disk>(
    version: Version,
    flusher: Option<Flusher<D>>,
) -> (LogWord<J>, SeenLog, Version, Opened<D>)
    ensures head { result.0 ≡ head_of result.1.book }
    ensures begun { result.1.log ≡ entry no_event result.2 ∷ [] }
    ensures version { result.2 ≡ version }
    ensures flusher { result.3.flusher ≡ flusher }
    ensures book { result.3.seen_log.book ≡ result.1.book }
{
    let (head, seen_log) = open::<J>(&version);
    let store = Opened::of(flusher, seen_log.again());
    (head, seen_log, version, store)
}
