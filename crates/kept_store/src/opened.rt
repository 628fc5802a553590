//! A store before its book's keeper has it: shut, so that no code above has one by value.
ghost use Rattle.std.specs.Prelude.{◌≡◌, ◌<◌, is_some, option_map, MatchOption, IfSome, None, Some};
ghost use Rattle.kept_store.specs.Unstored.{IsUnstoredFor};
ghost use Rattle.root_store.specs.declared.phase.Phase.TheVariants as phases;

use crate::left::{StoreLeft, left_of};
use commit_plan::fault::StoreFault;
use disk_model::disk::Disk;
use flush_core::flusher::Flusher;
use root_store::shut::Shut;
use std::alloc::Global;
use version_book::seen_log::SeenLog;
use versions::Version;

/// A store that is shut: the keeper of its own book alone can commit to it.
#[derive(Drop)]
pub struct ShutStore<D: Disk> {
    flusher: Flusher<D>,
    /// What was seen of its book: it says which book it is.
    seen_log: SeenLog,
}

impl<D: Disk> ShutStore<D> {
    /// Shuts the store of a book.
    pub(crate) fn of(flusher: Flusher<D>, seen_log: SeenLog) -> ShutStore<D>
        ensures flusher { result.flusher ≡ flusher }
        ensures book { result.seen_log.book ≡ seen_log.book }
    {
        ShutStore { flusher, seen_log }
    }

    /// The store, with what was seen of its book.
    pub(crate) fn into_parts(self) -> (Flusher<D>, SeenLog)
        ensures flusher { result.0 ≡ self.flusher }
        ensures book { result.1.book ≡ self.seen_log.book }
    {
        let ShutStore { flusher, seen_log } = self;
        (flusher, seen_log)
    }

    /// What is left of it, with why it would not begin the commit of the newest version. It makes no device call.
    pub fn left(self, alloc: Global, version: &Version) -> StoreLeft<D>
        ensures stored { result.stored ≡ self.flusher.commit.root.version }
        ensures disk { result.disk ≡ Some self.flusher.commit.disk }
        ensures fault { IfSome result.fault (λ fault. IsUnstoredFor fault self.flusher version.now) }
        ensures failed { self.flusher.commit.phase ≡ phases.Failed
            → self.flusher.commit.root.version < version.now.number
            → result.fault ≡ Some StoreFault.Failed }
    {
        let ShutStore {
            flusher,
            seen_log: _,
        } = self;
        left_of(alloc, Some(flusher), version)
    }
}

/// The store that a book begins with, if it has one: for the keeper of that book.
#[derive(Drop)]
pub struct Opened<D: Disk> {
    flusher: Option<Flusher<D>>,
    /// What was seen of the book: it says which book it is.
    seen_log: SeenLog,
}

impl<D: Disk> Opened<D> {
    /// Hands a store over to a book.
    pub(crate) fn of(flusher: Option<Flusher<D>>, seen_log: SeenLog) -> Opened<D>
        ensures flusher { result.flusher ≡ flusher }
        ensures book { result.seen_log.book ≡ seen_log.book }
    {
        Opened { flusher, seen_log }
    }

    /// Whether there is a store.
    pub fn is_there(&self) -> bool
        ensures { result ≡ is_some self.now.flusher }
    {
        self.flusher.is_some()
    }

    /// The disk of a store that no keeper has had.
    pub fn into_disk(self) -> Option<Shut<D>>
        ensures { MatchOption self.flusher (result ≡ None) (λ f. result ≡ Some f.commit.disk) }
    {
        let Opened {
            flusher,
            seen_log: _,
        } = self;
        match flusher {
            Some(flusher) => Some(flusher.into_disk()),
            None => None,
        }
    }

    /// The store, for its keeper.
    pub fn into_store(self) -> Option<ShutStore<D>>
        ensures flusher { option_map (λ s. s.flusher) result ≡ self.flusher }
        ensures book { IfSome result (λ s. s.seen_log.book ≡ self.seen_log.book) }
    {
        let Opened { flusher, seen_log } = self;
        match flusher {
            Some(flusher) => Some(ShutStore::of(flusher, seen_log)),
            None => None,
        }
    }
}
