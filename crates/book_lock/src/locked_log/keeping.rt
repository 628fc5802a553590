//! Entries of tiles that are kept: of one, or of several of a layer with one publication.
ghost use Rattle.std.specs.Prelude.{◌≡◌, ◌⊎◌, ◌<◌, ◌≤◌, length, take, All, IsTrue, IfOk, IfErr, IfSome};
ghost use Rattle.overlay_terms.specs.Tiles.{input_of};
ghost use Rattle.book_history.specs.Fault.{no_memory};
ghost use Rattle.book_history.specs.Logs.{newest_in, IsLog};
ghost use Rattle.book_lock.specs.Steps.{AreFinishedIn, IsFinishedIn};

use crate::locked_log::{LockedLog, MOST};
use crate::shared_version::shared;
use book_history::entry::Cause;
use book_history::fault::{BookFault, NO_MEMORY};
use book_history::published::Published;
use book_history::publisher::put_out;
use book_history::seen_log::{BookName, SeenLog};
use layer_expr::name::Name;
use std::alloc::Global;
use std::slice;
use std::sync::{Arc, Wait};
use tile_build::SharedBuilt;
use versions::Version;

impl<J: BookName, R: Wait + Drop> LockedLog<J, R> {
    /// Keeps a built tile where it is awaited: the one entry that this adds, or nothing. The tile is shared.
    pub fn keep(
        &mut self,
        alloc: Global,
        name: &Name,
        built: &SharedBuilt,
    ) -> Result<bool, BookFault>
        ensures kept { IfOk result (λ is_kept. IsFinishedIn self.old name.now built.now.0 built.now.1 is_kept self.new) }
        ensures err { IfErr result (λ fault. (self.new ≡ self.old) × ((fault ≡ no_memory) ⊎ (fault ≡ BookFault.Gone))) }
    {
        let before = self.last().seen_log.at();
        self.keep_each(alloc, name, slice::from_ref(built), false)?;
        Ok(self.last().seen_log.at() != before)
    }

    /// Keeps built tiles of a layer one after another, each where it is awaited, by an entry of its own; the last version
    /// is published. It says how many of the tiles are finished: not all where memory runs out. Inputs are not compared
    /// where all are known to be the present ones.
    pub fn keep_each(
        &mut self,
        alloc: Global,
        name: &Name,
        tiles: &[SharedBuilt],
        are_present: bool,
    ) -> Result<usize, BookFault>
        requires present { IsTrue are_present
            → All (λ built. built.0 ≡ input_of (newest_in self.old).layers name.now built.0.column) tiles.now }
        ensures few { IfOk result (λ count. count ≤ length tiles.now) }
        ensures some { IfOk result (λ count. 0 < length tiles.now → 0 < count) }
        ensures finished { IfOk result (λ count. AreFinishedIn self.old name.now (take count tiles.now) self.new) }
        ensures err { IfErr result (λ fault. (self.new ≡ self.old) × ((fault ≡ no_memory) ⊎ (fault ≡ BookFault.Gone))) }
    {
        let (next, count) = self.with_tiles(alloc, name, tiles, are_present)?;
        put_out(&self.rt, &mut self.publisher, next);
        Ok(count)
    }

    // What is to be published after built tiles, and how many of them are finished.
    fn with_tiles(
        &self,
        alloc: Global,
        name: &Name,
        tiles: &[SharedBuilt],
        are_present: bool,
    ) -> Result<(Published, usize), BookFault>
        requires present { IsTrue are_present
            → All (λ built. built.0 ≡ input_of (newest_in self.now).layers name.now built.0.column) tiles.now }
        ensures begun { IsLog self.now }
        ensures book { IfOk result (λ r. r.0.seen_log.book ≡ J.book) }
        ensures few { IfOk result (λ r. r.1 ≤ length tiles.now) }
        ensures some { IfOk result (λ r. 0 < length tiles.now → 0 < r.1) }
        ensures finished { IfOk result (λ r. AreFinishedIn self.now name.now (take r.1 tiles.now) r.0.seen_log.log) }
        ensures err { IfErr result (λ fault. (fault ≡ no_memory) ⊎ (fault ≡ BookFault.Gone)) }
    {
        let now = self.last();
        let mut seen_log = now.seen_log.again();
        let Ok(copy) = now.version.again(alloc) else {
            return Err(NO_MEMORY);
        };
        let mut version = shared(alloc, copy)?;
        // Nobody else has it: it was copied just now.
        let Some(own) = Arc::get_mut(&mut version) else {
            return Err(BookFault::Gone);
        };
        let count = self.add_tiles(alloc, own, &mut seen_log, name, tiles, are_present)?;
        Ok((Published { version, seen_log }, count))
    }

    // Changes a version by built tiles, one after another, and adds the entry of each to the log that it ends. It says
    // how many are finished.
    fn add_tiles(
        &self,
        alloc: Global,
        version: &mut Version,
        seen_log: &mut SeenLog,
        name: &Name,
        tiles: &[SharedBuilt],
        are_present: bool,
    ) -> Result<usize, BookFault>
        requires last { version.old ≡ newest_in seen_log.old.log }
        requires book { seen_log.old.book ≡ J.book }
        requires present { IsTrue are_present
            → All (λ built. built.0 ≡ input_of version.old.layers name.now built.0.column) tiles.now }
        ensures last { IfOk result (λ _. version.new ≡ newest_in seen_log.new.log) }
        ensures book { seen_log.new.book ≡ J.book }
        ensures few { IfOk result (λ count. count ≤ length tiles.now) }
        ensures some { IfOk result (λ count. 0 < length tiles.now → 0 < count) }
        ensures finished { IfOk result
            (λ count. AreFinishedIn seen_log.old.log name.now (take count tiles.now) seen_log.new.log) }
        ensures err { IfErr result (λ fault. (fault ≡ no_memory) ⊎ (fault ≡ BookFault.Gone)) }
    {
        let mut count = 0;
        for built in tiles {
            match self.add_tile(alloc, version, seen_log, name, built, are_present) {
                Ok(Some(_is_kept)) => {}
                Ok(None) => return Err(BookFault::Gone),
                Err(fault) => {
                    if count == 0 {
                        return Err(fault);
                    }
                    return Ok(count);
                }
            }
            count += 1;
        }
        Ok(count)
    }

    // Changes a version by a built tile, where it is awaited: the tile's entry is added, and not published. Its input is
    // not compared where it is known to be the present one. None says that the log cannot go on.
    fn add_tile(
        &self,
        alloc: Global,
        version: &mut Version,
        seen_log: &mut SeenLog,
        name: &Name,
        built: &SharedBuilt,
        is_present: bool,
    ) -> Result<Option<bool>, BookFault>
        requires last { version.old ≡ newest_in seen_log.old.log }
        requires book { seen_log.old.book ≡ J.book }
        requires present { IsTrue is_present
            → built.now.0 ≡ input_of version.old.layers name.now built.now.0.column }
        ensures last { IfOk result (λ o. IfSome o (λ _. version.new ≡ newest_in seen_log.new.log)) }
        ensures book { seen_log.new.book ≡ J.book }
        ensures finished { IfOk result (λ o. IfSome o (λ is_kept. IsFinishedIn seen_log.old.log
            name.now built.now.0 built.now.1 is_kept seen_log.new.log)) }
        ensures err { IfErr result
            (λ fault. (fault ≡ no_memory) × (version.new ≡ version.old) × (seen_log.new ≡ seen_log.old)) }
    {
        let column = built.column();
        if seen_log.at() >= MOST {
            return Ok(None);
        }
        let is_kept = match version.keep(alloc, name, built, is_present) {
            Ok(is_kept) => is_kept,
            Err(fault) => return Err(BookFault::Version(fault)),
        };
        if !is_kept {
            // Who builds a tile has it alone, so it cannot be there.
            if version.shared_tile(name, column).is_some() {
                return Ok(None);
            }
            return Ok(Some(false));
        }
        let cause = Cause::Kept(name, &column, built.tile());
        if seen_log.add(&self.head, cause, version) {
            Ok(Some(true))
        } else {
            Ok(None)
        }
    }
}
