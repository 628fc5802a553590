//! Handing out strips of tiles, and taking them back with the tiles that were built or without, under the lock.
ghost use Rattle.std.specs.Prelude.{◌≡◌, ◌⊎◌, ◌≤◌, ◌+◌, ◌==◌, ℕ, not, IsTrue, None, Ok, IfOk, IfErr, IfSome, IfNone};
ghost use Rattle.book_history.specs.Fault.{no_memory};
ghost use Rattle.book_history.specs.Logs.{newest_in};
ghost use Rattle.crossing_sweep.specs.StripInput.{part};
ghost use Rattle.version_book.specs.BookState.{HasHeld, IsAfterFinish};
ghost use Rattle.version_book.specs.Free.{IsFree};
ghost use Rattle.version_book.specs.HeldTiles.{strip_given_back, strip_handed_out, strip_taken_in};
ghost use Rattle.version_book.specs.Jobs.{IsHandedOut};
ghost use Rattle.version_book.specs.Strips.{AreFinishedBy, AreNext, IsStripHandedOut, IsStripJob};
ghost use Rattle.version_book.specs.Waits.{IsIdle};

use crate::locked_book::LockedBook;
use crate::locked_book::strip_job::StripJob;
use crate::strips::strip_parts;
use book_history::fault::{BookFault, NO_MEMORY};
use book_history::seen_log::BookName;
use layer_expr::name::Name;
use plane_base::Column;
use std::alloc::{AllocError, Global};
use std::sync::Wait;
use tile_build::{SharedBuilt, StripInput};

impl<J: BookName, R: Wait + Drop> LockedBook<J, R> {
    /// Hands out a pending tile that is neither handed out nor marked, and with it those of the columns right of it that
    /// can be handed out, too, as long as they make a strip that is small enough. None comes where the book closes.
    pub fn take_strip(&mut self, alloc: Global) -> Result<Option<StripJob>, BookFault>
        requires ready { ¬ (IsIdle (newest_in self.old.log) self.old.state) }
        ensures log { self.new.log ≡ self.old.log }
        ensures strip { IfOk result (λ o. IfSome o
            (λ strip. IsStripHandedOut (newest_in self.old.log) self.old.state.held.list.items strip)) }
        ensures at { IfOk result (λ o. IfSome o
            (λ strip. (strip.book ≡ J.book) × (strip.log ≡ self.old.log) × IsStripJob strip)) }
        ensures state { IfOk result (λ o. IfSome o
            (λ strip. HasHeld self.old.state (strip_handed_out strip.name strip.input.strip self.old.state.held.list.items) self.new.state)) }
        ensures closing { IsTrue self.old.state.closing → result ≡ Ok None }
        ensures none { IfOk result (λ o. IfNone o (IsTrue self.old.state.closing
            × (self.new.state ≡ self.old.state))) }
        ensures err { IfErr result (λ fault. (fault ≡ no_memory)
            × HasHeld self.old.state self.old.state.held.list.items self.new.state) }
    {
        if self.state.closing {
            return Ok(None);
        }
        let Some(tile) = self.free() else {
            return Ok(None);
        };
        let Ok((name, input)) = self.strip_parts(alloc, tile.0, tile.1) else {
            return Err(NO_MEMORY);
        };
        let columns = input.strip();
        let last = self.log.last();
        let strip = StripJob::new(name, input, last.seen_log.again(), last.version.number());
        if self
            .state
            .held
            .hand_out_strip(strip.name(), columns)
            .is_err()
        {
            strip.end();
            return Err(NO_MEMORY);
        }
        let layers = self.log.last().version.layers();
        let place = layers.index_near(self.near.0, strip.name());
        // The next strip of the layer begins as far left as can be.
        self.near = (place, 0);
        Ok(Some(strip))
    }

    /// Spends the next tiles of a strip with those that were built of their inputs: keeps each where it is awaited, by
    /// an entry of its own, and says how many were kept. The log is published once. These tiles are not handed out any
    /// more. Where memory runs out, the strip has those that are left. Where not even the first one can be written down,
    /// or the log does not go on from that at which the strip was handed out, nothing changes.
    pub fn finish_strip(
        &mut self,
        alloc: Global,
        strip: &mut StripJob,
        built: &[SharedBuilt],
    ) -> Result<u64, BookFault>
        requires book { strip.old.book ≡ J.book }
        requires tiles { AreNext strip.old built.now }
        ensures finished { IfOk result
            (λ kept. AreFinishedBy strip.old built.now self.old.log strip.new kept self.new.log) }
        ensures state { IfOk result (λ kept. IsAfterFinish self.old.state
            (strip_taken_in strip.old.name strip.old.next strip.new.next self.old.state.held.list.items)
            (not (kept == 0)) self.new.state) }
        ensures err { IfErr result (λ _. (strip.new ≡ strip.old) × (self.new.log ≡ self.old.log)
            × (self.new.state ≡ self.old.state)) }
        ensures refused { IfErr result (λ fault. (fault ≡ no_memory) ⊎ (fault ≡ BookFault.Gone)) }
    {
        if !self.log.has(strip.seen_log()) {
            return Err(BookFault::Gone);
        }
        let last = self.log.last();
        let before = last.seen_log.at();
        // No command was accepted since: the layers are those of which the inputs are.
        let are_present = last.version.number() == strip.number();
        let count = match self.log.keep_each(alloc, strip.name(), built, are_present) {
            Ok(count) => count,
            Err(fault) => return Err(fault),
        };
        let kept = self.log.last().seen_log.at() - before;
        let first = strip.next();
        strip.go_on(count);
        self.state
            .strip_taken_in(strip.name(), first, strip.next(), kept != 0);
        Ok(kept)
    }

    /// Spends what is left of a strip, which could not be built for want of memory: its tiles are marked.
    pub fn give_back_strip(&mut self, strip: StripJob)
        requires { strip.book ≡ J.book }
        ensures log { self.new.log ≡ self.old.log }
        ensures state { HasHeld self.old.state
            (strip_given_back strip.name strip.next (strip.input.strip.last + 1) self.old.state.held.list.items) self.new.state }
    {
        let end = strip.input().strip().last().number() + 1;
        self.state.give_back_strip(strip.name(), strip.next(), end);
        strip.end();
    }

    // A copy of the name of a derived layer, and the input of a strip of its tiles, from one on that can be handed out.
    fn strip_parts(
        &self,
        alloc: Global,
        name: &Name,
        first: Column,
    ) -> Result<(Name, StripInput), AllocError>
        requires { IsFree (newest_in self.now.log) self.now.state.held.list.items name.now first }
        ensures name { IfOk result (λ r. r.0 ≡ name.now) }
        ensures each { IfOk result (λ r. (k : ℕ) → r.1.strip.first ≤ k → k ≤ r.1.strip.last
            → IsHandedOut (newest_in self.now.log) self.now.state.held.list.items name.now (part r.1 k)) }
    {
        strip_parts(
            &self.log.last().version,
            &self.state.held,
            alloc,
            name,
            first,
        )
    }
}
