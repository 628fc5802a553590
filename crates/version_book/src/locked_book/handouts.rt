//! Handing out tiles, and taking them back without, under the lock.
ghost use Rattle.std.specs.Prelude.{◌≡◌, IsTrue, None, Ok, IfOk, IfErr, IfSome, IfNone};
ghost use Rattle.overlay_terms.specs.Commands.{stands_as_derived};
ghost use Rattle.overlay_terms.specs.Tiles.{input_of};
ghost use Rattle.book_history.specs.Fault.{no_memory};
ghost use Rattle.version_book.specs.Free.{AllAreHeld, IsFree};
ghost use Rattle.book_history.specs.Logs.{newest_in};
ghost use Rattle.version_book.specs.HeldTiles.{given_back, handed_out};
ghost use Rattle.version_book.specs.BookState.{HasHeld};
ghost use Rattle.version_book.specs.Jobs.{IsHandedOut, IsJob};
ghost use Rattle.version_book.specs.Waits.{IsIdle};

use crate::locked_book::LockedBook;
use crate::locked_book::job::Job;
use crate::pending::{free, parts};
use arrange::TileInput;
use book_history::fault::{BookFault, NO_MEMORY};
use book_history::seen_log::BookName;
use layer_expr::name::Name;
use plane_base::Column;
use std::alloc::{AllocError, Global};
use std::sync::Wait;

impl<J: BookName, R: Wait + Drop> LockedBook<J, R> {
    /// Hands out a pending tile that is neither handed out nor marked. None comes where the book closes.
    pub fn take(&mut self, alloc: Global) -> Result<Option<Job>, BookFault>
        requires ready { ¬ (IsIdle (newest_in self.old.log) self.old.state) }
        ensures log { self.new.log ≡ self.old.log }
        ensures job { IfOk result (λ o. IfSome o
            (λ job. IsHandedOut (newest_in self.old.log) self.old.state.held.list.items job.name job.input)) }
        ensures at { IfOk result (λ o. IfSome o (λ job. (job.book ≡ J.book) × (job.log ≡ self.old.log) × IsJob job)) }
        ensures state { IfOk result (λ o. IfSome o
            (λ job. HasHeld self.old.state (handed_out job.name job.input.column self.old.state.held.list.items) self.new.state)) }
        ensures closing { IsTrue self.old.state.closing → result ≡ Ok None }
        ensures none { IfOk result (λ o. IfNone o (IsTrue self.old.state.closing
            × (self.new.state ≡ self.old.state))) }
        ensures err { IfErr result (λ fault. (fault ≡ no_memory)
            × HasHeld self.old.state self.old.state.held.list.items self.new.state) }
    {
        if self.state.closing {
            return Ok(None);
        }
        let Some(tile) = self.free() else {
            return Ok(None);
        };
        let column = tile.1;
        let Ok((name, input)) = self.parts(alloc, tile.0, column) else {
            return Err(NO_MEMORY);
        };
        let job = Job::new(name, input, self.log.last().seen_log.again());
        if self.state.held.hand_out(job.name(), column).is_err() {
            job.end();
            return Err(NO_MEMORY);
        }
        let layers = self.log.last().version.layers();
        let place = layers.index_near(self.near.0, job.name());
        self.near = (place, column.number());
        Ok(Some(job))
    }

    /// Spends a job whose tile could not be built for want of memory: the tile is marked.
    pub fn give_back(&mut self, job: Job)
        requires { job.book ≡ J.book }
        ensures log { self.new.log ≡ self.old.log }
        ensures state { HasHeld self.old.state (given_back job.name job.input.column self.old.state.held.list.items) self.new.state }
    {
        self.state.give_back(job.name(), job.input().column());
        job.end();
    }

    /// A pending tile that is neither handed out nor marked.
    pub fn free(&self) -> Option<(&Name, Column)>
        ensures some { IfSome result
            (λ r. IsFree (newest_in self.now.log) self.now.state.held.list.items r.0.now r.1) }
        ensures none { IfNone result (AllAreHeld (newest_in self.now.log) self.now.state.held.list.items) }
    {
        let (near, from) = self.near;
        free(&self.log.last().version, &self.state.held, near, from)
    }

    // A copy of the name of a derived layer, and the input of its tile.
    fn parts(
        &self,
        alloc: Global,
        name: &Name,
        column: Column,
    ) -> Result<(Name, TileInput), AllocError>
        requires { IsTrue (stands_as_derived (newest_in self.now.log).layers name.now) }
        ensures { IfOk result (λ r. (r.0 ≡ name.now)
            × (r.1 ≡ input_of (newest_in self.now.log).layers name.now column)) }
    {
        parts(&self.log.last().version, alloc, name, column)
    }
}
