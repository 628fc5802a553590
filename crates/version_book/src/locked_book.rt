//! The book under its lock: the log, and the book's state beside it.
ghost use Rattle.std.specs.Prelude.{◌≡◌, ◌⊎◌, IsTrue, Err, IfOk, IfErr};
ghost use mathlib.Core.List.{IsPrefix};
ghost use Rattle.book_history.specs.Fault.{no_memory};
ghost use Rattle.book_history.specs.Logs.{IsLog};
ghost use Rattle.version_book.specs.Failing.{HasFailed};
ghost use Rattle.version_book.specs.BookState.{IsAfterCommand, IsAfterFinish};
ghost use Rattle.version_book.specs.HeldTiles.{taken_in};
ghost use Rattle.book_lock.specs.Steps.{IsAcceptedIn, IsFinishedIn, IsRefusedIn};

use crate::book_state::BookState;
use crate::locked_book::job::Job;
use book_history::fault::BookFault;
use book_history::seen_log::{BookName, SeenLog};
use book_lock::change::Change;
use book_lock::locked_log::LockedLog;
use book_lock::refused::Refused;
use book_lock::room::Room;
use book_lock::session::Session;
use std::alloc::Global;
use std::sync::Wait;
use tile_build::SharedBuilt;

pub mod closing;
mod handouts;
pub mod job;
mod leaving;
pub mod reports;
pub mod strip_job;
mod strips;
pub mod waits;

/// What lies under the lock. Its parts are changed by its own calls alone.
#[derive(Drop)]
pub struct LockedBook<J: BookName, R: Wait + Drop> {
    log: LockedLog<J, R>,
    state: BookState,
    /// Where the layer was whose tile was handed out last, and the tile's column by its number: there the next one is
    /// looked for first.
    near: (usize, u8),
    /// Memory for the next report: what is stored can be reported where there is none any more.
    room: Room,
    ghost failed: { HasFailed J.failed log state.fault },
}

impl<J: BookName, R: Wait + Drop> LockedBook<J, R> {
    /// A book that begins with a log.
    pub fn new(alloc: Global, log: LockedLog<J, R>) -> LockedBook<J, R> {
        LockedBook {
            log,
            state: BookState::new(alloc),
            near: (0, 0),
            room: Room::new(alloc),
        }
    }

    /// Accepts what a session submits: one entry, or none.
    pub fn submit<C: Change>(
        &mut self,
        alloc: Global,
        me: &mut Session,
        change: &C,
    ) -> Result<u64, Refused<C::Fault>>
        requires book { me.old.book ≡ J.book }
        requires asked { J.asked me.old.session (C.batch change.now) }
        ensures ok { IfOk result (IsAcceptedIn self.old.log me.old (C.batch change.now) self.new.log me.new) }
        ensures accepted { IfOk result (λ _. IsAfterCommand self.old.state self.new.state) }
        ensures err { IfErr result (λ refused. (self.new.log ≡ self.old.log) × (self.new.state ≡ self.old.state)
            × IsRefusedIn self.old.log me.old (C.refuses change.now) self.old.state.closing refused me.new) }
        ensures closing { IsTrue self.old.state.closing
            → (result ≡ Err Refused.Closing) ⊎ (result ≡ Err Refused.Gone) }
    {
        if self.state.closing {
            return Err(self.log.turn_away(me, Refused::Closing));
        }
        let number = self.log.submit(alloc, me, change)?;
        self.state.command_accepted();
        Ok(number)
    }

    /// The log, as it is.
    pub fn end(&self) -> SeenLog
        ensures log { result.log ≡ self.now.log }
        ensures valid { (result.book ≡ J.book) × IsLog result.log }
    {
        self.log.last().seen_log.again()
    }

    /// Spends a job: keeps the tile that was built of its input where it is awaited, and says whether it was, by one
    /// entry or none. The tile is not handed out any more. Where that cannot be written down, or the log does not go on from
    /// that at which the tile was handed out, the job comes back.
    pub fn finish(
        &mut self,
        alloc: Global,
        job: Job,
        built: &SharedBuilt,
    ) -> Result<bool, (Job, BookFault)>
        requires book { job.book ≡ J.book }
        requires input { built.now.0 ≡ job.input }
        ensures goes_on { IfOk result (λ _. IsPrefix job.log self.old.log) }
        ensures log { IfOk result
            (λ is_kept. IsFinishedIn self.old.log job.name job.input built.now.1 is_kept self.new.log) }
        ensures state { IfOk result
            (λ is_kept. IsAfterFinish self.old.state
            (taken_in job.name job.input.column self.old.state.held.list.items) is_kept self.new.state) }
        ensures err { IfErr result
            (λ e. (e.0 ≡ job) × (self.new.log ≡ self.old.log) × (self.new.state ≡ self.old.state)) }
        ensures refused { IfErr result (λ e. (e.1 ≡ no_memory) ⊎ (e.1 ≡ BookFault.Gone)) }
    {
        if !self.log.has(job.seen_log()) {
            return Err((job, BookFault::Gone));
        }
        let kept = match self.log.keep(alloc, job.name(), built) {
            Ok(kept) => kept,
            Err(fault) => return Err((job, fault)),
        };
        self.state
            .job_finished(job.name(), job.input().column(), kept);
        job.end();
        Ok(kept)
    }
}
