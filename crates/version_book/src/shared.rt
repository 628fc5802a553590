//! What threads share: the book under its lock, how it begins and ends, and what sessions ask of it.
ghost use Rattle.std.specs.Prelude.{◌≡◌, ◌⊎◌, ◌<◌, ◌≤◌, [], ◌∷◌, ◌++◌, IfOk, IfErr, All};
ghost use Rattle.std.specs.Prelude.{List, length, true, false, Err, IsErrAnd};
ghost use Rattle.std.specs.Arc.{arc_value};
ghost use Rattle.overlay_terms.specs.Histories.{newest, BeginsWith, Entry, IsHistory};
ghost use Rattle.layer_book.specs.Command.{command};
ghost use Rattle.book_history.specs.Fault.{IsBatchRefused, IsCommandRefused, no_memory, whole};
ghost use Rattle.book_history.specs.Known.{seen, IsOwn, LeavesSession};
ghost use Rattle.book_history.specs.Logs.{entry, newest_in, no_event, IsAccepted, IsLog};
ghost use Rattle.book_history.specs.Rules.{head_of};
ghost use Rattle.book_history.specs.Reporting.{ReportsStored};
ghost use Rattle.version_book.specs.Failing.{IsReportedFault};
ghost use Rattle.book_lock.specs.Steps.{beginners, HasAllOf, IsAcceptedIn, IsRefusedIn};
ghost use Rattle.book_lock.specs.Heard.{HasHeard};
ghost use Rattle.version_book.specs.Store.{has_store};
ghost use Rattle.version_book.specs.Waits.{IsBuiltAt, IsSyncRefused, IsWaitRefused};

use crate::closer::Closer;
use crate::closing::ClosedBook;
use crate::locked_book::LockedBook;
use crate::locked_book::closing::{begin_close, has_all_of, into_closed};
use crate::locked_book::waits::{Awaited, tell_built, tell_durable, tell_no_store};
use crate::turns::{TurnKind, Turns};
use book_history::fault::BookFault;
use book_history::seen_log::{BookName, LogWord, SeenLog};
use book_lock::change::Change;
use book_lock::locked_log::LockedLog;
use book_lock::refused::Refused;
use book_lock::reporter::Reporter;
use book_lock::session::Session;
use layer_book::batch::Batch;
use layer_book::batch_fault::BatchFault;
use layer_book::command::Command;
use layer_expr::name::Name;
use std::alloc::Global;
use std::sync::Wait;
use versions::Version;

mod handouts;
mod reports;

/// The book under its lock, and whether it has a store.
pub struct Shared<J: BookName, R: Wait + Drop> {
    turns: Turns<J, R>,
    store: bool,
}

impl<J: BookName, R: Wait + Drop> Shared<J, R> {
    /// A book over a log of one version, its reporter, its sessions and the right to close it. Each has seen just that.
    /// There is no other session: the book's name says for how many it may be begun.
    pub fn start(
        rt: R,
        alloc: Global,
        head: LogWord<J>,
        seen_log: SeenLog,
        version: Version,
        store: bool,
        sessions: usize,
    ) -> Result<(Shared<J, R>, Reporter, Vec<Session>, Closer<J>), BookFault>
        requires head { head ≡ head_of J.book }
        requires seen_log { (seen_log.book ≡ J.book) × (seen_log.log ≡ entry no_event version ∷ []) }
        requires sessions { (0 < sessions) × (sessions ≤ 4) }
        requires seats { sessions ≤ J.seats }
        ensures reporter { IfOk result (λ r. r.1 ≡ record { book = seen_log.book; log = seen_log.log; given = 0 }) }
        ensures sessions { IfOk result (λ r. r.2.items ≡ beginners seen_log sessions) }
        ensures of_book { IfOk result (λ r. All (λ session. session.book ≡ J.book) r.2.items) }
        ensures reporter_of_book { IfOk result (λ r. r.1.book ≡ J.book) }
        ensures count { IfOk result (λ r. length r.2.items ≡ sessions) }
        ensures store { IfOk result (λ r. has_store r.0 ≡ store) }
        ensures err { IfErr result (λ fault. (fault ≡ no_memory) ⊎ (fault ≡ BookFault.Gone)) }
    {
        let (log, reporter, list) = LockedLog::open(rt, alloc, head, seen_log, version, sessions)?;
        let shared = Shared {
            turns: Turns::new(LockedBook::new(alloc, log)),
            store,
        };
        Ok((shared, reporter, list, Closer::new()))
    }

    /// Whether it has a store.
    pub fn has_store(&self) -> bool
        ensures { result ≡ has_store self.now }
    {
        self.store
    }

    /// Accepts a command of a session, and answers the number of its version.
    pub fn submit<W: Wait>(
        &self,
        rt: &W,
        alloc: Global,
        me: &mut Session,
        change: &Command,
    ) -> Result<u64, BookFault>
        requires book { me.old.book ≡ J.book }
        // Who submits it has to prove that the session was asked for it; a call that never returns owes this too.
        requires asked { J.asked me.old.session (command change.now ∷ []) }
        ensures goes_on { BeginsWith (seen me.new) (seen me.old) }
        ensures history { IsHistory (seen me.new) }
        ensures ok { IfOk result (λ n. IsAccepted me.old.session (seen me.old) (command change.now ∷ []) (seen me.new) n) }
        ensures made { IfOk result (λ _. me.new.made ≡ me.old.made ++ (command change.now ∷ []) ∷ []) }
        ensures own { IfOk result (λ _. IsOwn me.new) }
        ensures err { IfErr result (LeavesSession BookFault.Gone me.old me.new) }
        ensures refused { IfErr result (λ fault. IsCommandRefused true (newest (seen me.new)) (command change.now) fault) }
        ensures same { (me.new.book ≡ me.old.book) × (me.new.session ≡ me.old.session) }
    {
        Ok(self.accept(rt, alloc, me, change)?)
    }

    /// Accepts a batch of a session as one version, and answers its number. Where it is refused, none of its commands
    /// is made.
    pub fn submit_all<W: Wait>(
        &self,
        rt: &W,
        alloc: Global,
        me: &mut Session,
        batch: &Batch,
    ) -> Result<u64, BatchFault>
        requires book { me.old.book ≡ J.book }
        requires asked { J.asked me.old.session batch.now }
        ensures goes_on { BeginsWith (seen me.new) (seen me.old) }
        ensures history { IsHistory (seen me.new) }
        ensures ok { IfOk result (λ n. IsAccepted me.old.session (seen me.old) batch.now (seen me.new) n) }
        ensures made { IfOk result (λ _. me.new.made ≡ me.old.made ++ batch.now ∷ []) }
        ensures own { IfOk result (λ _. IsOwn me.new) }
        ensures err { IfErr result (LeavesSession (whole BookFault.Gone) me.old me.new) }
        ensures refused { IfErr result (λ fault. IsBatchRefused true (newest (seen me.new)) batch.now fault) }
        ensures same { (me.new.book ≡ me.old.book) × (me.new.session ≡ me.old.session) }
    {
        Ok(self.accept(rt, alloc, me, batch)?)
    }

    /// Accepts what a session submits.
    fn accept<W: Wait, C: Change>(
        &self,
        rt: &W,
        alloc: Global,
        me: &mut Session,
        change: &C,
    ) -> Result<u64, Refused<C::Fault>>
        requires book { me.old.book ≡ J.book }
        requires asked { J.asked me.old.session (C.batch change.now) }
        ensures begun { 0 < length me.old.log }
        ensures valid { IsLog me.old.log }
        ensures ok { IfOk result (λ n. (log after : List Entry)
            × IsAcceptedIn log me.old (C.batch change.now) after me.new n) }
        ensures err { IfErr result (λ refused. (log : List Entry)
            × IsRefusedIn log me.old (C.refuses change.now) true refused me.new) }
    {
        // It has seen some version: the clauses rest on that.
        let _ = me.number();
        let mut turn = self.turns.next(rt, TurnKind::Commanded);
        turn.book.submit(alloc, me, change)
    }

    /// Waits until the tiles of a layer are finished, and answers the number of such a version.
    pub fn wait_built<W: Wait>(
        &self,
        rt: &W,
        me: &mut Session,
        name: &Name,
    ) -> Result<u64, BookFault>
        requires book { me.old.book ≡ J.book }
        ensures goes_on { BeginsWith (seen me.new) (seen me.old) }
        ensures history { IsHistory (seen me.new) }
        ensures ok { IfOk result (λ n. IsBuiltAt (newest (seen me.new)) name.now n) }
        ensures own { IfOk result (λ _. IsOwn me.new) }
        ensures err { IfErr result (LeavesSession BookFault.Gone me.old me.new) }
        ensures refused { IfErr result (λ fault. IsWaitRefused true (newest (seen me.new)) name.now fault) }
        ensures same { (me.new.book ≡ me.old.book) × (me.new.session ≡ me.old.session) × (me.new.made ≡ me.old.made) }
    {
        // It has seen some version: the clauses rest on that.
        let _ = me.number();
        let mut turn = self
            .turns
            .after(rt, &Awaited::Built(name), TurnKind::Unsaid);
        let reported = tell_built(&mut turn.book, me, name);
        turn.kind = TurnKind::Answered {
            fault: reported.is_err(),
        };
        reported
    }

    /// Waits until the newest version that a session has seen is durable, and answers the durable number.
    pub fn wait_durable<W: Wait>(&self, rt: &W, me: &mut Session) -> Result<u64, BookFault>
        requires book { me.old.book ≡ J.book }
        ensures goes_on { BeginsWith (seen me.new) (seen me.old) }
        ensures history { IsHistory (seen me.new) }
        ensures ok { IfOk result (λ n. ((newest (seen me.new)).durable ≡ n) × ((newest (seen me.old)).number ≤ n)) }
        ensures reported { IfOk result (λ _. ReportsStored J.stored me.new.log) }
        ensures own { IfOk result (λ _. IsOwn me.new) }
        ensures err { IfErr result (LeavesSession BookFault.Gone me.old me.new) }
        ensures refused { IfErr result
            (λ fault. IsSyncRefused (newest (seen me.old)).number (newest (seen me.new)) fault) }
        ensures failed { IfErr result (IsReportedFault J.failed me.new.log) }
        ensures only_without { result ≡ Err BookFault.NoStore → has_store self.now ≡ false }
        ensures without { has_store self.now ≡ false
            → IsErrAnd result (λ fault. (fault ≡ BookFault.NoStore) ⊎ (fault ≡ BookFault.Gone)) }
        ensures same { (me.new.book ≡ me.old.book) × (me.new.session ≡ me.old.session) × (me.new.made ≡ me.old.made) }
    {
        // It has seen some version: the clauses rest on that.
        let _ = me.number();
        let number = me.newest();
        if !self.store {
            let turn = self.turns.next(rt, TurnKind::Looked);
            return tell_no_store(&turn.book, me);
        }
        let turn = self
            .turns
            .after(rt, &Awaited::Durable(number), TurnKind::Looked);
        tell_durable(&turn.book, me, number)
    }

    /// From now on commands are refused, no job is handed out, and no call waits for long. Who has the right to close the
    /// book alone can call it, whether that call returns or not.
    // It has no clause: it gives nothing, and that the book closes is said under the lock, by `begin_close` there.
    pub fn begin_close<W: Wait>(&self, rt: &W, closer: &mut Closer<J>) {
        let mut turn = self.turns.next(rt, TurnKind::Closed);
        begin_close(&mut turn.book, closer);
    }

    /// Ends the book once the threads that share it have returned. Were one of these tokens not level with it, which
    /// cannot come, it would wait for ever.
    pub fn into_closed<W: Wait>(
        self,
        rt: &W,
        reporter: &Reporter,
        sessions: &[Session],
    ) -> ClosedBook
        requires reporter { reporter.now.book ≡ J.book }
        requires sessions { All (λ session. session.book ≡ J.book) sessions.now }
        ensures version { arc_value result.version ≡ newest_in result.seen_log.log }
        ensures log { (result.seen_log.book ≡ J.book) × IsLog result.seen_log.log }
        ensures reporter { HasHeard result.seen_log.log reporter.now }
        ensures sessions { All (λ session. HasAllOf result.seen_log.log session) sessions.now }
        ensures durable { All (λ entry. entry.version.durable ≤ (newest_in result.seen_log.log).durable) result.seen_log.log }
    {
        let Shared {
            turns,
            store: _store,
        } = self;
        let locked = turns.into_inner();
        if !has_all_of(&locked, reporter, sessions) {
            never(rt)
        }
        into_closed(locked)
    }
}

// Waits for ever, for what does not come.
fn never<W: Wait>(rt: &W) -> ! {
    for _ in rt.forever() {}
    unreachable!()
}

/// It waits for the readers.
impl<J: BookName, R: Wait + Drop> Drop for Shared<J, R> {
    fn drop(self) {
        let Self {
            turns,
            store: _store,
        } = self;
        drop(turns);
    }
}
