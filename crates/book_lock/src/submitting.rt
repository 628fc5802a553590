//! Entries that a session makes: what it submits is accepted.
ghost use Rattle.std.specs.Prelude.{◌≡◌, IfOk, IfErr, false};
ghost use Rattle.book_lock.specs.Steps.{IsAcceptedIn, IsRefusedIn, IsTurnedAway};

use crate::change::Change;
use crate::locked_log::LockedLog;
use crate::refused::Refused;
use crate::session::Session;
use book_history::entry::Cause;
use book_history::seen_log::BookName;
use std::alloc::Global;
use std::sync::Wait;

impl<J: BookName, R: Wait + Drop> LockedLog<J, R> {
    /// Accepts what a session submits: the one entry that this adds, or nothing.
    pub fn submit<C: Change>(
        &mut self,
        alloc: Global,
        me: &mut Session,
        change: &C,
    ) -> Result<u64, Refused<C::Fault>>
        requires book { me.old.book ≡ J.book }
        requires asked { J.asked me.old.session (C.batch change.now) }
        ensures ok { IfOk result (IsAcceptedIn self.old me.old (C.batch change.now) self.new me.new) }
        ensures err { IfErr result (λ refused. (self.new ≡ self.old)
            × IsRefusedIn self.old me.old (C.refuses change.now) false refused me.new) }
    {
        if !self.is_level(me) {
            return Err(Refused::Gone);
        }
        let version = match change.version_after(alloc, &self.last().version) {
            Ok(version) => version,
            Err(fault) => return Err(self.turn_away(me, Refused::Version(fault))),
        };
        let by = me.number();
        let cause = Cause::Accepted(by, change.commands());
        let Ok(()) = self.add(cause, version) else {
            return Err(Refused::Gone);
        };
        let last = self.last();
        let accepted = last.version.number();
        me.made_one(&last.seen_log, accepted);
        Ok(accepted)
    }

    /// A session that is turned away looks, and gets the reason, which may be that the log is behind what it saw.
    pub fn turn_away<F: Copy>(&self, me: &mut Session, why: Refused<F>) -> Refused<F>
        requires { me.old.book ≡ J.book }
        ensures { IsTurnedAway self.now me.old why result me.new }
    {
        match self.show(me) {
            Ok(_) => why,
            Err(_) => Refused::Gone,
        }
    }
}
