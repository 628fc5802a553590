//! Entries of numbers that are durable.
ghost use Rattle.std.specs.Prelude.{◌≡◌, ◌⊎◌, ◌<◌, length, Err, IfOk, IfErr};
ghost use Rattle.book_history.specs.Fault.{no_memory};
ghost use Rattle.book_history.specs.Logs.{newest_in, IsLog};
ghost use Rattle.book_history.specs.Reporting.{MayBeReported};
ghost use Rattle.book_lock.specs.Heard.{HasHeard};
ghost use Rattle.book_lock.specs.Steps.{IsReportedIn};

use crate::locked_log::LockedLog;
use crate::reporter::Reporter;
use crate::room::Room;
use crate::shared_version::reported_version;
use book_history::entry::Cause;
use book_history::fault::BookFault;
use book_history::seen_log::BookName;
use std::alloc::Global;
use std::sync::Wait;
use store_receipt::receipt::Receipt;

impl<J: BookName, R: Wait + Drop> LockedLog<J, R> {
    /// Reports the number of a receipt of the book's own store durable for the reporter of the book, who has seen each
    /// number that was: the one entry that this adds, or nothing. It answers the durable number then, and the reporter has
    /// seen it. The memory for the entry's version is what was taken ahead for it, where there was some.
    pub fn report(
        &mut self,
        alloc: Global,
        room: &mut Room,
        me: &mut Reporter,
        receipt: &Receipt,
    ) -> Result<u64, BookFault>
        requires book { me.old.book ≡ J.book }
        requires own { receipt.now.store ≡ J.store }
        requires stored { J.stored me.old.log receipt.now.number }
        ensures ok { IfOk result (λ durable. IsReportedIn self.old receipt.now.number self.new
            × ((newest_in self.new).durable ≡ durable)) }
        ensures seen { IfOk result (λ _. HasHeard self.old me.old
            × (me.new ≡ record { book = me.old.book; log = self.new; given = me.old.given })
            × IsLog self.new) }
        ensures begun { 0 < length me.old.log }
        ensures err { IfErr result (λ fault. (self.new ≡ self.old) × (me.new ≡ me.old)
            × ((fault ≡ no_memory) ⊎ (fault ≡ BookFault.Gone))) }
        ensures heard { result ≡ Err no_memory → HasHeard self.old me.old }
    {
        let given = me.given();
        if !self.has_heard(me) {
            return Err(BookFault::Gone);
        }
        let durable = self.raise(alloc, room, receipt)?;
        me.move_on(&self.last().seen_log, durable, given);
        Ok(durable)
    }

    // Adds the entry of a number that is durable, where it is news.
    fn raise(&mut self, alloc: Global, room: &mut Room, receipt: &Receipt) -> Result<u64, BookFault>
        requires own { receipt.now.store ≡ J.store }
        requires stored { MayBeReported J.stored self.old receipt.now.number }
        ensures ok { IfOk result (λ durable. IsReportedIn self.old receipt.now.number self.new
            × ((newest_in self.new).durable ≡ durable)) }
        ensures err { IfErr result (λ fault. (self.new ≡ self.old) × ((fault ≡ no_memory) ⊎ (fault ≡ BookFault.Gone))) }
    {
        let number = receipt.number();
        let now = &self.last().version;
        let durable = now.durable();
        if number <= durable || now.number() < number {
            return Ok(durable);
        }
        let version = reported_version(alloc, room, now, number)?;
        self.add(Cause::Durable(receipt), version)?;
        Ok(number)
    }
}
