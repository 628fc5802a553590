//! What the reporter reports to the book, under the lock.
ghost use Rattle.std.specs.Prelude.{◌≡◌, ◌⊎◌, ◌<◌, length, IfOk, IfErr, Err};
ghost use Rattle.book_history.specs.Fault.{no_memory};
ghost use Rattle.book_history.specs.Logs.{newest_in, IsLog};
ghost use Rattle.version_book.specs.BookState.{IsAfterFailure};
ghost use Rattle.book_lock.specs.Steps.{IsReportedIn};
ghost use Rattle.book_lock.specs.Heard.{HasHeard};

use crate::locked_book::LockedBook;
use book_history::fault::{BookFault, ReportedFault};
use book_history::seen_log::BookName;
use book_lock::reporter::Reporter;
use book_lock::room::Room;
use std::alloc::Global;
use std::sync::Wait;
use store_receipt::receipt::Receipt;

/// Reports the number of a receipt durable: one entry, or none. It answers the durable number then. Memory for the next report is
/// taken ahead, where there is some.
pub(crate) fn report<J: BookName, R: Wait + Drop>(
    locked: &mut LockedBook<J, R>,
    alloc: Global,
    me: &mut Reporter,
    receipt: &Receipt,
) -> Result<u64, BookFault>
    requires book { me.old.book ≡ J.book }
    requires own { receipt.now.store ≡ J.store }
    requires stored { J.stored me.old.log receipt.now.number }
    ensures ok { IfOk result (λ m. IsReportedIn locked.old.log receipt.now.number locked.new.log
        × ((newest_in locked.new.log).durable ≡ m)) }
    ensures seen { IfOk result (λ _. HasHeard locked.old.log me.old
        × (me.new ≡ record { book = me.old.book; log = locked.new.log; given = me.old.given })
        × IsLog locked.new.log) }
    ensures begun { 0 < length me.old.log }
    ensures state { locked.new.state ≡ locked.old.state }
    ensures err { IfErr result (λ fault. (locked.new.log ≡ locked.old.log) × (me.new ≡ me.old)
        × ((fault ≡ no_memory) ⊎ (fault ≡ BookFault.Gone))) }
    ensures heard { result ≡ Err no_memory → HasHeard locked.old.log me.old }
{
    let durable = locked.log.report(alloc, &mut locked.room, me, receipt);
    if durable.is_ok() {
        locked.room = Room::new(alloc);
    }
    durable
}

/// The store reported a fault, by the reporter, who has seen no more than what is locked. Were it otherwise, which cannot
/// come, nothing changes.
pub(crate) fn store_failed<J: BookName, R: Wait + Drop>(
    locked: &mut LockedBook<J, R>,
    me: &Reporter,
    fault: ReportedFault,
)
    requires book { me.now.book ≡ J.book }
    requires failed { J.failed me.now.log fault }
    ensures log { locked.new.log ≡ locked.old.log }
    ensures state { HasHeard locked.old.log me.now → IsAfterFailure locked.old.state fault locked.new.state }
    ensures behind { ¬ (HasHeard locked.old.log me.now) → locked.new.state ≡ locked.old.state }
{
    if locked.log.has_heard(me) {
        locked.state.store_failed(fault);
    }
}
