//! What the reporter reports to the book: that a number is durable, or why the store did not write.
ghost use Rattle.std.specs.Prelude.{◌≡◌, ◌⊎◌, ◌≤◌};
ghost use Rattle.overlay_terms.specs.Histories.{BeginsWith, IsHistory, newest};
ghost use Rattle.book_history.specs.Logs.{history_of};
ghost use Rattle.kept_store.specs.ReportedFaults.{reported_fault_of};

use commit_plan::fault::StoreFault;
use std::alloc::Global;
use std::sync::Wait;
use store_receipt::receipt::Receipt;
use version_book::fault::ReportedFault;
use version_book::reporter::Reporter;
use version_book::resting::rest;
use version_book::seen_log::BookName;
use version_book::shared::Shared;

/// Reports the number of a receipt. Where there is no memory for that, it sleeps a moment and tries again.
pub(crate) fn report<J: BookName, R: Wait + Drop, W: Wait>(
    rt: &W,
    alloc: Global,
    shared: &Shared<J, R>,
    me: &mut Reporter,
    receipt: &Receipt,
)
    requires book { me.old.book ≡ J.book }
    requires own { receipt.now.store ≡ J.store }
    requires stored { J.stored me.old.log receipt.now.number }
    ensures goes_on { BeginsWith (history_of me.new.log) (history_of me.old.log) }
    ensures history { IsHistory (history_of me.old.log) }
    // It is durable, where there is such a version; and nothing but it, or what was durable before.
    ensures reached { receipt.now.number ≤ (newest (history_of me.old.log)).number
        → receipt.now.number ≤ (newest (history_of me.new.log)).durable }
    ensures reported { ((newest (history_of me.new.log)).durable ≡ receipt.now.number)
        ⊎ ((newest (history_of me.new.log)).durable ≡ (newest (history_of me.old.log)).durable) }
    ensures same { me.new.book ≡ me.old.book }
{
    // What the reporter has seen is a log with a first entry: the clauses rest on that.
    let _ = me.given();
    'tries: for _ in rt.forever() {
        match shared.report(rt, alloc, me, receipt) {
            Ok(_) => return,
            Err(_) => rest(rt),
        }
    }
    unreachable!()
}

/// A fault of a store, as it is reported to the book.
pub(crate) fn reported_fault(fault: StoreFault) -> ReportedFault
    ensures { result ≡ reported_fault_of fault }
{
    match fault {
        StoreFault::Full => ReportedFault::Full,
        StoreFault::Failed => ReportedFault::Failed,
        StoreFault::SequenceLimit => ReportedFault::SequenceLimit,
        StoreFault::OutOfMemory => ReportedFault::OutOfMemory,
        StoreFault::Device | StoreFault::Damaged(_) | StoreFault::NotEmpty => ReportedFault::Device,
    }
}
