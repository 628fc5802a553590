//! What the reporter asks, and what it reports.
ghost use Rattle.std.specs.Prelude.{◌≡◌, ◌⊎◌, ◌≤◌, IfOk, IfErr, IfSome, IfNone};
ghost use Rattle.std.specs.Arc.{arc_value};
ghost use Rattle.overlay_terms.specs.Histories.{BeginsWith, IsHistory};
ghost use Rattle.book_history.specs.Fault.{no_memory};
ghost use Rattle.book_history.specs.Logs.{history_of, newest_in};
ghost use Rattle.book_lock.specs.Heard.{IsReportedBy};

use crate::locked_book::reports::{report, store_failed};
use crate::locked_book::waits::{Awaited, tell_news};
use crate::shared::Shared;
use crate::turns::TurnKind;
use book_history::fault::{BookFault, ReportedFault};
use book_history::seen_log::BookName;
use book_lock::reporter::Reporter;
use std::alloc::Global;
use std::sync::{Arc, Wait};
use store_receipt::receipt::Receipt;
use versions::Version;

impl<J: BookName, R: Wait + Drop> Shared<J, R> {
    /// Gives the reporter the newest version once there are commands or kept tiles that it was not
    /// given. After a store's fault it waits until a command is accepted. At closing it does not
    /// wait, and None says that there are no news.
    pub fn next_version<W: Wait>(
        &self,
        rt: &W,
        me: &mut Reporter,
    ) -> Result<Option<Arc<Version, Global>>, BookFault>
        requires book { me.old.book ≡ J.book }
        ensures goes_on { BeginsWith (history_of me.new.log) (history_of me.old.log) }
        ensures history { IsHistory (history_of me.new.log) }
        ensures newest { IfOk result (λ o. IfSome o (λ version. arc_value version ≡ newest_in me.new.log)) }
        ensures news { IfOk result (λ o. IfSome o (λ _. ¬ (me.new.given ≡ me.old.given))) }
        ensures none { IfOk result (λ o. IfNone o (me.new ≡ me.old)) }
        ensures durable { (newest_in me.new.log).durable ≡ (newest_in me.old.log).durable }
        ensures err { IfErr result (λ fault. (me.new ≡ me.old) × ((fault ≡ no_memory) ⊎ (fault ≡ BookFault.Gone))) }
        ensures same { me.new.book ≡ me.old.book }
    {
        let given = me.given();
        let turn = self
            .turns
            .after(rt, &Awaited::News(given), TurnKind::Looked);
        tell_news(&turn.book, me)
    }

    /// Reports the number of a receipt durable, and answers the durable number then. The receipt is of the book's own store.
    pub fn report<W: Wait>(
        &self,
        rt: &W,
        alloc: Global,
        me: &mut Reporter,
        receipt: &Receipt,
    ) -> Result<u64, BookFault>
        requires book { me.old.book ≡ J.book }
        requires own { receipt.now.store ≡ J.store }
        requires stored { J.stored me.old.log receipt.now.number }
        ensures goes_on { BeginsWith (history_of me.new.log) (history_of me.old.log) }
        ensures history { IsHistory (history_of me.new.log) }
        ensures ok { IfOk result (λ m. (newest_in me.new.log).durable ≡ m) }
        ensures reported { IfOk result (λ _. IsReportedBy me.old receipt.now.number me.new.log) }
        ensures reached { IfOk result (λ m. receipt.now.number ≤ (newest_in me.old.log).number → receipt.now.number ≤ m) }
        ensures err { IfErr result (λ fault. (me.new ≡ me.old) × ((fault ≡ no_memory) ⊎ (fault ≡ BookFault.Gone))) }
        ensures same { (me.new.book ≡ me.old.book) × (me.new.given ≡ me.old.given) }
    {
        // What the reporter has seen is a log with a first entry: the clauses rest on that.
        let _ = me.given();
        let mut turn = self.turns.next(rt, TurnKind::Reported);
        report(&mut turn.book, alloc, me, receipt)
    }

    /// The store reported a fault: the reporter rests until a command is accepted.
    pub fn store_failed<W: Wait>(&self, rt: &W, me: &mut Reporter, fault: ReportedFault)
        requires book { me.old.book ≡ J.book }
        requires failed { J.failed me.old.log fault }
        ensures { me.new ≡ me.old }
    {
        // What the reporter has seen is a log with a first entry: the clauses rest on that.
        let _ = me.given();
        let mut turn = self.turns.next(rt, TurnKind::StoreFailed);
        store_failed(&mut turn.book, me, fault);
    }
}
