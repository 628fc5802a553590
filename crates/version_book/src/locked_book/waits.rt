//! What the calls that wait decide by, and what they answer, under the lock.
ghost use Rattle.std.specs.Prelude.{◌≡◌, ◌⊎◌, ◌<◌, ◌≤◌, ◌↔◌, IsTrue, IfOk, IfErr, IfSome, IfNone, Err, IsErrAnd};
ghost use Rattle.std.specs.Arc.{arc_value};
ghost use Rattle.book_history.specs.Fault.{no_memory};
ghost use Rattle.book_history.specs.Logs.{newest_in, IsLog};
ghost use Rattle.book_history.specs.Reporting.{ReportsStored};
ghost use Rattle.version_book.specs.Failing.{IsReportedFault};
ghost use Rattle.book_lock.specs.Steps.{IsLevel};
ghost use Rattle.book_lock.specs.Heard.{HasHeard};
ghost use Rattle.version_book.specs.Waits.{IsAfterAnswered, IsBuilding, IsBuiltAt, IsQuiet, IsSyncRefusedAt};
ghost use Rattle.version_book.specs.Waits.{IsWaitRefused, IsWriting, Looks, Waits};

use crate::locked_book::LockedBook;
use book_history::fault::{BookFault, NO_MEMORY};
use book_history::seen_log::BookName;
use book_lock::reporter::Reporter;
use book_lock::session::Session;
use layer_expr::name::Name;
use std::alloc::Global;
use std::sync::{Arc, Wait};
use versions::Version;

/// What a call waits for.
#[derive(Clone, Copy)]
pub(crate) enum Awaited<'a> {
    /// A tile that can be handed out.
    Tile,
    /// The tiles of a layer.
    Built(&'a Name),
    /// That a number is durable.
    Durable(u64),
    /// News after those of a count.
    News(u64),
}

/// Whether a wait goes on. Each ends at closing.
pub(crate) fn waits<J: BookName, R: Wait + Drop>(
    locked: &LockedBook<J, R>,
    awaited: &Awaited<'_>,
) -> bool
    ensures { IsTrue result ↔ Waits (newest_in locked.now.log) locked.now.state awaited.now }
{
    if locked.state.closing {
        return false;
    }
    let version = &locked.log.last().version;
    match awaited {
        // Nothing can be handed out.
        Awaited::Tile => locked.free().is_none(),
        // The layer's tiles can be waited for (not after a DROP), and none of the ends of the wait is there.
        Awaited::Built(name) => {
            version.wait_refusal(name).is_none()
                && !version.is_built(name)
                && !locked.state.held.has_mark(name)
        }
        // A version of this number is not yet durable, and the store reported no fault.
        Awaited::Durable(number) => version.durable() < *number && locked.state.fault.is_none(),
        // There are no news for the reporter, or it rests.
        Awaited::News(given) => locked.state.news == *given || locked.state.resting,
    }
}

/// Reports to a session how a wait for the tiles of a layer ends: it is refused (10, 12), all are built, a tile is marked
/// (40), or the book closes (43). The marks of the layer go where it ends by them.
pub(crate) fn tell_built<J: BookName, R: Wait + Drop>(
    locked: &mut LockedBook<J, R>,
    me: &mut Session,
    name: &Name,
) -> Result<u64, BookFault>
    requires book { me.old.book ≡ J.book }
    requires ready { ¬ (IsBuilding (newest_in locked.old.log) locked.old.state name.now) }
    ensures ok { IfOk result (λ n. IsBuiltAt (newest_in locked.old.log) name.now n) }
    ensures refused { IfErr result
        (λ fault. IsWaitRefused locked.old.state.closing (newest_in locked.old.log) name.now fault) }
    ensures seen { Looks result me.old locked.old.log me.new }
    ensures gone { result ≡ Err BookFault.Gone → ¬ (IsLevel locked.old.log me.old) }
    ensures log { locked.new.log ≡ locked.old.log }
    ensures state { IsAfterAnswered (newest_in locked.old.log) locked.old.state name.now result locked.new.state }
{
    let number = locked.log.show(me)?;
    let version = &locked.log.last().version;
    if let Some(fault) = version.wait_refusal(name) {
        return Err(BookFault::Version(fault));
    }
    if version.is_built(name) {
        return Ok(number);
    }
    if locked.state.held.has_mark(name) {
        locked.state.unmark_of(name);
        return Err(NO_MEMORY);
    }
    Err(BookFault::Closing)
}

/// Reports to a session how a wait until a number is durable ends, in a book that has a store.
pub(crate) fn tell_durable<J: BookName, R: Wait + Drop>(
    locked: &LockedBook<J, R>,
    me: &mut Session,
    number: u64,
) -> Result<u64, BookFault>
    requires book { me.old.book ≡ J.book }
    requires ready { ¬ (IsWriting (newest_in locked.now.log) locked.now.state number) }
    ensures ok { IfOk result (λ n. ((newest_in locked.now.log).durable ≡ n) × (number ≤ n)) }
    ensures reported { IfOk result (λ _. ReportsStored J.stored locked.now.log) }
    ensures refused { IfErr result
        (λ fault. IsSyncRefusedAt locked.now.state (newest_in locked.now.log) number fault) }
    ensures failed { IfErr result (IsReportedFault J.failed locked.now.log) }
    ensures seen { Looks result me.old locked.now.log me.new }
    ensures gone { result ≡ Err BookFault.Gone → ¬ (IsLevel locked.now.log me.old) }
{
    locked.log.show(me)?;
    let durable = locked.log.last().version.durable();
    if number <= durable {
        return Ok(durable);
    }
    match locked.state.fault {
        Some(fault) => Err(BookFault::Store(fault)),
        None => Err(BookFault::Closing),
    }
}

/// Reports to a session that there is no store.
pub(crate) fn tell_no_store<J: BookName, R: Wait + Drop>(
    locked: &LockedBook<J, R>,
    me: &mut Session,
) -> Result<u64, BookFault>
    requires book { me.old.book ≡ J.book }
    ensures refused { IsErrAnd result (λ fault. (fault ≡ BookFault.NoStore) ⊎ (fault ≡ BookFault.Gone)) }
    ensures seen { Looks result me.old locked.now.log me.new }
    ensures gone { result ≡ Err BookFault.Gone → ¬ (IsLevel locked.now.log me.old) }
{
    locked.log.show(me)?;
    Err(BookFault::NoStore)
}

/// Gives the reporter the newest version, where there are news. None comes where there are none, at closing.
pub(crate) fn tell_news<J: BookName, R: Wait + Drop>(
    locked: &LockedBook<J, R>,
    me: &mut Reporter,
) -> Result<Option<Arc<Version, Global>>, BookFault>
    requires book { me.old.book ≡ J.book }
    requires ready { ¬ (IsQuiet locked.now.state me.old.given) }
    ensures some { IfOk result (λ o. IfSome o (λ version. (arc_value version ≡ newest_in locked.now.log)
        × HasHeard locked.now.log me.old × IsLog locked.now.log)) }
    ensures news { IfOk result (λ o. IfSome o (λ _. ¬ (locked.now.state.news ≡ me.old.given)
        × (me.new ≡ record { book = me.old.book; log = locked.now.log; given = locked.now.state.news }))) }
    ensures none { IfOk result (λ o. IfNone o (IsTrue locked.now.state.closing
        × (locked.now.state.news ≡ me.old.given) × (me.new ≡ me.old))) }
    ensures err { IfErr result (λ fault. (me.new ≡ me.old) × ((fault ≡ no_memory) ⊎ (fault ≡ BookFault.Gone))) }
    ensures gone { result ≡ Err BookFault.Gone → ¬ (HasHeard locked.now.log me.old) }
    ensures heard { result ≡ Err no_memory → HasHeard locked.now.log me.old }
{
    if !locked.log.has_heard(me) {
        return Err(BookFault::Gone);
    }
    if me.given() == locked.state.news {
        return Ok(None);
    }
    let Ok(version) = Arc::try_clone(&locked.log.last().version) else {
        return Err(NO_MEMORY);
    };
    locked.log.show_to_reporter(me, locked.state.news);
    Ok(Some(version))
}
