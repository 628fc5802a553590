//! That what a session has put is in the store as `flusher_loop` and then `close` leave it, where no server runs.
ghost use Rattle.std.specs.Prelude.{◌≡◌, ◌≤◌, ◌∷◌, [], ℕ, List};
ghost use Rattle.overlay_terms.specs.Histories.{Entry};
ghost use Rattle.book_history.specs.Logs.{entry, no_event};
ghost use Rattle.book_history.specs.Rules.{head_of};
ghost use Rattle.book_history.specs.declared.fault.ReportedFault.{ReportedFault};
ghost use Rattle.kept_store.specs.Beginning.{name_in};

use crate::tests::testing::{BLOCKS, begun_of, empty_disk, reopened};
use disk_model::disk::Disk;
use kept_store::begun::Begun;
use kept_store::opened::Opened;
use overlay_server::{ReportLog, close, flusher_loop, session_run};
use root_store::shut::Shut;
use std::alloc::Global;
use std::marker::Brand;
use std::process::Abort;
use std::sync::Wait;
use std::test::Fail;
use std::thread::Threads;
use test_machines::machine::Machine;
use version_book::seen_log::{BookName, LogWord, SeenLog};
use version_book::shared::Shared;
use versions::Version;

/// What a book has left: the number that is stored, the last one that was reported, and the disk, shut.
#[derive(Drop)]
struct BookLeft<D> {
    stored: u64,
    durable: u64,
    disk: Option<Shut<D>>,
}

/// Runs a script over a store, closes the book, runs the store's loop, and ends the book.
fn flushed<D, Q>(rt: &Q, alloc: Global, begun: Begun<D>, script: &[u8]) -> BookLeft<D>
where
    D: Disk + Drop,
    Q: Threads + Wait + Sync + Abort,
{
    let (head, seen_log, version, store) = begun.opened::<Brand>(alloc);
    flushed_in::<Brand, D, Q>(rt, alloc, (head, seen_log, version), store, script)
}

fn flushed_in<J, D, Q>(
    rt: &Q,
    alloc: Global,
    history: (LogWord<J>, SeenLog, Version),
    store: Opened<D>,
    script: &[u8],
) -> BookLeft<D>
where
    J: BookName,
    D: Disk + Drop,
    Q: Threads + Wait + Sync + Abort,
    requires head { history.0 ≡ head_of J.book }
    requires book { history.1.book ≡ J.book }
    requires own { store.seen_log.book ≡ J.book }
    requires mine { J.store ≡ name_in store.flusher }
    requires begun { history.1.log ≡ entry no_event history.2 ∷ [] }
    requires stored { (log : List Entry) (number : ℕ) → J.stored log number }
    requires failed { (log : List Entry) (fault : ReportedFault) → J.failed log fault }
    requires seats { 1 ≤ J.seats }
    requires any_change { (session : _) (commands : _) → J.asked session commands }
{
    let (head, seen_log, version) = history;
    let started = Shared::<J, &Q>::start(rt, alloc, head, seen_log, version, true, 1);
    let (shared, reporter, mut sessions, mut closer) = started.expect(rt, "no book");
    let mut me = sessions.pop().expect(rt, "no session");
    let mut reader = script;
    let mut writer = Vec::new(alloc);
    let _end = session_run(rt, alloc, &shared, &mut me, &mut reader, &mut writer);
    shared.begin_close(rt, &mut closer);
    let store = store.into_store().expect(rt, "no store");
    let (reporter, store, notes) = flusher_loop(
        rt,
        alloc,
        &shared,
        reporter,
        store,
        ReportLog::none(),
    );
    let sessions = Vec::from_array(alloc, [me]).expect(rt, "no memory");
    let closed = close(rt, alloc, shared, reporter, Some(store), notes, sessions);
    BookLeft {
        stored: closed.stored,
        durable: closed.version.durable(),
        disk: closed.disk,
    }
}

#[test]
fn a_layer_is_stored_by_the_loop_of_a_store_and_there_after_the_end_of_its_book(
    rt: HostRuntime,
) -> Result<(), Fail> {
    let alloc = rt.alloc();
    let machine = Machine::create(alloc, empty_disk(alloc)?, BLOCKS)?;
    let (begun, key) = begun_of(Some(machine));
    let script: &[u8] = b"PUT A POLYGON ((0 0, 10 0, 10 10, 0 10, 0 0))\n";
    let left = flushed(&rt, alloc, begun, script);
    assert_eq!(rt; left.stored, 1);
    assert_eq!(rt; left.durable, 1);
    let shut = left.disk.ok_or("no disk")?;
    let disk = key.ok_or("no key")?.open(shut);
    let next = reopened(alloc, Some(disk))?;
    assert_eq!(rt; next.number(), 1);
    assert_eq!(rt; next.layer_count(), 1);
    Ok(())
}
