//! A session over a book of its own, without workers and without a store.
ghost use Rattle.std.specs.Prelude.{◌≡◌, ◌≤◌, ◌∷◌, []};
ghost use Rattle.book_history.specs.Logs.{entry, no_event};
ghost use Rattle.book_history.specs.Rules.{head_of};

use disk_model::mem_disk::MemDisk;
use kept_store::begun::Begun;
use kept_store::opened::Opened;
use overlay_server::{ReportLog, SessionEnd, close, session_run};
use std::alloc::Global;
use std::io::{Read, Write};
use std::marker::Brand;
use std::process::Abort;
use std::sync::Wait;
use std::thread::Threads;
use version_book::seen_log::{BookName, LogWord, SeenLog};
use version_book::shared::Shared;
use versions::Version;

/// Runs a script over an empty book, and says how its session ended.
pub fn run_script<Q, R, W>(rt: &Q, alloc: Global, reader: &mut R, writer: &mut W) -> SessionEnd
where
    Q: Threads + Wait + Sync + Abort,
    R: Read,
    W: Write,
{
    let (head, seen_log, version, store) = Begun::<MemDisk>::of(None).opened::<Brand>(alloc);
    let history = (head, seen_log, version);
    run_in::<Brand, Q, R, W>(rt, alloc, history, store, reader, writer)
}

fn run_in<J, Q, R, W>(
    rt: &Q,
    alloc: Global,
    history: (LogWord<J>, SeenLog, Version),
    store: Opened<MemDisk>,
    reader: &mut R,
    writer: &mut W,
) -> SessionEnd
where
    J: BookName,
    Q: Threads + Wait + Sync + Abort,
    R: Read,
    W: Write,
    requires head { history.0 ≡ head_of J.book }
    requires book { history.1.book ≡ J.book }
    requires begun { history.1.log ≡ entry no_event history.2 ∷ [] }
    requires seats { 1 ≤ J.seats }
    requires any_change { (session : _) (commands : _) → J.asked session commands }
{
    let (head, seen_log, version) = history;
    let started = Shared::<J, &Q>::start(rt, alloc, head, seen_log, version, false, 1);
    let (shared, reporter, mut sessions, _closer) = started.expect(rt, "no book");
    let mut me = sessions.pop().expect(rt, "no session");
    let end = session_run(rt, alloc, &shared, &mut me, reader, writer);
    let sessions = Vec::from_array(alloc, [me]).expect(rt, "no memory");
    let _closed = close(
        rt,
        alloc,
        shared,
        reporter,
        store.into_store(),
        ReportLog::none(),
        sessions,
    );
    end
}
