//! The threads of a server: workers, the store, and a session for each port.
ghost use Rattle.std.specs.Prelude.{◌≡◌};
ghost use Rattle.overlay_server.specs.Keeping.{HoldsOfStore, IsStoreKept};
ghost use Rattle.overlay_server.specs.Working.{IsReady};
ghost use Rattle.server_session.specs.Stores.{store_of};
ghost use Rattle.session_threads.specs.Running.{IsRunOf};
ghost use Rattle.session_threads.specs.Seats.{Leave};
ghost use Rattle.store_flushing.specs.Stores.{reporter_of};
ghost use Rattle.version_book.specs.Store.{has_store};

use crate::storing::LentStore;
use crate::tasks::{Task, start_task};
use disk_model::disk::Disk;
use server_session::reply_writer::ReplyWriter;
use session_threads::halt::Halt;
use session_threads::port::Finished;
use session_threads::running::{Seats, run_sessions};
use std::alloc::Global;
use std::io::Read;
use std::sync::Wait;
use std::thread;
use std::thread::{Scope, Threads};
use store_flushing::keeper::store::Store;
use tile_workers::gate::Gate;
use tile_workers::worker::worker_loop;
use version_book::closer::Closer;
use version_book::seen_log::BookName;
use version_book::session::Session;
use version_book::shared::Shared;

/// What the threads work on beside the store: how many of them build tiles, and the sessions with their scripts.
#[derive(Drop)]
pub struct Work<J: BookName, R: Read, W: ReplyWriter> {
    pub workers: usize,
    pub seats: Seats<J, R, W>,
}

/// What the threads leave beside the store: the sessions with their writers and ends, in the order of the scripts.
#[derive(Drop)]
pub struct Worked<W> {
    pub sessions: Vec<Session>,
    pub finished: Vec<Finished<W>>,
}

/// Runs workers, the store and a session for each script in threads of their own, and takes them in. Where a thread is
/// refused, the run halts and the book closes, the others end, and sessions that are not begun by then come back as they
/// were.
pub fn run_threads<J, S, G, Q, R, W, D>(
    rt: &Q,
    alloc: Global,
    gate: &G,
    shared: &Shared<J, S>,
    closer: &mut Closer<J>,
    halt: &Halt,
    work: Work<J, R, W>,
    store: &mut Store<D>,
) -> Worked<W>
where
    S: Wait + Drop + Send,
    J: BookName + Send + Sync,
    G: Gate + Sync,
    Q: Threads + Wait + Sync,
    R: Read + Send + Drop,
    W: ReplyWriter + Send + Drop,
    D: Disk + Send,
    requires book { (reporter_of store.old).book ≡ J.book }
    requires stored { HoldsOfStore D.Disk J.store J.stored J.failed store.old }
    requires ready { IsReady J.book J.stored J.failed J.asked (has_store shared.now) W.may_report W.from R.remaining W.left
        W.may_pass_limit work }
    ensures store { IsStoreKept J.book D.Disk store.old store.new }
    ensures left { Leave (IsRunOf J.book (store_of J.stored J.failed (has_store shared.now)) R.remaining W.contents)
        work.seats.scripts.items result.sessions.items result.finished.items }
{
    let lent = LentStore {
        rt,
        alloc,
        shared,
        store,
    };
    let (LentStore { store: _store, .. }, worked) = run_beside(
        rt, alloc, gate, shared, closer, halt, work, lent,
    );
    take_back(store);
    worked
}

/// Does nothing: the loan that came back ends here, so what was lent is what the threads made of it.
fn take_back<T>(lent: &mut T)
    ensures { lent.new ≡ lent.old }
{}

/// Runs a task in a thread of its own, beside workers and sessions.
fn run_beside<J, S, G, Q, R, W, T>(
    rt: &Q,
    alloc: Global,
    gate: &G,
    shared: &Shared<J, S>,
    closer: &mut Closer<J>,
    halt: &Halt,
    work: Work<J, R, W>,
    task: T,
) -> (T, Worked<W>)
where
    S: Wait + Drop + Send,
    J: BookName + Send + Sync,
    G: Gate + Sync,
    Q: Threads + Wait + Sync,
    R: Read + Send + Drop,
    W: ReplyWriter + Send + Drop,
    T: Task + Send + Drop,
    requires { T.can_run task × IsReady J.book J.stored J.failed J.asked (has_store shared.now) W.may_report W.from R.remaining
        W.left W.may_pass_limit work }
    ensures task { T.ran task result.0 }
    ensures left { Leave (IsRunOf J.book (store_of J.stored J.failed (has_store shared.now)) R.remaining W.contents)
        work.seats.scripts.items result.1.sessions.items result.1.finished.items }
{
    thread::scope(
        thread::scope_env(),
        rt,
        |scope| -> (T, Worked<W>)
            requires { T.can_run task × IsReady J.book J.stored J.failed J.asked (has_store shared.now) W.may_report W.from
                R.remaining W.left W.may_pass_limit work }
            ensures task { T.ran task result.0 }
            ensures left { Leave (IsRunOf J.book (store_of J.stored J.failed (has_store shared.entry.now))
                R.remaining W.contents) work.seats.scripts.items result.1.sessions.items result.1.finished.items }
        { run_in(scope, rt, alloc, gate, shared, closer, halt, work, task) },
    )
}

/// The same in a scope.
fn run_in<'s, E, J, S, G, Q, R, W, T>(
    scope: &'s Scope<'s, E>,
    rt: &'s Q,
    alloc: Global,
    gate: &'s G,
    shared: &'s Shared<J, S>,
    closer: &mut Closer<J>,
    halt: &'s Halt,
    work: Work<J, R, W>,
    task: T,
) -> (T, Worked<W>)
where
    S: Wait + Drop + Send + 's,
    J: BookName + Send + Sync,
    G: Gate + Sync,
    Q: Threads + Wait + Sync,
    R: Read + Send + Drop + 's,
    W: ReplyWriter + Send + Drop + 's,
    T: Task + Send + Drop + 's,
    requires { T.can_run task × IsReady J.book J.stored J.failed J.asked (has_store shared.now) W.may_report W.from R.remaining
        W.left W.may_pass_limit work }
    ensures task { T.ran task result.0 }
    ensures left { Leave (IsRunOf J.book (store_of J.stored J.failed (has_store shared.now)) R.remaining W.contents)
        work.seats.scripts.items result.1.sessions.items result.1.finished.items }
{
    let Work { workers, seats } = work;
    let working = start_workers(scope, rt, alloc, gate, shared, workers);
    let begun = start_task(scope, rt, shared, closer, task);
    if !working || begun.is_err() {
        halt.set();
    }
    let (sessions, finished) = run_sessions(scope, rt, alloc, shared, closer, halt, seats);
    shared.begin_close(rt, closer);
    let task = match begun {
        Ok(handle) => handle.join(rt),
        Err(task) => task,
    };
    (task, Worked { sessions, finished })
}

/// Starts so many workers, and says whether each has its thread.
fn start_workers<
    's,
    E,
    J: BookName + Send + Sync,
    S: Wait + Drop + Send + 's,
    G: Gate + Sync,
    Q: Threads + Wait + Sync,
>(
    scope: &'s Scope<'s, E>,
    rt: &'s Q,
    alloc: Global,
    gate: &'s G,
    shared: &'s Shared<J, S>,
    workers: usize,
) -> bool {
    for _ in 0..workers {
        if scope
            .spawn(move || worker_loop(rt, alloc, gate, shared))
            .is_err()
        {
            return false;
        }
    }
    true
}
