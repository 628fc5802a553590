//! Sessions in threads of their own, one for each reader.
ghost use Rattle.std.specs.Prelude.{◌≡◌, ◌<◌, All, length, IfSome, MatchResult};
ghost use Rattle.server_session.specs.Replying.{IsAtStart, IsPastMost, MayReport};
ghost use Rattle.server_session.specs.Stores.{store_of};
ghost use Rattle.server_session.specs.Asking.{MayAskAll};
ghost use Rattle.session_threads.specs.Rooms.{HasRoom, IsReserved};
ghost use Rattle.session_threads.specs.Running.{IsNotBegunOf, IsRunOf};
ghost use Rattle.session_threads.specs.Seats.{Leave};
ghost use Rattle.version_book.specs.Store.{has_store};

use crate::halt::Halt;
use crate::port::{Finished, Port};
use script_form::SessionEnd;
use server_session::reply_writer::ReplyWriter;
use server_session::session::session_run_within;
use std::alloc::Global;
use std::io::Read;
use std::marker::PhantomData;
use std::snapshot::Snapshot;
use std::sync::Wait;
use std::thread::{Promise, PromisedHandle, Scope, Threads};
use version_book::closer::Closer;
use version_book::seen_log::BookName;
use version_book::session::Session;
use version_book::shared::Shared;

/// A session with the script that it is to run, and where its replies go.
#[derive(Drop)]
pub struct Script<R, W> {
    pub session: Session,
    pub port: Port<R, W>,
}

/// A session that has ended, with its port.
#[derive(Drop)]
pub struct Ended<R, W> {
    pub session: Session,
    pub port: Port<R, W>,
    pub end: SessionEnd,
}

/// What a session's thread promises: it ran the script with which it began.
#[derive(Drop)]
pub struct RunsScript<J: BookName, R, W> {
    begun: Snapshot<Script<R, W>>,
    /// Whether the book has a store.
    stored: bool,
    of: PhantomData<J>,
}

impl<J: BookName, R: Read, W: ReplyWriter> Promise<Ended<R, W>> for RunsScript<J, R, W> {
    ghost use Rattle.server_session.specs.Stores.{store_of};
    ghost use Rattle.session_threads.specs.Running.{IsRunOf};

    ghost kept_by = { λ p r. IsRunOf J.book (store_of J.stored J.failed p.stored) R.remaining W.contents p.begun.value r };
}

/// A thread that runs a script.
pub type Running<J, R, W> = PromisedHandle<Ended<R, W>, RunsScript<J, R, W>>;

/// A thread that runs a script, or the script that came back as none could start.
pub type Begun<J, R, W> = Result<Running<J, R, W>, Ended<R, W>>;

/// The scripts, each with the session that runs it, and room for their threads and for what the sessions leave.
#[derive(Drop)]
pub struct Seats<J: BookName, R: Read, W: ReplyWriter> {
    pub scripts: Vec<Script<R, W>>,
    pub running: Vec<Begun<J, R, W>>,
    pub sessions: Vec<Session>,
    pub finished: Vec<Finished<W>>,
}

/// Runs a thread for each script, and takes them in, in their order. Where a thread is refused, the run halts and the
/// book closes: the scripts that are begun by then end as in a book that closes, and the others come back as they were,
/// as those of sessions that had no memory (40). The right to close the book is lent for less than the scope, so no thread
/// of a session has it.
pub fn run_sessions<'s, E, J, S, Q, R, W>(
    scope: &'s Scope<'s, E>,
    rt: &'s Q,
    alloc: Global,
    shared: &'s Shared<J, S>,
    closer: &mut Closer<J>,
    halt: &'s Halt,
    seats: Seats<J, R, W>,
) -> (Vec<Session>, Vec<Finished<W>>)
where
    J: BookName + Send + Sync,
    S: Wait + Drop + Send + 's,
    Q: Threads + Wait + Sync,
    R: Read + Send + Drop + 's,
    W: ReplyWriter + Send + Drop + 's,
    requires scripts { All (λ script. script.session.book ≡ J.book) seats.scripts.items }
    requires reported { All (λ script. MayReport J.stored J.failed
        (has_store shared.now) script.session W.may_report) seats.scripts.items }
    requires from { All (λ script. W.from script.port.writer (has_store shared.now) script.session) seats.scripts.items }
    requires own { All (λ script. IfSome (W.left script.port.writer)
        (IsAtStart (R.remaining script.port.reader))) seats.scripts.items }
    requires asked { All (λ script. MayAskAll (J.asked script.session.session) (R.remaining script.port.reader)) seats.scripts.items }
    requires limit { All (λ script. IsPastMost script.port.most (R.remaining script.port.reader)
        → W.may_pass_limit script.port.writer) seats.scripts.items }
    requires room { HasRoom seats (length seats.scripts.items) }
    ensures { Leave (λ script ended. IsRunOf J.book
        (store_of J.stored J.failed (has_store shared.now)) R.remaining W.contents script ended) seats.scripts.items
        result.0.items result.1.items }
{
    let Seats {
        scripts,
        mut running,
        sessions,
        finished,
    } = seats;
    for script in scripts {
        running.push_reserved(start_session(scope, rt, alloc, shared, closer, halt, script));
    }
    join_sessions(rt, running, sessions, finished)
}

/// Starts a thread for a script, where the run has not halted. Where it is refused the run halts, the book closes, and
/// the script comes back.
fn start_session<'s, E, J, S, Q, R, W>(
    scope: &'s Scope<'s, E>,
    rt: &'s Q,
    alloc: Global,
    shared: &'s Shared<J, S>,
    closer: &mut Closer<J>,
    halt: &'s Halt,
    script: Script<R, W>,
) -> Begun<J, R, W>
where
    J: BookName + Send + Sync,
    S: Wait + Drop + Send + 's,
    Q: Threads + Wait + Sync,
    R: Read + Send + Drop + 's,
    W: ReplyWriter + Send + Drop + 's,
    requires book { script.session.book ≡ J.book }
    requires reported { MayReport J.stored J.failed (has_store shared.now) script.session W.may_report }
    requires from { W.from script.port.writer (has_store shared.now) script.session }
    requires own { IfSome (W.left script.port.writer) (IsAtStart (R.remaining script.port.reader)) }
    requires asked { MayAskAll (J.asked script.session.session) (R.remaining script.port.reader) }
    requires limit { IsPastMost script.port.most (R.remaining script.port.reader) → W.may_pass_limit script.port.writer }
    ensures { MatchResult result
        (λ h. (h.promise.begun.value ≡ script) × (h.promise.stored ≡ has_store shared.now))
        (λ back. IsRunOf J.book (store_of J.stored J.failed (has_store shared.now)) R.remaining W.contents script back) }
{
    if halt.is_set() {
        return Err(not_begun(script));
    }
    let promise = RunsScript {
        begun: Snapshot::of(&script),
        stored: shared.has_store(),
        of: PhantomData,
    };
    let started = scope.spawn_with(
        promise,
        move || -> Ended<R, W>
            requires book { script.session.book ≡ J.book }
            requires reported { MayReport J.stored J.failed (has_store shared.now) script.session W.may_report }
            requires from { W.from script.port.writer (has_store shared.now) script.session }
            requires own { IfSome (W.left script.port.writer) (IsAtStart (R.remaining script.port.reader)) }
            requires asked { MayAskAll (J.asked script.session.session) (R.remaining script.port.reader) }
            requires limit { IsPastMost script.port.most (R.remaining script.port.reader) → W.may_pass_limit script.port.writer }
            ensures { IsRunOf J.book (store_of J.stored J.failed
                (has_store shared.entry.now)) R.remaining W.contents script result }
        { begin_script(rt, alloc, shared, halt, script) },
    );
    match started {
        Ok(handle) => Ok(handle),
        Err(refused) => {
            // In a run that has halted the closure begins nothing, and gives the script back.
            halt.set();
            shared.begin_close(rt, closer);
            Err((refused.value)())
        }
    }
}

/// Takes the threads of the scripts in, in their order, into lists that have room for what they leave.
fn join_sessions<J: BookName, Q: Threads, R: Read + Drop, W: ReplyWriter + Drop>(
    rt: &Q,
    running: Vec<Begun<J, R, W>>,
    mut sessions: Vec<Session>,
    mut finished: Vec<Finished<W>>,
) -> (Vec<Session>, Vec<Finished<W>>)
    requires { IsReserved sessions (length running.items) × IsReserved finished (length running.items) }
    ensures { Leave (λ begun ended. MatchResult begun
        (λ h. IsRunOf J.book (store_of J.stored J.failed h.promise.stored) R.remaining W.contents h.promise.begun.value ended)
        (λ back. ended ≡ back)) running.items result.0.items result.1.items }
{
    for begun in running {
        let Ended { session, port, end } = join_session(rt, begun);
        let Port {
            reader: _reader,
            most: _,
            writer,
        } = port;
        sessions.push_reserved(session);
        finished.push_reserved(Finished { writer, end });
    }
    (sessions, finished)
}

/// Takes the thread of a script in, where it has one.
fn join_session<J: BookName, Q: Threads, R: Read + Drop, W: ReplyWriter + Drop>(
    rt: &Q,
    begun: Begun<J, R, W>,
) -> Ended<R, W>
    ensures { MatchResult begun
        (λ h. IsRunOf J.book (store_of J.stored J.failed h.promise.stored) R.remaining W.contents h.promise.begun.value result)
        (λ back. result ≡ back) }
{
    match begun {
        Ok(handle) => handle.join(rt),
        Err(back) => back,
    }
}

/// Runs a script, where the run has not halted.
fn begin_script<J: BookName, S: Wait + Drop, Q: Threads + Wait + Sync, R: Read, W: ReplyWriter>(
    rt: &Q,
    alloc: Global,
    shared: &Shared<J, S>,
    halt: &Halt,
    script: Script<R, W>,
) -> Ended<R, W>
    requires book { script.session.book ≡ J.book }
    requires reported { MayReport J.stored J.failed (has_store shared.now) script.session W.may_report }
    requires from { W.from script.port.writer (has_store shared.now) script.session }
    requires own { IfSome (W.left script.port.writer) (IsAtStart (R.remaining script.port.reader)) }
    requires asked { MayAskAll (J.asked script.session.session) (R.remaining script.port.reader) }
    requires limit { IsPastMost script.port.most (R.remaining script.port.reader) → W.may_pass_limit script.port.writer }
    ensures { IsRunOf J.book (store_of J.stored J.failed (has_store shared.now)) R.remaining W.contents script result }
{
    if halt.is_set() {
        not_begun(script)
    } else {
        run_script(rt, alloc, shared, script)
    }
}

/// A script that is not begun, with its session, its reader and its writer as they were.
fn not_begun<R, W>(script: Script<R, W>) -> Ended<R, W>
    ensures { IsNotBegunOf script result }
{
    let Script { session, port } = script;
    // It has seen some version: the clause rests on that.
    let _ = session.number();
    Ended {
        session,
        port,
        end: SessionEnd::Failed(40),
    }
}

/// Runs a script into its writer.
fn run_script<J: BookName, S: Wait + Drop, Q: Threads + Wait + Sync, R: Read, W: ReplyWriter>(
    rt: &Q,
    alloc: Global,
    shared: &Shared<J, S>,
    script: Script<R, W>,
) -> Ended<R, W>
    requires book { script.session.book ≡ J.book }
    requires reported { MayReport J.stored J.failed (has_store shared.now) script.session W.may_report }
    requires from { W.from script.port.writer (has_store shared.now) script.session }
    requires own { IfSome (W.left script.port.writer) (IsAtStart (R.remaining script.port.reader)) }
    requires asked { MayAskAll (J.asked script.session.session) (R.remaining script.port.reader) }
    requires limit { IsPastMost script.port.most (R.remaining script.port.reader) → W.may_pass_limit script.port.writer }
    ensures { IsRunOf J.book (store_of J.stored J.failed (has_store shared.now)) R.remaining W.contents script result }
{
    let Script { mut session, port } = script;
    let Port {
        mut reader,
        most,
        mut writer,
    } = port;
    let end = session_run_within(
        rt,
        alloc,
        shared,
        &mut session,
        most,
        &mut reader,
        &mut writer,
    );
    // It has seen some version: the clauses rest on that.
    let _ = session.number();
    Ended {
        session,
        port: Port {
            reader,
            most,
            writer,
        },
        end,
    }
}
