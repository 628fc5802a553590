//! A server: from readers and an engine to what the sessions wrote, and what is left of the book and its store.
ghost use Rattle.std.specs.Prelude.{◌≡◌, ◌<◌, ◌≤◌, [], All, is_some, length, IfOk, IfErr, IfSome};
ghost use Rattle.book_history.specs.Known.{Known};
ghost use Rattle.server_session.specs.Replying.{IsAtStart, IsPastMost};
ghost use Rattle.session_threads.specs.Fuse.{until_end};
ghost use Rattle.overlay_server.specs.Given.{bytes_of, given_by, given_to};
ghost use Rattle.overlay_server.specs.Refusing.{IsRefusedFrom, IsRefusedOf};
ghost use Rattle.overlay_terms.specs.Histories.{History};
ghost use Rattle.script_form.specs.Transcript.{StoreReport};
ghost use Rattle.overlay_server.specs.Serving.{IsLeftFrom, ServerReports};
ghost use Rattle.kept_store.specs.Beginning.{flusher_of, start_of};

use crate::hosting::{listen_in, serve_in};
use crate::outcome::{Left, PortsFault, ServeOptions, Served, ServerFault};
use disk_model::disk::Disk;
use kept_store::begun::Begun;
use root_store::shut::Shut;
use server_session::reply_writer::ReplyWriter;
use session_threads::fuse::Fuse;
use session_threads::port::Port;
use std::alloc::Global;
use std::io::Read;
use std::marker::Brand;
use std::sync::Wait;
use std::thread::Threads;
use tile_workers::gate::Gate;

/// Runs workers, the store and one session a reader, each in a thread of its own, until all scripts have ended. Session
/// k runs the k-th reader's script, counted from 0, and what they wrote is in the readers' order. The book begins with the
/// engine's version and is committed to its store; without an engine it begins empty, and is kept in memory alone.
///
/// Before it returns, it commits once more what the workers finished, so that each finished tile is in the store, unless
/// that commit was refused: by the device (30, 35), for want of blocks (31), of sequence numbers (36) or of memory (40).
/// Where the book gives no places for its sessions it fails with 44, and else, where memory or a thread is refused, with
/// 40; the disk comes back then. A script that was begun meanwhile ends as in a book that closes.
pub fn serve<D, R, G, Q>(
    rt: &Q,
    alloc: Global,
    options: ServeOptions,
    gate: &G,
    begun: Begun<D>,
    readers: Vec<R>,
) -> Result<Served<Shut<D>>, ServerFault<Shut<D>>>
where
    D: Disk + Send,
    R: Read + Send + Drop,
    G: Gate + Sync,
    Q: Threads + Wait + Sync,
    requires readers { (0 < length readers.items) × (length readers.items ≤ 4) }
    // Each reader has its replies; what is left of book and store is of the log that has all that was seen.
    ensures left { IfOk result (IsLeftFrom bytes_of D.Disk (start_of begun.engine) (flusher_of begun.engine) (given_by R.remaining readers.items)) }
    // A disk comes back just where there was an engine.
    ensures disk { IfOk result (λ left. is_some left.closed.disk ≡ is_some begun.engine) }
    // The number is that of what the book answered as it was to be opened, and 40 where it was opened. The disk comes back,
    // and a crash at any moment left a file that holds a version of the history that comes with it. In that history
    // the readers' sessions alone had commands accepted, those of their scripts, and none where no session was begun.
    ensures refused { IfErr result (IsRefusedFrom D.Disk (start_of begun.engine) (flusher_of begun.engine) (given_by R.remaining readers.items)) }
{
    let (head, seen_log, version, store) = begun.opened::<Brand>(alloc);
    listen_in::<Brand, D, R, G, Q>(
        rt,
        alloc,
        options.workers,
        gate,
        (head, seen_log),
        version,
        store,
        readers,
    )
}

/// The same where the replies of each session go to the writer beside its reader: each reply is written before more of the
/// script is read, and what comes after its end is not.
pub fn serve_ports<D, R, W, G, Q>(
    rt: &Q,
    alloc: Global,
    options: ServeOptions,
    gate: &G,
    begun: Begun<D>,
    ports: Vec<Port<Fuse<R>, W>>,
) -> Result<Left<W, Shut<D>>, PortsFault<Fuse<R>, W, Shut<D>>>
where
    D: Disk + Send,
    R: Read + Send + Drop,
    W: ReplyWriter + Send + Drop,
    G: Gate + Sync,
    Q: Threads + Wait + Sync,
    requires ports { (0 < length ports.items) × (length ports.items ≤ 4) }
    // To the writers may be reported what the store holds and for what it failed, and nothing else of it: this says what
    // counts so, also in a call that never returns. Each writer of bytes meets it.
    requires reported { (history : History) (report : StoreReport)
        → ServerReports D.Disk (start_of begun.engine) (flusher_of begun.engine) history report → W.may_report history report }
    // Each begins with whichever session that has made nothing, of a book with a store just where there is an engine, and has
    // all of its reader's script left, if it keeps that. Each writer of bytes meets it.
    requires from { All (λ port. (me : Known) → me.made ≡ [] → W.from port.writer (is_some begun.engine) me) ports.items }
    requires own { All (λ port. IfSome (W.left port.writer) (IsAtStart (until_end R.remaining port.reader))) ports.items }
    // And it may report that a limit was passed, where its reader has more bytes than it may have.
    requires limit { All (λ port. IsPastMost port.most (until_end R.remaining port.reader) → W.may_pass_limit port.writer) ports.items }
    ensures left { IfOk result (IsLeftFrom W.contents D.Disk (start_of begun.engine) (flusher_of begun.engine) (given_to (until_end R.remaining) W.contents ports.items)) }
    ensures disk { IfOk result (λ left. is_some left.closed.disk ≡ is_some begun.engine) }
    // Where it could not run, the ports come back as they were, or the writers, each with just what its session was answered.
    ensures refused { IfErr result (IsRefusedOf (until_end R.remaining) W.contents D.Disk (start_of begun.engine) (flusher_of begun.engine) (given_to (until_end R.remaining) W.contents ports.items)) }
{
    let (head, seen_log, version, store) = begun.opened::<Brand>(alloc);
    serve_in::<Brand, D, Fuse<R>, W, G, Q>(
        rt,
        alloc,
        options.workers,
        gate,
        (head, seen_log),
        version,
        store,
        ports,
    )
}
