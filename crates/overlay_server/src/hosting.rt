//! The book of a server, from its opening to its end.
ghost use Rattle.std.specs.Prelude.{◌≡◌, ◌<◌, ◌≤◌, ◌↔◌, ℕ, List, [], All, is_some, length, IfOk, IfErr, IfSome};
ghost use Rattle.std.specs.List.{AllZip};
ghost use Rattle.book_history.specs.Rules.{head_of};
ghost use Rattle.book_lock.specs.Steps.{beginners};
ghost use Rattle.overlay_terms.specs.Histories.{Entry, History};
ghost use Rattle.book_history.specs.declared.fault.ReportedFault.{ReportedFault};
ghost use Rattle.kept_store.specs.Beginning.{name_in};
ghost use Rattle.script_form.specs.Transcript.{StoreReport};
ghost use Rattle.server_session.specs.Replying.{IsAtStart, IsPastMost};
ghost use Rattle.store_flushing.specs.Stores.{flusher_in};
ghost use Rattle.version_book.specs.Store.{has_store};
ghost use Rattle.overlay_server.specs.Asking.{IsAsked};
ghost use Rattle.overlay_server.specs.Given.{Given, bytes_of, given_by, given_to};
ghost use Rattle.overlay_server.specs.Hosting.{IsHosted};
ghost use Rattle.overlay_server.specs.Refusing.{IsRefusedFrom, IsRefusedOf};
ghost use Rattle.overlay_server.specs.Serving.{IsFailedOf, IsLeftFrom, ServerReports, IsStoredOf, first_log};

use crate::hosted::Hosted;
use crate::listening::listened;
use crate::opening::open_book;
use crate::outcome::{Left, PortsBack, PortsFault, Served, ServerFault};
use crate::refusing::{only_now, refused, stopped};
use crate::storing::keep_store;
use crate::threads::{Work, run_threads};
use disk_model::disk::Disk;
use kept_store::opened::Opened;
use root_store::shut::Shut;
use server_session::reply_writer::ReplyWriter;
use session_threads::counting::{await_number, made_by_all};
use session_threads::halt::Halt;
use session_threads::port::Port;
use session_threads::seating::seated;
use std::alloc::Global;
use std::io::Read;
use std::snapshot::Snapshot;
use std::sync::Wait;
use std::thread::Threads;
use store_flushing::keeper::store::Store;
use tile_workers::gate::Gate;
use version_book::seen_log::{BookName, LogWord, SeenLog};
use versions::Version;

/// Opens the book that is named by its history, for so many sessions. It begins with this version, and so with the durable
/// number that the version has. Where it gives no places, the disk comes back, shut.
fn host<J: BookName, S: Wait + Drop, D: Disk>(
    rt: S,
    alloc: Global,
    opened: (LogWord<J>, SeenLog),
    version: Version,
    store: Opened<D>,
    sessions: usize,
) -> Result<Hosted<J, S, D>, ServerFault<Shut<D>>>
    requires head { opened.0 ≡ head_of J.book }
    requires book { opened.1.book ≡ J.book }
    requires kept { store.seen_log.book ≡ J.book }
    requires begun { opened.1.log ≡ first_log version }
    requires sessions { (0 < sessions) × (sessions ≤ 4) }
    requires seats { sessions ≤ J.seats }
    ensures version { IfOk result (λ hosted. hosted.version.value ≡ version) }
    ensures flusher { IfOk result (λ hosted. flusher_in hosted.store ≡ store.flusher) }
    ensures hosted { IfOk result (IsHosted J.book sessions) }
    ensures refused { IfErr result (λ fault. (all : List Given) → IsRefusedFrom D.Disk version store.flusher all fault) }
    ensures sessions { IfErr result (λ fault. fault.sessions.items ≡ []) }
{
    let (head, seen_log) = opened;
    let number = version.number();
    let start = Snapshot::of(&version);
    let first = seen_log.again();
    let stored = store.is_there();
    // What the book begins with is what the store holds now: the clauses rest on that.
    only_now::<D>();
    let (begun, answer) = open_book::<J, S>(rt, alloc, head, seen_log, version, stored, sessions);
    match begun {
        Ok((shared, reporter, sessions, closer)) => Ok(Hosted {
            number,
            version: start,
            seen_log: first,
            answer,
            shared,
            closer,
            store: Store::new(reporter, store),
            sessions,
        }),
        Err(_) => Err(refused(alloc, answer, store.into_disk(), first)),
    }
}

/// The server of a book that is named by its history, over lists of bytes.
pub fn listen_in<J, D, R, G, Q>(
    rt: &Q,
    alloc: Global,
    workers: usize,
    gate: &G,
    opened: (LogWord<J>, SeenLog),
    version: Version,
    store: Opened<D>,
    readers: Vec<R>,
) -> Result<Served<Shut<D>>, ServerFault<Shut<D>>>
where
    J: BookName + Send + Sync,
    D: Disk + Send,
    R: Read + Send + Drop,
    G: Gate + Sync,
    Q: Threads + Wait + Sync,
    requires head { opened.0 ≡ head_of J.book }
    requires book { opened.1.book ≡ J.book }
    requires kept { store.seen_log.book ≡ J.book }
    requires begun { opened.1.log ≡ first_log version }
    // What is reported durable has a receipt of this store: so it is by condition, on any disk.
    requires mine { J.store ≡ name_in store.flusher }
    requires stored { (log : List Entry) (number : ℕ) → J.stored log number ↔ IsStoredOf D.Disk version store.flusher log number }
    requires failed { (log : List Entry) (fault : ReportedFault) → J.failed log fault ↔ IsFailedOf D.Disk version store.flusher log fault }
    // What is submitted is what the readers' scripts ask their sessions for, also where this never returns.
    requires asked { IsAsked J.asked (given_by R.remaining readers.items) }
    requires seats { J.seats ≡ length readers.items }
    requires readers { (0 < length readers.items) × (length readers.items ≤ 4) }
    ensures left { IfOk result (IsLeftFrom bytes_of D.Disk version store.flusher (given_by R.remaining readers.items)) }
    ensures refused { IfErr result (IsRefusedFrom D.Disk version store.flusher (given_by R.remaining readers.items)) }
{
    let hosted = host::<J, &Q, D>(rt, alloc, opened, version, store, readers.len())?;
    let Some(ports) = listened(alloc, readers) else {
        return Err(hosted.unserved(alloc));
    };
    match hosted.run(rt, alloc, workers, gate, ports) {
        Ok(left) => Ok(left),
        Err(refused) => Err(refused.fault),
    }
}

/// The server of a book that is named by its history.
pub fn serve_in<J, D, R, W, G, Q>(
    rt: &Q,
    alloc: Global,
    workers: usize,
    gate: &G,
    opened: (LogWord<J>, SeenLog),
    version: Version,
    store: Opened<D>,
    ports: Vec<Port<R, W>>,
) -> Result<Left<W, Shut<D>>, PortsFault<R, W, Shut<D>>>
where
    J: BookName + Send + Sync,
    D: Disk + Send,
    R: Read + Send + Drop,
    W: ReplyWriter + Send + Drop,
    G: Gate + Sync,
    Q: Threads + Wait + Sync,
    requires head { opened.0 ≡ head_of J.book }
    requires book { opened.1.book ≡ J.book }
    requires kept { store.seen_log.book ≡ J.book }
    requires begun { opened.1.log ≡ first_log version }
    // What is reported durable has a receipt of this store: so it is by condition, on any disk.
    requires mine { J.store ≡ name_in store.flusher }
    requires stored { (log : List Entry) (number : ℕ) → J.stored log number ↔ IsStoredOf D.Disk version store.flusher log number }
    requires failed { (log : List Entry) (fault : ReportedFault) → J.failed log fault ↔ IsFailedOf D.Disk version store.flusher log fault }
    // What is submitted is what the ports' scripts ask their sessions for, also where this never returns.
    requires asked { IsAsked J.asked (given_to R.remaining W.contents ports.items) }
    requires seats { J.seats ≡ length ports.items }
    requires ports { (0 < length ports.items) × (length ports.items ≤ 4) }
    requires reported { (history : History) (report : StoreReport) → ServerReports D.Disk version store.flusher history report → W.may_report history report }
    // Each writer goes on from the session of its place in this book alone: no other answers it, also where this never returns.
    requires from { AllZip (λ port me. W.from port.writer (is_some store.flusher) me) ports.items (beginners opened.1 (length ports.items)) }
    requires own { All (λ port. IfSome (W.left port.writer) (IsAtStart (R.remaining port.reader))) ports.items }
    requires limit { All (λ port. IsPastMost port.most (R.remaining port.reader) → W.may_pass_limit port.writer) ports.items }
    ensures left { IfOk result (IsLeftFrom W.contents D.Disk version store.flusher (given_to R.remaining W.contents ports.items)) }
    ensures refused { IfErr result (IsRefusedOf R.remaining W.contents D.Disk version store.flusher (given_to R.remaining W.contents ports.items)) }
{
    match host::<J, &Q, D>(rt, alloc, opened, version, store, ports.len()) {
        Ok(hosted) => hosted.run(rt, alloc, workers, gate, ports),
        Err(fault) => Err(PortsFault {
            fault,
            back: PortsBack::Unserved(ports),
        }),
    }
}

impl<J, S, D> Hosted<J, S, D>
where
    J: BookName + Send + Sync,
    S: Wait + Drop + Send,
    D: Disk + Send,
{
    /// The server of this book.
    fn run<R, W, G, Q>(
        self,
        rt: &Q,
        alloc: Global,
        workers: usize,
        gate: &G,
        ports: Vec<Port<R, W>>,
    ) -> Result<Left<W, Shut<D>>, PortsFault<R, W, Shut<D>>>
    where
        R: Read + Send + Drop,
        W: ReplyWriter + Send + Drop,
        G: Gate + Sync,
        Q: Threads + Wait + Sync,
        requires ports { 0 < length ports.items }
        requires hosted { IsHosted J.book (length ports.items) self }
        requires reported { (history : History) (report : StoreReport)
            → ServerReports D.Disk self.version.value (flusher_in self.store) history report → W.may_report history report }
        requires from { AllZip (λ port me. W.from port.writer (has_store self.shared) me) ports.items self.sessions.items }
        requires own { All (λ port. IfSome (W.left port.writer) (IsAtStart (R.remaining port.reader))) ports.items }
        requires limit { All (λ port. IsPastMost port.most (R.remaining port.reader) → W.may_pass_limit port.writer) ports.items }
        requires asked { IsAsked J.asked (given_to R.remaining W.contents ports.items) }
        requires mine { J.store ≡ name_in (flusher_in self.store) }
        requires meant { (log : List Entry) (number : ℕ) → J.stored log number ↔ IsStoredOf D.Disk self.version.value (flusher_in self.store) log number }
        requires failed { (log : List Entry) (fault : ReportedFault) → J.failed log fault ↔ IsFailedOf D.Disk self.version.value (flusher_in self.store) log fault }
        ensures left { IfOk result (IsLeftFrom W.contents D.Disk self.version.value (flusher_in self.store) (given_to R.remaining W.contents ports.items)) }
        ensures refused { IfErr result (IsRefusedOf R.remaining W.contents D.Disk self.version.value (flusher_in self.store) (given_to R.remaining W.contents ports.items)) }
        // The book gave its places, so 44 is not answered.
        ensures code { IfErr result (λ refused. refused.fault.code ≡ 40) }
    {
        let Hosted {
            number,
            version: _version,
            seen_log,
            answer,
            shared,
            mut closer,
            mut store,
            sessions,
        } = self;
        let seats = match seated::<J, R, W>(alloc, sessions, ports) {
            Ok(seats) => seats,
            Err(ports) => {
                return Err(PortsFault {
                    fault: refused(alloc, answer, store.into_disk(), seen_log),
                    back: PortsBack::Unserved(ports),
                });
            }
        };
        let halt = Halt::new();
        let work = Work { workers, seats };
        let worked = run_threads(
            rt,
            alloc,
            gate,
            &shared,
            &mut closer,
            &halt,
            work,
            &mut store,
        );
        // What was finished after the last commit is committed now that the workers have returned.
        keep_store(rt, alloc, &shared, &mut store);
        let made = made_by_all(rt, &worked.sessions);
        let closed = store.close(rt, alloc, shared, &worked.sessions);
        // Were its last number not the first one and so many more as the sessions made batches, which cannot come, it
        // would wait for ever.
        await_number(rt, number, made, &closed.version);
        if halt.is_set() {
            return Err(stopped(alloc, answer, closed, worked.sessions, worked.finished));
        }
        Ok(Left {
            sessions: worked.finished,
            closed,
        })
    }
}
