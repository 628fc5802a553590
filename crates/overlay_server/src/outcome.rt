//! What a server is run with, and what it leaves.
ghost use Rattle.std.specs.Prelude.{◌≤◌};

use crate::opening::BookAnswer;
use session_threads::port::{Finished, Port};
use store_flushing::closed::Closed;
use store_flushing::keeper::report_log::ReportLog;
use version_book::seen_log::SeenLog;
use version_book::session::Session;

/// What a server is run with.
#[derive(Clone, Copy, Debug, Drop)]
pub struct ServeOptions {
    /// How many threads build tiles: 1 to 8.
    pub workers: usize,
    pub ghost some: { 1 ≤ workers },
    pub ghost few: { workers ≤ 8 },
}

/// What a server leaves (`serve`: `Served`): the writer of each session and how it ended, in the order of the ports or
/// readers, and what is left of the book and its store.
#[derive(Debug, Drop)]
pub struct Left<W, D> {
    pub sessions: Vec<Finished<W>>,
    pub closed: Closed<D>,
}

/// What a server of readers leaves: the writer of each session is a list with the bytes that it wrote.
pub type Served<D> = Left<Vec<u8>, D>;

/// Why a server could not run: 44 where the book gives no places, and 40 where memory or a thread was refused. Memory
/// is refused before the first thread starts.
#[derive(Debug, Drop)]
pub struct ServerFault<D> {
    pub code: u8,
    /// The disk, as the server left it. None without an engine.
    pub disk: Option<D>,
    /// What the book answered as it was to be opened.
    pub answer: BookAnswer,
    /// The book's history, to its end.
    pub seen_log: SeenLog,
    /// What was reported durable, and when.
    pub notes: ReportLog,
    /// The sessions, in the order of the ports or readers, with what they have seen and made. None where none was
    /// begun, and then no command was accepted.
    pub sessions: Vec<Session>,
}

/// Why a server of ports could not run, and what comes back of its ports.
#[derive(Drop)]
pub struct PortsFault<R, W, D> {
    pub fault: ServerFault<D>,
    pub back: PortsBack<R, W>,
}

/// What comes back of the ports of a server that could not run.
#[derive(Drop)]
pub enum PortsBack<R, W> {
    /// The ports as they were: no thread was started for them.
    Unserved(Vec<Port<R, W>>),
    /// The writer of each session and how it ended, in the order of the ports. One that was not begun ended
    /// by 40, and its writer is as it was.
    Stopped(Vec<Finished<W>>),
}
