//! What is done with a book, in rows, for the tests.
use crate::tests::testing::{Change, SHIFTED, SQUARE};
use layer_book::batch_fault::BatchFault;
use version_book::fault::{BookFault, ReportedFault};

/// A call on a book by its first session or its reporter.
pub enum Call {
    Submit(Change),
    /// A batch that is accepted.
    SubmitAll(&'static [Change]),
    /// The number of the snapshot, where a point is inside a layer of it.
    Snapshot(&'static str, i64, i64),
    WaitBuilt(&'static str),
    WaitDurable,
    NextVersion,
    Report(u64),
    StoreFailed(ReportedFault),
    /// A tile is taken and built, which is kept.
    Build,
    /// A tile is taken and given back, as if memory had run out.
    GiveBack,
    BeginClose,
}

/// What a worker or a session waits for.
pub enum WaitFor {
    /// A tile, which is built: its column is reported.
    Tile,
    /// The tiles of a layer.
    Built(&'static str),
    /// That the newest version that it has seen is durable.
    Durable,
}

/// What a session does a tenth of a second late, by which a wait of the reporter ends.
pub enum Late {
    /// It takes a tile and builds it, which is kept.
    Builds,
    Submits(Change),
    BeginsToClose,
}

/// A wait in one thread, and what ends it in another.
pub enum Beside {
    /// The first session waits for the tiles of a layer, until the second one builds a tile.
    Builds(&'static str),
    /// A worker or the first session waits, until a call ends that.
    Waits(WaitFor, Call),
    /// A tile is taken, and a call makes it stale. A worker waits for a tile then, until the stale one is finished,
    /// which is not kept.
    Stale(Call),
    /// The reporter waits for news, until the first session ends that. It answers the number of the version that it is
    /// given, where it is given one.
    News(Late),
}

/// The number that a call answers, where it answers one, or its fault.
pub type Answer = Result<Option<u64>, BookFault>;

/// What is done with a book.
pub enum Row {
    /// A call, and its answer.
    Calls(Call, Answer),
    /// A batch of the second session, and its answer.
    SubmitsAll(&'static [Change], Result<u64, BatchFault>),
    /// A tile is taken, and finished after the last row: whether it is kept then.
    Builds(bool),
    /// A tile is asked for and given back: whether there is one.
    GivesBack(bool),
    /// A strip of tiles is taken, a call is made, and the tiles are finished in order then: how many there
    /// are, and how many of them are kept.
    BuildsStrip(Option<Call>, usize, u64),
    /// A strip of so many tiles is taken. The first one is built, which is kept, and the others are given back.
    GivesBackStrip(usize),
    /// The same, but the others are let go.
    LetsGoStrip(usize),
    /// A wait beside what ends it, and what it answers.
    Beside(Beside, Answer),
    /// Two sessions submit a command each, 1,500 times in a thread of its own, and the reporter reports in a third what
    /// it is given. The book closes then, with the last version reported.
    SubmitBeside(Change, Change),
}

/// The first command of most books.
pub const PUT_A: Call = Call::Submit(Change::Put("A", SQUARE));

/// The squares A and B, and I where both are.
pub const OVERLAP: &[Row] = &[
    Row::Calls(PUT_A, Ok(Some(1))),
    Row::Calls(Call::Submit(Change::Put("B", SHIFTED)), Ok(Some(2))),
    Row::Calls(Call::Submit(Change::Define("I", "A & B")), Ok(Some(3))),
];
