//! What a book answers: a snapshot, commands of two threads, tiles that are taken, finished and given back, and how it
//! closes.
use crate::tests::book_rows::{Beside, Call, OVERLAP, PUT_A, Row, WaitFor};
use crate::tests::books::play;
use crate::tests::testing::{Change, Corners, LEFT_HALF, SHIFTED, SQUARE};
use layer_book::batch_fault::BatchFault;
use layer_book::fault::LayerFault;
use version_book::fault::BookFault;
use versions::VersionFault;

const BUILDS: Row = Row::Builds(true);

const SNAPSHOT: &[&[Row]] = &[&[
    Row::Calls(PUT_A, Ok(Some(1))),
    Row::Calls(Call::Snapshot("A", 2, 2), Ok(Some(1))),
]];

#[test]
fn a_command_is_in_the_next_snapshot(rt: HostRuntime) {
    play(&rt, rt.alloc(), false, SNAPSHOT, 1);
}

/// The squares A and B, and I where both are, all at once.
const ALL_THREE: Row = Row::SubmitsAll(
    &[
        Change::Put("A", SQUARE),
        Change::Put("B", SHIFTED),
        Change::Define("I", "A & B"),
    ],
    Ok(1),
);

/// The second session submits batches; what the first one sees is all of each, or nothing.
const BATCHES: &[&[Row]] = &[&[
    ALL_THREE,
    Row::Calls(Call::Snapshot("I", 7, 7), Ok(Some(1))),
    Row::SubmitsAll(
        &[Change::Put("C", SQUARE), Change::Remove("Z")],
        Err(BatchFault::At(1, 10)),
    ),
    Row::SubmitsAll(
        &[Change::Remove("A"), Change::Remove("I")],
        Err(BatchFault::At(0, 14)),
    ),
    Row::Calls(Call::Snapshot("C", 7, 7), Ok(None)),
    Row::Calls(Call::Snapshot("I", 7, 7), Ok(Some(1))),
    Row::Calls(PUT_A, Ok(Some(2))),
    Row::SubmitsAll(&[Change::Remove("I"), Change::Remove("B")], Ok(3)),
    Row::Calls(Call::BeginClose, Ok(None)),
    Row::SubmitsAll(&[Change::Remove("Z")], Err(BatchFault::Whole(43))),
    Row::Calls(Call::Snapshot("A", 2, 2), Ok(Some(3))),
]];

#[test]
fn a_batch_is_one_version_for_every_session_or_none(rt: HostRuntime) {
    play(&rt, rt.alloc(), false, BATCHES, 3);
}

const BESIDE: Row = Row::SubmitBeside(Change::Put("A", SQUARE), Change::Put("B", SHIFTED));

/// 1,500 commands of each session, and as many reports as there is news.
const MANY: &[&[Row]] = &[&[BESIDE]];

#[test]
fn two_threads_share_one_row_of_numbers_beside_a_reporter(rt: HostRuntime) {
    play(&rt, rt.alloc(), false, MANY, 3000);
}

/// A ring that lies in all columns.
const WIDE: Corners = &[&[
    (-1048576, 0),
    (1048576, 0),
    (1048576, 10),
    (-1048576, 10),
    (-1048576, 0),
]];

const IN_TIME_AND_LATE: &[&[Row]] = &[
    OVERLAP,
    // a tile that was kept is not kept once more, so that each of these is another
    &[BUILDS; 33],
    &[
        Row::Calls(Call::WaitBuilt("I"), Ok(Some(3))),
        Row::Calls(Call::Submit(Change::Put("A", WIDE)), Ok(Some(4))),
        Row::Builds(false),
        Row::Calls(Call::Submit(Change::Put("B", WIDE)), Ok(Some(5))),
    ],
];

#[test]
fn each_tile_is_handed_out_once_and_a_late_one_is_not_kept(rt: HostRuntime) {
    play(&rt, rt.alloc(), false, IN_TIME_AND_LATE, 5);
}

const PUT_WIDE: Call = Call::Submit(Change::Put("A", WIDE));

/// A strip has at most 17 columns. The left half lies in column 16 alone, so where it takes the place of the other
/// square, that column's tile is stale and its neighbours' are kept.
const STRIPS: &[&[Row]] = &[
    OVERLAP,
    &[
        Row::BuildsStrip(None, 17, 17),
        Row::BuildsStrip(None, 16, 16),
        Row::Calls(Call::WaitBuilt("I"), Ok(Some(3))),
        Row::Calls(PUT_WIDE, Ok(Some(4))),
        Row::BuildsStrip(Some(Call::Submit(Change::Put("B", LEFT_HALF))), 17, 16),
        Row::BuildsStrip(Some(Call::BeginClose), 17, 17),
        Row::BuildsStrip(None, 0, 0),
    ],
];

#[test]
fn each_tile_of_a_strip_is_kept_by_its_own_column(rt: HostRuntime) {
    play(&rt, rt.alloc(), false, STRIPS, 5);
}

/// A tile that is handed out while a strip is in hand is the next one. What is given back is marked.
const STRIPS_BESIDE: &[&[Row]] = &[
    OVERLAP,
    &[
        Row::BuildsStrip(Some(Call::Build), 17, 17),
        Row::BuildsStrip(None, 15, 15),
        Row::Calls(PUT_WIDE, Ok(Some(4))),
        // The tiles that were let go are handed out again, but for the first one, with one more.
        Row::LetsGoStrip(17),
        Row::GivesBackStrip(17),
        Row::BuildsStrip(None, 15, 15),
        Row::Calls(Call::WaitBuilt("I"), Err(NO_MEMORY)),
        Row::BuildsStrip(None, 16, 16),
        Row::Calls(Call::WaitBuilt("I"), Ok(Some(4))),
    ],
];

#[test]
fn no_tile_is_in_two_hands_and_those_of_a_strip_that_is_given_back_are_marked(rt: HostRuntime) {
    play(&rt, rt.alloc(), false, STRIPS_BESIDE, 4);
}

const GIVEN_BACK: &[&[Row]] = &[
    OVERLAP,
    &[BUILDS; 32],
    &[
        Row::Beside(
            Beside::Waits(WaitFor::Built("I"), Call::GiveBack),
            Err(NO_MEMORY),
        ),
        Row::GivesBack(true),
        Row::Beside(Beside::Builds("I"), Err(NO_MEMORY)),
    ],
    &[Row::Calls(Call::WaitBuilt("I"), Ok(Some(3)))],
];

const NO_MEMORY: BookFault = BookFault::Version(VersionFault::Layer(LayerFault::OutOfMemory));

#[test]
fn a_wait_tells_of_a_tile_that_was_given_back(rt: HostRuntime) {
    play(&rt, rt.alloc(), false, GIVEN_BACK, 3);
}

const BUILT: &[&[Row]] = &[
    OVERLAP,
    &[BUILDS; 32],
    &[
        Row::Beside(Beside::Waits(WaitFor::Built("I"), Call::Build), Ok(Some(3))),
        Row::Calls(PUT_A, Ok(Some(4))),
        Row::Calls(Call::Submit(Change::Define("I", "A | B")), Ok(Some(5))),
        Row::Beside(
            Beside::Waits(WaitFor::Built("I"), Call::Submit(Change::Remove("I"))),
            Err(UNKNOWN_LAYER),
        ),
        Row::Calls(Call::Submit(Change::Define("I", "A | B")), Ok(Some(7))),
        Row::Beside(
            Beside::Waits(
                WaitFor::Built("I"),
                Call::SubmitAll(&[Change::Remove("I"), Change::Remove("B")]),
            ),
            Err(UNKNOWN_LAYER),
        ),
    ],
];

const UNKNOWN_LAYER: BookFault = BookFault::Version(VersionFault::Layer(LayerFault::UnknownLayer));

#[test]
fn the_last_tile_a_command_and_a_batch_each_end_a_wait(rt: HostRuntime) {
    play(&rt, rt.alloc(), false, BUILT, 8);
}

/// The square and its left half lie in column 16 alone. So a command that puts one in the place of the other makes the
/// tile of that column pending, and no other.
const WOKEN: &[&[Row]] = &[
    OVERLAP,
    &[BUILDS; 33],
    &[
        Row::Beside(Beside::Waits(WaitFor::Tile, PUT_HALF), Ok(Some(16))),
        Row::Calls(PUT_A, Ok(Some(5))),
        Row::Beside(Beside::Stale(PUT_HALF), Ok(Some(16))),
        Row::Beside(Beside::Waits(WaitFor::Tile, Call::BeginClose), Ok(None)),
    ],
];

const PUT_HALF: Call = Call::Submit(Change::Put("A", LEFT_HALF));

#[test]
fn a_command_a_tile_that_is_not_kept_and_closing_each_wake_a_worker(rt: HostRuntime) {
    play(&rt, rt.alloc(), false, WOKEN, 6);
}

const CLOSED_BESIDE: &[&[Row]] = &[
    OVERLAP,
    &[Row::Beside(
        Beside::Waits(WaitFor::Built("I"), Call::BeginClose),
        Err(BookFault::Closing),
    )],
];

#[test]
fn closing_ends_a_wait_for_tiles(rt: HostRuntime) {
    play(&rt, rt.alloc(), false, CLOSED_BESIDE, 3);
}

const CLOSING: &[&[Row]] = &[&[
    Row::Calls(PUT_A, Ok(Some(1))),
    Row::Calls(Call::BeginClose, Ok(None)),
    Row::Calls(PUT_A, Err(BookFault::Closing)),
    Row::GivesBack(false),
    Row::Calls(Call::NextVersion, Ok(Some(1))),
    Row::Calls(Call::NextVersion, Ok(None)),
]];

#[test]
fn a_book_that_closes_takes_no_command_and_hands_out_nothing(rt: HostRuntime) {
    play(&rt, rt.alloc(), false, CLOSING, 1);
}
