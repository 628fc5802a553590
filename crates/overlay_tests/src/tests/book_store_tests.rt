//! What a book answers of its store: durable numbers, a fault, and news for the reporter.
use crate::tests::book_rows::{Beside, Call, Late, OVERLAP, PUT_A, Row, WaitFor};
use crate::tests::books::play;
use crate::tests::testing::{Change, SQUARE};
use version_book::fault::{BookFault, ReportedFault};

const DURABLE: &[&[Row]] = &[&[
    Row::Calls(PUT_A, Ok(Some(1))),
    Row::Calls(Call::NextVersion, Ok(Some(1))),
    Row::Calls(Call::Report(1), Ok(Some(1))),
    Row::Calls(Call::Report(9), Ok(Some(1))),
    Row::Calls(Call::WaitDurable, Ok(Some(1))),
    Row::Calls(Call::StoreFailed(ReportedFault::Device), Ok(None)),
    Row::Calls(PUT_A, Ok(Some(2))),
    Row::Calls(
        Call::WaitDurable,
        Err(BookFault::Store(ReportedFault::Device)),
    ),
]];

#[test]
fn a_version_that_is_reported_is_durable(rt: HostRuntime) {
    play(&rt, rt.alloc(), true, DURABLE, 2);
}

const ENDED: &[&[Row]] = &[&[
    Row::Calls(PUT_A, Ok(Some(1))),
    Row::Beside(
        Beside::Waits(WaitFor::Durable, Call::Report(1)),
        Ok(Some(1)),
    ),
    Row::Calls(PUT_A, Ok(Some(2))),
    Row::Beside(
        Beside::Waits(WaitFor::Durable, Call::StoreFailed(ReportedFault::Full)),
        Err(BookFault::Store(ReportedFault::Full)),
    ),
    Row::Calls(PUT_A, Ok(Some(3))),
    Row::Beside(
        Beside::Waits(WaitFor::Durable, Call::BeginClose),
        Err(BookFault::Closing),
    ),
]];

#[test]
fn a_report_a_fault_and_closing_each_end_a_wait(rt: HostRuntime) {
    play(&rt, rt.alloc(), true, ENDED, 3);
}

const REPORTED: &[&[Row]] = &[&[
    Row::Calls(PUT_A, Ok(Some(1))),
    Row::Calls(Call::StoreFailed(ReportedFault::SequenceLimit), Ok(None)),
    Row::Calls(
        Call::WaitDurable,
        Err(BookFault::Store(ReportedFault::SequenceLimit)),
    ),
    Row::Calls(PUT_A, Ok(Some(2))),
    Row::Calls(Call::StoreFailed(ReportedFault::OutOfMemory), Ok(None)),
    Row::Calls(
        Call::WaitDurable,
        Err(BookFault::Store(ReportedFault::OutOfMemory)),
    ),
    Row::Calls(PUT_A, Ok(Some(3))),
    Row::Calls(Call::StoreFailed(ReportedFault::Failed), Ok(None)),
    Row::Calls(
        Call::WaitDurable,
        Err(BookFault::Store(ReportedFault::Failed)),
    ),
]];

#[test]
fn a_fault_of_the_store_is_reported_as_it_is(rt: HostRuntime) {
    play(&rt, rt.alloc(), true, REPORTED, 3);
}

const NEWS: &[&[Row]] = &[
    OVERLAP,
    &[
        Row::Calls(Call::NextVersion, Ok(Some(3))),
        // others of its layer are still pending then
        Row::Beside(Beside::News(Late::Builds), Ok(Some(3))),
        Row::Beside(
            Beside::News(Late::Submits(Change::Put("A", SQUARE))),
            Ok(Some(4)),
        ),
        Row::Beside(Beside::News(Late::BeginsToClose), Ok(None)),
    ],
];

#[test]
fn a_kept_tile_a_command_and_closing_each_end_the_wait_of_the_reporter(rt: HostRuntime) {
    play(&rt, rt.alloc(), true, NEWS, 4);
}

const WITHOUT_STORE: &[&[Row]] = &[&[Row::Calls(Call::WaitDurable, Err(BookFault::NoStore))]];

#[test]
fn nothing_is_durable_without_a_store(rt: HostRuntime) {
    play(&rt, rt.alloc(), false, WITHOUT_STORE, 0);
}
