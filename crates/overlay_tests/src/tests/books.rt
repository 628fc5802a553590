//! Books over the empty version, and rows of calls on them, for the tests.
ghost use Rattle.std.specs.Prelude.{◌≡◌, ◌≤◌, ◌∷◌, [], IfSome};
ghost use Rattle.version_book.specs.Logs.{entry, no_event};
ghost use Rattle.version_book.specs.Rules.{head_of};

use crate::tests::book_calls::{answer, finish, give_back, take};
use crate::tests::book_rows::{Answer, Beside, Call, Late, Row, WaitFor};
use crate::tests::rows::check;
use crate::tests::strips::{build_late, give_back_strip};
use crate::tests::testing::{batch, command, name_of};
use crate::tests::threads::{
    Work, ask_beside, beside, news_beside, news_until_closing, submit_beside, wait_beside,
};
use crate::tests::tokens::Tokens;
use std::alloc::Global;
use std::marker::Brand;
use std::process::Abort;
use std::sync::Wait;
use std::thread::Threads;
use std::time::Clock;
use store_receipt::store_name::StoreName;
use version_book::fault::BookFault;
use version_book::job::Job;
use version_book::seen_log::{BookName, LogWord, SeenLog, open};
use version_book::shared::Shared;
use versions::Version;

/// A history of the empty version alone, which is no book's yet, and this version.
fn open_history<J>(alloc: Global) -> (LogWord<J>, SeenLog, Version)
    ensures head { result.0 ≡ head_of result.1.book }
    ensures begun { result.1.log ≡ entry no_event result.2 ∷ [] }
{
    let version = Version::empty(alloc);
    let (head, seen_log) = open(&version);
    (head, seen_log, version)
}

/// Plays lists of rows in a book that was just opened. The tiles that are taken in a list are finished after it.
/// The book ends with the version of this number.
pub fn play<R: Threads + Wait + Clock + Abort + Sync>(
    rt: &R,
    alloc: Global,
    store: bool,
    lists: &[&[Row]],
    last: u64,
) {
    let history = open_history(alloc);
    play_in::<Brand, R>(rt, alloc, history, StoreName::new(), store, lists, last);
}

fn play_in<J: BookName + Send + Sync, R: Threads + Wait + Clock + Abort + Sync>(
    rt: &R,
    alloc: Global,
    opened: (LogWord<J>, SeenLog, Version),
    name: StoreName,
    store: bool,
    lists: &[&[Row]],
    last: u64,
)
    requires head { opened.0 ≡ head_of J.book }
    requires book { opened.1.book ≡ J.book }
    requires begun { opened.1.log ≡ entry no_event opened.2 ∷ [] }
    requires own { name ≡ J.store }
    requires seats { 2 ≤ J.seats }
    requires anything { (log : _) (number : _) → J.stored log number }
    requires any_fault { (log : _) (fault : _) → J.failed log fault }
    requires any_change { (session : _) (commands : _) → J.asked session commands }
{
    let (head, seen_log, version) = opened;
    let started = Shared::<J, &R>::start(rt, alloc, head, seen_log, version, store, 2);
    let (shared, reporter, mut sessions, closer) = started.expect(rt, "no book");
    let other = sessions.pop().expect(rt, "no session");
    let me = sessions.pop().expect(rt, "no second session");
    let mut tokens = Tokens {
        reporter,
        me,
        other,
        closer,
        name,
    };
    play_lists(rt, alloc, &shared, &mut tokens, lists);
    let Tokens {
        reporter,
        me,
        other,
        closer: _closer,
        name: _name,
    } = tokens;
    let closed = shared.into_closed(rt, &reporter, &[me, other]);
    assert!(rt; closed.version.number() == last);
}

fn play_lists<J: BookName + Send + Sync, R: Threads + Wait + Clock + Abort + Sync>(
    rt: &R,
    alloc: Global,
    shared: &Shared<J, &R>,
    tokens: &mut Tokens<J>,
    lists: &[&[Row]],
)
    requires book { tokens.old.reporter.book ≡ J.book }
    requires anything { (log : _) (number : _) → J.stored log number }
    requires any_fault { (log : _) (fault : _) → J.failed log fault }
    requires any_change { (session : _) (commands : _) → J.asked session commands }
    ensures { tokens.new.reporter.book ≡ tokens.old.reporter.book }
{
    'lists: for rows in lists {
        play_rows(rt, alloc, shared, tokens, rows, 0);
    }
}

/// Plays the rows from a place on.
fn play_rows<J: BookName + Send + Sync, R: Threads + Wait + Clock + Abort + Sync>(
    rt: &R,
    alloc: Global,
    shared: &Shared<J, &R>,
    tokens: &mut Tokens<J>,
    rows: &[Row],
    at: usize,
)
    requires book { tokens.old.reporter.book ≡ J.book }
    requires anything { (log : _) (number : _) → J.stored log number }
    requires any_fault { (log : _) (fault : _) → J.failed log fault }
    requires any_change { (session : _) (commands : _) → J.asked session commands }
    ensures { tokens.new.reporter.book ≡ tokens.old.reporter.book }
{
    let Some(row) = rows.get(at) else {
        return;
    };
    let taken = play_row(rt, alloc, shared, tokens, row, at);
    play_rows(rt, alloc, shared, tokens, rows, at + 1);
    if let Some((job, is_kept)) = taken {
        check(rt, at, &finish(rt, alloc, shared, job), &is_kept);
    }
}

/// Plays a row. It reports a tile that is to be finished, and whether that is kept.
fn play_row<J: BookName + Send + Sync, R: Threads + Wait + Clock + Abort + Sync>(
    rt: &R,
    alloc: Global,
    shared: &Shared<J, &R>,
    tokens: &mut Tokens<J>,
    row: &Row,
    at: usize,
) -> Option<(Job, bool)>
    requires book { tokens.old.reporter.book ≡ J.book }
    requires anything { (log : _) (number : _) → J.stored log number }
    requires any_fault { (log : _) (fault : _) → J.failed log fault }
    requires any_change { (session : _) (commands : _) → J.asked session commands }
    ensures same { tokens.new.reporter.book ≡ tokens.old.reporter.book }
    ensures job { IfSome result (λ taken. taken.0.book ≡ J.book) }
{
    match row {
        Row::Calls(asked, want) => {
            let Tokens {
                reporter,
                me,
                closer,
                name,
                ..
            } = tokens;
            let reported = answer(rt, alloc, shared, reporter, me, closer, name, asked);
            check(rt, at, &reported, want);
        }
        Row::SubmitsAll(changes, want) => {
            let batch = batch(rt, alloc, changes);
            let reported = shared.submit_all(rt, alloc, &mut tokens.other, &batch);
            check(rt, at, &reported, want);
        }
        Row::Builds(is_kept) => {
            return Some((take(rt, alloc, shared).expect(rt, "no tile"), *is_kept));
        }
        Row::GivesBack(is_there) => check(rt, at, &give_back(rt, alloc, shared), is_there),
        Row::BuildsStrip(asked, count, kept) => {
            let reported = build_late(rt, alloc, shared, tokens, asked);
            check(rt, at, &reported, &(*count, *kept));
        }
        Row::GivesBackStrip(count) => {
            check(rt, at, &give_back_strip(rt, alloc, shared, false), count);
        }
        Row::LetsGoStrip(count) => check(rt, at, &give_back_strip(rt, alloc, shared, true), count),
        Row::Beside(asked, want) => {
            let reported = answer_beside(rt, alloc, shared, tokens, asked);
            check(rt, at, &reported, want);
        }
        Row::SubmitBeside(first, second) => {
            let (first, second) = (command(rt, alloc, first), command(rt, alloc, second));
            let (last, reported) = submit_beside(rt, alloc, shared, tokens, first, second);
            check(rt, at, &reported, &Ok(Some(last)));
        }
    }
    None
}

/// What a wait answers that is ended in another thread.
fn answer_beside<J: BookName + Send + Sync, R: Threads + Wait + Clock + Abort + Sync>(
    rt: &R,
    alloc: Global,
    shared: &Shared<J, &R>,
    tokens: &mut Tokens<J>,
    asked: &Beside,
) -> Answer
    requires book { tokens.old.reporter.book ≡ J.book }
    requires anything { (log : _) (number : _) → J.stored log number }
    requires any_fault { (log : _) (fault : _) → J.failed log fault }
    requires any_change { (session : _) (commands : _) → J.asked session commands }
    ensures { tokens.new.reporter.book ≡ tokens.old.reporter.book }
{
    match asked {
        Beside::Builds(name) => {
            // Who asks for the tile is the first: where there is no tile but one that is marked, it sleeps until the
            // wait takes the mark away. Where both run in one thread, the wait comes first, and it finds the tile.
            let late = Work::WaitsLate(name_of(rt, alloc, name));
            let Tokens { me, other, .. } = tokens;
            let (_, done) = beside(rt, alloc, shared, other, me, &Work::Builds, &late);
            last_of(done)
        }
        Beside::Waits(awaited, call) => {
            let wait = match awaited {
                WaitFor::Tile => Work::Asks,
                WaitFor::Built(name) => Work::Waits(name_of(rt, alloc, name)),
                WaitFor::Durable => Work::WaitsDurable,
            };
            let (done, _) = wait_beside(rt, alloc, shared, tokens, &wait, call);
            last_of(done)
        }
        Beside::Stale(call) => ask_beside_stale(rt, alloc, shared, tokens, call),
        Beside::News(late) => {
            let work = match late {
                Late::Builds => Work::BuildsLate,
                Late::Submits(change) => Work::SubmitsLate(command(rt, alloc, change)),
                Late::BeginsToClose => return news_until_closing(rt, shared, tokens),
            };
            news_beside(rt, alloc, shared, tokens, &work)
        }
    }
}

/// What a worker's wait for a tile answers that ends by a tile which is not kept. It was taken before, and a call makes
/// it stale.
fn ask_beside_stale<J: BookName + Send + Sync, R: Threads + Wait + Clock + Abort + Sync>(
    rt: &R,
    alloc: Global,
    shared: &Shared<J, &R>,
    tokens: &mut Tokens<J>,
    asked: &Call,
) -> Answer
    requires book { tokens.old.reporter.book ≡ J.book }
    requires anything { (log : _) (number : _) → J.stored log number }
    requires any_fault { (log : _) (fault : _) → J.failed log fault }
    requires any_change { (session : _) (commands : _) → J.asked session commands }
    ensures { tokens.new.reporter.book ≡ tokens.old.reporter.book }
{
    let job = take(rt, alloc, shared).expect(rt, "no tile");
    let Tokens {
        reporter,
        me,
        closer,
        name,
        ..
    } = tokens;
    answer(rt, alloc, shared, reporter, me, closer, name, asked).expect(rt, "a refusal");
    let (column, is_kept) = ask_beside(rt, alloc, shared, job);
    assert!(rt; !is_kept);
    Ok(column)
}

/// The last number of a list.
fn last_of(done: Result<Vec<u64>, BookFault>) -> Answer {
    Ok(done?.last().copied())
}
