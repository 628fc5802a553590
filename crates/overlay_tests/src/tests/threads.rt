//! What two sessions do in threads of their own, for the tests.
ghost use Rattle.std.specs.Prelude.{◌≡◌, IfSome};

use crate::tests::book_calls::{answer, finish, news, take};
use crate::tests::book_rows::{Answer, Call};
use crate::tests::tokens::Tokens;
use layer_book::command::Command;
use layer_expr::name::Name;
use std::alloc::Global;
use std::process::Abort;
use std::sync::Wait;
use std::thread::{Threads, join_mut, sleep};
use std::time::{Clock, Duration};
use store_receipt::receipt::Receipt;
use store_receipt::store_name::StoreName;
use version_book::closer::Closer;
use version_book::fault::BookFault;
use version_book::job::Job;
use version_book::reporter::Reporter;
use version_book::seen_log::BookName;
use version_book::session::Session;
use version_book::shared::Shared;

/// What a session does with a book.
#[derive(Drop)]
pub enum Work {
    /// Submits the command 1,500 times, and looks at each version.
    Submits(Command),
    /// Submits the command, a tenth of a second late.
    SubmitsLate(Command),
    /// Asks for a tile, and builds it where there is one, which is to be kept.
    Asks,
    /// The same, where there is to be one.
    Builds,
    /// The same, a tenth of a second late.
    BuildsLate,
    /// Waits for the tiles of the layer of this name, a tenth of a second late.
    WaitsLate(Name),
    /// Waits for the tiles of the layer of this name.
    Waits(Name),
    /// Waits until the newest version that it has seen is durable.
    WaitsDurable,
}

/// Does a work, and returns the numbers of its versions, each above the one before. What asks for a tile returns its
/// column, where there is one; what builds a tile returns nothing.
fn carry_out<J: BookName, R: Wait + Clock + Abort>(
    rt: &R,
    alloc: Global,
    shared: &Shared<J, &R>,
    me: &mut Session,
    work: &Work,
) -> Result<Vec<u64>, BookFault>
    requires book { me.old.book ≡ J.book }
    requires any_change { (session : _) (commands : _) → J.asked session commands }
    ensures { me.new.book ≡ me.old.book }
{
    let mut list = Vec::new(alloc);
    match work {
        Work::Submits(change) => {
            let mut last = 0;
            'puts: for _ in 0..1500 {
                let number = submit(rt, alloc, shared, me, change)?;
                assert!(rt; number > last);
                let seen = me.snapshot()?.number();
                assert!(rt; seen >= number);
                last = number;
                list.push(number).expect(rt, "memory");
            }
        }
        Work::SubmitsLate(change) => {
            sleep(rt, Duration::from_millis(100));
            list.push(submit(rt, alloc, shared, me, change)?)
                .expect(rt, "memory");
        }
        Work::Asks => {
            if let Some(column) = ask(rt, alloc, shared) {
                list.push(column).expect(rt, "memory");
            }
        }
        Work::Builds => build(rt, alloc, shared),
        Work::BuildsLate => {
            sleep(rt, Duration::from_millis(100));
            build(rt, alloc, shared);
        }
        Work::WaitsLate(name) => {
            sleep(rt, Duration::from_millis(100));
            list.push(shared.wait_built(rt, me, name)?)
                .expect(rt, "memory");
        }
        Work::Waits(name) => list
            .push(shared.wait_built(rt, me, name)?)
            .expect(rt, "memory"),
        Work::WaitsDurable => list.push(shared.wait_durable(rt, me)?).expect(rt, "memory"),
    }
    Ok(list)
}

/// Submits a command, and returns the number of its version.
fn submit<J: BookName, R: Wait>(
    rt: &R,
    alloc: Global,
    shared: &Shared<J, &R>,
    me: &mut Session,
    change: &Command,
) -> Result<u64, BookFault>
    requires book { me.old.book ≡ J.book }
    requires any_change { (session : _) (commands : _) → J.asked session commands }
    ensures { me.new.book ≡ me.old.book }
{
    shared.submit(rt, alloc, me, change)
}

/// Takes a tile and builds it, which is to be kept, and returns its column. None comes where there is none, at closing.
fn ask<J: BookName, R: Wait + Abort>(rt: &R, alloc: Global, shared: &Shared<J, &R>) -> Option<u64> {
    let job = take(rt, alloc, shared)?;
    let column = u64::from(job.input().column().number());
    assert!(rt; finish(rt, alloc, shared, job));
    Some(column)
}

/// Takes a tile and builds it, which is to be kept.
fn build<J: BookName, R: Wait + Abort>(rt: &R, alloc: Global, shared: &Shared<J, &R>) {
    ask(rt, alloc, shared).expect(rt, "no tile");
}

/// The column of a tile that is asked for and built in a thread of its own, while one that was taken is finished a
/// tenth of a second late; and whether that one was kept.
// Where there is no memory for a thread, the tile that was taken is finished first.
pub fn ask_beside<J: BookName + Send + Sync, R: Threads + Wait + Clock + Abort + Sync>(
    rt: &R,
    alloc: Global,
    shared: &Shared<J, &R>,
    job: Job,
) -> (Option<u64>, bool)
    requires { job.book ≡ J.book }
{
    // A closure may not hold a job.
    let mut hand = Some(job);
    let done = join_mut(
        rt,
        &mut || ask(rt, alloc, shared),
        &mut || finish_late(rt, alloc, shared, &mut hand),
    );
    if let Some(job) = hand {
        shared.give_back(rt, job);
    }
    done
}

/// Builds the tile of a job in hand a tenth of a second late, and says whether it was kept.
fn finish_late<J: BookName, R: Wait + Clock + Abort>(
    rt: &R,
    alloc: Global,
    shared: &Shared<J, &R>,
    hand: &mut Option<Job>,
) -> bool
    requires { IfSome hand.old (λ job. job.book ≡ J.book) }
    ensures { IfSome hand.new (λ job. job.book ≡ J.book) }
{
    sleep(rt, Duration::from_millis(100));
    let job = hand.take().expect(rt, "no tile in hand");
    finish(rt, alloc, shared, job)
}

/// The number of the version that the reporter is given, who waits for news in a thread of its own while a session does
/// a work.
// Where there is no memory for a thread, the work comes first.
pub fn news_beside<J: BookName + Send + Sync, R: Threads + Wait + Clock + Abort + Sync>(
    rt: &R,
    alloc: Global,
    shared: &Shared<J, &R>,
    tokens: &mut Tokens<J>,
    work: &Work,
) -> Answer
    requires book { tokens.old.reporter.book ≡ J.book }
    requires any_change { (session : _) (commands : _) → J.asked session commands }
    ensures { tokens.new.reporter.book ≡ tokens.old.reporter.book }
{
    let Tokens { reporter, me, .. } = tokens;
    let (reported, _) = join_mut(
        rt,
        &mut || news(rt, shared, reporter),
        &mut || carry_out(rt, alloc, shared, me, work),
    );
    reported
}

/// The number of the version that the reporter is given, who waits for news in a thread of its own while the book begins
/// to close, a tenth of a second late.
// Where there is no memory for a thread, the book closes first.
pub fn news_until_closing<J: BookName + Send + Sync, R: Threads + Wait + Clock + Abort + Sync>(
    rt: &R,
    shared: &Shared<J, &R>,
    tokens: &mut Tokens<J>,
) -> Answer
    requires { tokens.old.reporter.book ≡ J.book }
    ensures { tokens.new.reporter.book ≡ tokens.old.reporter.book }
{
    let Tokens {
        reporter,
        closer,
        ..
    } = tokens;
    let (reported, ()) = join_mut(
        rt,
        &mut || news(rt, shared, reporter),
        &mut || {
            sleep(rt, Duration::from_millis(100));
            shared.begin_close(rt, closer);
        },
    );
    reported
}

/// What two sessions do in threads of their own, and the numbers that each returns.
// Where there is no memory for a thread, the second works first and then the first.
pub fn beside<J: BookName + Send + Sync, R: Threads + Wait + Clock + Abort + Sync>(
    rt: &R,
    alloc: Global,
    shared: &Shared<J, &R>,
    one: &mut Session,
    two: &mut Session,
    first: &Work,
    second: &Work,
) -> (Result<Vec<u64>, BookFault>, Result<Vec<u64>, BookFault>)
    requires book { (one.old.book ≡ J.book) × (two.old.book ≡ J.book) }
    requires any_change { (session : _) (commands : _) → J.asked session commands }
    ensures { (one.new.book ≡ one.old.book) × (two.new.book ≡ two.old.book) }
{
    join_mut(
        rt,
        &mut || carry_out(rt, alloc, shared, one, first),
        &mut || carry_out(rt, alloc, shared, two, second),
    )
}

/// What a wait answers that one session begins in a thread of its own, where a call ends it a tenth of a second later.
// Where there is no memory for a thread, the call comes first.
pub fn wait_beside<J: BookName + Send + Sync, R: Threads + Wait + Clock + Abort + Sync>(
    rt: &R,
    alloc: Global,
    shared: &Shared<J, &R>,
    tokens: &mut Tokens<J>,
    wait: &Work,
    asked: &Call,
) -> (Result<Vec<u64>, BookFault>, Answer)
    requires book { tokens.old.reporter.book ≡ J.book }
    requires anything { (log : _) (number : _) → J.stored log number }
    requires any_fault { (log : _) (fault : _) → J.failed log fault }
    requires any_change { (session : _) (commands : _) → J.asked session commands }
    ensures { tokens.new.reporter.book ≡ tokens.old.reporter.book }
{
    let Tokens {
        reporter,
        me,
        other,
        closer,
        name,
    } = tokens;
    join_mut(
        rt,
        &mut || carry_out(rt, alloc, shared, me, wait),
        &mut || late(rt, alloc, shared, reporter, other, closer, name, asked),
    )
}

/// What a call answers, a tenth of a second late.
fn late<J: BookName, R: Wait + Clock + Abort>(
    rt: &R,
    alloc: Global,
    shared: &Shared<J, &R>,
    reporter: &mut Reporter,
    other: &mut Session,
    closer: &mut Closer<J>,
    name: &StoreName,
    asked: &Call,
) -> Answer
    requires book { (reporter.old.book ≡ J.book) × (other.old.book ≡ J.book) }
    requires own { name.now ≡ J.store }
    requires anything { (log : _) (number : _) → J.stored log number }
    requires any_fault { (log : _) (fault : _) → J.failed log fault }
    requires any_change { (session : _) (commands : _) → J.asked session commands }
    ensures { (reporter.new.book ≡ reporter.old.book) × (other.new.book ≡ other.old.book) }
{
    sleep(rt, Duration::from_millis(100));
    answer(rt, alloc, shared, reporter, other, closer, name, asked)
}

/// Reports the number of each version that the reporter is given, until the book closes, and returns the last one.
fn report_all<J: BookName, R: Wait + Abort>(
    rt: &R,
    alloc: Global,
    shared: &Shared<J, &R>,
    reporter: &mut Reporter,
    name: &StoreName,
) -> Answer
    requires book { reporter.old.book ≡ J.book }
    requires own { name.now ≡ J.store }
    requires anything { (log : _) (number : _) → J.stored log number }
    requires any_fault { (log : _) (fault : _) → J.failed log fault }
    requires any_change { (session : _) (commands : _) → J.asked session commands }
    ensures { reporter.new.book ≡ reporter.old.book }
{
    let mut last = None;
    'news: for _ in rt.forever() {
        let Some(version) = shared.next_version(rt, reporter)? else {
            return Ok(last);
        };
        let number = version.number();
        assert!(rt; last < Some(number));
        let receipt = Receipt::of(name, number);
        last = Some(shared.report(rt, alloc, reporter, &receipt)?);
        assert!(rt; last == Some(number));
    }
    unreachable!()
}

/// Asserts that two lists of 1,500 numbers have the 3,000 after one between them, and so each once.
fn share_all<R: Abort>(rt: &R, from: u64, first: &[u64], second: &[u64]) {
    assert!(rt; first.len() == 1500);
    assert!(rt; second.len() == 1500);
    for more in 1..3001 {
        let number = from.wrapping_add(more);
        assert!(rt;
            first.contains(&number) || second.contains(&number),
            "number {number}"
        );
    }
}

/// Does what two sessions do in threads of their own, and then closes the book.
fn beside_until_closing<J: BookName + Send + Sync, R: Threads + Wait + Clock + Abort + Sync>(
    rt: &R,
    alloc: Global,
    shared: &Shared<J, &R>,
    one: &mut Session,
    two: &mut Session,
    closer: &mut Closer<J>,
    works: &(Work, Work),
) -> (Result<Vec<u64>, BookFault>, Result<Vec<u64>, BookFault>)
    requires book { (one.old.book ≡ J.book) × (two.old.book ≡ J.book) }
    requires any_change { (session : _) (commands : _) → J.asked session commands }
    ensures { (one.new.book ≡ one.old.book) × (two.new.book ≡ two.old.book) }
{
    let done = beside(rt, alloc, shared, one, two, &works.0, &works.1);
    shared.begin_close(rt, closer);
    done
}

/// Submits one command 1,500 times in each of two threads, while the reporter reports in a third, and closes the book.
/// It returns the number of the last version, and the last one that was reported.
// Where there is no memory for a thread, the reporter comes last.
pub fn submit_beside<J: BookName + Send + Sync, R: Threads + Wait + Clock + Abort + Sync>(
    rt: &R,
    alloc: Global,
    shared: &Shared<J, &R>,
    tokens: &mut Tokens<J>,
    first: Command,
    second: Command,
) -> (u64, Answer)
    requires book { tokens.old.reporter.book ≡ J.book }
    requires anything { (log : _) (number : _) → J.stored log number }
    requires any_fault { (log : _) (fault : _) → J.failed log fault }
    requires any_change { (session : _) (commands : _) → J.asked session commands }
    ensures { tokens.new.reporter.book ≡ tokens.old.reporter.book }
{
    let Tokens {
        reporter,
        me: one,
        other: two,
        closer,
        name,
    } = tokens;
    let from = one.snapshot().expect(rt, "no version").number();
    let works = (Work::Submits(first), Work::Submits(second));
    let (reported, (ours, theirs)) = join_mut(
        rt,
        &mut || report_all(rt, alloc, shared, reporter, name),
        &mut ||
            requires book { (one.now.book ≡ J.book) × (two.now.book ≡ J.book) }
            requires any_change { (session : _) (commands : _) → J.asked session commands }
        { beside_until_closing(rt, alloc, shared, one, two, closer, &works) },
    );
    let ours = ours.expect(rt, "no numbers of the first");
    let theirs = theirs.expect(rt, "no numbers of the second");
    share_all(rt, from, &ours, &theirs);
    let last = one.snapshot().expect(rt, "no version").number();
    assert!(rt; last == from.wrapping_add(3000));
    (last, reported)
}
