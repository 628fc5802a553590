//! Calls on a book, and what they answer, for the tests.
ghost use Rattle.std.specs.Prelude.{◌≡◌, IfSome};

use crate::tests::book_rows::{Answer, Call};
use crate::tests::testing::{batch, command, name_of};
use exact_point::QueryPoint;
use layer_book::direct_answer::Place;
use std::alloc::Global;
use std::process::Abort;
use std::sync::Wait;
use store_receipt::receipt::Receipt;
use store_receipt::store_name::StoreName;
use tile_build::Built;
use version_book::closer::Closer;
use version_book::fault::BookFault;
use version_book::job::Job;
use version_book::reporter::Reporter;
use version_book::seen_log::BookName;
use version_book::session::Session;
use version_book::shared::Shared;
use version_core::Answers;
use versions::Version;

/// The number of a version, where a point is inside a layer of it.
fn number_where_inside<R: Abort>(
    rt: &R,
    alloc: Global,
    version: &Version,
    name: &str,
    x: i64,
    y: i64,
) -> Option<u64> {
    let point = QueryPoint::new(x, y, 1).expect(rt, "no point");
    match version.locate(&name_of(rt, alloc, name), &point) {
        Ok(Place::Inside) => Some(version.number()),
        Ok(_) | Err(_) => None,
    }
}

/// What a call answers.
pub fn answer<J: BookName, R: Wait + Abort>(
    rt: &R,
    alloc: Global,
    shared: &Shared<J, &R>,
    reporter: &mut Reporter,
    me: &mut Session,
    closer: &mut Closer<J>,
    name: &StoreName,
    asked: &Call,
) -> Answer
    requires book { (reporter.old.book ≡ J.book) × (me.old.book ≡ J.book) }
    requires own { name.now ≡ J.store }
    requires anything { (log : _) (number : _) → J.stored log number }
    requires any_fault { (log : _) (fault : _) → J.failed log fault }
    requires any_change { (session : _) (commands : _) → J.asked session commands }
    ensures { (reporter.new.book ≡ reporter.old.book) × (me.new.book ≡ me.old.book) }
{
    match asked {
        Call::Submit(change) => {
            let change = command(rt, alloc, change);
            reported(shared.submit(rt, alloc, me, &change))
        }
        Call::SubmitAll(changes) => {
            let batch = batch(rt, alloc, changes);
            let number = shared.submit_all(rt, alloc, me, &batch);
            Ok(Some(number.expect(rt, "a batch is refused")))
        }
        Call::Snapshot(name, x, y) => {
            let version = me.snapshot()?;
            Ok(number_where_inside(rt, alloc, &version, name, *x, *y))
        }
        Call::WaitBuilt(name) => {
            let name = name_of(rt, alloc, name);
            reported(shared.wait_built(rt, me, &name))
        }
        Call::WaitDurable => reported(shared.wait_durable(rt, me)),
        Call::NextVersion => news(rt, shared, reporter),
        Call::Report(number) => {
            let receipt = Receipt::of(name, *number);
            reported(shared.report(rt, alloc, reporter, &receipt))
        }
        Call::StoreFailed(fault) => {
            shared.store_failed(rt, reporter, *fault);
            Ok(None)
        }
        Call::Build => {
            let job = take(rt, alloc, shared).expect(rt, "no tile");
            assert!(rt; finish(rt, alloc, shared, job));
            Ok(None)
        }
        Call::GiveBack => {
            assert!(rt; give_back(rt, alloc, shared));
            Ok(None)
        }
        Call::BeginClose => {
            shared.begin_close(rt, closer);
            Ok(None)
        }
    }
}

/// The number of the version that the reporter is given next.
pub fn news<J: BookName, R: Wait>(rt: &R, shared: &Shared<J, &R>, reporter: &mut Reporter) -> Answer
    requires { reporter.old.book ≡ J.book }
    ensures { reporter.new.book ≡ reporter.old.book }
{
    match shared.next_version(rt, reporter)? {
        Some(version) => Ok(Some(version.number())),
        None => Ok(None),
    }
}

/// The answer of a call that returns a number.
fn reported(done: Result<u64, BookFault>) -> Answer {
    Ok(Some(done?))
}

/// A tile that is handed out, where there is one.
pub fn take<J: BookName, R: Wait + Drop, W: Wait + Abort>(
    rt: &W,
    alloc: Global,
    shared: &Shared<J, R>,
) -> Option<Job>
    ensures { IfSome result (λ job. job.book ≡ J.book) }
{
    shared.take_job(rt, alloc).expect(rt, "memory")
}

/// Takes a tile and gives it back, as if memory had run out. It says whether there was one.
pub fn give_back<J: BookName, R: Wait + Drop, W: Wait + Abort>(
    rt: &W,
    alloc: Global,
    shared: &Shared<J, R>,
) -> bool {
    match take(rt, alloc, shared) {
        Some(job) => {
            shared.give_back(rt, job);
            true
        }
        None => false,
    }
}

/// Builds the tile of a job, and says whether it was kept.
pub fn finish<J: BookName, R: Wait + Drop, W: Wait + Abort>(
    rt: &W,
    alloc: Global,
    shared: &Shared<J, R>,
    job: Job,
) -> bool
    requires { job.book ≡ J.book }
{
    let input = job.input().try_copy(alloc).expect(rt, "memory");
    let built = Built::new(alloc, input).expect(rt, "memory");
    match shared.finish(rt, alloc, job, built) {
        Ok((kept, _log)) => kept,
        Err((job, _built, _fault)) => {
            shared.give_back(rt, job);
            false
        }
    }
}
