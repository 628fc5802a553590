//! Publishing what follows, however long that takes.
ghost use Rattle.std.specs.Prelude.{◌≡◌, ◌^◌, ◌<◌, [], ◌∷◌, drop, length, IfSome};
ghost use Rattle.left_right.specs.Sides.{view};
ghost use Rattle.book_history.specs.BookLogs.{Begins};

use crate::published::{Published, Publisher, ReaderPlace, Sees, TellsAll};
use crate::resting::rest;
use core::mem::replace_with;
use std::alloc::Global;
use std::snapshot::Snapshot;
use std::sync::Wait;

/// What publishes for so many readers, with one version that it knows and shows. None comes where memory is refused.
// It asks for memory once, and not again: a book that begins is refused where there is none.
pub fn first_publisher<R: Wait>(
    rt: &R,
    alloc: Global,
    first: Published,
    readers: usize,
) -> Option<Publisher>
    requires begun { 0 < length first.seen_log.log }
    requires readers { (0 < readers) × (readers < 2 ^ 32) }
    ensures { IfSome result (λ p. (p.desk.shown.value.seen_log ≡ first.seen_log) × (drop p.behind p.log.items ≡ [])
        × (view p.desk.place ≡ first.seen_log)) }
{
    let (Ok(second), Ok(next)) = (first.again(), first.again()) else {
        return None;
    };
    let Ok(mut publisher) = Publisher::new(alloc, first, second, readers) else {
        return None;
    };
    let known = Snapshot::of(&next);
    match publisher.append(next) {
        Ok(()) => Some(shown(rt, publisher, known)),
        Err(_) => {
            publisher.take(rt);
            None
        }
    }
}

/// A place that has seen what the publisher knows.
pub fn new_place(publisher: &mut Publisher) -> Option<ReaderPlace>
    ensures kept { (publisher.new.desk.shown ≡ publisher.old.desk.shown) × (publisher.new.log ≡ publisher.old.log)
        × (publisher.new.behind ≡ publisher.old.behind)
        × (view publisher.new.desk.place ≡ view publisher.old.desk.place) }
    ensures given { IfSome result (λ r. view r.place ≡ view publisher.old.desk.place) }
{
    let mut place = publisher.factory().reader().ok()?;
    place.learn::<TellsAll>(publisher.tell::<TellsAll>());
    Some(place)
}

// Writes down what follows. Where memory for that is refused, it sleeps before it asks again.
fn write_down<R: Wait>(rt: &R, publisher: Publisher, next: Published) -> Publisher
    requires { drop publisher.behind publisher.log.items ≡ [] }
    ensures shown { result.desk ≡ publisher.desk }
    ensures pending { drop result.behind result.log.items ≡ next ∷ [] }
{
    let mut publisher = publisher;
    let mut next = next;
    'write: for _ in rt.forever() {
        match publisher.append(next) {
            Ok(()) => return publisher,
            Err(back) => {
                next = back;
                rest(rt);
            }
        }
    }
    unreachable!()
}

// A publisher that has published what was written down.
fn shown<R: Wait>(rt: &R, publisher: Publisher, next: Snapshot<Published>) -> Publisher
    requires pending { drop publisher.behind publisher.log.items ≡ next.value ∷ [] }
    requires longer { Begins publisher.desk.shown.value.seen_log next.value.seen_log }
    ensures shown { result.desk.shown.value.seen_log ≡ next.value.seen_log }
    ensures known { view result.desk.place ≡ next.value.seen_log }
    ensures pending { drop result.behind result.log.items ≡ [] }
{
    let mut publisher = publisher;
    'show: for _ in rt.forever() {
        let (after, done) = publisher.publish_as::<Sees, R>(rt);
        publisher = after;
        if done.is_ok() {
            return publisher;
        }
    }
    unreachable!()
}

// A publisher that has published what follows.
fn shown_by<R: Wait>(rt: &R, publisher: Publisher, next: Published) -> Publisher
    requires pending { drop publisher.behind publisher.log.items ≡ [] }
    requires longer { Begins publisher.desk.shown.value.seen_log next.seen_log }
    ensures shown { result.desk.shown.value.seen_log ≡ next.seen_log }
    ensures known { view result.desk.place ≡ next.seen_log }
    ensures pending { drop result.behind result.log.items ≡ [] }
{
    let known = Snapshot::of(&next);
    let publisher = write_down(rt, publisher, next);
    shown(rt, publisher, known)
}

/// Publishes what follows.
pub fn put_out<R: Wait>(rt: &R, publisher: &mut Publisher, next: Published)
    requires pending { drop publisher.old.behind publisher.old.log.items ≡ [] }
    requires longer { Begins publisher.old.desk.shown.value.seen_log next.seen_log }
    ensures shown { publisher.new.desk.shown.value.seen_log ≡ next.seen_log }
    ensures known { view publisher.new.desk.place ≡ next.seen_log }
    ensures pending { drop publisher.new.behind publisher.new.log.items ≡ [] }
{
    replace_with(
        publisher,
        next,
        |publisher, next| (shown_by(rt, publisher, next), ()),
    )
}
