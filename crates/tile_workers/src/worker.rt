//! The loop of a worker.
ghost use Rattle.std.specs.Prelude.{◌≡◌, ◌≤◌, IfOk, IfSome};
ghost use Rattle.crossing_sweep.specs.StripInput.{part};

use crate::gate::Gate;
use crate::strip_wish::StripWish;
use plane_base::Column;
use std::alloc::{AllocError, Global};
use std::slice;
use std::sync::Wait;
use tile_build::{SharedBuilt, build_strip_while, build_while};
use version_book::resting::rest;
use version_book::seen_log::BookName;
use version_book::shared::Shared;
use version_book::strip_job::StripJob;

/// Builds tiles until the book closes. Where none are handed out for want of memory (40), it sleeps a moment and asks
/// again; where memory runs out later, it gives back those that are left.
// It has no clause on what it built, as nothing of what lies under the lock can be said once that is given up. But each
// strip is spent, as it is no value that may be dropped, and each of its tiles only with one
// that is built of its own input.
pub fn worker_loop<J: BookName, R: Wait + Drop, G: Gate, W: Wait>(
    rt: &W,
    alloc: Global,
    gate: &G,
    shared: &Shared<J, R>,
) {
    for _ in rt.forever() {
        match shared.take_strip(rt, alloc) {
            Ok(Some(strip)) => work(rt, alloc, gate, shared, strip),
            Ok(None) => return,
            Err(_) => rest(rt),
        }
    }
    unreachable!()
}

/// Enters the gate for each column of a strip, and builds its tiles. What is left of it is given back where memory runs
/// out, and let go where none of it is wanted any more.
fn work<J: BookName, R: Wait + Drop, G: Gate, W: Wait>(
    rt: &W,
    alloc: Global,
    gate: &G,
    shared: &Shared<J, R>,
    mut strip: StripJob,
)
    requires book { strip.book ≡ J.book }
    requires whole { strip.next ≡ strip.input.strip.first }
{
    let columns = strip.input().strip();
    for number in columns.first().number()..columns.last().number() + 1 {
        gate.enter(strip.name(), number);
    }
    let is_left = match finish_whole(rt, alloc, shared, &mut strip) {
        Ok(is_left) => is_left,
        Err(_) => finish_apart(rt, alloc, shared, &mut strip),
    };
    if is_left {
        shared.let_go_strip(rt, strip);
    } else {
        shared.give_back_strip(rt, strip);
    }
}

/// Builds the tiles of a strip by one pass, and spends them until memory runs out. It says whether it left them, as
/// none of them was wanted any more.
fn finish_whole<J: BookName, R: Wait + Drop, W: Wait>(
    rt: &W,
    alloc: Global,
    shared: &Shared<J, R>,
    strip: &mut StripJob,
) -> Result<bool, AllocError>
    requires book { strip.old.book ≡ J.book }
    requires whole { strip.old.next ≡ strip.old.input.strip.first }
    ensures { strip.new.book ≡ strip.old.book }
{
    let wish = StripWish::new(rt, alloc, shared, strip);
    let done = build_strip_while(alloc, strip.input(), &wish)?;
    let Some(built) = done else {
        return Ok(true);
    };
    // Where memory runs out, the strip has those that are left.
    let _ = shared.finish_strip(rt, alloc, strip, &built);
    Ok(false)
}

/// Builds the tiles of a strip one after another, each by a pass over its own column alone, and spends them, until
/// memory runs out. It says whether it left some, as none of them was wanted any more.
fn finish_apart<J: BookName, R: Wait + Drop, W: Wait>(
    rt: &W,
    alloc: Global,
    shared: &Shared<J, R>,
    strip: &mut StripJob,
) -> bool
    requires { strip.old.book ≡ J.book }
    ensures { strip.new.book ≡ strip.old.book }
{
    'tiles: while !strip.is_spent() {
        let Ok(done) = build_next(rt, alloc, shared, strip) else {
            return false;
        };
        let Some(built) = done else {
            return true;
        };
        match shared.finish_strip(rt, alloc, strip, slice::from_ref(&built)) {
            Ok((_kept, _log)) => {}
            Err(_fault) => return false,
        }
    }
    false
}

/// The next tile of a strip, by a pass over its own column alone, as long as one that is not spent is wanted.
fn build_next<J: BookName, R: Wait + Drop, W: Wait>(
    rt: &W,
    alloc: Global,
    shared: &Shared<J, R>,
    strip: &StripJob,
) -> Result<Option<SharedBuilt>, AllocError>
    requires { strip.now.next ≤ strip.now.input.strip.last }
    ensures { IfOk result (λ o. IfSome o (λ built. built.0 ≡ part strip.now.input strip.now.next)) }
{
    let input = strip.input();
    // The strip ends at a column that there is.
    let _ = input.strip();
    let Some(column) = Column::new(u64::from(strip.next())) else {
        unreachable!()
    };
    let wish = StripWish::new(rt, alloc, shared, strip);
    build_while(alloc, input, column, &wish)
}
