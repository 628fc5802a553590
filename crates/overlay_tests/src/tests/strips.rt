//! Strips of tiles, taken and spent, for the tests.
ghost use Rattle.std.specs.Prelude.{◌≡◌, IfSome};

use crate::tests::book_calls::answer;
use crate::tests::book_rows::Call;
use crate::tests::tokens::Tokens;
use std::alloc::Global;
use std::process::Abort;
use std::sync::Wait;
use tile_build::build_strip;
use version_book::seen_log::BookName;
use version_book::shared::Shared;
use version_book::strip_job::StripJob;

/// A strip of tiles, where there is one.
fn take_strip<J: BookName, R: Wait + Drop, W: Wait + Abort>(
    rt: &W,
    alloc: Global,
    shared: &Shared<J, R>,
) -> Option<StripJob>
    ensures book { IfSome result (λ strip. strip.book ≡ J.book) }
    ensures whole { IfSome result (λ strip. strip.next ≡ strip.input.strip.first) }
{
    shared.take_strip(rt, alloc).expect(rt, "memory")
}

/// Takes a strip of tiles, makes a call, and builds and finishes the tiles in order then. It returns how many there are
/// and how many of them are kept.
pub fn build_late<J: BookName, R: Wait + Abort>(
    rt: &R,
    alloc: Global,
    shared: &Shared<J, &R>,
    tokens: &mut Tokens<J>,
    asked: &Option<Call>,
) -> (usize, u64)
    requires book { tokens.old.reporter.book ≡ J.book }
    requires anything { (log : _) (number : _) → J.stored log number }
    requires any_fault { (log : _) (fault : _) → J.failed log fault }
    requires any_change { (session : _) (commands : _) → J.asked session commands }
    ensures { tokens.new.reporter.book ≡ tokens.old.reporter.book }
{
    let Some(strip) = take_strip(rt, alloc, shared) else {
        return (0, 0);
    };
    if let Some(asked) = asked {
        let Tokens {
            reporter,
            me,
            closer,
            name,
            ..
        } = tokens;
        answer(rt, alloc, shared, reporter, me, closer, name, asked).expect(rt, "a refusal");
    }
    spend(rt, alloc, shared, strip, usize::MAX, false)
}

/// Takes a strip of tiles, builds and finishes the first one, and gives the others back as if memory had run out, or
/// lets them go. It returns how many tiles there are in all.
pub fn give_back_strip<J: BookName, R: Wait + Drop, W: Wait + Abort>(
    rt: &W,
    alloc: Global,
    shared: &Shared<J, R>,
    lets_go: bool,
) -> usize {
    let strip = take_strip(rt, alloc, shared).expect(rt, "no strip");
    let (count, kept) = spend(rt, alloc, shared, strip, 1, lets_go);
    assert!(rt; kept == 1);
    count
}

/// Builds the tiles of a strip, finishes the first ones of them, and gives back what is left, or lets it go. It returns
/// how many tiles there are and how many of them are kept.
fn spend<J: BookName, R: Wait + Drop, W: Wait + Abort>(
    rt: &W,
    alloc: Global,
    shared: &Shared<J, R>,
    mut strip: StripJob,
    most: usize,
    lets_go: bool,
) -> (usize, u64)
    requires book { strip.book ≡ J.book }
    requires whole { strip.next ≡ strip.input.strip.first }
{
    let Ok(built) = build_strip(alloc, strip.input()) else {
        panic!(rt; "memory")
    };
    let first = &built[..built.len().min(most)];
    let Ok((kept, _log)) = shared.finish_strip(rt, alloc, &mut strip, first) else {
        panic!(rt; "memory")
    };
    if lets_go {
        shared.let_go_strip(rt, strip);
    } else {
        shared.give_back_strip(rt, strip);
    }
    (built.len(), kept)
}
