//! What lines make of the batch that waits for them, and the turns that they end.
ghost use Rattle.std.specs.Prelude.{◌≡◌, Some, None};
ghost use Rattle.script_form.specs.OpenBatch.{IsLineGathered, TakesLine};
ghost use Rattle.script_form.specs.Requests.{request, request_of};
ghost use Rattle.script_form.specs.Turns.{is_nothing};

use crate::joining::Joined;
use crate::open_batch::{LinesFault, OpenBatch};
use crate::request::{Request, request_of};
use layer_book::batch::Batch;
use std::alloc::Global;

/// What a line ends: nothing, its own turn, or that of a batch.
#[derive(Debug, Drop)]
pub enum LineTurn<'a> {
    /// The line belongs to a batch, or begins one, and more of its lines are to come.
    Waits,
    /// The line is in no batch.
    Alone(Request<'a>),
    /// The last line of a batch came: its commands, or why they are none.
    Whole(Result<Batch, LinesFault>),
}

/// Takes a line, where a batch waits for lines or none does. A line that is too long may be handed in cut off after
/// its first 65,537 bytes.
pub fn take_line<'a>(alloc: Global, waiting: &mut Option<OpenBatch>, line: &'a [u8]) -> LineTurn<'a>
    ensures { TakesLine waiting.old (request_of line.now) waiting.new result }
{
    let asked = request_of(line);
    let (next, turn) = match waiting.take() {
        None => begin(alloc, asked),
        Some(open_batch) => go_on(alloc, open_batch, asked),
    };
    *waiting = next;
    turn
}

/// A line where no batch waits: it begins one, or has its own turn.
fn begin<'a>(alloc: Global, asked: Request<'a>) -> (Option<OpenBatch>, LineTurn<'a>)
    ensures { IsLineGathered None (request asked.entry) result.0 result.1 }
{
    let Request::Batch(size) = asked else {
        return (None, LineTurn::Alone(asked));
    };
    match OpenBatch::new(alloc, size) {
        Some(open_batch) => (Some(open_batch), LineTurn::Waits),
        None => (None, LineTurn::Alone(asked)),
    }
}

/// A line where a batch waits: it is skipped, or belongs to it.
fn go_on<'a>(
    alloc: Global,
    open_batch: OpenBatch,
    asked: Request<'a>,
) -> (Option<OpenBatch>, LineTurn<'a>)
    ensures { TakesLine (Some open_batch) (request asked.entry) result.0 result.1 }
{
    if is_nothing(&asked) {
        return (Some(open_batch), LineTurn::Waits);
    }
    match open_batch.join(alloc, asked) {
        Joined::Waits(open_batch) => (Some(open_batch), LineTurn::Waits),
        Joined::Whole(read) => (None, LineTurn::Whole(read)),
    }
}

/// Whether a line is skipped.
fn is_nothing(asked: &Request<'_>) -> bool
    ensures { result ≡ is_nothing (request asked.now) }
{
    match asked {
        Request::Nothing => true,
        _ => false,
    }
}
