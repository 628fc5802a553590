//! A place that goes on with what is published.
ghost use Rattle.std.specs.Prelude.{IfSome};
ghost use Rattle.left_right.specs.Sides.{view as place_view};
ghost use Rattle.book_history.specs.BookLogs.{Begins, IsOf};

use crate::published::{ReaderPlace, Sees};
use crate::seen_log::SeenLog;

/// The place, once it has seen no less than this. It is lost where it hasn't, which does not come.
pub fn moved(place: Option<ReaderPlace>, to: &SeenLog) -> Option<ReaderPlace>
    requires { IfSome place (λ r. IsOf to.now.book (place_view r.place)) }
    ensures { IfSome result (λ r. Begins to.now (place_view r.place)) }
{
    let reading = place?.enter_as::<Sees>().ok()?;
    let there = &reading.get().seen_log;
    let level = there.at() >= to.at();
    // Two logs of one book begin with the same entries: the clause rests on that.
    let _ = to.compare(there);
    let place = reading.leave();
    if level { Some(place) } else { None }
}
