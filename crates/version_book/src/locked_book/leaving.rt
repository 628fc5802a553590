//! Whether tiles in hand are still awaited, and letting them go, under the lock.
ghost use Rattle.std.specs.Prelude.{◌≡◌, ◌+◌, ◌↔◌, IsTrue, false, IfSome, IfNone};
ghost use Rattle.book_history.specs.Logs.{newest_in};
ghost use Rattle.version_book.specs.BookState.{HasHeld};
ghost use Rattle.version_book.specs.HeldTiles.{strip_taken_in};
ghost use Rattle.versions.specs.Finish.{IsAwaited};

use crate::locked_book::LockedBook;
use crate::locked_book::strip_job::StripJob;
use arrange::TileInput;
use book_history::seen_log::BookName;
use layer_expr::name::Name;
use std::sync::Wait;

impl<J: BookName, R: Wait + Drop> LockedBook<J, R> {
    /// The number of the newest version. None says that the book closes.
    pub fn open_number(&self) -> Option<u64>
        ensures open { IfSome result (λ n. (self.now.state.closing ≡ false) × ((newest_in self.now.log).number ≡ n)) }
        ensures closing { IfNone result (IsTrue self.now.state.closing) }
    {
        if self.state.closing {
            return None;
        }
        Some(self.log.last().version.number())
    }

    /// Whether the tile of an input is awaited: it is pending in the newest version, and the input is the present one.
    pub fn awaits(&self, name: &Name, input: &TileInput) -> bool
        ensures { IsTrue result ↔ IsAwaited (newest_in self.now.log) name.now input.now }
    {
        self.log.last().version.is_awaited(name, input)
    }

    /// Spends what is left of a strip that is not to be built: its tiles can be handed out again, and none is marked.
    pub fn let_go_strip(&mut self, strip: StripJob)
        requires { strip.book ≡ J.book }
        ensures log { self.new.log ≡ self.old.log }
        ensures state { HasHeld self.old.state
            (strip_taken_in strip.name strip.next (strip.input.strip.last + 1) self.old.state.held.list.items) self.new.state }
    {
        let end = strip.input().strip().last().number() + 1;
        self.state
            .strip_taken_in(strip.name(), strip.next(), end, false);
        strip.end();
    }
}
