//! The book's state beside its log.
ghost use Rattle.std.specs.Prelude.{◌≡◌};
ghost use Rattle.version_book.specs.HeldTiles.{given_back, strip_given_back, strip_taken_in, taken_in, unmarked_of};
ghost use Rattle.version_book.specs.BookState.{HasHeld, IsAfterClosing, IsAfterCommand, IsAfterFailure, IsAfterFinish};
ghost use Rattle.version_book.specs.BookState.{IsFresh};

use crate::held_tiles::HeldTiles;
use book_history::fault::ReportedFault;
use layer_expr::name::Name;
use plane_base::Column;
use std::alloc::Global;

/// What lies under the lock beside the log.
#[derive(Drop)]
pub struct BookState {
    pub held: HeldTiles,
    /// What the store reported, while it holds.
    pub fault: Option<ReportedFault>,
    /// Whether the reporter waits for an accepted command.
    pub resting: bool,
    pub closing: bool,
    /// Changes with each accepted command and wherever tiles were kept, which is news to the reporter.
    pub news: u64,
}

impl BookState {
    /// No tile is handed out or marked, and the store reported nothing.
    pub fn new(alloc: Global) -> BookState
        ensures { IsFresh result }
    {
        BookState {
            held: HeldTiles::new(alloc),
            fault: None,
            resting: false,
            closing: false,
            news: 0,
        }
    }

    /// A command or a batch was accepted.
    pub fn command_accepted(&mut self)
        ensures { IsAfterCommand self.old self.new }
    {
        self.held.unmark();
        if self.fault.is_some_and(|fault| fault.passes()) {
            self.fault = None;
        }
        self.resting = false;
        self.news = self.news.wrapping_add(1);
    }

    /// The job of a tile was spent, and the tile was kept or not.
    pub fn job_finished(&mut self, name: &Name, column: Column, kept: bool)
        ensures { IsAfterFinish self.old (taken_in name.now column self.old.held.list.items) kept self.new }
    {
        self.held.take_in(name, column);
        if kept {
            self.news = self.news.wrapping_add(1);
        }
    }

    /// Tiles of a strip, from one column on and before another, are not handed out any more: some were kept, or none.
    pub fn strip_taken_in(&mut self, name: &Name, first: u8, end: u8, some_kept: bool)
        ensures { IsAfterFinish self.old (strip_taken_in name.now first end self.old.held.list.items) some_kept self.new }
    {
        self.held.take_in_strip(name, first, end);
        if some_kept {
            self.news = self.news.wrapping_add(1);
        }
    }

    /// The store reported a fault.
    pub fn store_failed(&mut self, fault: ReportedFault)
        ensures { IsAfterFailure self.old fault self.new }
    {
        if self.fault.is_none_or(|first| first.passes()) {
            self.fault = Some(fault);
        }
        self.resting = true;
    }

    /// A tile that was handed out was given back: it is marked.
    pub fn give_back(&mut self, name: &Name, column: Column)
        ensures { HasHeld self.old (given_back name.now column self.old.held.list.items) self.new }
    {
        self.held.give_back(name, column);
    }

    /// Tiles that were handed out, from one column on and before another, were given back: they are marked.
    pub fn give_back_strip(&mut self, name: &Name, first: u8, end: u8)
        ensures { HasHeld self.old (strip_given_back name.now first end self.old.held.list.items) self.new }
    {
        self.held.give_back_strip(name, first, end);
    }

    /// A wait for the tiles of a layer was ended by its marks, which go.
    pub fn unmark_of(&mut self, name: &Name)
        ensures { HasHeld self.old (unmarked_of name.now self.old.held.list.items) self.new }
    {
        self.held.unmark_of(name);
    }

    /// The book closes from now on.
    pub fn begin_close(&mut self)
        ensures { IsAfterClosing self.old self.new }
    {
        self.closing = true;
    }
}
