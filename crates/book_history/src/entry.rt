//! What is written down in the history.
ghost use Rattle.std.specs.Prelude.{ℕ, ◌≡◌, ◌+◌, ◌<◌, [], length, slice_index};
ghost use Rattle.std.specs.List.{cons_option};
ghost use Rattle.overlay_terms.specs.Commands.{version_max};
ghost use Rattle.overlay_terms.specs.Histories.{own_command};
ghost use Rattle.book_history.specs.Causes.{event_of, HasSeat};

use layer_book::batch::Batch;
use layer_book::command::Command;
use layer_expr::name::Name;
use plane_base::Column;
use std::marker::Model;
use store_receipt::receipt::Receipt;
use tile_build::Tile;
use versions::Version;

/// What made a version, as it is in the logbook. No value of it is made.
#[derive(Drop)]
pub enum Event {
    Accepted(u64, Batch),
    Kept(Name, Column, Tile),
    Durable(u64),
}

/// An event and the version that it made. No value of it is made: it is what a log is a list of.
pub struct Entry {
    pub event: Event,
    pub version: Version,
}

impl Model for Entry {
    ghost use Rattle.overlay_terms.specs.Histories as terms;
    ghost use Rattle.book_history.specs.Codes.{entry_code};

    ghost Value = { terms.Entry };

    ghost coded = { entry_code };

    ghost use Rattle.book_history.specs.Events.{written};

    ghost view = { λ e. record { event = written e.event; version = e.version } };
}

// Written out: of a derived drop, each crate above proves again what becomes of every part.
impl Drop for Entry {
    fn drop(self) {
        let Entry { event, version } = self;
        drop(event);
        drop(version);
    }
}

/// What happened.
#[derive(Clone, Copy)]
pub enum Cause<'a> {
    /// Commands of a session are accepted as one version.
    Accepted(u64, &'a [Command]),
    /// A tile of a layer and column is kept.
    Kept(&'a Name, &'a Column, &'a Tile),
    /// A number is durable, for which a store gave this receipt.
    Durable(&'a Receipt),
}

/// What a step asks the history for.
#[derive(Clone, Copy)]
pub struct Ask<'a> {
    pub cause: Cause<'a>,
    pub version: &'a Version,
}

/// How many batches of each session there are with one more entry.
pub fn counted(counts: [u64; 4], cause: Cause<'_>) -> [u64; 4]
    requires seat { HasSeat cause }
    requires room { (k : ℕ) → k < 4 → slice_index counts k < version_max }
    ensures { (k : ℕ) → k < 4
        → slice_index result k ≡ slice_index counts k + length (cons_option (own_command k (event_of cause.entry)) []) }
{
    let mut counts = counts;
    if let Cause::Accepted(by, _) = cause {
        counts[by as usize] += 1;
    }
    counts
}
