//! Neighbouring tiles that can be handed out as one strip.
ghost use Rattle.std.specs.Prelude.{◌≡◌, ◌≤◌, ℕ, IfOk};
ghost use Rattle.crossing_sweep.specs.StripInput.{part};
ghost use Rattle.version_book.specs.Free.{IsFree};
ghost use Rattle.version_book.specs.Jobs.{IsHandedOut};

use crate::held_tiles::HeldTiles;
use layer_expr::name::Name;
use plane_base::{BaseLayer, Column};
use std::alloc::{AllocError, Global};
use tile_build::{Strip, StripInput};
use versions::Version;

/// How many segments a strip has at most, each counted once for each of its columns: so that workers have a share.
const SEGMENTS_MAX: usize = 4096;

/// How many columns a strip has at most: a second worker has a share of the smallest layer, too.
const COLUMNS_MAX: usize = 17;

/// A copy of the name of a derived layer, and the input of a strip of its tiles: from a column whose tile can be handed
/// out on, as long as that of the next column can be, too, and the strip is small enough.
pub fn strip_parts(
    version: &Version,
    held: &HeldTiles,
    alloc: Global,
    name: &Name,
    first: Column,
) -> Result<(Name, StripInput), AllocError>
    requires { IsFree version.now held.now.list.items name.now first }
    ensures name { IfOk result (λ r. r.0 ≡ name.now) }
    ensures first { IfOk result (λ r. r.1.strip.first ≡ first) }
    ensures each { IfOk result (λ r. (k : ℕ) → r.1.strip.first ≤ k → k ≤ r.1.strip.last
        → IsHandedOut version.now held.now.list.items name.now (part r.1 k)) }
{
    let copy = name.clone()?;
    let book = version.layers();
    let found = book.bases_in_reach(alloc, name)?;
    let bases = found.as_slice();
    let steps = book.steps_in_reach(alloc, name)?;
    let last = last_free(version, held, name, first, most_columns(bases));
    let input = StripInput::of(alloc, Strip::new(first, last), bases, steps)?;
    Ok((copy, input))
}

// The last of neighbouring columns, from one on, whose tiles can be handed out. They are at most so many. The layer's row
// says which tiles are pending.
fn last_free(version: &Version, held: &HeldTiles, name: &Name, first: Column, most: usize) -> Column
    requires { IsFree version.now held.now.list.items name.now first }
    ensures from { first ≤ result }
    ensures free { (k : ℕ) → first ≤ k → k ≤ result → IsFree version.now held.now.list.items name.now k }
{
    let found = version.row_of(name);
    let Some(row) = found else {
        return first;
    };
    let mut last = first;
    'columns: for _ in 1..most {
        let Some(next) = Column::new(u64::from(last.number()) + 1) else {
            return last;
        };
        if row.has(next) || held.has(name, next) {
            return last;
        }
        last = next;
    }
    last
}

// How many columns a strip over these base layers has at most.
fn most_columns(bases: &[&BaseLayer]) -> usize {
    let mut segments: usize = 0;
    for base in bases {
        segments = segments.saturating_add(base.segs().len());
    }
    if segments == 0 {
        return COLUMNS_MAX;
    }
    COLUMNS_MAX.min(SEGMENTS_MAX / segments)
}
