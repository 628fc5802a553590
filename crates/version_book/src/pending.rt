//! Tiles that are pending, and neither handed out nor marked.
ghost use Rattle.std.specs.Prelude.{◌≡◌, ◌<◌, ◌≤◌, ◌+◌, IsTrue, IfOk, IfSome, IfNone};
ghost use Rattle.overlay_terms.specs.Column.{column_count};
ghost use Rattle.overlay_terms.specs.Commands.{stands_as_derived};
ghost use Rattle.overlay_terms.specs.Tiles.{input_of};
ghost use Rattle.version_book.specs.Free.{AllAreHeld, AreHeldAt, IsFree};

use crate::held_tiles::HeldTiles;
use arrange::TileInput;
use layer_expr::name::Name;
use plane_base::{COLUMN_COUNT, Column};
use std::alloc::{AllocError, Global};
use versions::Version;

/// A pending tile of a version that is neither handed out nor marked. The layer at a place is looked at first, from a
/// column on, and then all layers in their order.
pub fn free<'a>(
    version: &'a Version,
    held: &HeldTiles,
    near: usize,
    from: u8,
) -> Option<(&'a Name, Column)>
    ensures some { IfSome result (λ r. IsFree version.now held.now.list.items r.0.now r.1) }
    ensures none { IfNone result (AllAreHeld version.now held.now.list.items) }
{
    if let Some(found) = free_at(version, held, near, from) {
        return Some(found);
    }
    for place in 0..version.layers().len() {
        if let Some(found) = free_at(version, held, place, 0) {
            return Some(found);
        }
    }
    None
}

// The same among the tiles of the layer at a place alone. Its row says which are pending, and each column is looked at
// once: from one on, and after the last from the first on.
fn free_at<'a>(
    version: &'a Version,
    held: &HeldTiles,
    place: usize,
    from: u8,
) -> Option<(&'a Name, Column)>
    ensures some { IfSome result (λ r. IsFree version.now held.now.list.items r.0.now r.1) }
    ensures none { IfNone result (AreHeldAt version.now held.now.list.items place) }
{
    let Some((name, layer, row)) = version.at(place) else {
        return None;
    };
    // The layers of a version are in order by its type: the clauses rest on that.
    let _ = version.layers().len();
    if !layer.is_derived() {
        return None;
    }
    if version.is_built(name) {
        return None;
    }
    let first = if from < COLUMN_COUNT { from } else { 0 };
    for step in 0..COLUMN_COUNT {
        let column = column_around(first + step);
        if !row.has(column) && !held.has(name, column) {
            return Some((name, column));
        }
    }
    None
}

// The column with this number, where the columns are counted on once more after the last.
fn column_around(number: u8) -> Column
    requires { number < column_count + column_count }
    ensures ahead { number < column_count → result ≡ number }
    ensures behind { column_count ≤ number → result + column_count ≡ number }
{
    let number = if number < COLUMN_COUNT {
        number
    } else {
        number - COLUMN_COUNT
    };
    let Some(column) = Column::new(u64::from(number)) else {
        unreachable!()
    };
    column
}

/// A copy of the name of a derived layer, and the input of its tile.
pub fn parts(
    version: &Version,
    alloc: Global,
    name: &Name,
    column: Column,
) -> Result<(Name, TileInput), AllocError>
    requires { IsTrue (stands_as_derived version.now.layers name.now) }
    ensures { IfOk result (λ r. (r.0 ≡ name.now) × (r.1 ≡ input_of version.now.layers name.now column)) }
{
    let copy = name.clone()?;
    let input = version.layers().input_in_reach(alloc, name, column)?;
    Ok((copy, input))
}
