//! One pass over a window.
ghost use Rattle.std.specs.Prelude.{◌≡◌, ◌-ℤ◌, pos, map, IfOk, IfSome};
ghost use Rattle.overlay_terms.specs.Column.{IsInColumn};
ghost use Rattle.sided_pieces.specs.Sided.{sided_of, AreSided};
ghost use Rattle.feature_windows.specs.Boundary.{AreBoundary};

use crate::fault::WindowsFault;
use crate::halving::SEGMENTS_MAX;
use crate::window::Window;
use block_reading::Core;
use crossing_sweep::{PassInput, Strip};
use layer_expr::StepList;
use plane_base::{Column, column_of};
use sided_pieces::{SidedTile, sided_tile};
use std::alloc::Global;
use swept_area::SidedPiece;

/// How far one number lies over another.
fn minus(high: i64, low: i64) -> i128
    ensures { result ≡ high -ℤ low }
{
    i128::from(high) - i128::from(low)
}

/// The columns up to the right side of a core, whose low corner is the origin: pieces that end in it begin there.
fn strip_of(core: &Core) -> Option<Strip>
    ensures first { IfSome result (λ strip. strip.first ≡ 0) }
    ensures last { IfSome result (λ strip. IsInColumn strip.last (core.now.high_x -ℤ core.now.low_x) (pos 1)) }
{
    let last = column_of(minus(core.high_x, core.low_x), 1)?;
    let first = Column::new(0)?;
    Some(Strip::new(first, last))
}

/// All boundary pieces of the strip of an input, in order.
fn pieces_of(alloc: Global, input: &PassInput) -> Result<Vec<SidedPiece>, WindowsFault>
    ensures { IfOk result (λ list. AreSided input.now (map sided_of list.items)) }
{
    match sided_tile(alloc, input, usize::MAX)? {
        SidedTile::Pieces(list) => Ok(list),
        SidedTile::Oversize => Err(WindowsFault::TooManySteps),
    }
}

/// The boundary pieces of an expression over the layers of a window, the last of which is the window's core.
pub fn pieces_in(
    alloc: Global,
    window: &Window,
    steps: &StepList,
) -> Result<Vec<SidedPiece>, WindowsFault>
    ensures { IfOk result (λ list. AreBoundary window.now.core window.now.layers.items steps.now (map sided_of list.items)) }
{
    if !window.is_drawn || window.marked.len() > SEGMENTS_MAX {
        return Err(WindowsFault::TooManySteps);
    }
    if window.layers.len() != usize::from(steps.bases()) {
        return Err(WindowsFault::OtherLayers);
    }
    let Some(strip) = strip_of(&window.core) else {
        return Err(WindowsFault::LongStep);
    };
    // The strip's columns are in order, and there are so many: the pass wants that.
    let _ = strip.last().number();
    let input = PassInput::of_strip(strip, &window.marked, steps);
    pieces_of(alloc, &input)
}
