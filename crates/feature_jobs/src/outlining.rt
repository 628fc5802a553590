//! Outlines of what windows have of an expression.
use crate::fault::JobFault;
use block_reading::Core;
use boundary_outlines::{Border, BoundaryPiece, Line, Outline, Pieces, outline_of, placed};
use feature_windows::{Window, pieces_in};
use layer_expr::StepList;
use std::alloc::Global;
use swept_area::SidedPiece;

/// The border of a window, seen from the low corner of a core.
fn border_of(window: &Core, core: &Core) -> Border {
    Border {
        low_x: window.low_x.saturating_sub(core.low_x),
        high_x: window.high_x.saturating_sub(core.low_x),
        low_y: window.low_y.saturating_sub(core.low_y),
        high_y: window.high_y.saturating_sub(core.low_y),
    }
}

/// The line of a piece, farther right and farther up by so much.
fn line_of(piece: &SidedPiece, across: i64, along: i64) -> Line {
    let (left, right) = (piece.support.left(), piece.support.right());
    Line {
        x: left.x().saturating_add(across),
        y: left.y().saturating_add(along),
        run: right.x().saturating_sub(left.x()),
        rise: right.y().saturating_sub(left.y()),
    }
}

/// A piece of a window, seen from where the window lies farther right and farther up by so much.
fn seen_from(piece: &SidedPiece, across: i64, along: i64) -> BoundaryPiece {
    let (from, to) = (&piece.from, &piece.to);
    BoundaryPiece {
        from: placed(from.x, from.y, from.w, across, along),
        to: placed(to.x, to.y, to.w, across, along),
        line: line_of(piece, across, along),
        over: piece.over,
    }
}

/// Adds the pieces of a window.
fn add_window(
    alloc: Global,
    pieces: &mut Pieces,
    window: &Window,
    steps: &StepList,
    core: &Core,
) -> Result<(), JobFault> {
    let border = border_of(&window.core, core);
    let list = pieces_in(alloc, window, steps)?;
    for one in &list {
        pieces.add(&seen_from(one, border.low_x, border.low_y), &border)?;
    }
    Ok(())
}

/// The outline of what the windows of a core have of an expression, seen from the core's low corner.
pub(crate) fn outline_in(
    alloc: Global,
    list: &[Window],
    steps: &StepList,
    core: &Core,
) -> Result<Outline, JobFault> {
    let mut pieces = Pieces::none(alloc);
    for window in list {
        add_window(alloc, &mut pieces, window, steps, core)?;
    }
    Ok(outline_of(alloc, pieces)?)
}
