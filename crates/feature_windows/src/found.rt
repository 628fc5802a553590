//! What the passes of a job have found.
ghost use Rattle.std.specs.Prelude.{◌≡◌, ◌+ℤ◌, ◌-ℤ◌, map, length, All, IfOk, IfSome};
ghost use Rattle.swept_area.specs.Swept as terms;
ghost use Rattle.swept_area.specs.Pieces.{sided_from};
ghost use Rattle.sided_pieces.specs.Sided.{sided_of, IsNearArea, IsOnItsSupport};
ghost use Rattle.feature_windows.specs.Boundary.{IsFoundIn};
ghost use Rattle.feature_windows.specs.Sums.{AreFoundIn};

use crate::fault::WindowsFault;
use crate::finding::pieces_in;
use crate::window::Window;
use block_reading::Core;
use exact_point::HPoint;
use layer_expr::StepList;
use sided_pieces::enclosed_area;
use std::alloc::Global;
use swept_area::{Shift, SidedPiece};

/// Twice an area in parts of a unit square, of which a unit has 2^40; how far it may be off; how many pieces its boundary
/// has, those on the borders of windows included; and how many passes it took.
#[derive(Clone, Copy, Debug)]
pub struct Found {
    pub twice: i128,
    pub bound: i128,
    pub pieces: usize,
    pub windows: usize,
}

/// Whether a place is whole.
fn is_whole(p: &HPoint) -> bool {
    p.x.checked_rem_euclid(p.w) == Some(0) && p.y.checked_rem_euclid(p.w) == Some(0)
}

/// How large a number is, whatever its sign.
fn size(z: i128) -> i128 {
    if z < 0 { 0_i128.saturating_sub(z) } else { z }
}

/// How far the line of a piece passes the origin, and 2: as many parts as the piece's share may be off; 0 between whole
/// places.
fn slack(piece: &SidedPiece, by: &Shift) -> i128 {
    if is_whole(&piece.from) && is_whole(&piece.to) {
        return 0;
    }
    let (left, right) = (piece.support.left(), piece.support.right());
    let run = i128::from(right.x()).saturating_sub(i128::from(left.x()));
    let rise = i128::from(right.y()).saturating_sub(i128::from(left.y()));
    let x = i128::from(left.x()).saturating_add(i128::from(by.x));
    let y = i128::from(left.y()).saturating_add(i128::from(by.y));
    let cross = size(x.saturating_mul(rise).saturating_sub(y.saturating_mul(run)));
    let high = size(rise);
    match cross.checked_div(if run >= high { run } else { high }) {
        Some(far) => far.saturating_add(2),
        None => 2,
    }
}

/// How far some pieces may be off in all.
fn slack_of(pieces: &[SidedPiece], by: &Shift) -> i128 {
    let mut all: i128 = 0;
    for piece in pieces {
        all = all.saturating_add(slack(piece, by));
    }
    all
}

/// The greatest distance of a window from the origin of its job.
const FAR_MAX: i64 = 2199023255552;

/// How far a window lies from the origin, unless it is farther than coordinates go.
fn shift(core: &Core, x: i64, y: i64) -> Option<Shift>
    ensures across { IfSome result (λ by. by.x ≡ core.now.low_x -ℤ x) }
    ensures along { IfSome result (λ by. by.y ≡ core.now.low_y -ℤ y) }
{
    let across = core.low_x.checked_sub(x)?;
    let along = core.low_y.checked_sub(y)?;
    if across < -FAR_MAX || across > FAR_MAX || along < -FAR_MAX || along > FAR_MAX {
        return None;
    }
    Some(Shift {
        x: across,
        y: along,
    })
}

/// What some pieces enclose, seen from a job's origin.
fn found_of(pieces: &[SidedPiece], by: &Shift) -> Result<Found, WindowsFault>
    requires { All IsOnItsSupport (map sided_of pieces.now) }
    ensures twice { IfOk result (λ found. found.twice ≡ terms.swept_area (map (sided_from by.now) pieces.now)) }
    ensures near { IfOk result (λ found. IsNearArea (map (sided_from by.now) pieces.now) found.twice) }
    ensures pieces { IfOk result (λ found. found.pieces ≡ length pieces.now) }
{
    let Some(twice) = enclosed_area(pieces, by) else {
        return Err(WindowsFault::LargeArea);
    };
    let bound = slack_of(pieces, by);
    Ok(Found {
        twice,
        bound,
        pieces: pieces.len(),
        windows: 1,
    })
}

/// What a window has of an expression, seen from a job's origin (x, y).
pub fn found_in_one(
    alloc: Global,
    window: &Window,
    steps: &StepList,
    x: i64,
    y: i64,
) -> Result<Found, WindowsFault>
    ensures { IfOk result (λ found. IsFoundIn window.now.core window.now.layers.items steps.now x y found) }
{
    let Some(by) = shift(&window.core, x, y) else {
        return Err(WindowsFault::LargeArea);
    };
    let pieces = pieces_in(alloc, window, steps)?;
    found_of(&pieces, &by)
}

/// The sum of two findings.
fn sum(a: &Found, b: &Found) -> Result<Found, WindowsFault>
    ensures { IfOk result (λ all. all.twice ≡ a.now.twice +ℤ b.now.twice) }
{
    let Some(twice) = a.twice.checked_add(b.twice) else {
        return Err(WindowsFault::LargeArea);
    };
    Ok(Found {
        twice,
        bound: a.bound.saturating_add(b.bound),
        pieces: a.pieces.saturating_add(b.pieces),
        windows: a.windows.saturating_add(b.windows),
    })
}

/// What windows have of an expression, seen from a job's origin (x, y).
pub fn found_in(
    alloc: Global,
    windows: &[Window],
    steps: &StepList,
    x: i64,
    y: i64,
) -> Result<Found, WindowsFault>
    ensures { IfOk result (λ all. AreFoundIn windows.now steps.now x y all) }
{
    let mut all = Found {
        twice: 0,
        bound: 0,
        pieces: 0,
        windows: 0,
    };
    for window in windows {
        let one = found_in_one(alloc, window, steps, x, y)?;
        all = sum(&all, &one)?;
    }
    Ok(all)
}
