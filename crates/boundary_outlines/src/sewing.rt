//! Pieces of windows. What lies on a window's border is sewn to what lies there in other windows.
use crate::edge::{BoundaryPiece, Line};
use crate::place::{Place, exact};
use std::alloc::{AllocError, Global};

/// The border of a window, seen from the origin.
#[derive(Clone, Copy, Debug)]
pub struct Border {
    pub low_x: i64,
    pub high_x: i64,
    pub low_y: i64,
    pub high_y: i64,
}

/// A place on an upright line, or on a level one: which line, how far along it, and by how much the inside on its left
/// changes there.
#[derive(Clone, Copy, Debug)]
struct CutEnd {
    line: i64,
    at: i64,
    rest: i128,
    change: i64,
    place: Place,
}

/// The boundary pieces of windows.
#[derive(Debug, Drop)]
pub struct Pieces {
    inner: Vec<BoundaryPiece>,
    upright: Vec<CutEnd>,
    level: Vec<CutEnd>,
}

/// Whether a place lies on the left or the right side of a border.
fn is_on_upright(p: &Place, border: &Border) -> bool {
    p.left == 0 && (p.x == border.low_x || p.x == border.high_x)
}

/// Whether it lies on the low or the high side.
fn is_on_level(p: &Place, border: &Border) -> bool {
    p.up == 0 && (p.y == border.low_y || p.y == border.high_y)
}

/// The piece between two neighbouring places of a line.
fn between(first: &CutEnd, last: &CutEnd, is_level: bool, over: bool) -> BoundaryPiece {
    let line = if is_level {
        Line {
            x: 0,
            y: first.line,
            run: 1,
            rise: 0,
        }
    } else {
        Line {
            x: first.line,
            y: 0,
            run: 0,
            rise: 1,
        }
    };
    BoundaryPiece {
        from: first.place,
        to: last.place,
        line,
        over,
    }
}

/// Whether two places of one line are apart.
fn are_apart(a: &CutEnd, b: &CutEnd) -> bool {
    a.line == b.line && (a.at != b.at || a.rest != b.rest)
}

/// Adds what is left on lines: between neighbouring places the boundary, if the inside is on one side alone.
fn sew(
    ends: &mut Vec<CutEnd>,
    is_level: bool,
    into: &mut Vec<BoundaryPiece>,
) -> Result<(), AllocError> {
    ends.sort_unstable_by_key(|one| (one.line, one.at, one.rest));
    let mut sum: i64 = 0;
    let mut before: Option<CutEnd> = None;
    for one in ends.iter() {
        if let Some(last) = before {
            if sum != 0 && are_apart(&last, one) {
                into.push(between(&last, one, is_level, sum > 0))?;
            }
        }
        sum = sum.saturating_add(one.change);
        before = Some(*one);
    }
    Ok(())
}

impl Pieces {
    /// No pieces.
    pub fn none(alloc: Global) -> Pieces {
        Pieces {
            inner: Vec::new(alloc),
            upright: Vec::new(alloc),
            level: Vec::new(alloc),
        }
    }

    /// Notes an end that lies on a border, with the change of what lies along that.
    fn note(
        &mut self,
        place: &Place,
        border: &Border,
        upright: i64,
        level: i64,
    ) -> Result<(), AllocError> {
        if is_on_upright(place, border) {
            self.upright.push(CutEnd {
                line: place.x,
                at: place.y,
                rest: exact(place.up, place.w),
                change: upright,
                place: *place,
            })?;
        }
        if is_on_level(place, border) {
            self.level.push(CutEnd {
                line: place.y,
                at: place.x,
                rest: exact(place.left, place.w),
                change: level,
                place: *place,
            })?;
        }
        Ok(())
    }

    /// Adds a piece of a window that has this border.
    pub fn add(&mut self, piece: &BoundaryPiece, border: &Border) -> Result<(), AllocError> {
        let side = if piece.over { 1 } else { -1 };
        let is_upright = piece.line.run == 0 && is_on_upright(&piece.from, border);
        let is_level = piece.line.rise == 0 && is_on_level(&piece.from, border);
        let upright = if is_upright { side } else { 0 };
        let level = if is_level { side } else { 0 };
        if !is_upright && !is_level {
            self.inner.push(*piece)?;
        }
        self.note(&piece.from, border, upright, level)?;
        self.note(
            &piece.to,
            border,
            0_i64.saturating_sub(upright),
            0_i64.saturating_sub(level),
        )
    }

    /// All pieces, those on borders sewn.
    pub(crate) fn sewn(self) -> Result<Vec<BoundaryPiece>, AllocError> {
        let Pieces {
            inner,
            upright,
            level,
        } = self;
        let mut all = inner;
        let mut ends = upright;
        sew(&mut ends, false, &mut all)?;
        let mut others = level;
        sew(&mut others, true, &mut all)?;
        Ok(all)
    }
}
