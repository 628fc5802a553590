//! The pieces that begin in the column.
ghost use Rattle.std.specs.Prelude.{◌≡◌, ◌+◌, ◌++◌, ◌*ℤ◌, [], ◌∷◌, int_lt, List, map, Contains, IfOk, OnOk};
ghost use Rattle.std.specs.List.{list_any};
ghost use Rattle.overlay_terms.specs.Plane.{Segment};
ghost use Rattle.overlay_terms.specs.Column.{border};
ghost use Rattle.overlay_terms.specs.TileLaws.{IsInput};
ghost use Rattle.arrange.specs.Arrangement.{ArePieces, input_segments};
ghost use Rattle.arrange.specs.NamedPlaces.{AreAlong};
ghost use Rattle.overlay_terms.specs.SameInput.{same_segment};
ghost use Rattle.arrange.specs.PlacedPieces.{HoldsPieces, HoldsOneMore, AreNeighbours};

use crate::finding_nodes::places_along;
use crate::marked_seg::MarkedSeg;
use crate::masking::mask_over;
use crate::named_place::NamedPlace;
use crate::piece::Elementary;
use crate::placed_piece::PlacedPiece;
use crate::tile_input::TileInput;
use exact_point::{HPoint, end_side};
use plane_base::{Column, Seg};
use std::alloc::{AllocError, Global};

/// The elementary pieces whose left ends lie in the column, by left end, then by direction, the
/// vertical one last.
pub fn pieces(alloc: Global, input: &TileInput) -> Result<Vec<Elementary>, AllocError>
    ensures { IfOk result (λ list. ArePieces input.now list.items) }
{
    let mut placed = Vec::new(alloc);
    let marked = input.marked();
    for i in 0..marked.len() {
        add_pieces_along(alloc, &mut placed, &marked[..i], &marked[i].seg, input)?;
    }
    placed.sort_unstable();
    placed.dedup();
    let list = pieces_of(alloc, &placed)?;
    Ok(list)
}

/// Whether a segment is among those of some base layers.
fn is_among(marked: &[MarkedSeg], seg: &Seg) -> bool
    ensures { result ≡ list_any (λ m. same_segment m.seg seg.now) marked.now }
{
    marked.iter().any(|m| m.seg == *seg)
}

/// The pieces without their places.
fn pieces_of(alloc: Global, placed: &[PlacedPiece]) -> Result<Vec<Elementary>, AllocError>
    ensures { IfOk result (λ list. list.items ≡ map (λ h. h.piece) placed.now) }
{
    placed.iter().map(|h| h.piece).collect(alloc)
}

/// Adds the pieces of a segment of the input that begin in the column, unless it is among
/// earlier ones.
fn add_pieces_along(
    alloc: Global,
    placed: &mut Vec<PlacedPiece>,
    earlier: &[MarkedSeg],
    seg: &Seg,
    input: &TileInput,
) -> Result<(), AllocError>
    requires among { Contains (input_segments input.now) seg.now }
    ensures { OnOk result (HoldsPieces input.now (map (λ m. m.seg) earlier.now) placed.old.items
        → HoldsPieces input.now (map (λ m. m.seg) earlier.now ++ seg.now ∷ []) placed.new.items) }
{
    if is_among(earlier, seg) {
        return Ok(());
    }
    let places = places_along(alloc, seg, input)?;
    add_along(placed, seg, input, places.as_slice())?;
    Ok(())
}

/// Adds the pieces between the places along a segment that begin in the column.
fn add_along(
    placed: &mut Vec<PlacedPiece>,
    seg: &Seg,
    input: &TileInput,
    places: &[NamedPlace],
) -> Result<(), AllocError>
    requires valid { IsInput input.now }
    requires among { Contains (input_segments input.now) seg.now }
    requires along { AreAlong input.now seg.now places.now }
    ensures { OnOk result ((supports : List Segment) → HoldsPieces input.now supports placed.old.items
        → HoldsPieces input.now (supports ++ seg.now ∷ []) placed.new.items) }
{
    for i in 1..places.len() {
        add_between(placed, seg, input, &places[i - 1], &places[i])?;
    }
    Ok(())
}

/// Adds the piece between two neighbours among the places along a segment, if it begins in the
/// column.
fn add_between(
    placed: &mut Vec<PlacedPiece>,
    seg: &Seg,
    input: &TileInput,
    from: &NamedPlace,
    to: &NamedPlace,
) -> Result<(), AllocError>
    requires neighbours { AreNeighbours input.now seg.now from.now to.now }
    ensures { OnOk result (HoldsOneMore input.now from.now to.now placed.old.items placed.new.items) }
{
    if is_before_next(input.column(), &from.at) {
        let mask = mask_over(input.marked(), &from.at, &to.at);
        placed.push(PlacedPiece {
            at: from.at,
            piece: Elementary {
                support: *seg,
                from: from.name,
                to: to.name,
                mask,
            },
        })?;
    }
    Ok(())
}

/// Whether a point lies left of a column's right border.
fn is_before_next(column: Column, p: &HPoint) -> bool
    ensures { result ≡ int_lt p.now.x (border (column + 1) *ℤ p.now.w) }
{
    end_side(column, p).is_lt()
}
