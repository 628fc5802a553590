//! Labels by a sweep from left to right: each piece learns what is under it from the piece below it.
ghost use Rattle.std.specs.Prelude.{◌≡◌, ◌≤◌, length, IfOk, OnOk};
ghost use Rattle.std.specs.Ordering.{int_eq};
ghost use Rattle.overlay_terms.specs.Plane.{whole_cmp};
ghost use Rattle.overlay_terms.specs.Tiles.{is_vertical as stands_upright};
ghost use Rattle.exact_point.specs.PointName.{HasPlace};
ghost use Rattle.arrange.specs.Arrangement.{ArePieces};
ghost use Rattle.sweep_line.specs.Label.{AreLabels};
ghost use Rattle.sweep_line.specs.Sweep.{Begins, Passes};

use crate::labelled::Labelled;
use crate::status::{Status, StatusEntry};
use arrange::{Elementary, TileInput};
use plane_base::Seg;
use std::alloc::{AllocError, Global};
use std::cmp::Ordering;

/// The pieces of an input with their sides, in the order of the pieces.
pub fn label(
    alloc: Global,
    input: &TileInput,
    pieces: Vec<Elementary>,
) -> Result<Vec<Labelled>, AllocError>
    requires { ArePieces input.now pieces.items }
    ensures { IfOk result (λ labels. AreLabels input.now pieces.items labels.items) }
{
    // An input has closed rings: the sweep rests on that.
    let _ = input.column();
    let mut labels = Vec::new(alloc);
    let mut status = Status::new(alloc);
    for piece in &pieces {
        let label = pass(&mut status, piece)?;
        labels.push(label)?;
    }
    Ok(labels)
}

/// Passes the left end of a piece: labels it by the piece below it, and puts it into the status.
fn pass(status: &mut Status, piece: &Elementary) -> Result<Labelled, AllocError>
    requires from_named { HasPlace piece.now.from }
    requires to_named { HasPlace piece.now.to }
    ensures { IfOk result (λ label. Passes piece.now label status.old status.new) }
{
    let at = piece.from.known_point();
    status.leave(&at);
    let place = status.place_of(&at, &piece.support);
    let under = status.under(place);
    let label = Labelled {
        piece: *piece,
        under,
        over: under ^ piece.mask,
    };
    begin(status, place, &label)?;
    Ok(label)
}

/// Puts a piece into the status at its place, unless it is vertical: that one has learned what lies
/// just right of its lower end, and passes over no x.
fn begin(status: &mut Status, place: usize, label: &Labelled) -> Result<(), AllocError>
    requires named { HasPlace label.now.piece.to }
    requires among { place ≤ length status.old }
    ensures { OnOk result (Begins place label.now status.old status.new) }
{
    let support = label.piece.support;
    if is_vertical(&support) {
        return Ok(());
    }
    let to = label.piece.to.known_point();
    let entry = StatusEntry {
        to,
        support,
        over: label.over,
    };
    status.enter(place, entry)?;
    Ok(())
}

/// Whether both ends of a segment have one x.
fn is_vertical(seg: &Seg) -> bool
    ensures value { result ≡ stands_upright seg.now }
    ensures ahead { whole_cmp seg.now.left seg.now.right ≡ Ordering.Less }
{
    seg.left().x() == seg.right().x()
}
