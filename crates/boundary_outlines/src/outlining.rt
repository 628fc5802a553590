//! From pieces to an outline.
ghost use Rattle.std.specs.Prelude.{◌≡◌, length, IfOk};

use crate::corners::{add_corners, begun};
use crate::edge::Net;
use crate::fault::OutlineFault;
use crate::nesting::nest;
use crate::numbering::numbered;
use crate::outline::{Outline, OutlineRing};
use crate::sewing::Pieces;
use crate::splitting::{Split, split_all};
use crate::turning::ranked;
use crate::walks::{NONE, Turned, Walks, all_turned};
use ring_joining::{NumberedPiece, PieceRing, join, outline};
use std::alloc::{AllocError, Global};

/// The ring that another is a hole of.
fn outer_of(walks: &Walks, turned: &Turned) -> Option<usize> {
    if turned.is_outer {
        return None;
    }
    let outer = walks.outer_of(turned.walk);
    if outer == NONE { None } else { Some(outer) }
}

/// Corners of rings, and where they are for each, with the outer rings of holes.
#[derive(Debug, Drop)]
struct Cornered {
    rings: Vec<OutlineRing>,
    corners: Vec<usize>,
}

/// The corners of rings, with the outer rings of holes.
fn with_corners(
    alloc: Global,
    net: &Net,
    joined: &[PieceRing],
    turned: &[Turned],
    walks: &Walks,
) -> Result<Cornered, AllocError> {
    let begun = begun(alloc, net)?;
    let mut rings = Vec::new(alloc);
    let mut corners = Vec::new(alloc);
    for number in 0..joined.len() {
        let from = corners.len();
        add_corners(&mut corners, net, &begun, joined[number].pieces())?;
        let outer = match turned.get(number) {
            Some(own) => outer_of(walks, own),
            None => None,
        };
        rings.push(OutlineRing {
            outer,
            from,
            to: corners.len(),
        })?;
    }
    Ok(Cornered { rings, corners })
}

/// Which edge follows which in rings that come to no place twice, and the walks that these come from.
fn parted(alloc: Global, net: &Net, edges: &[NumberedPiece]) -> Result<(Split, usize), OutlineFault>
    ensures { IfOk result (λ parted. length parted.0.nexts.items ≡ length edges.now) }
{
    let walks = outline(alloc, edges)?;
    let split = split_all(alloc, net, &walks)?;
    if split.nexts.len() != edges.len() {
        return Err(OutlineFault::NotClosed);
    }
    Ok((split, walks.len()))
}

/// What is known of the rings of so many walks.
fn with_nesting(
    alloc: Global,
    net: &Net,
    joined: &[PieceRing],
    walk_of: &[usize],
    count: usize,
) -> Result<Cornered, AllocError> {
    let turned = all_turned(alloc, net, joined, walk_of)?;
    let mut walks = Walks::of(alloc, count, &turned)?;
    if walks.has_lone() {
        nest(alloc, net, walk_of, &mut walks)?;
    }
    with_corners(alloc, net, joined, &turned, &walks)
}

/// The outline of what pieces bound.
pub fn outline_of(alloc: Global, pieces: Pieces) -> Result<Outline, OutlineFault> {
    let all = pieces.sewn()?;
    let net = numbered(alloc, &all)?;
    let edges = ranked(alloc, &net.edges)?;
    let (split, count) = parted(alloc, &net, &edges)?;
    let joined = join(alloc, &edges, &split.nexts)?;
    let known = with_nesting(alloc, &net, &joined, &split.walk_of, count)?;
    let Cornered { rings, corners } = known;
    let Net {
        places,
        edges: _lines,
    } = net;
    Ok(Outline {
        places,
        edges,
        joined,
        rings,
        corners,
    })
}
