//! The nodes on a segment.
ghost use Rattle.std.specs.Prelude.{◌≡◌, ◌+◌, ◌++◌, [], ◌∷◌, List, filter, map, IfOk, OnOk};
ghost use Rattle.overlay_terms.specs.Plane.{whole_cmp};
ghost use Rattle.exact_point.specs.declared.point_name.PointName.{PointName};
ghost use Rattle.overlay_terms.specs.TileLaws.{IsInput};
ghost use Rattle.arrange.specs.Arrangement.{AreNodesOn};
ghost use Rattle.arrange.specs.NamedPlaces.{AreFound, AreAlong, own_names, names_with, spot};
ghost use Rattle.overlay_terms.specs.Tiles.{is_node};

use crate::closed_column::is_within;
use crate::marked_seg::MarkedSeg;
use crate::named_place::{NamedPlace, Places};
use crate::node_test::is_node;
use crate::tile_input::TileInput;
use exact_point::{PointName, on};
use plane_base::{Column, Seg};
use std::alloc::{AllocError, Global};
use std::cmp::Ordering;

/// The nodes of the input on a segment, whether it is one of the input or not, from the column's left
/// border to its right border, from left to right. The time is that of a few comparisons for each two
/// segments of the input and place on the segment.
pub fn nodes_on(alloc: Global, seg: &Seg, input: &TileInput) -> Result<Vec<PointName>, AllocError>
    ensures { IfOk result (λ names. AreNodesOn input.now seg.now names.items) }
{
    let places = places_along(alloc, seg, input)?;
    let names = names_of_nodes(alloc, input.marked(), &places)?;
    Ok(names)
}

/// The names of those places that are nodes.
fn names_of_nodes(
    alloc: Global,
    marked: &[MarkedSeg],
    places: &[NamedPlace],
) -> Result<Vec<PointName>, AllocError>
    ensures { IfOk result (λ names. names.items
        ≡ map (λ z. z.name) (filter (λ z. is_node (map (λ m. m.seg) marked.now) (spot z)) places.now)) }
{
    places
        .iter()
        .filter(|z| is_node(marked, &z.at))
        .map(|z| z.name)
        .collect(alloc)
}

/// The places on a segment within the closed column that may be nodes, from left to right, each
/// once. On a segment of the input each of them is a node.
pub(crate) fn places_along(
    alloc: Global,
    seg: &Seg,
    input: &TileInput,
) -> Result<Places, AllocError>
    ensures along { IfOk result (λ list. AreAlong input.now seg.now list.items) }
    ensures valid { IfOk result (λ list. IsInput input.now) }
{
    let mut found = Places::new(alloc);
    offer_own(&mut found, seg, input.column())?;
    for m in input.marked() {
        offer_with(&mut found, seg, &m.seg, input.column())?;
    }
    found.sort_unstable();
    found.dedup();
    Ok(found)
}

/// Offers the ends of a segment and where the column's borders cut it.
fn offer_own(found: &mut Places, seg: &Seg, column: Column) -> Result<(), AllocError>
    ensures found { OnOk result (found.old.items ≡ []
        → AreFound column seg.now (own_names seg.now column) found.new.items) }
    ensures ahead { whole_cmp seg.now.left seg.now.right ≡ Ordering.Less }
{
    offer(found, PointName::Vertex(seg.left()), seg, column)?;
    offer(found, PointName::Vertex(seg.right()), seg, column)?;
    offer(found, PointName::Border(*seg, column.number()), seg, column)?;
    offer(
        found,
        PointName::Border(*seg, column.number() + 1),
        seg,
        column,
    )?;
    Ok(())
}

/// Offers the ends of another segment and where it crosses the segment.
fn offer_with(found: &mut Places, seg: &Seg, other: &Seg, column: Column) -> Result<(), AllocError>
    ensures { OnOk result ((names : List PointName) → AreFound column seg.now names found.old.items
        → AreFound column seg.now (names ++ names_with seg.now other.now) found.new.items) }
{
    offer(found, PointName::Vertex(other.left()), seg, column)?;
    offer(found, PointName::Vertex(other.right()), seg, column)?;
    offer(found, PointName::Cross(*seg, *other), seg, column)?;
    Ok(())
}

/// Adds the place of a name, if it lies on the segment within the closed column.
fn offer(found: &mut Places, name: PointName, seg: &Seg, column: Column) -> Result<(), AllocError>
    ensures { OnOk result ((names : List PointName) → AreFound column seg.now names found.old.items
        → AreFound column seg.now (names ++ name ∷ []) found.new.items) }
{
    if let Some(at) = name.point() {
        let is_on = on(seg, &at);
        let is_within = is_within(column, &at);
        // Eager, so that a place makes one case: both tests are a few products.
        if is_on & is_within {
            found.push(NamedPlace { name, at })?;
        }
    }
    Ok(())
}
