//! Whether what a commit is to write is equal to what the live root holds.
ghost use Rattle.std.specs.Prelude.{◌≡◌, map};
ghost use Rattle.std.specs.Cmp.Lexicographic.{pointwise};
ghost use Rattle.exact_point.specs.Place.{place};
ghost use Rattle.exact_point.specs.NamedPiece.{ends_of};
ghost use Rattle.layer_book.specs.Layer.{content};
ghost use Rattle.tile_build.specs.Tile.{tile_of};
ghost use Rattle.commit_plan.specs.Same.{same_rings, same_content, same_point_name, same_numbers, same_ends, same_tile};

use exact_point::{HPoint, PointName};
use layer_book::layer::Layer;
use plane_base::Ring;
use tile_build::{Piece, Tile};

/// Whether there are as many rings, and each has the points of the one at its place.
fn same_rings(held: &[Ring], new: &[Ring]) -> bool
    ensures { result ≡ same_rings held.now new.now }
{
    if held.len() != new.len() {
        return false;
    }
    for i in 0..held.len() {
        if held[i].points() != new[i].points() {
            return false;
        }
    }
    true
}

/// Whether two layers hold the same rings, or the same expression.
pub(crate) fn same_layer(held: &Layer, new: &Layer) -> bool
    ensures { result ≡ same_content (content held.now) (content new.now) }
{
    match (held, new) {
        (Layer::Base(held), Layer::Base(new)) => same_rings(held.rings(), new.rings()),
        (Layer::Derived(held), Layer::Derived(new)) => held.is_same(new),
        _ => false,
    }
}

fn same_numbers(held: &HPoint, new: &HPoint) -> bool
    ensures { result ≡ same_numbers (place held.now) (place new.now) }
{
    held.x == new.x && held.y == new.y && held.w == new.w
}

/// Whether two places have the same name.
fn same_name(held: &PointName, new: &PointName) -> bool
    ensures { result ≡ same_point_name held.now new.now }
{
    match held {
        PointName::Vertex(p) => match new {
            PointName::Vertex(q) => p == q,
            _ => false,
        },
        PointName::Cross(a, b) => match new {
            PointName::Cross(c, d) => a == c && b == d,
            _ => false,
        },
        PointName::Border(s, k) => match new {
            PointName::Border(t, l) => s == t && k == l,
            _ => false,
        },
    }
}

/// Whether two pieces have the same ends. Their places are worked out only where their names differ.
fn same_piece(held: &Piece, new: &Piece) -> bool
    ensures { result ≡ same_ends (ends_of held.now) (ends_of new.now) }
{
    let (held_from, held_to) = held.names();
    let (new_from, new_to) = new.names();
    if same_name(held_from, new_from) && same_name(held_to, new_to) {
        return true;
    }
    let (from, to) = held.ends();
    let (left, right) = new.ends();
    same_numbers(&from, &left) && same_numbers(&to, &right)
}

/// Whether there are as many pieces, and each has the ends of the one at its place.
fn same_pieces(held: &[Piece], new: &[Piece]) -> bool
    ensures { result ≡ pointwise same_ends (map ends_of held.now) (map ends_of new.now) }
{
    if held.len() != new.len() {
        return false;
    }
    for i in 0..held.len() {
        if !same_piece(&held[i], &new[i]) {
            return false;
        }
    }
    true
}

/// Whether two tiles have the same pieces, or both too many.
pub(crate) fn same_tile(held: &Tile, new: &Tile) -> bool
    ensures { result ≡ same_tile (tile_of held.now) (tile_of new.now) }
{
    match (held, new) {
        (Tile::Pieces(held), Tile::Pieces(new)) => same_pieces(held, new),
        (Tile::Oversize, Tile::Oversize) => true,
        _ => false,
    }
}
