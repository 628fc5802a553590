//! The edges of a tile as text, each place put in lowest terms.
ghost use Rattle.std.specs.Prelude.{◌≡◌, ◌++◌, ◌∷◌, ◌≤◌, [], Some, codes, decimal, length, map, IfOk, IfErr};
ghost use Rattle.overlay_terms.specs.Histories.{tile_at};
ghost use Rattle.exact_point.specs.NamedPiece.{ends_of};
ghost use Rattle.exact_point.specs.PlaceOf.{cut_place, place_of};
ghost use Rattle.exact_point.specs.PointName.{HasPlace, IsCutBy};
ghost use Rattle.tile_build.specs.Tile.{tile_of};
ghost use Rattle.version_core.specs.Edges.{HasEndBefore, IsLineOf, IsTextOf, tile_absence};

use crate::end_texts::{EndText, EndTexts, mark_of};
use crate::line_text::LineText;
use exact_point::{PointName, reduced, reduced_cut};
use itoa::Buffer;
use layer_expr::name::Name;
use plane_base::{Column, Seg};
use std::alloc::{AllocError, Global};
use tile_build::{Piece, Tile};
use versions::{Version, VersionFault};

/// How many bytes there is room for at first for the line with the count.
const HEAD_SIZE: usize = 32;

/// How many for each other line: that of two places with small fractions has about as many.
const LINE_SIZE: usize = 64;

/// The finished tile of a layer in a column.
pub(crate) fn finished_tile<'a>(
    version: &'a Version,
    name: &Name,
    column: Column,
) -> Result<&'a Tile, VersionFault>
    ensures ok { IfOk result (λ tile. tile_at version.now.tiles name.now column ≡ Some (tile_of tile.now)) }
    ensures err { IfErr result (λ fault. tile_absence (tile_at version.now.tiles name.now column) ≡ Some fault) }
{
    match version.tile(name, column.number()) {
        Some(tile) => Ok(tile),
        None => Err(VersionFault::Pending),
    }
}

/// The pieces as text: how many there are, then a line for each.
pub(crate) fn written(alloc: Global, pieces: &[Piece]) -> Result<Vec<u8>, AllocError>
    ensures { IfOk result (λ text. IsTextOf (map ends_of pieces.now) text.items) }
{
    let mut text = head_line(alloc, pieces.len())?;
    let mut texts = EndTexts::new(alloc, pieces.len());
    let mut line = LineText::new();
    for piece in pieces {
        put_line(&mut line, &mut texts, piece);
        text.extend_from_slice(line.as_bytes())?;
    }
    Ok(text)
}

/// The line that says how many pieces there are, with room for most of the others. Where there is no memory for all of
/// it, it is got as the lines need it.
fn head_line(alloc: Global, count: usize) -> Result<Vec<u8>, AllocError>
    ensures { IfOk result (λ text. text.items ≡ codes "edges " ++ (decimal count ++ (10 ∷ []))) }
{
    let mut digits = Buffer::new();
    let mut text = Vec::new(alloc);
    let _ = text.reserve(HEAD_SIZE.saturating_add(count.saturating_mul(LINE_SIZE)));
    text.extend_from_slice(b"edges ")?;
    text.extend_from_slice(digits.format(count).as_bytes())?;
    text.push(b'\n')?;
    Ok(text)
}

/// Makes the line of a piece, from its end to its start.
fn put_line(line: &mut LineText, texts: &mut EndTexts, piece: &Piece)
    ensures { IsLineOf (ends_of piece.now) line.new }
{
    let (from, to) = piece.names();
    line.clear();
    line.put_byte(b'\n');
    put_end(line, texts, to);
    line.put_byte(b' ');
    put_left(line, texts, from);
}

/// Puts down the place of a left end. A crossing is mostly that of the piece before.
fn put_left(line: &mut LineText, texts: &mut EndTexts, name: &PointName)
    requires named { HasPlace name.now }
    requires room { length line.old ≤ 128 }
    ensures { HasEndBefore line.old line.new (place_of name.now) }
{
    let PointName::Cross(_, _) = name else {
        put_end(line, texts, name);
        return;
    };
    if let Some(kept) = texts.find_left(name) {
        line.put_text(&kept.text);
        return;
    }
    let mark = mark_of(name);
    put_crossing(line, texts, name, mark);
    texts.take_left(mark);
}

/// Puts down the place of a name. The text of a whole point is not kept: it is made as fast. That of a place
/// on a border is not either: mostly one piece of the column ends there.
fn put_end(line: &mut LineText, texts: &mut EndTexts, name: &PointName)
    requires named { HasPlace name.now }
    requires room { length line.old ≤ 128 }
    ensures { HasEndBefore line.old line.new (place_of name.now) }
{
    if let PointName::Vertex(point) = name {
        line.put_whole(*point);
        return;
    }
    if let PointName::Border(seg, number) = name {
        put_cut(line, seg, *number);
        return;
    }
    put_crossing(line, texts, name, mark_of(name));
}

/// Puts down the place of a crossing, of which the mark is known.
fn put_crossing(line: &mut LineText, texts: &mut EndTexts, name: &PointName, mark: u32)
    requires named { HasPlace name.now }
    requires room { length line.old ≤ 128 }
    ensures { HasEndBefore line.old line.new (place_of name.now) }
{
    if let Some(kept) = texts.find(name, mark) {
        line.put_text(&kept.text);
        return;
    }
    put_made(line, texts, name, mark);
}

/// Puts down, in lowest terms, the place where a border cuts a segment. Its text is not kept.
fn put_cut(line: &mut LineText, seg: &Seg, number: u8)
    requires cut { IsCutBy seg.now number }
    requires room { length line.old ≤ 128 }
    ensures { HasEndBefore line.old line.new (cut_place seg.now number) }
{
    let Some(column) = Column::new(u64::from(number)) else {
        unreachable!()
    };
    line.put_near(reduced_cut(seg, column.border()));
}

/// Puts down, in lowest terms, the place of a name whose text is not kept, and keeps it.
fn put_made(line: &mut LineText, texts: &mut EndTexts, name: &PointName, mark: u32)
    requires named { HasPlace name.now }
    requires room { length line.old ≤ 128 }
    ensures { HasEndBefore line.old line.new (place_of name.now) }
{
    let low = reduced(&name.known_point());
    let text = line.put_place(&low);
    texts.keep(EndText::new(name, low, text), mark);
}
