//! Writing a text.
ghost use Rattle.std.specs.Prelude.{◌≡◌, ◌++◌, map, length, IfOk, OnOk, string_bytes, codes};
ghost use Rattle.wkt_form.specs.Spelling.{wkt_text, comma_listed, wkt_point, ring_text, listed_front};

use plane_base::{BaseLayer, Pt, Ring};
use std::alloc::{AllocError, Global};

/// The one text of a base layer.
pub fn write_wkt(alloc: Global, layer: &BaseLayer) -> Result<Vec<u8>, AllocError>
    ensures { IfOk result (λ text. text.items ≡ wkt_text layer.now) }
{
    let mut text = String::new(alloc);
    push_layer(&mut text, layer.rings())?;
    Ok(text.into_bytes())
}

/// Adds the text of a base layer at the end.
fn push_layer(text: &mut String, rings: &[Ring]) -> Result<(), AllocError>
    ensures { OnOk result (string_bytes text.new ≡ string_bytes text.old ++ wkt_text rings.now) }
{
    if rings.is_empty() {
        return text.push_str("MULTIPOLYGON EMPTY");
    }
    text.push_str("MULTIPOLYGON (")?;
    for (i, ring) in rings.iter().enumerate() {
        push_separator(text, i)?;
        push_ring(text, ring.points())?;
    }
    text.push_str(")")
}

/// Adds a ring as a polygon of its own at the end.
fn push_ring(text: &mut String, points: &[Pt]) -> Result<(), AllocError>
    ensures { OnOk result (string_bytes text.new ≡ string_bytes text.old ++ ring_text points.now) }
{
    text.push_str("((")?;
    for (i, point) in points.iter().enumerate() {
        push_separator(text, i)?;
        push_point(text, *point)?;
    }
    text.push_str("))")
}

fn push_point(text: &mut String, point: Pt) -> Result<(), AllocError>
    ensures { OnOk result (string_bytes text.new ≡ string_bytes text.old ++ wkt_point point) }
{
    let x = point.x();
    let y = point.y();
    write!(text, "{x} {y}")
}

/// Adds what comes before the member of this number, counted from 0.
fn push_separator(text: &mut String, number: usize) -> Result<(), AllocError>
    ensures { OnOk result (string_bytes text.new ≡ string_bytes text.old ++ listed_front number) }
{
    if number == 0 {
        Ok(())
    } else {
        text.push_str(", ")
    }
}
