//! Reading a text.
ghost use Rattle.std.specs.Prelude.{◌≡◌, ◌⊎◌, ◌≢◌, ◌≤◌, List, length, drop, Ok, Err, IfOk, IfErr};
ghost use Rattle.overlay_terms.specs.Plane.{WholePoint};
ghost use Rattle.wkt_form.specs.Grammar.{IsWktOf, IsFirstFault, ReadsAs, IsRefusedBy};
ghost use Rattle.wkt_form.specs.Reading.{Reading, with_tokens, nothing_read};
ghost use Rattle.wkt_form.specs.Seen.{seen_from};

use crate::fault::WktFault;
use crate::plain_point::point_from;
use crate::reader::Reader;
use crate::token::token_from;
use plane_base::{BaseLayer, Ring};
use std::alloc::{AllocError, Global};

/// The base layer that a text spells. Every other text is refused by its first fault from the
/// left, and where it is a text, by the first fault of its rings. It goes over each token twice at most,
/// each byte a few times, and takes memory for the rings and the layer alone.
pub fn read_wkt(alloc: Global, bytes: &[u8]) -> Result<BaseLayer, WktFault>
    ensures ok { IfOk result (λ layer. ReadsAs bytes.now layer) }
    ensures refused { IfErr result (λ fault. (fault ≡ WktFault.OutOfMemory) ⊎ IsRefusedBy bytes.now fault) }
{
    let rings = read_rings(alloc, bytes)?;
    Ok(BaseLayer::new(alloc, rings)?)
}

/// The rings that a text spells.
fn read_rings(alloc: Global, bytes: &[u8]) -> Result<Vec<Ring>, WktFault>
    ensures ok { IfOk result (λ rings. IsWktOf bytes.now rings.items) }
    ensures err { IfErr result (λ fault. (fault ≡ WktFault.OutOfMemory) ⊎ IsFirstFault bytes.now fault) }
{
    let reader = read_tokens(alloc, bytes)?;
    match reader.into_rings() {
        Some(rings) => Ok(rings),
        None => Err(WktFault::Syntax(bytes.len())),
    }
}

/// What the tokens of a text make, whether they are a whole text or not.
fn read_tokens(alloc: Global, bytes: &[u8]) -> Result<Reader, WktFault>
    ensures ok { IfOk result (λ reader. with_tokens nothing_read (seen_from 0 bytes.now) ≡ Ok reader) }
    ensures err { IfErr result (λ fault. (fault ≡ WktFault.OutOfMemory)
        ⊎ (with_tokens nothing_read (seen_from 0 bytes.now) ≡ Err fault)) }
{
    let mut reader = Reader::new(alloc);
    let mut at = 0;
    while let Some((token, after)) = token_from(bytes, at) {
        reader.take(alloc, token)?;
        at = read_points(&mut reader, bytes, after)?;
    }
    Ok(reader)
}

/// Takes the plain points from an offset on, where a point must come, and gives the offset after them.
#[tactic(auto, using(crate::proofs::PlainPoints::point_taken, crate::proofs::PlainPoints::point_on))]
fn read_points(reader: &mut Reader, bytes: &[u8], start: usize) -> Result<usize, AllocError>
    requires { start ≤ length bytes.now }
    ensures same { IfOk result (λ after. with_tokens reader.old (seen_from start (drop start bytes.now))
        ≡ with_tokens reader.new (seen_from after (drop after bytes.now))) }
    ensures on { IfOk result (λ after. (start ≤ after) × (after ≤ length bytes.now)) }
{
    let mut at = start;
    if reader.is_before_point() {
        while let Some(found) = point_from(bytes, at) {
            reader.add_point(found.x, found.y)?;
            at = found.after;
        }
    }
    Ok(at)
}
