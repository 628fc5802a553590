//! The bodies of root slots are written.
ghost use Rattle.std.specs.Prelude.{◌≡◌, take};
ghost use Rattle.store_terms.specs.Roots.{body_in, body_read, body_text, ours};

use byteorder::{BigEndian, ByteOrder};
use store_terms::layout::{BODY_SIZE, MAGIC};
use store_terms::root::{Root, format_of};

/// The body of a root of ours.
pub fn write_body(root: Root) -> [u8; BODY_SIZE]
    ensures spelled { result ≡ body_text root }
    ensures reads_back { body_in (take body_read (body_text root)) ≡ ours root }
{
    let mut body = [0; BODY_SIZE];
    body[..8].copy_from_slice(MAGIC);
    BigEndian::write_u32(&mut body[8..], format_of(root));
    BigEndian::write_u64(&mut body[12..], root.sequence);
    BigEndian::write_u64(&mut body[20..], root.version);
    BigEndian::write_u64(&mut body[28..], root.catalog.block);
    BigEndian::write_u32(&mut body[36..], root.catalog.size);
    body
}
