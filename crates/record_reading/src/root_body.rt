//! The bodies of root slots are read.
ghost use Rattle.std.specs.Prelude.{◌≡◌, ◌≤◌, length};
ghost use Rattle.store_terms.specs.Roots.{body_in, body_read};

use byteorder::{BigEndian, ByteOrder};
use store_terms::layout::{MAGIC, OLD_FORMAT};
use store_terms::root::{Body, RecordExtent, Root};

/// What the bytes of a body that are read say, whether it is ours or not.
pub fn read_body(bytes: &[u8]) -> Body
    requires { body_read ≤ length bytes.now }
    ensures { result ≡ body_in bytes.now }
{
    let format = BigEndian::read_u32(&bytes[8..]);
    Body {
        is_ours: &bytes[..8] == MAGIC,
        format,
        root: Root {
            is_old: format == OLD_FORMAT,
            sequence: BigEndian::read_u64(&bytes[12..]),
            version: BigEndian::read_u64(&bytes[20..]),
            catalog: RecordExtent {
                block: BigEndian::read_u64(&bytes[28..]),
                size: BigEndian::read_u32(&bytes[36..]),
            },
        },
    }
}
