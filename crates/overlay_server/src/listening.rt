//! Ports whose sessions' replies are kept as lists of bytes.
ghost use Rattle.std.specs.Prelude.{◌≡◌, length, IfSome};
ghost use Rattle.session_threads.specs.Fuse.{until_end};
ghost use Rattle.overlay_server.specs.Given.{bytes_of, given_by, given_to};

use script_form::SCRIPT_MAX;
use session_threads::fuse::Fuse;
use session_threads::port::Port;
use std::alloc::Global;
use std::io::Read;

/// A port into a list of bytes for each reader, until its end, whose scripts have the limit of scripts. None comes where
/// memory is refused.
pub fn listened<R: Read + Drop>(
    alloc: Global,
    readers: Vec<R>,
) -> Option<Vec<Port<Fuse<R>, Vec<u8>>>>
    ensures given { IfSome result (λ ports. given_to (until_end R.remaining) bytes_of ports.items ≡ given_by R.remaining readers.items) }
    ensures count { IfSome result (λ ports. length ports.items ≡ length readers.items) }
{
    let mut ports = Vec::with_capacity(alloc, readers.len()).ok()?;
    for reader in readers {
        let writer = Vec::new(alloc);
        ports.push_reserved(Port {
            reader: Fuse::new(reader),
            most: SCRIPT_MAX,
            writer,
        });
    }
    Some(ports)
}
