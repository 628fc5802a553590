//! Where a session's lines come from and its replies go, and what is left of it.
ghost use Rattle.std.specs.Prelude.{◌<◌, ◌^◌};

use script_form::SessionEnd;

/// Where the lines of a session come from, how many bytes of them it may have, and where its replies go.
#[derive(Drop)]
pub struct Port<R, W> {
    pub reader: R,
    pub most: usize,
    pub writer: W,
    pub ghost countable: { most < 2 ^ 63 },
}

/// The writer that a session's replies went to, and how it ended.
#[derive(Debug, Drop)]
pub struct Finished<W> {
    pub writer: W,
    pub end: SessionEnd,
}
