//! How a session ends.

/// The end of a session: its script ended, or a fault with this number ended it.
#[derive(Clone, Copy, Debug, PartialEq, Eq)]
pub enum SessionEnd {
    End,
    Failed(u8),
}
