//! The greatest number of a version, to which several crates keep.

/// The greatest number of a version.
pub const VERSION_MAX: u64 = 1 << 62;
