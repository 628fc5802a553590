//! The writes of a commit.

/// Bytes, and the offset in the file where they go.
#[derive(Debug, Drop)]
pub struct Write {
    pub at: usize,
    pub bytes: Vec<u8>,
}
