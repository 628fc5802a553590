//! Why not all rows are written.

/// Why not all rows are written.
#[derive(Clone, Copy, Debug)]
pub enum RowFault {
    /// There is no memory for a row; all before it are written.
    OutOfMemory,
    /// The output takes no more.
    Write,
}
