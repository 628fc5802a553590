//! Pieces with their sides.
use arrange::Elementary;

/// A piece with a bit for each base layer that holds just under it, and just over it.
#[derive(Clone, Copy, Debug, PartialEq, Eq)]
pub struct Labelled {
    pub piece: Elementary,
    pub under: u32,
    pub over: u32,
}
