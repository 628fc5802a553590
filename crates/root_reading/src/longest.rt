//! How many bytes a record of each form has at most, as docs/FORMAT.md has the forms.

/// A catalog: its count, and at most 65,535 entries of 698 bytes, with a name of 255 bytes and 33 tiles.
pub(crate) const CATALOG_MAX: usize = 45_743_432;

/// A base record: its count, at most 65,535 rings with a count and a last point each, and 2,048 steps of 8 bytes.
pub(crate) const BASE_MAX: usize = 671_736;

/// A definition: at most 64 tokens, each with 35 bytes at most, an operator and its blanks or a name among them.
pub(crate) const DEFINITION_MAX: usize = 2_240;

/// A tile: its form, its column, its count, and at most 65,536 pieces of 82 bytes.
pub(crate) const TILE_MAX: usize = 5_373_958;
