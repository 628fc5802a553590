//! When a held tile is that of its input: the function does nothing, and its contract is the law.

ghost use Rattle.tile_laws.specs.SameTile.{HeldTile};

/// Beside a tile of the input, a held tile is that of the input exactly where the two are alike.
pub fn held_tile_law()
    ensures { HeldTile }
{}
