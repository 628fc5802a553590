//! Built tiles with what they were built from, and how many pieces a tile may hold.
ghost use Rattle.std.specs.Prelude.{◌≡◌, IfOk, IfErr};
ghost use Rattle.overlay_terms.specs.Histories.{IsTileAt, pieces_max};
ghost use Rattle.tile_build.specs.Tile.{tile_of};

use crate::building::build;
use crate::tile::Tile;
use arrange::TileInput;
use std::alloc::{AllocError, Global};

/// The most pieces that a tile holds.
pub const PIECES_MAX: usize = 65536;

/// A tile with its own input.
#[derive(Debug, Drop)]
pub struct Built {
    input: TileInput,
    tile: Tile,
}

impl std::marker::Model for Built {
    ghost use Rattle.overlay_terms.specs.Tiles.{Input};
    ghost use Rattle.overlay_terms.specs.Histories as terms;
    ghost use Rattle.overlay_terms.specs.Histories.{IsTileAt, pieces_max};
    ghost use Rattle.overlay_terms.specs.InputCode.{built_code};

    ghost Value = { Input × terms.Tile };

    ghost coded = { built_code };

    ghost use Rattle.tile_build.specs.Tile.{tile_of};

    ghost view = { λ b. (b.input, tile_of b.tile) };

    ghost invariant = { λ b. IsTileAt pieces_max b.input (tile_of b.tile) };
}

impl Built {
    /// Builds the tile of an input. Where memory runs out the input comes back.
    pub fn new(alloc: Global, input: TileInput) -> Result<Built, (TileInput, AllocError)>
        ensures ok { IfOk result (λ built. built.0 ≡ input) }
        ensures right { IfOk result (λ built. IsTileAt pieces_max built.0 built.1) }
        ensures err { IfErr result (λ e. e.0 ≡ input) }
    {
        match build(alloc, &input, PIECES_MAX) {
            Ok(tile) => Ok(Built { input, tile }),
            Err(error) => Err((input, error)),
        }
    }

    pub fn input(&self) -> &TileInput
        ensures value { result.now ≡ self.now.0 }
        ensures right { IsTileAt pieces_max self.now.0 self.now.1 }
    {
        &self.input
    }

    pub fn tile(&self) -> &Tile
        ensures value { tile_of result.now ≡ self.now.1 }
        ensures right { IsTileAt pieces_max self.now.0 self.now.1 }
    {
        &self.tile
    }

    pub fn into_parts(self) -> (TileInput, Tile)
        ensures input { result.0 ≡ self.0 }
        ensures tile { tile_of result.1 ≡ self.1 }
        ensures right { IsTileAt pieces_max self.0 self.1 }
    {
        (self.input, self.tile)
    }
}
