//! Built tiles in memory that versions share.
ghost use Rattle.std.specs.Prelude.{◌≡◌, IfOk};
ghost use Rattle.overlay_terms.specs.Histories.{IsTileAt, pieces_max};
ghost use Rattle.crossing_sweep.specs.StripInput.{part};
ghost use Rattle.strip_inputs.specs.Strips.{IsColumnOf};
ghost use Rattle.tile_build.specs.Tile.{tile_of};

use crate::built::Built;
use crate::tile::Tile;
use crossing_sweep::PassInput;
use plane_base::Column;
use std::alloc::{AllocError, Global};
use std::sync::Arc;
use strip_inputs::StripInput;

/// A tile that can be shared, with its own input, which is its column's part of a strip's. Who keeps it raises a count,
/// and copies nothing.
#[derive(Debug, Drop)]
pub struct SharedBuilt {
    strip: StripInput,
    column: Column,
    tile: Arc<Tile>,
}

impl std::marker::Model for SharedBuilt {
    ghost use Rattle.overlay_terms.specs.Tiles.{Input};
    ghost use Rattle.overlay_terms.specs.Histories as terms;
    ghost use Rattle.overlay_terms.specs.Histories.{IsTileAt, pieces_max};
    ghost use Rattle.overlay_terms.specs.InputCode.{built_code};

    ghost Value = { Input × terms.Tile };

    ghost coded = { built_code };

    ghost use Rattle.std.specs.Prelude.{◌≤◌};
    ghost use Rattle.crossing_sweep.specs.StripInput.{part};
    ghost use Rattle.strip_inputs.specs.Strips.{IsColumnOf};
    ghost use Rattle.tile_build.specs.Tile.{tile_of};

    ghost view = { λ b. (part b.strip b.column, tile_of b.tile.value) };

    ghost invariant = { λ b. IsTileAt pieces_max (part b.strip b.column) (tile_of b.tile.value)
        × IsColumnOf b.strip b.column };
}

impl SharedBuilt {
    /// A tile that is that of a column's part of a strip's input.
    pub(crate) fn of(
        strip: &StripInput,
        column: Column,
        tile: Arc<Tile>,
    ) -> Result<SharedBuilt, AllocError>
        requires column { IsColumnOf strip.now column }
        requires right { IsTileAt pieces_max (part strip.now column) (tile_of tile.value) }
        ensures input { IfOk result (λ built. built.0 ≡ part strip.now column) }
        ensures tile { IfOk result (λ built. built.1 ≡ tile_of tile.value) }
    {
        let strip = strip.share()?;
        Ok(SharedBuilt {
            strip,
            column,
            tile,
        })
    }

    /// A copy of a built tile and its input.
    pub fn copied(alloc: Global, built: &Built) -> Result<SharedBuilt, AllocError>
        ensures { IfOk result (λ copy. copy ≡ built.now) }
    {
        let input = built.input();
        let strip = StripInput::of_column(alloc, input)?;
        let copy = built.tile().try_copy(alloc)?;
        let tile = Arc::new(alloc, copy)?;
        Ok(SharedBuilt {
            strip,
            column: input.column(),
            tile,
        })
    }

    /// The column of the tile.
    pub fn column(&self) -> Column
        ensures value { result ≡ self.now.0.column }
        ensures right { IsTileAt pieces_max self.now.0 self.now.1 }
    {
        self.column
    }

    /// The strip that it was built with, of which its input is its column's part.
    pub fn pass(&self) -> PassInput<'_>
        ensures { part result self.now.0.column ≡ self.now.0 }
    {
        self.strip.pass()
    }

    pub fn tile(&self) -> &Tile
        ensures value { tile_of result.now ≡ self.now.1 }
        ensures right { IsTileAt pieces_max self.now.0 self.now.1 }
    {
        &self.tile
    }

    /// The tile for one more, who has it with all others.
    pub fn share(&self) -> Result<Arc<Tile>, AllocError>
        ensures value { IfOk result (λ tile. tile_of tile.value ≡ self.now.1) }
        ensures right { IsTileAt pieces_max self.now.0 self.now.1 }
    {
        self.tile.clone()
    }
}
