//! Images: what one commit writes, and what opening a store gives back.
ghost use Rattle.std.specs.Prelude.{◌≡◌, ◌≤◌, IfOk, map};
ghost use Rattle.overlay_terms.specs.Commands.{version_max};
ghost use Rattle.overlay_terms.specs.StoredTiles.{AreStored};
ghost use Rattle.tile_build.specs.Tile.{finished_of};
ghost use Rattle.layer_tiles.specs.Table.{laid, tiles_in, IsLaid};
ghost use Rattle.commit_plan.specs.Image.{held, table_held};

use layer_book::Layers;
use layer_expr::name::Name;
use layer_tiles::Table;
use std::alloc::{AllocError, Global};
use std::sync::Arc;
use tile_build::Tile;

/// The number of a version, its layers, and their finished tiles as a table, which it shares with who else has it.
#[derive(Debug, Drop)]
pub struct Image {
    number: u64,
    table: Arc<Table>,
    ghost small: { number ≤ version_max },
    ghost stored: { AreStored table.value.layers (tiles_in table.value) },
}

impl Image {
    ghost use Rattle.commit_plan.specs.ImageHeld.{image_held};

    /// The image of a number, at most 2^62, of layers and of finished tiles, each with the name of its layer and its
    /// column: in the order of the layers, then of the columns. The tiles may be wrong, but have their form.
    pub fn new(
        alloc: Global,
        number: u64,
        layers: Layers,
        tiles: Vec<(Name, u8, Tile)>,
    ) -> Result<Image, AllocError>
        requires small { number ≤ version_max }
        requires stored { AreStored layers (map finished_of tiles.items) }
        ensures { IfOk result (λ image. image_held image ≡ held number layers tiles.items) }
    {
        let table = Table::filled(alloc, layers, tiles)?;
        let shared = Arc::new(alloc, table)?;
        Ok(Image::of_table(number, shared))
    }

    /// The same of a table that others share. It takes no memory.
    pub fn of_table(number: u64, table: Arc<Table>) -> Image
        requires { number ≤ version_max }
        ensures held { image_held result ≡ table_held number table.value }
        // It has the very table, with the names of its pieces' ends.
        ensures table { result.table ≡ table }
    {
        // A table is laid out as its layers are by its type: that its tiles may be stored rests on that.
        let _ = table.layers();
        Image { number, table }
    }

    /// The number of the version.
    pub fn number(&self) -> u64
        ensures { result ≡ self.now.number }
    {
        self.number
    }

    /// The layers with their finished tiles.
    pub fn table(&self) -> &Table
        ensures value { result.now ≡ self.now.table.value }
        ensures valid { IsLaid (laid self.now.table.value) }
    {
        // A table is laid out as its layers are by its type: the clause rests on that.
        let _ = self.table.layers();
        &self.table
    }

    pub fn layers(&self) -> &Layers
        ensures { result.now ≡ self.now.table.value.layers }
    {
        self.table.layers()
    }

    /// The number, the layers and the finished tiles of the image. They are copied.
    pub fn into_parts(
        self,
        alloc: Global,
    ) -> Result<(u64, Layers, Vec<(Name, u8, Tile)>), AllocError>
        ensures { IfOk result (λ parts. held parts.0 parts.1 parts.2.items ≡ image_held self) }
    {
        let layers = self.table.layers().try_copy(alloc)?;
        let tiles = self.table.all_tiles(alloc)?;
        Ok((self.number, layers, tiles))
    }

    /// The number, and the layers with their finished tiles, which others may share. It takes no memory.
    pub fn into_table(self) -> (u64, Arc<Table>)
        ensures { result ≡ (self.number, self.table) }
    {
        (self.number, self.table)
    }
}
