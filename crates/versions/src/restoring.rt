//! Versions from the parts that a file holds.
ghost use Rattle.std.specs.Prelude.{◌≡◌, ◌≤◌, IfOk, IfErr, map};
ghost use Rattle.overlay_terms.specs.Commands.{version_max};
ghost use Rattle.overlay_terms.specs.StoredTiles.{AreStored};
ghost use Rattle.layer_tiles.specs.Table.{tiles_in};
ghost use Rattle.tile_build.specs.Tile.{finished_of as finished_named};

use crate::fault::VersionFault;
use crate::version::Version;
use layer_book::Layers;
use layer_book::fault::LayerFault;
use layer_expr::name::Name;
use layer_tiles::Table;
use std::alloc::{AllocError, Global};
use std::sync::Arc;
use tile_build::Tile;

impl Version {
    /// The version of a number, layers and finished tiles, all of it durable. The tiles may be wrong,
    /// but have their form and their order.
    pub fn restore(
        alloc: Global,
        number: u64,
        layers: Layers,
        tiles: Vec<(Name, u8, Tile)>,
    ) -> Result<Version, VersionFault>
        requires small { number ≤ version_max }
        requires stored { AreStored layers (map finished_named tiles.items) }
        ensures ok { IfOk result (λ version. version ≡ record { number = number; layers = layers; tiles = map finished_named tiles.items; durable = number }) }
        ensures err { IfErr result (λ fault. fault ≡ VersionFault.Layer LayerFault.OutOfMemory) }
    {
        let table = filled_table(alloc, layers, tiles)?;
        Ok(Version::restore_table(number, table))
    }

    /// The version of a number and a table, which others may share, all of it durable. It takes no memory.
    pub fn restore_table(number: u64, table: Arc<Table>) -> Version
        requires small { number ≤ version_max }
        ensures { result ≡ record { number = number; layers = table.value.layers; tiles = tiles_in table.value; durable = number } }
    {
        // A table is laid out as its layers are by its type: the clause rests on that.
        let _ = table.layers();
        Version::of(number, number, table)
    }
}

/// The table of layers and of tiles in the order of a file, to be shared.
fn filled_table(
    alloc: Global,
    layers: Layers,
    tiles: Vec<(Name, u8, Tile)>,
) -> Result<Arc<Table>, AllocError>
    requires { AreStored layers (map finished_named tiles.items) }
    ensures layers { IfOk result (λ table. table.value.layers ≡ layers) }
    ensures tiles { IfOk result (λ table. tiles_in table.value ≡ map finished_named tiles.items) }
{
    let table = Table::filled(alloc, layers, tiles)?;
    Ok(Arc::new(alloc, table)?)
}
