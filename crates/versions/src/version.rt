//! A version: layers with a number, and their finished tiles.
ghost use Rattle.std.specs.Prelude.{◌≡◌, ◌≤◌, slice_get, IfOk, IfSome};
ghost use Rattle.std.specs.Option.{option_map};
ghost use Rattle.overlay_terms.specs.Commands.{version_max};
ghost use Rattle.overlay_terms.specs.Histories.{empty_version, tile_at};
ghost use Rattle.tile_build.specs.Tile.{tile_of};
ghost use Rattle.layer_book.specs.Layer.{content};
ghost use Rattle.layer_tiles.specs.Table.{laid, places_in, row_by, tiles_in, IsLaid};
ghost use Rattle.versions.specs.Laid.{numbered};
ghost use Rattle.versions.specs.Version.{IsVersion};

use layer_book::Layers;
use layer_book::layer::Layer;
use layer_expr::name::Name;
use layer_tiles::{Table, TileRow};
pub use overlay_terms::limits::VERSION_MAX;
use plane_base::Column;
use std::alloc::{AllocError, Global};
use std::marker::Model;
use std::sync::Arc;
use tile_build::Tile;

/// What is in a version.
#[derive(Debug, Drop)]
pub enum VersionContent {
    /// No layer. It takes no memory.
    Nothing(Layers),
    /// Layers and tiles, which versions share.
    Tiled(Arc<Table>),
}

/// Layers with a number and their finished tiles, and the number of the version that is reported durable.
#[derive(Debug)]
pub struct Version {
    number: u64,
    durable: u64,
    pub(crate) content: VersionContent,
}

impl Model for Version {
    ghost use Rattle.overlay_terms.specs.Histories as terms;
    ghost use Rattle.versions.specs.VersionCode.{version_code};

    ghost Value = { terms.Version };

    ghost coded = { version_code };

    ghost use Rattle.versions.specs.Laid.{numbered};
    ghost use Rattle.versions.specs.Content.{laid_by, IsHeld};

    ghost view = { λ v. numbered v.number (laid_by v.content) v.durable };

    ghost invariant = { λ v. IsHeld v.number v.content v.durable };
}

// Written out: of a derived drop, each crate above proves again what becomes of every part.
impl Drop for Version {
    fn drop(self) {
        let Version {
            number: _,
            durable: _,
            content,
        } = self;
        drop(content);
    }
}

impl Version {
    /// The version before any command: no layer, and the number 0.
    pub fn empty(alloc: Global) -> Version
        ensures { result ≡ empty_version }
    {
        Version {
            number: 0,
            durable: 0,
            content: VersionContent::Nothing(Layers::new(alloc)),
        }
    }

    /// The version of a table.
    pub(crate) fn of(number: u64, durable: u64, table: Arc<Table>) -> Version
        requires { IsVersion (numbered number (laid table.value) durable) }
        ensures { result ≡ numbered number (laid table.value) durable }
    {
        Version {
            number,
            durable,
            content: VersionContent::Tiled(table),
        }
    }

    /// The layers and tiles as a table, which is shared by one more.
    pub fn table(&self, alloc: Global) -> Result<Arc<Table>, AllocError>
        ensures layers { IfOk result (λ table. table.value.layers ≡ self.now.layers) }
        ensures tiles { IfOk result (λ table. tiles_in table.value ≡ self.now.tiles) }
        ensures valid { IfOk result (λ table. IsLaid (laid table.value)) }
    {
        match &self.content {
            VersionContent::Nothing(_) => {
                let table = Table::empty(alloc)?;
                Ok(Arc::new(alloc, table)?)
            }
            VersionContent::Tiled(table) => {
                // A table is laid out as its layers are by its type: the clauses rest on that.
                let _ = table.layers();
                Ok(table.clone()?)
            }
        }
    }

    /// The same version once more. It shares layers and tiles.
    pub fn again(&self, alloc: Global) -> Result<Version, AllocError>
        ensures { IfOk result (λ copy. copy ≡ self.now) }
    {
        self.with_durable(alloc, self.durable())
    }

    /// How many commands were accepted before it.
    pub fn number(&self) -> u64
        ensures value { result ≡ self.now.number }
        ensures small { result ≤ version_max }
    {
        self.number
    }

    /// The greatest number of a version that is reported durable.
    pub fn durable(&self) -> u64
        ensures value { result ≡ self.now.durable }
        ensures reported { result ≤ self.now.number }
    {
        self.durable
    }

    pub fn layers(&self) -> &Layers
        ensures value { result.now ≡ self.now.layers }
        ensures valid { IsVersion self.now }
    {
        match &self.content {
            VersionContent::Nothing(layers) => layers,
            VersionContent::Tiled(table) => table.layers(),
        }
    }

    /// The layer at an index, counted from 0, with its name and its row of tiles.
    pub fn at(&self, place: usize) -> Option<(&Name, &Layer, &TileRow)>
        ensures layer { option_map (λ entry. record { name = entry.0.now; content = content entry.1.now }) result ≡ slice_get self.now.layers place }
        ensures row { IfSome result (λ entry. places_in entry.2.now ≡ row_by (tile_at self.now.tiles entry.0.now)) }
    {
        match &self.content {
            VersionContent::Nothing(_) => None,
            VersionContent::Tiled(table) => table.at(place),
        }
    }

    /// The row of tiles of a layer.
    pub fn row_of(&self, name: &Name) -> Option<&TileRow>
        ensures { IfSome result (λ row. places_in row.now ≡ row_by (tile_at self.now.tiles name.now)) }
    {
        match self.at(self.layers().index_of(name)) {
            Some((_, _, row)) => Some(row),
            None => None,
        }
    }

    /// The finished tile of a layer and column.
    pub fn tile(&self, name: &Name, column: u8) -> Option<&Tile>
        ensures { option_map (λ tile. tile_of tile.now) result ≡ tile_at self.now.tiles name.now column }
    {
        match self.held_tile(name, column) {
            Some(tile) => Some(tile),
            None => None,
        }
    }

    /// The same for who shares it from then on.
    pub fn shared_tile(&self, name: &Name, column: Column) -> Option<&Arc<Tile>>
        ensures { option_map (λ tile. tile_of tile.now.value) result ≡ tile_at self.now.tiles name.now column }
    {
        self.held_tile(name, column.number())
    }

    fn held_tile(&self, name: &Name, column: u8) -> Option<&Arc<Tile>>
        ensures { option_map (λ tile. tile_of tile.now.value) result ≡ tile_at self.now.tiles name.now column }
    {
        match &self.content {
            VersionContent::Nothing(_) => None,
            VersionContent::Tiled(table) => table.tile(name, column),
        }
    }
}
