//! Tables of tiles in the order of a file, and their tiles in that order.
ghost use Rattle.std.specs.Prelude.{◌≡◌, ◌<◌, ◌++◌, ◌∷◌, [], None, get_or, length, map, true, IfOk, IsTrue, OnOk};
ghost use Rattle.overlay_terms.specs.Column.{column_count};
ghost use Rattle.overlay_terms.specs.Commands.{stands_as_derived};
ghost use Rattle.overlay_terms.specs.Histories.{is_formed};
ghost use Rattle.overlay_terms.specs.StoredTiles.{AreStored};
ghost use Rattle.tile_build.specs.Tile.{finished_of, tile_of};
ghost use Rattle.layer_tiles.specs.Table.{laid, places_in, row_tiles, tiles_in, IsLaid};
ghost use Rattle.layer_tiles.specs.Filling.{finished_as, AreBefore, IsLonger, IsNextTile};

use crate::table::Table;
use crate::tiles::TileRow;
use layer_book::Layers;
use layer_book::touching::COLUMNS;
use layer_expr::name::Name;
use plane_base::Column;
use std::alloc::{AllocError, Global};
use std::sync::Arc;
use tile_build::Tile;

impl Table {
    /// The table of layers and of tiles in the order of a file, each under the name of its layer and the number of its
    /// column.
    pub fn filled(
        alloc: Global,
        layers: Layers,
        tiles: Vec<(Name, u8, Tile)>,
    ) -> Result<Table, AllocError>
        requires { AreStored layers (map finished_of tiles.items) }
        ensures layers { IfOk result (λ table. table.layers ≡ layers) }
        ensures tiles { IfOk result (λ table. tiles_in table ≡ map finished_of tiles.items) }
        ensures valid { IfOk result (λ table. IsLaid (laid table)) }
    {
        let mut table = Table::of(alloc, layers)?;
        for tile in tiles {
            let made = table.with_stored(alloc, tile)?;
            table = made;
        }
        Ok(table)
    }

    /// The table with a tile after all that it has, under the number of its column.
    fn with_stored(&self, alloc: Global, tile: (Name, u8, Tile)) -> Result<Table, AllocError>
        requires { IsNextTile self.now.layers (tiles_in self.now) (finished_of tile) }
        ensures layers { IfOk result (λ next. next.layers ≡ self.now.layers) }
        ensures tiles { IfOk result (λ next. tiles_in next ≡ tiles_in self.now ++ finished_of tile ∷ []) }
        ensures valid { IfOk result (λ next. IsLaid (laid next)) }
    {
        let (name, number, tile) = tile;
        match Column::new(u64::from(number)) {
            Some(column) => self.with_next(alloc, &name, column, tile),
            None => unreachable!(),
        }
    }

    /// The table with a tile after all that it has.
    pub fn with_next(
        &self,
        alloc: Global,
        name: &Name,
        column: Column,
        tile: Tile,
    ) -> Result<Table, AllocError>
        requires derived_layer { stands_as_derived self.now.layers name.now ≡ true }
        requires formed { IsTrue (is_formed (tile_of tile) column) }
        requires behind { AreBefore self.now.layers (tiles_in self.now) name.now column }
        ensures layers { IfOk result (λ next. next.layers ≡ self.now.layers) }
        ensures tiles { IfOk result
            (λ next. tiles_in next ≡ tiles_in self.now ++ finished_as name.now column (tile_of tile) ∷ []) }
        ensures valid { IfOk result (λ next. IsLaid (laid next)) }
    {
        // A table's tiles are in order by its type: the clause rests on that.
        let _ = self.layers();
        let tile = Arc::new(alloc, tile)?;
        self.with_tile(alloc, name, column, tile)
    }

    /// The same tiles over layers of which the last one is new.
    pub fn with_layer(&self, alloc: Global, layers: Layers) -> Result<Table, AllocError>
        requires { IsLonger self.now.layers layers }
        ensures layers { IfOk result (λ next. next.layers ≡ layers) }
        ensures tiles { IfOk result (λ next. tiles_in next ≡ tiles_in self.now) }
        ensures valid { IfOk result (λ next. IsLaid (laid next)) }
    {
        let bare = TileRow::empty(alloc)?;
        self.with_row(alloc, layers, bare)
    }

    /// The finished tiles in order, each under the name of its layer and the number of its
    /// column, for one owner: all are copied.
    pub fn all_tiles(&self, alloc: Global) -> Result<Vec<(Name, u8, Tile)>, AllocError>
        ensures { IfOk result (λ list. map finished_of list.items ≡ tiles_in self.now) }
    {
        let mut list = Vec::new(alloc);
        for place in 0..self.layers().len() {
            if let Some((name, _, row)) = self.at(place) {
                add_row(alloc, &mut list, name, row)?;
            }
        }
        Ok(list)
    }
}

/// Adds the tiles of a layer, by column.
fn add_row(
    alloc: Global,
    list: &mut Vec<(Name, u8, Tile)>,
    name: &Name,
    row: &TileRow,
) -> Result<(), AllocError>
    requires { length row.now ≡ column_count }
    ensures { OnOk result (map finished_of list.new.items
        ≡ map finished_of list.old.items ++ row_tiles name.now 0 (places_in row.now)) }
{
    for number in 0..COLUMNS {
        add_tile(alloc, list, name, row, number)?;
    }
    Ok(())
}

/// Adds the tile of a layer in the column with a number, if it is there.
fn add_tile(
    alloc: Global,
    list: &mut Vec<(Name, u8, Tile)>,
    name: &Name,
    row: &TileRow,
    number: usize,
) -> Result<(), AllocError>
    requires { number < column_count }
    ensures { OnOk result (map finished_of list.new.items
        ≡ map finished_of list.old.items ++ row_tiles name.now number (get_or (places_in row.now) number None ∷ [])) }
{
    let Some(tile) = row.tile_at(number) else {
        return Ok(());
    };
    list.push((name.clone()?, number as u8, tile.try_copy(alloc)?))?;
    Ok(())
}
