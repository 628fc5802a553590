//! Layers with their finished tiles: a row for each layer.
ghost use Rattle.std.specs.Prelude.{◌≡◌, ◌<◌, ◌&&◌, ◌==◌, true, false, None, Some, [], bytes_eq, get_or, length};
ghost use Rattle.std.specs.Prelude.{map, replicate, set, slice_get, unwrap_or, IfOk, IfSome, IsTrue, OnErr, OnOk, if◌then◌else◌};
ghost use Rattle.std.specs.Option.{option_map};
ghost use Rattle.overlay_terms.specs.Column.{column_count};
ghost use Rattle.overlay_terms.specs.Layers.{Name};
ghost use Rattle.overlay_terms.specs.Commands as commands;
ghost use Rattle.overlay_terms.specs.Layers as terms;
ghost use Rattle.overlay_terms.specs.Commands.{applied, refusal_of, stands_as_derived};
ghost use Rattle.overlay_terms.specs.Histories.{is_formed, tile_at};
ghost use Rattle.tile_build.specs.Tile.{named_pieces, tile_of};
ghost use Rattle.layer_book.specs.Command.{command};
ghost use Rattle.layer_book.specs.Layer.{content};
ghost use Rattle.layer_book.specs.Touching.{touched_rows};
ghost use Rattle.layer_tiles.specs.Filling.{IsLonger};
ghost use Rattle.layer_tiles.specs.Table.{laid, left_at, places_in, placed_rows, row_by, rows_by, tiles_in, IsLaid};

use crate::tiles::TileRow;
use layer_book::command::Command;
use layer_book::layer::Layer;
use layer_book::touching::COLUMNS;
use layer_book::{Layers, MAX_LAYERS};
use layer_expr::name::Name;
use plane_base::Column;
use std::alloc::{AllocError, Global};
use std::marker::Model;
use std::sync::Arc;
use tile_build::Tile;

/// Layers with their finished tiles, a row for each layer. Tables share layers, rows and tiles.
#[derive(Debug, Drop)]
pub struct Table {
    layers: Arc<Layers>,
    rows: Vec<TileRow>,
}

impl Model for Table {
    ghost use Rattle.layer_tiles.specs.Table.{placed_rows, tabled_code, Tabled, IsTable};

    ghost Value = { Tabled };

    ghost coded = { tabled_code };

    ghost view = { λ t. record { layers = t.layers.value; rows = t.rows.items } };

    ghost invariant = { λ t. IsTable t.layers.value (placed_rows t.rows.items) };
}

impl Table {
    /// Layers of which no tile is finished.
    pub fn of(alloc: Global, layers: Layers) -> Result<Table, AllocError>
        ensures layers { IfOk result (λ table. table.layers ≡ layers) }
        ensures tiles { IfOk result (λ table. tiles_in table ≡ []) }
        ensures valid { IfOk result (λ table. IsLaid (laid table)) }
    {
        let rows = empty_rows(alloc, layers.len())?;
        let shared = Arc::new(alloc, layers)?;
        Ok(Table {
            layers: shared,
            rows,
        })
    }

    /// No layer.
    pub fn empty(alloc: Global) -> Result<Table, AllocError>
        ensures layers { IfOk result (λ table. table.layers ≡ []) }
        ensures tiles { IfOk result (λ table. tiles_in table ≡ []) }
        ensures valid { IfOk result (λ table. IsLaid (laid table)) }
    {
        let layers = Layers::new(alloc);
        // The layers are a book by their type: the clauses rest on that.
        let _ = layers.len();
        let shared = Arc::new(alloc, layers)?;
        Ok(Table {
            layers: shared,
            rows: Vec::new(alloc),
        })
    }

    pub fn layers(&self) -> &Layers
        ensures value { result.now ≡ self.now.layers }
        ensures valid { IsLaid (laid self.now) }
    {
        &self.layers
    }

    /// The row of the layer at an index, counted from 0.
    fn row(&self, place: usize) -> Option<&TileRow>
        ensures value { option_map (λ row. row.now) result ≡ slice_get self.now.rows place }
        ensures places { option_map (λ row. places_in row.now) result
            ≡ option_map (λ (layer : terms.Layer). row_by (tile_at (tiles_in self.now) layer.name))
            (slice_get self.now.layers place) }
    {
        match self.rows.get(place) {
            Some(row) => Some(row),
            None => None,
        }
    }

    /// The layer at an index, counted from 0, with its name and its row of tiles.
    pub fn at(&self, place: usize) -> Option<(&Name, &Layer, &TileRow)>
        ensures layer { option_map (λ entry. record { name = entry.0.now; content = content entry.1.now }) result
            ≡ slice_get self.now.layers place }
        ensures row { option_map (λ entry. entry.2.now) result ≡ slice_get self.now.rows place }
        ensures places { IfSome result
            (λ entry. places_in entry.2.now ≡ row_by (tile_at (tiles_in self.now) entry.0.now)) }
    {
        match self.row(place) {
            Some(row) => match self.layers().at(place) {
                Some((name, layer)) => Some((name, layer, row)),
                None => None,
            },
            None => None,
        }
    }

    /// The finished tile of a layer and column.
    pub fn tile(&self, name: &Name, column: u8) -> Option<&Arc<Tile>>
        ensures { option_map (λ tile. tile_of tile.now.value) result ≡ tile_at (tiles_in self.now) name.now column }
    {
        let place = self.layers().index_of(name);
        match self.row(place) {
            Some(row) => row.tile_at(usize::from(column)),
            None => None,
        }
    }

    /// The table after a command that is accepted.
    pub fn after(&self, alloc: Global, change: &Command) -> Result<Table, AllocError>
        requires { refusal_of self.now.layers (command change.now) ≡ None }
        ensures layers { IfOk result (λ next. next.layers ≡ applied self.now.layers (command change.now)) }
        ensures tiles { IfOk result (λ next. (name : Name) (k : _)
            → tile_at (tiles_in next) name k ≡ left_at (laid self.now) (command change.now) name k) }
        ensures valid { IfOk result (λ table. IsLaid (laid table)) }
    {
        let layers = self.layers().applied(alloc, change)?;
        let rows = self.rows_left(alloc, change, &layers)?;
        prove!(layers.len() <= MAX_LAYERS);
        let shared = Arc::new(alloc, layers)?;
        Ok(Table {
            layers: shared,
            rows,
        })
    }

    /// The rows of the layers that a command leaves.
    fn rows_left(
        &self,
        alloc: Global,
        change: &Command,
        after: &Layers,
    ) -> Result<Vec<TileRow>, AllocError>
        requires accepted { refusal_of self.now.layers (command change.now) ≡ None }
        requires made { after.now ≡ applied self.now.layers (command change.now) }
        ensures { IfOk result (λ rows. placed_rows rows.items
            ≡ rows_by (left_at (laid self.now) (command change.now)) after.now) }
    {
        let touched = self.layers().touched_rows(alloc, change, after)?;
        let marks = touched.as_slice();
        let bare = TileRow::empty(alloc)?;
        let mut rows = Vec::with_capacity(alloc, after.len())?;
        for place in 0..after.len() {
            if let Some((name, _)) = after.at(place) {
                let row = self.row_left(alloc, marks, place, name, &bare)?;
                rows.push(row)?;
            }
        }
        Ok(rows)
    }

    /// The row of a layer without the tiles that are touched, where the marks of each layer say so. A new layer has
    /// none. The layer is looked for at a place first, and a row without a tile is handed in.
    fn row_left(
        &self,
        alloc: Global,
        touched: &[[bool; COLUMNS]],
        near: usize,
        name: &Name,
        bare: &TileRow,
    ) -> Result<TileRow, AllocError>
        requires { bare.now ≡ replicate column_count None }
        ensures { (change : commands.Command) → touched.now ≡ touched_rows self.now.layers change
            → IfOk result (λ row. places_in row ≡ row_by (left_at (laid self.now) change name.now)) }
    {
        let place = self.layers().index_near(near, name);
        let marks = marks_at(touched, place);
        match self.row(place) {
            Some(row) => row.without(alloc, &marks, bare),
            None => bare.share(),
        }
    }

    /// The table with a tile more, or in the place of the one that is there.
    pub fn with_tile(
        &self,
        alloc: Global,
        name: &Name,
        column: Column,
        tile: Arc<Tile>,
    ) -> Result<Table, AllocError>
        requires derived_layer { stands_as_derived self.now.layers name.now ≡ true }
        requires formed { IsTrue (is_formed (tile_of tile.value) column) }
        ensures layers { IfOk result (λ next. next.layers ≡ self.now.layers) }
        ensures tiles { IfOk result (λ next. (other : Name) (k : _)
            → tile_at (tiles_in next) other k
            ≡ (if bytes_eq name.now other && (column == k) then Some (tile_of tile.value)
            else tile_at (tiles_in self.now) other k)) }
        ensures valid { IfOk result (λ table. IsLaid (laid table)) }
    {
        let place = self.layers.index_of(name);
        // A column is below their number by its type: the clauses rest on that.
        let _ = column.number();
        let rows = rows_with(alloc, &self.rows, place, column, tile)?;
        let shared = self.layers.clone()?;
        Ok(Table {
            layers: shared,
            rows,
        })
    }

    /// The same in place: of the rows at most one is copied.
    pub fn put_tile(
        &mut self,
        alloc: Global,
        name: &Name,
        column: Column,
        tile: Arc<Tile>,
    ) -> Result<(), AllocError>
        requires derived_layer { stands_as_derived self.old.layers name.now ≡ true }
        requires formed { IsTrue (is_formed (tile_of tile.value) column) }
        ensures layers { self.new.layers ≡ self.old.layers }
        ensures tiles { OnOk result ((other : Name) (k : _)
            → tile_at (tiles_in self.new) other k
            ≡ (if bytes_eq name.now other && (column == k) then Some (tile_of tile.value)
            else tile_at (tiles_in self.old) other k)) }
        ensures valid { OnOk result (IsLaid (laid self.new)) }
        ensures err { OnErr result (self.new ≡ self.old) }
    {
        let place = self.layers.index_of(name);
        // A column is below their number by its type: the clauses rest on that.
        let _ = column.number();
        put_in_row(&mut self.rows, alloc, place, column, tile)?;
        Ok(())
    }
}

impl Table {
    /// The same tiles over layers of which the last one is new, and has the row that is handed in.
    pub(crate) fn with_row(
        &self,
        alloc: Global,
        layers: Layers,
        bare: TileRow,
    ) -> Result<Table, AllocError>
        requires more { IsLonger self.now.layers layers }
        requires bare { bare ≡ replicate column_count None }
        ensures layers { IfOk result (λ next. next.layers ≡ layers) }
        ensures tiles { IfOk result (λ next. tiles_in next ≡ tiles_in self.now) }
        ensures valid { IfOk result (λ next. IsLaid (laid next)) }
    {
        // The layers are a book by their type: the clauses rest on that.
        let _ = layers.len();
        let mut rows = shared_rows(alloc, &self.rows)?;
        rows.push(bare)?;
        let shared = Arc::new(alloc, layers)?;
        Ok(Table {
            layers: shared,
            rows,
        })
    }
}

/// The marks at a place, or none.
fn marks_at(touched: &[[bool; COLUMNS]], place: usize) -> [bool; COLUMNS]
    ensures { result ≡ unwrap_or (slice_get touched.now place) (replicate column_count false) }
{
    match touched.get(place) {
        Some(marks) => *marks,
        None => [false; COLUMNS],
    }
}

/// The rows, of which the one at a place has a tile more, or in the place of the one that is there.
fn rows_with(
    alloc: Global,
    rows: &[TileRow],
    place: usize,
    column: Column,
    tile: Arc<Tile>,
) -> Result<Vec<TileRow>, AllocError>
    requires { place < length rows.now }
    ensures { IfOk result (λ with. with.items
        ≡ set rows.now place (set (get_or rows.now place []) column (Some (named_pieces tile.value)))) }
{
    let mut with = shared_rows(alloc, rows)?;
    with[place] = rows[place].with(alloc, column, tile)?;
    Ok(with)
}

/// Puts a tile into the row at a place, or in the place of the one that is there.
fn put_in_row(
    rows: &mut Vec<TileRow>,
    alloc: Global,
    place: usize,
    column: Column,
    tile: Arc<Tile>,
) -> Result<(), AllocError>
    requires { place < length rows.old.items }
    ensures ok { OnOk result (rows.new.items
        ≡ set rows.old.items place (set (get_or rows.old.items place []) column (Some (named_pieces tile.value)))) }
    ensures err { OnErr result (rows.new.items ≡ rows.old.items) }
{
    rows[place].put(alloc, column, tile)
}

/// So many rows without a tile.
fn empty_rows(alloc: Global, count: usize) -> Result<Vec<TileRow>, AllocError>
    ensures { IfOk result (λ rows. rows.items ≡ replicate count (replicate column_count None)) }
{
    let mut rows = Vec::with_capacity(alloc, count)?;
    for _ in 0..count {
        let row = TileRow::empty(alloc)?;
        rows.push(row)?;
    }
    Ok(rows)
}

/// The same rows, shared by one more table.
fn shared_rows(alloc: Global, rows: &[TileRow]) -> Result<Vec<TileRow>, AllocError>
    ensures { IfOk result (λ copies. copies.items ≡ rows.now) }
{
    let mut copies = Vec::with_capacity(alloc, rows.len())?;
    for row in rows {
        let copy = row.share()?;
        copies.push(copy)?;
    }
    Ok(copies)
}
