//! Keeping a built tile.
ghost use Rattle.std.specs.Prelude.{◌≡◌, ◌↔◌, ◌&&◌, ◌==◌, true, false, Some, bytes_eq, IsTrue, IfOk, IfErr, OnOk, OnErr, if◌then◌else◌};
ghost use Rattle.overlay_terms.specs.Commands.{stands_as_derived};
ghost use Rattle.overlay_terms.specs.Histories.{FollowsTile, IsTileAt, is_formed, pieces_max, tile_at};
ghost use Rattle.overlay_terms.specs.Tiles.{input_of};
ghost use Rattle.layer_tiles.specs.Table.{laid, tiles_in, IsLaid};
ghost use Rattle.tile_build.specs.Tile.{tile_of};
ghost use Rattle.versions.specs.Finish.{IfKept, IsAwaited, IsKept, IsPending};

use crate::fault::VersionFault;
use crate::version::{Version, VersionContent};
use arrange::TileInput;
use layer_book::fault::LayerFault;
use layer_expr::name::Name;
use layer_tiles::Table;
use plane_base::Column;
use std::alloc::{AllocError, Global};
use std::sync::Arc;
use tile_build::{Built, SharedBuilt, Tile};

/// What became of a built tile.
#[derive(Debug, Drop)]
pub enum Finish {
    /// The version with the tile.
    Kept(Version),
    /// Nothing changes: the tile is not awaited any more.
    Stale,
}

impl Version {
    /// Keeps a built tile of a layer, where it is awaited. Where memory runs out it comes back.
    pub fn finish(
        &self,
        alloc: Global,
        name: &Name,
        built: Built,
    ) -> Result<Finish, (Built, VersionFault)>
        ensures kept { IfOk result (λ finish. IfKept finish (λ next. FollowsTile self.now name.now built.0.column built.1 next)) }
        ensures exactly { IfOk result (λ finish. IsKept finish ↔ IsAwaited self.now name.now built.0) }
        ensures err { IfErr result (λ e. (e.0 ≡ built) × (e.1 ≡ VersionFault.Layer LayerFault.OutOfMemory)) }
        ensures pending { IfErr result (λ _. IsPending self.now name.now built.0.column) }
    {
        match self.finish_with(alloc, name, &built) {
            Ok(finish) => Ok(finish),
            Err(fault) => Err((built, fault)),
        }
    }

    /// The same for a built tile that the caller keeps, until all else that can fail is done. The version has a copy.
    pub fn finish_with(
        &self,
        alloc: Global,
        name: &Name,
        built: &Built,
    ) -> Result<Finish, VersionFault>
        ensures kept { IfOk result (λ finish. IfKept finish (λ next. FollowsTile self.now name.now built.now.0.column built.now.1 next)) }
        ensures exactly { IfOk result (λ finish. IsKept finish ↔ IsAwaited self.now name.now built.now.0) }
        ensures err { IfErr result (λ fault. fault ≡ VersionFault.Layer LayerFault.OutOfMemory) }
        ensures pending { IfErr result (λ _. IsPending self.now name.now built.now.0.column) }
    {
        let input = built.input();
        if self.is_awaited(name, input) {
            let tile = copied_tile(alloc, built)?;
            Ok(Finish::Kept(self.with_tile(alloc, name, input, tile)?))
        } else {
            Ok(Finish::Stale)
        }
    }

    /// Keeps a built tile of a layer in the version itself, where it is awaited. The version shares the tile, and nothing
    /// of it is copied. Its input is not compared where it is known to be the present one.
    pub fn keep(
        &mut self,
        alloc: Global,
        name: &Name,
        built: &SharedBuilt,
        is_present: bool,
    ) -> Result<bool, VersionFault>
        requires present { IsTrue is_present → built.now.0 ≡ input_of self.old.layers name.now built.now.0.column }
        ensures kept { IfOk result (λ is_kept. IsTrue is_kept → FollowsTile self.old name.now built.now.0.column built.now.1 self.new) }
        ensures stale { IfOk result (λ is_kept. is_kept ≡ false → self.new ≡ self.old) }
        ensures exactly { IfOk result (λ is_kept. IsTrue is_kept ↔ IsAwaited self.old name.now built.now.0) }
        ensures err { IfErr result (λ fault. (self.new ≡ self.old) × (fault ≡ VersionFault.Layer LayerFault.OutOfMemory)) }
        ensures awaited { IfErr result (λ _. IsAwaited self.old name.now built.now.0) }
    {
        if !self.awaits_built(name, built, is_present) {
            return Ok(false);
        }
        let tile = built.share()?;
        self.put_tile(alloc, name, built.column(), tile)?;
        Ok(true)
    }

    /// Whether the tile of an input is awaited: it is pending, and the input is the present one. It takes no memory.
    pub fn is_awaited(&self, name: &Name, input: &TileInput) -> bool
        ensures { IsTrue result ↔ IsAwaited self.now name.now input.now }
    {
        if !self.is_pending(name, input.column()) {
            return false;
        }
        self.layers().has_input(name, input)
    }

    /// The same of a built tile, whose input is not compared where it is known to be the present one.
    fn awaits_built(&self, name: &Name, built: &SharedBuilt, is_present: bool) -> bool
        requires present { IsTrue is_present → built.now.0 ≡ input_of self.now.layers name.now built.now.0.column }
        ensures { IsTrue result ↔ IsAwaited self.now name.now built.now.0 }
    {
        let column = built.column();
        if !self.is_pending(name, column) {
            return false;
        }
        if is_present {
            return true;
        }
        let strip = built.pass();
        self.layers()
            .has_part(name, column, strip.marked(), strip.steps())
    }

    /// Whether a tile is pending, by one look at its layer. It takes no memory.
    fn is_pending(&self, name: &Name, column: Column) -> bool
        ensures { IsTrue result ↔ IsPending self.now name.now column }
    {
        // A column is below their number by its type: the clause rests on that.
        let _ = column.number();
        match self.at(self.layers().index_of(name)) {
            Some((_, layer, row)) => layer.is_derived() & !row.has(column),
            None => false,
        }
    }

    /// The version with a tile more, which is that of an input and awaited.
    fn with_tile(
        &self,
        alloc: Global,
        name: &Name,
        input: &TileInput,
        tile: Arc<Tile>,
    ) -> Result<Version, AllocError>
        requires awaited { IsAwaited self.now name.now input.now }
        requires right { IsTileAt pieces_max input.now (tile_of tile.value) }
        ensures { IfOk result (λ next. FollowsTile self.now name.now input.now.column (tile_of tile.value) next) }
    {
        let table = self.table(alloc)?;
        let column = input.column();
        // A column is below their number by its type: the clauses rest on that.
        let _ = column.number();
        let made = table.with_tile(alloc, name, column, tile)?;
        let next = Arc::new(alloc, made)?;
        let number = self.number();
        let durable = self.durable();
        Ok(Version::of(number, durable, next))
    }

    /// The same in place.
    fn put_tile(
        &mut self,
        alloc: Global,
        name: &Name,
        column: Column,
        tile: Arc<Tile>,
    ) -> Result<(), AllocError>
        requires pending { IsPending self.old name.now column }
        requires right { IsTileAt pieces_max (input_of self.old.layers name.now column) (tile_of tile.value) }
        ensures ok { OnOk result (FollowsTile self.old name.now column (tile_of tile.value) self.new) }
        ensures err { OnErr result (self.new ≡ self.old) }
    {
        // A column is below their number by its type: the clauses rest on that.
        let _ = column.number();
        match &mut self.content {
            VersionContent::Nothing(_) => unreachable!(),
            VersionContent::Tiled(table) => {
                put_in_table(table, alloc, name, column, tile)?;
                Ok(())
            }
        }
    }
}

/// Puts a tile into a table, which is copied before where others have it.
fn put_in_table(
    table: &mut Arc<Table>,
    alloc: Global,
    name: &Name,
    column: Column,
    tile: Arc<Tile>,
) -> Result<(), AllocError>
    requires derived_layer { stands_as_derived table.old.value.layers name.now ≡ true }
    requires formed { IsTrue (is_formed (tile_of tile.value) column) }
    ensures layers { table.new.value.layers ≡ table.old.value.layers }
    ensures tiles { OnOk result ((other : _) (k : _)
        → tile_at (tiles_in table.new.value) other k
        ≡ (if bytes_eq name.now other && (column == k) then Some (tile_of tile.value)
        else tile_at (tiles_in table.old.value) other k)) }
    ensures valid { OnOk result (IsLaid (laid table.new.value)) }
    ensures err { OnErr result (table.new.value ≡ table.old.value) }
{
    if let Some(own) = Arc::get_mut(table) {
        return own.put_tile(alloc, name, column, tile);
    }
    let made = table.with_tile(alloc, name, column, tile)?;
    *table = Arc::new(alloc, made)?;
    Ok(())
}

/// A copy of a built tile as versions share it.
fn copied_tile(alloc: Global, built: &Built) -> Result<Arc<Tile>, AllocError>
    ensures value { IfOk result (λ tile. tile_of tile.value ≡ built.now.1) }
    ensures right { IsTileAt pieces_max built.now.0 built.now.1 }
{
    let copy = built.tile().try_copy(alloc)?;
    Ok(Arc::new(alloc, copy)?)
}
