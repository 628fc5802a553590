//! The finished tiles of a layer, as the disk has them.
ghost use Rattle.std.specs.Prelude.{◌≡◌, ◌+◌, ◌<◌, ◌∷◌, List, Option, true, IfOk, OnOk, IfErr, length};
ghost use Rattle.overlay_terms.specs.Column.{column_count};
ghost use Rattle.overlay_terms.specs.Histories.{is_formed};
ghost use Rattle.layer_tiles.specs.Table.{tiles_in};
ghost use Rattle.tile_build.specs.Tile.{tile_of};
ghost use Rattle.store_terms.specs.Image.{tiles_from_column};
ghost use Rattle.store_terms.specs.declared.root.RecordExtent as terms;
ghost use Rattle.root_reading.specs.Looking.{Gives, Refuses, OnlyLooks};
ghost use Rattle.root_reading.specs.LayerReading.{tile_at, then_tiles};
ghost use Rattle.root_reading.specs.Stored.{IsNextTo};

use crate::load_fault::LoadFault;
use crate::longest::TILE_MAX;
use crate::record_bytes::fetch;
use disk_model::disk::Disk;
use layer_expr::name::Name;
use layer_tiles::Table;
use plane_base::Column;
use record_reading::tile_record::read_tile;
use std::alloc::Global;
use store_terms::damage::Damage;
use store_terms::root::RecordExtent;
use tile_build::Tile;

/// The column of a number, and its tile, whose record lies in an extent.
#[tactic(auto, using(record_writing::proofs::StoredLemmas::read_has_form))]
fn tile_at<D: Disk>(
    alloc: Global,
    disk: &mut D,
    size: usize,
    column: usize,
    extent: RecordExtent,
) -> Result<(Column, Tile), LoadFault>
    requires { D.is_honest disk.old → size ≡ length (D.seen disk.old) }
    ensures column { IfOk result (λ x. x.0 ≡ column) }
    ensures known { IfOk result (λ x. column < column_count) }
    ensures formed { IfOk result (λ x. is_formed (tile_of x.1) column ≡ true) }
    ensures looks { OnlyLooks D.Disk result disk.old disk.new }
    ensures gives { D.is_honest disk.old
        → Gives (λ x. tile_of x.1) result (tile_at (D.seen disk.old) column extent) }
{
    let bytes = fetch(alloc, disk, size, extent, Damage::RecordPlace, TILE_MAX)?;
    let Some(known) = Column::new(column as u64) else {
        return Err(LoadFault::Damaged(Damage::TileForm));
    };
    let tile = read_tile(alloc, known, &bytes)?;
    Ok((known, tile))
}

/// Adds the tile of a column, if its entry says where its record lies.
fn add_tile<D: Disk>(
    alloc: Global,
    disk: &mut D,
    size: usize,
    name: &Name,
    column: usize,
    entry: Option<RecordExtent>,
    table: &mut Table,
) -> Result<(), LoadFault>
    requires size { D.is_honest disk.old → size ≡ length (D.seen disk.old) }
    requires next { IsNextTo table.old name.now column }
    ensures looks { OnlyLooks D.Disk result disk.old disk.new }
    ensures adds { D.is_honest disk.old
        → OnOk result
        ((rest : List (Option terms.RecordExtent))
        → then_tiles (tiles_in table.old) (tiles_from_column (D.seen disk.old) name.now column (entry ∷ rest))
        ≡ then_tiles (tiles_in table.new) (tiles_from_column (D.seen disk.old) name.now (column + 1) rest)) }
    ensures refuses { D.is_honest disk.old
        → IfErr result
        (λ e. (rest : List (Option terms.RecordExtent))
        → Refuses e (then_tiles (tiles_in table.old)
        (tiles_from_column (D.seen disk.old) name.now column (entry ∷ rest)))) }
    ensures layers { OnOk result (table.new.layers ≡ table.old.layers) }
    ensures next { OnOk result (IsNextTo table.new name.now (column + 1)) }
{
    let Some(extent) = entry else {
        return Ok(());
    };
    let (column, tile) = tile_at(alloc, disk, size, column, extent)?;
    let longer = table.with_next(alloc, name, column, tile)?;
    *table = longer;
    Ok(())
}

/// Adds the finished tiles of a layer, by column.
pub(crate) fn add_tiles<D: Disk>(
    alloc: Global,
    disk: &mut D,
    size: usize,
    name: &Name,
    entries: &[Option<RecordExtent>],
    table: &mut Table,
) -> Result<(), LoadFault>
    requires size { D.is_honest disk.old → size ≡ length (D.seen disk.old) }
    requires next { IsNextTo table.old name.now 0 }
    ensures looks { OnlyLooks D.Disk result disk.old disk.new }
    ensures adds { D.is_honest disk.old
        → OnOk result
        (then_tiles (tiles_in table.old) (tiles_from_column (D.seen disk.old) name.now 0 entries.now)
        ≡ Ok (tiles_in table.new)) }
    ensures refuses { D.is_honest disk.old
        → IfErr result
        (λ e. Refuses e
        (then_tiles (tiles_in table.old) (tiles_from_column (D.seen disk.old) name.now 0 entries.now))) }
    ensures layers { OnOk result (table.new.layers ≡ table.old.layers) }
{
    for (column, entry) in entries.iter().enumerate() {
        add_tile(alloc, disk, size, name, column, *entry, table)?;
    }
    Ok(())
}
