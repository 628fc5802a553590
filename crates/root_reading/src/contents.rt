//! The layers and finished tiles of a file.
ghost use Rattle.std.specs.Prelude.{◌↔◌, [], IfOk, OnOk, IfErr, length, ◌≡◌};
ghost use Rattle.std.proofs.Common.{inl, inr};
ghost use Rattle.overlay_terms.specs.Layers.{base};
ghost use Rattle.overlay_terms.specs.StoredTiles.{AreStored};
ghost use Rattle.layer_tiles.specs.Filling.{IsLonger};
ghost use Rattle.layer_tiles.specs.Table.{laid, tiles_in, IsLaid, Tabled};
ghost use Rattle.record_reading.specs.Answers.{Reads};
ghost use Rattle.store_terms.specs.Listing.{entry_of, entries_of};
ghost use Rattle.store_terms.specs.Image.{layers_of, with_layer};
ghost use Rattle.root_reading.specs.Looking.{Gives, Looks, Causes, OnlyLooks};
ghost use Rattle.root_reading.specs.LayerReading.{layers_with_derived};
ghost use Rattle.root_reading.specs.Stored.{IsNextTo};
ghost use Rattle.root_reading.specs.Contents.{Adds, RefusesLayer};

use crate::kept_layers::{keep, name_in};
use crate::load_fault::LoadFault;
use crate::records::{base_at, expression_at};
use crate::tiles::add_tiles;
use disk_model::disk::Disk;
use layer_book::Layers;
use layer_book::command::Command;
use layer_tiles::Table;
use plane_base::BaseLayer;
use record_reading::fault::RecordFault;
use std::alloc::Global;
use std::sync::Arc;
use store_terms::catalog::{Listed, Records};
use store_terms::root::RecordExtent;

/// The layers with a base layer more, of these rings.
fn with_base(
    alloc: Global,
    layers: &Layers,
    name: &[u8],
    rings: BaseLayer,
) -> Result<Layers, RecordFault>
    ensures reads { Reads (λ l. l) result (with_layer layers.now name.now (base rings)) }
    ensures longer { IfOk result (λ l. IsLonger layers.now l) }
{
    let name = name_in(alloc, name)?;
    let rings = match Arc::new(alloc, rings) {
        Ok(rings) => rings,
        Err(_) => return Err(RecordFault::OutOfMemory),
    };
    let layers = keep(alloc, layers, &Command::Put(name, rings))?;
    Ok(layers)
}

/// The layers with a derived layer more, whose definition record lies in an extent.
fn with_derived<D: Disk>(
    alloc: Global,
    disk: &mut D,
    size: usize,
    layers: &Layers,
    name: &[u8],
    extent: RecordExtent,
) -> Result<Layers, LoadFault>
    requires { D.is_honest disk.old → size ≡ length (D.seen disk.old) }
    ensures looks { OnlyLooks D.Disk result disk.old disk.new }
    ensures gives { D.is_honest disk.old
        → Gives (λ l. l) result (layers_with_derived (D.seen disk.old) layers.now name.now extent) }
    ensures longer { IfOk result (λ l. IsLonger layers.now l) }
    ensures next { (table : Tabled) → IsLaid (laid table) → table.layers ≡ layers.now
        → IfOk result (λ l. (longer : Tabled) → longer.layers ≡ l → tiles_in longer ≡ tiles_in table
        → IsNextTo longer name.now 0) }
{
    let expression = expression_at(alloc, disk, size, extent)?;
    let name = name_in(alloc, name)?;
    let expression = Arc::new(alloc, expression)?;
    let layers = keep(alloc, layers, &Command::Define(name, expression))?;
    Ok(layers)
}

/// Adds a base layer.
fn add_base<D: Disk>(
    alloc: Global,
    disk: &mut D,
    size: usize,
    name: &[u8],
    extent: RecordExtent,
    table: &mut Table,
) -> Result<(), LoadFault>
    requires { D.is_honest disk.old → size ≡ length (D.seen disk.old) }
    ensures looks { OnlyLooks D.Disk result disk.old disk.new }
    ensures adds { D.is_honest disk.old
        → OnOk result
        (Adds (D.seen disk.old) table.old table.new (record { name = name.now; records = inl extent })) }
    ensures refuses { D.is_honest disk.old
        → IfErr result
        (λ e. RefusesLayer e (D.seen disk.old) table.old (record { name = name.now; records = inl extent })) }
{
    let rings = base_at(alloc, disk, size, extent)?;
    let layers = with_base(alloc, table.layers(), name, rings)?;
    let longer = table.with_layer(alloc, layers)?;
    *table = longer;
    Ok(())
}

/// Adds a derived layer and its finished tiles.
fn add_derived<D: Disk>(
    alloc: Global,
    disk: &mut D,
    size: usize,
    name: &[u8],
    extent: RecordExtent,
    entries: &[Option<RecordExtent>],
    table: &mut Table,
) -> Result<(), LoadFault>
    requires { D.is_honest disk.old → size ≡ length (D.seen disk.old) }
    ensures looks { OnlyLooks D.Disk result disk.old disk.new }
    ensures adds { D.is_honest disk.old
        → OnOk result
        (Adds (D.seen disk.old) table.old table.new
        (record { name = name.now; records = inr (extent, entries.now) })) }
    ensures refuses { D.is_honest disk.old
        → IfErr result
        (λ e. RefusesLayer e (D.seen disk.old) table.old
        (record { name = name.now; records = inr (extent, entries.now) })) }
{
    let layers = with_derived(alloc, disk, size, table.layers(), name, extent)?;
    let own = name_in(alloc, name)?;
    let longer = table.with_layer(alloc, layers)?;
    *table = longer;
    add_tiles(alloc, disk, size, &own, entries, table)
}

/// Adds a layer that the catalog lists.
fn add_layer<D: Disk>(
    alloc: Global,
    disk: &mut D,
    size: usize,
    entry: &Listed,
    table: &mut Table,
) -> Result<(), LoadFault>
    requires { D.is_honest disk.old → size ≡ length (D.seen disk.old) }
    ensures looks { OnlyLooks D.Disk result disk.old disk.new }
    ensures adds { D.is_honest disk.old
        → OnOk result (Adds (D.seen disk.old) table.old table.new (entry_of entry.now)) }
    ensures refuses { D.is_honest disk.old
        → IfErr result (λ e. RefusesLayer e (D.seen disk.old) table.old (entry_of entry.now)) }
{
    match &entry.records {
        Records::Base(extent) => add_base(alloc, disk, size, &entry.name, *extent, table),
        Records::Derived(extent, entries) => {
            add_derived(alloc, disk, size, &entry.name, *extent, entries, table)
        }
    }
}

/// The layers and finished tiles that a catalog lists.
pub fn content_of<D: Disk>(
    alloc: Global,
    disk: &mut D,
    size: usize,
    listing: &[Listed],
) -> Result<Table, LoadFault>
    requires { D.is_honest disk.old → size ≡ length (D.seen disk.old) }
    ensures honest { D.is_honest disk.new ↔ D.is_honest disk.old }
    ensures looks { D.is_honest disk.old → Looks D.Disk disk.old disk.new }
    ensures gives { D.is_honest disk.old
        → Gives (λ x. (x.layers, tiles_in x)) result (layers_of (D.seen disk.old) [] (entries_of listing.now)) }
    ensures stored { IfOk result (λ x. AreStored x.layers (tiles_in x)) }
    ensures cause { D.is_honest disk.old → Causes result (D.faults disk.old) (D.faults disk.new) }
{
    let mut table = Table::empty(alloc)?;
    for entry in listing {
        add_layer(alloc, disk, size, entry, &mut table)?;
    }
    // A table is laid out as its layers are by its type: that its tiles are as a file holds them rests on that.
    let _ = table.layers();
    Ok(table)
}
