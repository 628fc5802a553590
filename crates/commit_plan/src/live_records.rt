//! The records of the live root: what it holds, and where.
ghost use Rattle.std.specs.Prelude.{◌≡◌, [], true, Some, IfOk, IsTrue};
ghost use Rattle.std.specs.Option.{option_map};
ghost use Rattle.extent_map.specs.Extents.{IsUnused};
ghost use Rattle.extent_map.specs.Taken.{taken_of};
ghost use Rattle.layer_book.specs.Layer.{content};
ghost use Rattle.store_terms.specs.Listing.{entries_of, records_of};
ghost use Rattle.store_terms.specs.Places.{blocks, is_apart_from, all_apart, extents_listed};
ghost use Rattle.store_terms.specs.declared.root.RecordExtent as terms;
ghost use Rattle.layer_tiles.specs.Filling.{finished_as};
ghost use Rattle.overlay_terms.specs.Histories.{tile_at};
ghost use Rattle.tile_build.specs.Tile.{tile_of};
ghost use Rattle.commit_plan.specs.TakenRoom.{TakesRoom};
ghost use Rattle.commit_plan.specs.Staying.{read_content, own_extent, tile_extent, records_named, if_near};
ghost use Rattle.commit_plan.specs.Staying.{layer_named, layer_stays, tile_record_stays, holds_tile, near_ones};

use crate::equality::{same_layer, same_tile};
use crate::room::Room;
use crate::taken_room::room_of;
use extent_map::blocks_of;
use extent_map::extent::Extent as Run;
use layer_book::layer::Layer;
use layer_expr::name::Name;
use layer_tiles::Table;
use plane_base::Column;
use root_reading::load_fault::LoadFault;
use std::alloc::Global;
use std::sync::Arc;
use store_terms::catalog::{Listed, Records};
use store_terms::root::RecordExtent;
use tile_build::Tile;

/// What the live root's catalog lists, the blocks that the root takes, and the layers and finished tiles that it holds,
/// which it shares with the versions that have them.
#[derive(Debug, Drop)]
pub struct LiveRecords {
    pub(crate) listing: Vec<Listed>,
    pub(crate) room: Room,
    pub(crate) held: Option<Arc<Table>>,
    ghost apart: { all_apart (near_ones (extents_listed (entries_of listing.items))) ≡ true },
    ghost free: { (e : terms.RecordExtent) → IsUnused (taken_of room.map) e.block (blocks e.size)
        → is_apart_from e (near_ones (extents_listed (entries_of listing.items))) ≡ true },
}

/// The records that are listed under a name.
pub(crate) fn records_named<'a>(listing: &'a [Listed], name: &Name) -> Option<&'a Records>
    ensures { option_map (λ records. records_of records.now) result ≡ records_named (entries_of listing.now) name.now }
{
    for listed in listing {
        if listed.name.as_slice() == name.bytes() {
            return Some(&listed.records);
        }
    }
    None
}

/// Where a layer's own record lies.
fn own_extent(records: &Records) -> RecordExtent
    ensures { result ≡ own_extent (records_of records.now) }
{
    match records {
        Records::Base(extent) => *extent,
        Records::Derived(extent, _) => *extent,
    }
}

/// Where the record of a column's tile lies, if it is finished.
fn tile_extent(records: &Records, column: Column) -> Option<RecordExtent>
    ensures { result ≡ tile_extent (records_of records.now) column }
{
    let Records::Derived(_, entries) = records else {
        return None;
    };
    let column = usize::from(column.number());
    if column >= entries.len() {
        return None;
    }
    entries[column]
}

/// The extent, if its end is a number of 64 bits.
fn if_near(extent: RecordExtent) -> Option<RecordExtent>
    ensures { result ≡ if_near (Some extent) }
{
    if Run::new(extent.block, blocks_of(extent.size)).is_none() {
        return None;
    }
    Some(extent)
}

impl LiveRecords {
    ghost use Rattle.commit_plan.specs.Live.{live_content};

    /// Those of a root that lists nothing, and takes this room.
    pub fn empty(alloc: Global, room: Room) -> LiveRecords
        ensures content { live_content result ≡ record { listing = []; layers = []; tiles = [] } }
        ensures room { result.room ≡ room }
    {
        LiveRecords {
            listing: Vec::new(alloc),
            room,
            held: None,
        }
    }

    /// Those of a root with a catalog here, which lists these records of these layers and their tiles.
    pub fn new(
        alloc: Global,
        catalog: RecordExtent,
        listing: Vec<Listed>,
        table: Arc<Table>,
        max_blocks: u32,
    ) -> Result<LiveRecords, LoadFault>
        ensures content { IfOk result
            (λ live. live_content live ≡ read_content (entries_of listing.items) table.value) }
        ensures room { TakesRoom (λ live. live.room) catalog (entries_of listing.items) max_blocks result }
    {
        let room = room_of(alloc, catalog, &listing, max_blocks)?;
        Ok(LiveRecords {
            listing,
            room,
            held: Some(table),
        })
    }

    /// Lets go of what the root lists and holds. The blocks that it takes stay.
    pub fn let_go(&mut self)
        ensures content { live_content self.new ≡ record { listing = []; layers = []; tiles = [] } }
        ensures room { self.new.room ≡ self.old.room }
    {
        self.listing.clear();
        self.held = None;
    }

    /// Where a layer's own record stays, if the root holds an equal one under its name, which has these records.
    pub(crate) fn layer_stays(
        &self,
        name: &Name,
        layer: &Layer,
        records: Option<&Records>,
    ) -> Option<RecordExtent>
        requires { option_map (λ records. records_of records.now) records
            ≡ records_named (live_content self.now).listing name.now }
        ensures { result
            ≡ layer_stays (live_content self.now) (layer_named name.now (content layer.now)) }
    {
        let Some(table) = &self.held else {
            return None;
        };
        let Some(held) = table.layers().get(name) else {
            return None;
        };
        if !same_layer(held, layer) {
            return None;
        }
        let Some(records) = records else {
            return None;
        };
        if_near(own_extent(records))
    }

    /// Whether the root holds an equal tile of a layer and column. Where it may be known that it does, nothing is
    /// compared.
    fn holds_tile(&self, name: &Name, column: Column, tile: &Tile, known: bool) -> bool
        requires { IsTrue known → tile_at (live_content self.now).tiles name.now column ≡ Some (tile_of tile.now) }
        ensures { result ≡ holds_tile (tile_at (live_content self.now).tiles name.now column) (tile_of tile.now) }
    {
        if known {
            return true;
        }
        let Some(table) = &self.held else {
            return false;
        };
        let Some(held) = table.tile(name, column.number()) else {
            return false;
        };
        same_tile(held, tile)
    }

    /// Where the record of a layer and column's tile stays, if the root holds an
    /// equal one. The layer has these records.
    pub(crate) fn tile_stays(
        &self,
        name: &Name,
        column: Column,
        tile: &Tile,
        records: Option<&Records>,
        known: bool,
    ) -> Option<RecordExtent>
        requires listed { option_map (λ records. records_of records.now) records
            ≡ records_named (live_content self.now).listing name.now }
        requires known { IsTrue known
            → tile_at (live_content self.now).tiles name.now column ≡ Some (tile_of tile.now) }
        ensures { result ≡ tile_record_stays (live_content self.now) (finished_as name.now column (tile_of tile.now)) }
    {
        if !self.holds_tile(name, column, tile, known) {
            return None;
        }
        let Some(records) = records else {
            return None;
        };
        let Some(extent) = tile_extent(records, column) else {
            return None;
        };
        if_near(extent)
    }
}
