//! The records of an image, each put in its place.
ghost use Rattle.std.specs.Prelude.{◌≡◌, ◌⊎◌, ◌^◌, ◌<◌, ◌++◌, ◌∷◌, ℕ, []};
ghost use Rattle.std.specs.Prelude.{List, None, Some, false, length, replicate, All, IfOk, IfErr, IsErrOf, IsTrue};
ghost use Rattle.std.specs.Option.{option_map};
ghost use Rattle.overlay_terms.specs.Column.{column_count};
ghost use Rattle.overlay_terms.specs.Commands.{is_derived};
ghost use Rattle.overlay_terms.specs.Histories.{is_formed, tile_at};
ghost use Rattle.tile_build.specs.Tile.{named_pieces};
ghost use Rattle.layer_book.specs.Layer.{content};
ghost use Rattle.layer_tiles.specs.Table.{places_in, row_tiles, tiles_in};
ghost use Rattle.layer_tiles.specs.TileCode.{by_places, Named};
ghost use Rattle.store_terms.specs.Listing.{entry_of, entries_of, records_of, IsListable};
ghost use Rattle.commit_plan.specs.Filed.{SaysLayer, SpellsContent};
ghost use Rattle.commit_plan.specs.Staying.{layer_named, records_named};
ghost use Rattle.commit_plan.specs.Live.{live_content};
ghost use Rattle.commit_plan.specs.Drafted.{HasNoRunFor, sizes_in};
ghost use Rattle.commit_plan.specs.Sizes.{layer_sizes, own_record, own_sizes, row_sizes, sizes_of_layers};
ghost use Rattle.commit_plan.specs.RecordPlaces.{AreFormedIn, AreKnown, AreKnownIn, AreLayersFiled};
ghost use Rattle.commit_plan.specs.RecordPlaces.{AreTilesFiled, IsFiled, IsLayerFiled, IsSlotFiled};

use crate::draft::Draft;
use crate::fault::StoreFault;
use crate::live_records::{LiveRecords, records_named};
use layer_book::layer::Layer;
use layer_expr::name::Name;
use layer_tiles::{Table, TileRow};
use plane_base::{COLUMN_COUNT, Column};
use record_writing::base_writing::write_base;
use record_writing::definition_writing::write_definition;
use record_writing::tile_writing::write_tile;
use std::alloc::{AllocError, Global};
use std::sync::Arc;
use store_terms::catalog::{Listed, Records};
use store_terms::root::RecordExtent;
use tile_build::Tile;

/// The bytes of a layer's own record: its rings, or its expression.
fn own_bytes(alloc: Global, layer: &Layer) -> Result<Vec<u8>, AllocError>
    ensures spelled { IfOk result (λ v. v.items ≡ own_record (content layer.now)) }
    ensures short { IfOk result (λ v. length v.items < 2 ^ 32) }
    ensures says { IfOk result (λ v. SpellsContent (content layer.now) v.items) }
{
    match layer {
        Layer::Base(rings) => {
            // The rings are closed by their type: the clauses rest on that.
            let _ = rings.rings();
            write_base(alloc, rings)
        }
        Layer::Derived(expression) => {
            // Its names are names by their type: the clauses rest on that.
            let _ = expression.root();
            write_definition(alloc, expression)
        }
    }
}

/// Where a layer's own record lies: where it stays, or the lowest place that is free for it. The live root lists these
/// records under its name.
fn file_own(
    alloc: Global,
    draft: &mut Draft<'_>,
    live: &LiveRecords,
    name: &Name,
    layer: &Layer,
    records: Option<&Records>,
) -> Result<RecordExtent, StoreFault>
    requires { option_map (λ records. records_of records.now) records
        ≡ records_named (live_content live.now).listing name.now }
    ensures ok { IfOk result (λ e. IsFiled draft.old
        (SaysLayer (live_content live.now) (layer_named name.now (content layer.now))) e draft.new) }
    ensures sizes { IfOk result
        (λ _. sizes_in draft.new ≡ sizes_in draft.old
        ++ own_sizes (live_content live.now) (layer_named name.now (content layer.now))) }
    ensures full { IsErrOf result StoreFault.Full
        → HasNoRunFor draft.old (own_sizes (live_content live.now) (layer_named name.now (content layer.now))) }
    ensures err { IfErr result (λ fault. (fault ≡ StoreFault.Full) ⊎ (fault ≡ StoreFault.OutOfMemory)) }
{
    if let Some(extent) = live.layer_stays(name, layer, records) {
        return Ok(extent);
    }
    let bytes = own_bytes(alloc, layer)?;
    draft.file(bytes)
}

/// Where the record of a layer and column's tile lies, if it has one: where it stays, or the lowest place that is free
/// for it. The live root lists these records under the layer's name.
fn file_tile(
    alloc: Global,
    draft: &mut Draft<'_>,
    live: &LiveRecords,
    name: &Name,
    column: Column,
    tile: Option<&Arc<Tile>>,
    records: Option<&Records>,
    known: bool,
) -> Result<Option<RecordExtent>, StoreFault>
    requires listed { option_map (λ records. records_of records.now) records
        ≡ records_named (live_content live.now).listing name.now }
    requires known { IsTrue known → (held : Named) → option_map (λ t. named_pieces t.now.value) tile ≡ Some held
        → tile_at (live_content live.now).tiles name.now column ≡ Some (by_places held) }
    requires formed { (held : Named) → option_map (λ t. named_pieces t.now.value) tile ≡ Some held
        → IsTrue (is_formed (by_places held) column) }
    ensures ok { IfOk result (λ e. IsSlotFiled (live_content live.now) draft.old name.now column
        (option_map (λ t. named_pieces t.now.value) tile.entry) e draft.new) }
    ensures sizes { IfOk result
        (λ _. sizes_in draft.new ≡ sizes_in draft.old
        ++ row_sizes (live_content live.now) name.now column
        (option_map (λ t. named_pieces t.now.value) tile.entry ∷ [])) }
    ensures full { IsErrOf result StoreFault.Full
        → HasNoRunFor draft.old (row_sizes (live_content live.now) name.now column
        (option_map (λ t. named_pieces t.now.value) tile.entry ∷ [])) }
    ensures err { IfErr result (λ fault. (fault ≡ StoreFault.Full) ⊎ (fault ≡ StoreFault.OutOfMemory)) }
{
    let Some(tile) = tile else {
        return Ok(None);
    };
    let tile: &Tile = tile;
    if let Some(extent) = live.tile_stays(name, column, tile, records, known) {
        return Ok(Some(extent));
    }
    let bytes = write_tile(alloc, column, tile)?;
    let extent = draft.file(bytes)?;
    Ok(Some(extent))
}

/// Puts the records of a layer's tiles in their places, by column.
fn file_tiles(
    alloc: Global,
    draft: &mut Draft<'_>,
    live: &LiveRecords,
    name: &Name,
    row: &TileRow,
    records: Option<&Records>,
    known: bool,
) -> Result<Vec<Option<RecordExtent>>, StoreFault>
    requires listed { option_map (λ records. records_of records.now) records
        ≡ records_named (live_content live.now).listing name.now }
    requires whole { length row.now ≡ column_count }
    requires known { IsTrue known → AreKnownIn (live_content live.now) name.now row.now }
    requires formed { AreFormedIn row.now }
    ensures ok { IfOk result (λ v. AreTilesFiled (live_content live.now) draft.old name.now
        (row_tiles name.now 0 (places_in row.now)) v.items draft.new) }
    ensures count { IfOk result (λ v. length v.items ≡ column_count) }
    ensures sizes { IfOk result
        (λ _. sizes_in draft.new ≡ sizes_in draft.old ++ row_sizes (live_content live.now) name.now 0 row.now) }
    ensures full { IsErrOf result StoreFault.Full
        → HasNoRunFor draft.old (row_sizes (live_content live.now) name.now 0 row.now) }
    ensures err { IfErr result (λ fault. (fault ≡ StoreFault.Full) ⊎ (fault ≡ StoreFault.OutOfMemory)) }
{
    let mut entries = Vec::new(alloc);
    for number in 0..COLUMN_COUNT {
        let Some(column) = Column::new(u64::from(number)) else {
            unreachable!()
        };
        let tile = row.tile_at(usize::from(number));
        let entry = file_tile(alloc, draft, live, name, column, tile, records, known)?;
        entries.push(entry)?;
    }
    Ok(entries)
}

/// Puts the records of a layer in their places, and gives its entry in the catalog.
fn file_layer(
    alloc: Global,
    draft: &mut Draft<'_>,
    live: &LiveRecords,
    name: &Name,
    layer: &Layer,
    row: &TileRow,
    known: bool,
) -> Result<Listed, StoreFault>
    requires whole { length row.now ≡ column_count }
    requires known { IsTrue known → AreKnownIn (live_content live.now) name.now row.now }
    requires formed { AreFormedIn row.now }
    requires bare { is_derived (content layer.now) ≡ false → row.now ≡ replicate column_count None }
    ensures ok { IfOk result (λ l. IsLayerFiled (live_content live.now) draft.old
        (layer_named name.now (content layer.now))
        (row_tiles name.now 0 (places_in row.now)) (entry_of l) draft.new) }
    ensures listable { IfOk result IsListable }
    ensures sizes { IfOk result
        (λ _. sizes_in draft.new ≡ sizes_in draft.old
        ++ layer_sizes (live_content live.now) (layer_named name.now (content layer.now)) row.now) }
    ensures full { IsErrOf result StoreFault.Full
        → HasNoRunFor draft.old (layer_sizes (live_content live.now)
        (layer_named name.now (content layer.now)) row.now) }
    ensures err { IfErr result (λ fault. (fault ≡ StoreFault.Full) ⊎ (fault ≡ StoreFault.OutOfMemory)) }
{
    // It is a name by its type: that it can be listed rests on that.
    let bytes = Vec::from_slice(alloc, name.bytes())?;
    let held = records_named(&live.listing, name);
    let extent = file_own(alloc, draft, live, name, layer, held)?;
    if !layer.is_derived() {
        let records = Records::Base(extent);
        return Ok(Listed {
            name: bytes,
            records,
        });
    }
    let entries = file_tiles(alloc, draft, live, name, row, held, known)?;
    let records = Records::Derived(extent, entries);
    Ok(Listed {
        name: bytes,
        records,
    })
}

/// Puts the records of all layers and tiles in their places, and gives what the catalog lists.
pub(crate) fn file_layers(
    alloc: Global,
    draft: &mut Draft<'_>,
    live: &LiveRecords,
    table: &Table,
    known: bool,
) -> Result<Vec<Listed>, StoreFault>
    requires { IsTrue known → AreKnown (live_content live.now) (tiles_in table.now) }
    ensures ok { IfOk result (λ v. AreLayersFiled (live_content live.now) draft.old table.now.layers
        (tiles_in table.now) (entries_of v.items) draft.new) }
    ensures listable { IfOk result (λ v. All IsListable v.items) }
    ensures count { IfOk result (λ v. length v.items ≡ length table.now.layers) }
    ensures sizes { IfOk result
        (λ _. sizes_in draft.new ≡ sizes_in draft.old
        ++ sizes_of_layers (live_content live.now) table.now.layers table.now.rows) }
    ensures full { IsErrOf result StoreFault.Full
        → HasNoRunFor draft.old (sizes_of_layers (live_content live.now) table.now.layers table.now.rows) }
    ensures err { IfErr result (λ fault. (fault ≡ StoreFault.Full) ⊎ (fault ≡ StoreFault.OutOfMemory)) }
{
    let mut listing = Vec::new(alloc);
    for place in 0..table.layers().len() {
        let Some((name, layer, row)) = table.at(place) else {
            unreachable!()
        };
        let listed = file_layer(alloc, draft, live, name, layer, row, known)?;
        listing.push(listed)?;
    }
    Ok(listing)
}
