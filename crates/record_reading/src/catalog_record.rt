//! The catalog is read: the layers in order, each with its name and where its records lie.
ghost use Rattle.std.specs.Prelude.{◌≡◌, map, true, IfOk};
ghost use Rattle.record_reading.specs.Answers.{Gives, Reads};
ghost use Rattle.store_terms.specs.Listing.{entry_of, entries_of, records_of, spelled_records};
ghost use Rattle.store_terms.specs.Fields.{number, read_many, counted, all_read};
ghost use Rattle.store_terms.specs.Choices.{optional};
ghost use Rattle.store_terms.specs.Catalog as terms;
ghost use Rattle.store_terms.specs.Catalog.{extent, listed, catalog, catalog_of_record};
ghost use Rattle.store_terms.specs.Image.{or_fault};
ghost use Rattle.store_terms.specs.declared.damage.Damage.TheVariants.{CatalogForm};

use crate::bytes::{byte_at, eight_bytes_at, four_bytes_at, two_bytes_at};
use crate::fault::{ReadFault, RecordFault};
use plane_base::COLUMN_COUNT;
use std::alloc::{AllocError, Global};
use store_terms::catalog::{Listed, Records};
use store_terms::damage::Damage;
use store_terms::layout::OLD_COLUMN_COUNT;
use store_terms::root::RecordExtent;

/// The layers that a catalog lists. Their names may be no names. In an old one, of format 1, tiles are those of other
/// columns: their entries are asked for their form alone, and each tile counts as pending.
pub fn read_catalog(alloc: Global, is_old: bool, bytes: &[u8]) -> Result<Vec<Listed>, RecordFault>
    ensures { Reads (λ v. entries_of v.items) result (or_fault CatalogForm (catalog_of_record is_old bytes.now)) }
{
    if is_old {
        return read_old(alloc, bytes);
    }
    match catalog_in(alloc, COLUMN_COUNT, bytes) {
        Ok(listing) => Ok(listing),
        Err(fault) => Err(fault.as_record_fault(Damage::CatalogForm)),
    }
}

fn read_old(alloc: Global, bytes: &[u8]) -> Result<Vec<Listed>, RecordFault>
    ensures { Reads (λ v. entries_of v.items) result (or_fault CatalogForm (catalog_of_record true bytes.now)) }
{
    match catalog_in(alloc, OLD_COLUMN_COUNT, bytes) {
        Ok(listing) => match without_tiles(alloc, &listing) {
            Ok(pending) => Ok(pending),
            Err(_) => Err(RecordFault::OutOfMemory),
        },
        Err(fault) => Err(fault.as_record_fault(Damage::CatalogForm)),
    }
}

/// The same layers, each tile of them pending.
fn without_tiles(alloc: Global, listing: &[Listed]) -> Result<Vec<Listed>, AllocError>
    ensures { IfOk result (λ v. entries_of v.items ≡ map terms.without_tiles (entries_of listing.now)) }
{
    let mut pending = Vec::with_capacity(alloc, listing.len())?;
    for layer in listing {
        let after = without_its_tiles(alloc, layer)?;
        pending.push(after)?;
    }
    Ok(pending)
}

fn without_its_tiles(alloc: Global, layer: &Listed) -> Result<Listed, AllocError>
    ensures { IfOk result (λ after. entry_of after ≡ terms.without_tiles (entry_of layer.now)) }
{
    let name = Vec::from_slice(alloc, &layer.name)?;
    let records = pending_records(alloc, &layer.records)?;
    Ok(Listed { name, records })
}

fn pending_records(alloc: Global, records: &Records) -> Result<Records, AllocError>
    ensures { IfOk result (λ after. records_of after ≡ terms.pending_records (records_of records.now)) }
{
    match records {
        Records::Base(extent) => Ok(Records::Base(*extent)),
        Records::Derived(extent, _) => {
            let entries = vec![in alloc; None; usize::from(COLUMN_COUNT)]?;
            Ok(Records::Derived(*extent, entries))
        }
    }
}

/// The layers that all of the bytes list.
fn catalog_in(alloc: Global, columns: u8, bytes: &[u8]) -> Result<Vec<Listed>, ReadFault>
    ensures { Gives (λ v. entries_of v.items) result (all_read (catalog columns) bytes.now) }
{
    let (count, rest) = two_bytes_at(bytes)?;
    let (listing, rest) = listing_at(alloc, columns, count, rest)?;
    if !rest.is_empty() {
        return Err(ReadFault::Form);
    }
    Ok(listing)
}

/// So many layers, one after another, and what follows them.
fn listing_at(
    alloc: Global,
    columns: u8,
    count: u16,
    bytes: &[u8],
) -> Result<(Vec<Listed>, &[u8]), ReadFault>
    ensures { Gives (λ x. (entries_of x.0.items, x.1.now)) result
        (read_many (listed columns).read count bytes.now) }
{
    let mut listing = Vec::new(alloc);
    let mut rest = bytes;
    for _ in 0..count {
        let (layer, after) = layer_at(alloc, columns, rest)?;
        listing.push(layer)?;
        rest = after;
    }
    Ok((listing, rest))
}

fn layer_at(alloc: Global, columns: u8, bytes: &[u8]) -> Result<(Listed, &[u8]), ReadFault>
    ensures { Gives (λ x. (entry_of x.0, x.1.now)) result ((listed columns).read bytes.now) }
{
    let (name, rest) = name_at(alloc, bytes)?;
    let (records, rest) = records_at(alloc, columns, rest)?;
    Ok((Listed { name, records }, rest))
}

/// The bytes of a name after their number, and what follows them.
fn name_at(alloc: Global, bytes: &[u8]) -> Result<(Vec<u8>, &[u8]), ReadFault>
    ensures { Gives (λ x. (x.0.items, x.1.now)) result ((counted 1 (number 1)).read bytes.now) }
{
    let (count, rest) = byte_at(bytes)?;
    let size = usize::from(count);
    if rest.len() < size {
        return Err(ReadFault::Form);
    }
    let name = Vec::from_slice(alloc, &rest[..size])?;
    Ok((name, &rest[size..]))
}

fn records_at(alloc: Global, columns: u8, bytes: &[u8]) -> Result<(Records, &[u8]), ReadFault>
    ensures { Gives (λ x. (records_of x.0, x.1.now)) result ((spelled_records columns).read bytes.now) }
{
    let (kind, rest) = byte_at(bytes)?;
    match kind {
        0 => {
            let (extent, rest) = extent_at(rest)?;
            Ok((Records::Base(extent), rest))
        }
        1 => {
            let (extent, rest) = extent_at(rest)?;
            let (tiles, rest) = tiles_at(alloc, columns, rest)?;
            Ok((Records::Derived(extent, tiles), rest))
        }
        _ => Err(ReadFault::Form),
    }
}

/// A tile entry for each column, and what follows them.
fn tiles_at(
    alloc: Global,
    columns: u8,
    bytes: &[u8],
) -> Result<(Vec<Option<RecordExtent>>, &[u8]), ReadFault>
    ensures { Gives (λ x. (x.0.items, x.1.now)) result (read_many (optional extent).read columns bytes.now) }
{
    let mut tiles = Vec::new(alloc);
    let mut rest = bytes;
    for _ in 0..columns {
        let (tile, after) = tile_at(rest)?;
        tiles.push(tile)?;
        rest = after;
    }
    Ok((tiles, rest))
}

/// Where the record of a tile lies, if it is finished, and what follows.
fn tile_at(bytes: &[u8]) -> Result<(Option<RecordExtent>, &[u8]), ReadFault>
    ensures { Gives (λ x. (x.0, x.1.now)) result ((optional extent).read bytes.now) }
{
    let (state, rest) = byte_at(bytes)?;
    match state {
        0 => Ok((None, rest)),
        1 => {
            let (extent, rest) = extent_at(rest)?;
            Ok((Some(extent), rest))
        }
        _ => Err(ReadFault::Form),
    }
}

fn extent_at(bytes: &[u8]) -> Result<(RecordExtent, &[u8]), ReadFault>
    ensures { Gives (λ x. (x.0, x.1.now)) result (extent.read bytes.now) }
{
    let (block, rest) = eight_bytes_at(bytes)?;
    let (size, rest) = four_bytes_at(rest)?;
    Ok((RecordExtent { block, size }, rest))
}
