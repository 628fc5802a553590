//! The catalog is written.
ghost use Rattle.std.specs.Prelude.{false, ◌≡◌, ◌<◌, ◌^◌, length, Some, IfOk, OnOk, All};
ghost use Rattle.overlay_terms.specs.Column.{column_count};
ghost use Rattle.store_terms.specs.Listing.{entry_of, entries_of, records_of, spelled_records, HasColumns, IsListable};
ghost use Rattle.record_writing.specs.Putting.{IsPut};
ghost use Rattle.store_terms.specs.Fields.{number, repeated, counted};
ghost use Rattle.store_terms.specs.Choices.{optional};
ghost use Rattle.store_terms.specs.Catalog.{catalog, extent as spelled, listed, catalog_of_record};

use crate::bytes::{put_eight_bytes, put_four_bytes, put_two_bytes};
use std::alloc::{AllocError, Global};
use store_terms::catalog::{Listed, Records};
use store_terms::root::RecordExtent;

/// The record that lists some layers in order.
pub fn write_catalog(alloc: Global, listing: &[Listed]) -> Result<Vec<u8>, AllocError>
    requires few { length listing.now < 2 ^ 16 }
    requires listable { All IsListable listing.now }
    ensures spelled { IfOk result (λ v. v.items ≡ (catalog column_count).text (entries_of listing.now)) }
    ensures reads_back { IfOk result (λ v. catalog_of_record false v.items ≡ Some (entries_of listing.now)) }
{
    let mut out = Vec::new(alloc);
    put_two_bytes(&mut out, listing.len() as u16)?;
    for layer in listing {
        put_layer(&mut out, layer)?;
    }
    Ok(out)
}

/// Writes a layer after some bytes: its name, then where its records lie.
fn put_layer(out: &mut Vec<u8>, layer: &Listed) -> Result<(), AllocError>
    requires { IsListable layer.now }
    ensures { OnOk result (IsPut (listed column_count) (entry_of layer.now) out.old.items out.new.items) }
{
    put_layer_name(out, &layer.name)?;
    put_records(out, &layer.records)?;
    Ok(())
}

/// Writes the number of a name's bytes after some bytes, and the bytes.
fn put_layer_name(out: &mut Vec<u8>, name: &[u8]) -> Result<(), AllocError>
    requires { length name.now < 256 }
    ensures { OnOk result (IsPut (counted 1 (number 1)) name.now out.old.items out.new.items) }
{
    out.push(name.len() as u8)?;
    out.extend_from_slice(name)?;
    Ok(())
}

fn put_records(out: &mut Vec<u8>, records: &Records) -> Result<(), AllocError>
    requires { HasColumns records.now }
    ensures { OnOk result (IsPut (spelled_records column_count) (records_of records.now) out.old.items out.new.items) }
{
    match records {
        Records::Base(extent) => {
            out.push(0)?;
            put_extent(out, *extent)?;
            Ok(())
        }
        Records::Derived(extent, tiles) => {
            out.push(1)?;
            put_extent(out, *extent)?;
            put_tiles(out, tiles)?;
            Ok(())
        }
    }
}

/// Writes a tile entry for each column after some bytes.
fn put_tiles(out: &mut Vec<u8>, tiles: &[Option<RecordExtent>]) -> Result<(), AllocError>
    requires { length tiles.now ≡ column_count }
    ensures { OnOk result (IsPut (repeated column_count (optional spelled)) tiles.now out.old.items out.new.items) }
{
    for tile in tiles {
        put_tile(out, *tile)?;
    }
    Ok(())
}

fn put_tile(out: &mut Vec<u8>, tile: Option<RecordExtent>) -> Result<(), AllocError>
    ensures { OnOk result (IsPut (optional spelled) tile out.old.items out.new.items) }
{
    match tile {
        None => {
            out.push(0)?;
            Ok(())
        }
        Some(extent) => {
            out.push(1)?;
            put_extent(out, extent)?;
            Ok(())
        }
    }
}

fn put_extent(out: &mut Vec<u8>, extent: RecordExtent) -> Result<(), AllocError>
    ensures { OnOk result (IsPut spelled extent out.old.items out.new.items) }
{
    put_eight_bytes(out, extent.block)?;
    put_four_bytes(out, extent.size)?;
    Ok(())
}
