//! The records that a root names, as the disk has them.
ghost use Rattle.std.specs.Prelude.{◌↔◌, length, ◌≡◌};
ghost use Rattle.record_reading.specs.Answers.{Reads};
ghost use Rattle.store_terms.specs.Listing as listings;
ghost use Rattle.store_terms.specs.Fields.{AreBytes};
ghost use Rattle.store_terms.specs.Catalog.{catalog_of_record};
ghost use Rattle.store_terms.specs.declared.damage.Damage.TheVariants.{CatalogForm};
ghost use Rattle.store_terms.specs.Image.{listing_of, or_fault};
ghost use Rattle.root_reading.specs.Looking.{Gives, Looks, Causes};
ghost use Rattle.root_reading.specs.LayerReading.{rings_at, expression_at};

use crate::load_fault::LoadFault;
use crate::longest::{BASE_MAX, CATALOG_MAX, DEFINITION_MAX};
use crate::record_bytes::fetch;
use disk_model::disk::Disk;
use layer_expr::Expr;
use plane_base::BaseLayer;
use record_reading::base_record::read_base;
use record_reading::catalog_record::read_catalog;
use record_reading::definition_record::read_definition;
use record_reading::fault::RecordFault;
use std::alloc::Global;
use store_terms::catalog::Listed;
use store_terms::damage::Damage;
use store_terms::root::{RecordExtent, Root};

/// The layers that the catalog of a root lists.
#[tactic(auto, unfolding(store_terms::specs::Image::listing_of))]
pub fn listing_at<D: Disk>(
    alloc: Global,
    disk: &mut D,
    size: usize,
    root: Root,
) -> Result<Vec<Listed>, LoadFault>
    requires { D.is_honest disk.old → size ≡ length (D.seen disk.old) }
    ensures honest { D.is_honest disk.new ↔ D.is_honest disk.old }
    ensures looks { D.is_honest disk.old → Looks D.Disk disk.old disk.new }
    ensures gives { D.is_honest disk.old
        → Gives (λ v. listings.entries_of v.items) result (listing_of (D.seen disk.old) root) }
    ensures cause { D.is_honest disk.old → Causes result (D.faults disk.old) (D.faults disk.new) }
{
    let bytes = fetch(
        alloc,
        disk,
        size,
        root.catalog,
        Damage::CatalogPlace,
        CATALOG_MAX,
    )?;
    let listing = read_front(alloc, root.is_old, &bytes)?;
    Ok(listing)
}

/// The layers that the front of a catalog lists. Its counts are of bytes, and so are small.
fn read_front(alloc: Global, is_old: bool, bytes: &[u8]) -> Result<Vec<Listed>, RecordFault>
    ensures reads { Reads (λ v. listings.entries_of v.items) result
        (or_fault CatalogForm (catalog_of_record is_old bytes.now)) }
    ensures bytes { AreBytes bytes.now }
{
    read_catalog(alloc, is_old, bytes)
}

/// The base layer whose record lies in an extent.
pub(crate) fn base_at<D: Disk>(
    alloc: Global,
    disk: &mut D,
    size: usize,
    extent: RecordExtent,
) -> Result<BaseLayer, LoadFault>
    requires { D.is_honest disk.old → size ≡ length (D.seen disk.old) }
    ensures honest { D.is_honest disk.new ↔ D.is_honest disk.old }
    ensures looks { D.is_honest disk.old → Looks D.Disk disk.old disk.new }
    ensures gives { D.is_honest disk.old → Gives (λ layer. layer) result (rings_at (D.seen disk.old) extent) }
    ensures cause { D.is_honest disk.old → Causes result (D.faults disk.old) (D.faults disk.new) }
{
    let bytes = fetch(alloc, disk, size, extent, Damage::RecordPlace, BASE_MAX)?;
    let rings = read_base(alloc, &bytes)?;
    Ok(rings)
}

/// The expression whose definition record lies in an extent.
pub(crate) fn expression_at<D: Disk>(
    alloc: Global,
    disk: &mut D,
    size: usize,
    extent: RecordExtent,
) -> Result<Expr, LoadFault>
    requires { D.is_honest disk.old → size ≡ length (D.seen disk.old) }
    ensures honest { D.is_honest disk.new ↔ D.is_honest disk.old }
    ensures looks { D.is_honest disk.old → Looks D.Disk disk.old disk.new }
    ensures gives { D.is_honest disk.old
        → Gives (λ expression. expression) result (expression_at (D.seen disk.old) extent) }
    ensures cause { D.is_honest disk.old → Causes result (D.faults disk.old) (D.faults disk.new) }
{
    let bytes = fetch(
        alloc,
        disk,
        size,
        extent,
        Damage::RecordPlace,
        DEFINITION_MAX,
    )?;
    let expression = read_definition(alloc, &bytes)?;
    Ok(expression)
}
