//! The writes of a commit after its records: the catalog and the body.
ghost use Rattle.std.specs.Prelude.{◌≡◌, ◌⊎◌, ◌+◌, ◌^◌, ◌<◌, ◌++◌, ◌∷◌, [], ℕ};
ghost use Rattle.std.specs.Prelude.{List, length, flat_map, All, IfOk, IfErr, IsErrOf};
ghost use Rattle.overlay_terms.specs.Column.{column_count};
ghost use Rattle.extent_map.specs.Taken.{limit_of};
ghost use Rattle.store_terms.specs.Listing.{entries_of, IsListable};
ghost use Rattle.store_terms.specs.Catalog.{catalog};
ghost use Rattle.store_terms.specs.Places.{extents_listed};
ghost use Rattle.store_terms.specs.Roots.{sequence_max};
ghost use Rattle.store_terms.specs.StandsFor.{body_at};
ghost use Rattle.layer_tiles.specs.Table.{tiles_in};
ghost use Rattle.commit_plan.specs.Live.{live_content};
ghost use Rattle.commit_plan.specs.ImageHeld.{image_held};
ghost use Rattle.commit_plan.specs.Kept.{Kept, extents_in, other};
ghost use Rattle.commit_plan.specs.Filed.{FiledLayer, filed_of};
ghost use Rattle.commit_plan.specs.Staying.{LiveContent, kept_content, AreHeldApart};
ghost use Rattle.root_reading.specs.RootRuns.{IsMapOf};
ghost use Rattle.commit_plan.specs.Drafted.{HasNoRunFor, sizes_in};
ghost use Rattle.commit_plan.specs.Next.{ArePlanned, IsLaidOut, NextHolds, Spell};

use crate::draft::Draft;
use crate::fault::{StoreFault, store_fault_of};
use crate::image::Image;
use crate::live_records::LiveRecords;
use crate::next::Next;
use crate::write::Write;
use record_writing::catalog_writing::write_catalog;
use record_writing::root_body::write_body;
use std::alloc::Global;
use store_terms::catalog::Listed;
use store_terms::root::Root;

/// Adds the catalog that lists the records of an image, and the body of the root that comes
/// after one, where it is to be put.
pub(crate) fn completed(
    alloc: Global,
    mut draft: Draft<'_>,
    listing: Vec<Listed>,
    image: Image,
    root: Root,
    body: usize,
) -> Result<Next, StoreFault>
    requires few { length listing.items < 2 ^ 16 }
    requires listable { All IsListable listing.items }
    requires below { root.sequence < sequence_max }
    ensures ok { (x : Kept) (layers : List FiledLayer)
        → x.root ≡ root → body ≡ body_at (other root) → IsMapOf (extents_in x) draft.entry.given
        → AreHeldApart (extents_listed x.listing) draft.entry.given → draft.entry.filed ≡ flat_map filed_of layers
        → Spell (kept_content x) layers (entries_of listing.items) (image_held image)
        → IfOk result (λ next. NextHolds x (image_held image) next) }
    ensures laid { (live : LiveContent) (layers : List FiledLayer) → draft.entry.filed ≡ flat_map filed_of layers
        → Spell live layers (entries_of listing.items) (image_held image)
        → IfOk result
        (λ next. IsLaidOut live draft.entry.given draft.entry.limit (image_held image)
        (sizes_in draft.entry ++ length ((catalog column_count).text (entries_of listing.items)) ∷ []) body next.root
        next.plan.items) }
    ensures calls { IfOk result (λ next. length next.plan.items ≡ length draft.entry.filed + 2) }
    ensures number { IfOk result (λ next. next.root.version ≡ image.number) }
    ensures next_tiles { IfOk result (λ next. (live_content next.live).tiles ≡ tiles_in image.table.value) }
    ensures placed { IfOk result
        (λ _. ArePlanned draft.entry.given draft.entry.limit
        (sizes_in draft.entry ++ length ((catalog column_count).text (entries_of listing.items)) ∷ [])) }
    ensures blocks { IfOk result (λ next. limit_of next.live.room.map ≡ draft.entry.limit) }
    ensures full { IsErrOf result StoreFault.Full
        → HasNoRunFor draft.entry (length ((catalog column_count).text (entries_of listing.items)) ∷ []) }
    ensures err { (live : LiveContent) (layers : List FiledLayer)
        → AreHeldApart (extents_listed live.listing) draft.entry.given → draft.entry.filed ≡ flat_map filed_of layers
        → Spell live layers (entries_of listing.items) (image_held image)
        → IfErr result (λ fault. (fault ≡ StoreFault.Full) ⊎ (fault ≡ StoreFault.OutOfMemory)) }
{
    let bytes = write_catalog(alloc, &listing)?;
    let catalog = draft.file(bytes)?;
    let (number, table) = image.into_table();
    let next = Root {
        is_old: false,
        sequence: root.sequence + 1,
        version: number,
        catalog,
    };
    let limit = draft.max_blocks();
    let live = match LiveRecords::new(alloc, catalog, listing, table, limit) {
        Ok(live) => live,
        Err(fault) => return Err(store_fault_of(fault)),
    };
    let mut writes = draft.into_writes(alloc)?;
    writes.push(Write {
        at: body,
        bytes: Vec::from_slice(alloc, &write_body(next))?,
    })?;
    Ok(Next {
        root: next,
        live,
        plan: writes,
    })
}
