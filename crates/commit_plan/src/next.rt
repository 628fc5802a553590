//! What a commit goes on to, and the plan that leads there.
ghost use Rattle.std.specs.Prelude.{◌≡◌, ◌⊎◌, ◌+◌, ◌<◌, length, IfOk, IfErr, IsErrOf, IsTrue};
ghost use Rattle.extent_map.specs.Taken.{taken_of, limit_of};
ghost use Rattle.store_terms.specs.Roots.{sequence_max};
ghost use Rattle.store_terms.specs.StandsFor.{body_at};
ghost use Rattle.root_reading.specs.RootRuns.{IsMapOf};
ghost use Rattle.commit_plan.specs.ImageHeld.{image_held};
ghost use Rattle.commit_plan.specs.Kept.{Kept, extents_in, other};
ghost use Rattle.commit_plan.specs.Next.{IsLaidOut, NextHolds};
ghost use Rattle.commit_plan.specs.Fitting.{HasRoom, HasNoRoom};
ghost use Rattle.layer_tiles.specs.Table.{tiles_in};
ghost use Rattle.commit_plan.specs.RecordPlaces.{AreKnown};
ghost use Rattle.commit_plan.specs.Staying.{kept_content};
ghost use Rattle.commit_plan.specs.Live.{live_content};
ghost use Rattle.commit_plan.specs.Sizes.{new_records, sizes_of};

use crate::catalog_and_body::completed;
use crate::draft::Draft;
use crate::fault::StoreFault;
use crate::image::Image;
use crate::live_records::LiveRecords;
use crate::record_places::file_layers;
use crate::write::Write;
use std::alloc::Global;
use store_terms::root::Root;

/// A root, its records, and the writes that lead to it.
#[derive(Debug, Drop)]
pub struct Next {
    pub root: Root,
    pub live: LiveRecords,
    pub plan: Vec<Write>,
}

/// What the commit of an image goes on to from a root and its records. Where the body is to be put is given: it is the
/// other slot's, or the writes don't lead there.
pub fn drafted(
    alloc: Global,
    image: Image,
    live: &LiveRecords,
    root: Root,
    body: usize,
    known: bool,
) -> Result<Next, StoreFault>
    requires below { root.sequence < sequence_max }
    // Where it is known that each tile of the image is the live root's, none is compared.
    requires known { IsTrue known → AreKnown (live_content live.now) (tiles_in image.table.value) }
    // The table that comes next is the image's.
    ensures next_tiles { IfOk result (λ next. (live_content next.live).tiles ≡ tiles_in image.table.value) }
    ensures ok { (x : Kept) → x.root ≡ root → body ≡ body_at (other root) → live_content live.now ≡ kept_content x
        → IsMapOf (extents_in x) (taken_of live.now.room.map)
        → IfOk result (λ next. NextHolds x (image_held image) next) }
    // The new records, the catalog and the body, in this order; each record and the catalog in the lowest free run, in
    // whole blocks. A record stays where the live root has an equal one, and only there.
    ensures laid { IfOk result
        (λ next. IsLaidOut (live_content live.now) (taken_of live.now.room.map) live.now.room.max_blocks
        (image_held image) (sizes_of (live_content live.now) image) body next.root next.plan.items) }
    // One write for each new record, the catalog and the body.
    ensures calls { IfOk result
        (λ next. length next.plan.items ≡ new_records (live_content live.now) (image_held image) + 2) }
    ensures number { IfOk result (λ next. next.root.version ≡ image.number) }
    ensures room { IfOk result (λ _. HasRoom live.now image) }
    // The blocks that the file may have stay as many.
    ensures blocks { IfOk result (λ next. limit_of next.live.room.map ≡ limit_of live.now.room.map) }
    ensures full { IsErrOf result StoreFault.Full → HasNoRoom live.now image }
    ensures err { IfErr result (λ fault. (fault ≡ StoreFault.Full) ⊎ (fault ≡ StoreFault.OutOfMemory)) }
{
    let mut draft = Draft::new(alloc, &live.room)?;
    let listing = file_layers(alloc, &mut draft, live, image.table(), known)?;
    completed(alloc, draft, listing, image, root, body)
}
