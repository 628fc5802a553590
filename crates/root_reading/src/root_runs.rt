//! The blocks that the records of a root take.
ghost use Rattle.std.specs.Prelude.{◌≡◌, ◌++◌, ◌∷◌, [], List, IfOk, OnOk};
ghost use Rattle.store_terms.specs.Listing.{entries_of, records_of};
ghost use Rattle.store_terms.specs.Places.{blocks, some_extents, extents_of_records, extents_listed};
ghost use Rattle.store_terms.specs.declared.root.RecordExtent as terms;
ghost use Rattle.root_reading.specs.RootRuns.{IsNear, AreRunsFor};

use extent_map::blocks_of;
use extent_map::extent::Extent as Run;
use std::alloc::{AllocError, Global};
use store_terms::catalog::{Listed, Records};
use store_terms::root::RecordExtent;

/// The run of blocks of an extent; some run where its end is no number of 64 bits.
fn run_of(extent: RecordExtent) -> Run
    ensures { IsNear extent → (result.block ≡ extent.block) × (result.blocks ≡ blocks extent.size) }
{
    if let Some(run) = Run::new(extent.block, blocks_of(extent.size)) {
        return run;
    }
    let Some(first) = Run::new(0, 1) else {
        unreachable!()
    };
    first
}

#[tactic(auto, using(crate::proofs::RootRunsLemmas::runs_more))]
fn add_run(runs: &mut Vec<Run>, extent: RecordExtent) -> Result<(), AllocError>
    ensures { (es : List terms.RecordExtent) → AreRunsFor es runs.old.items
        → OnOk result (AreRunsFor (es ++ extent ∷ []) runs.new.items) }
{
    runs.push(run_of(extent))?;
    Ok(())
}

/// Adds the run of each tile that is finished.
fn add_entries(runs: &mut Vec<Run>, entries: &[Option<RecordExtent>]) -> Result<(), AllocError>
    ensures { (es : List terms.RecordExtent) → AreRunsFor es runs.old.items
        → OnOk result (AreRunsFor (es ++ some_extents entries.now) runs.new.items) }
{
    for entry in entries.iter() {
        if let Some(extent) = entry {
            add_run(runs, *extent)?;
        }
    }
    Ok(())
}

/// Adds the runs of a layer's records.
fn add_records(runs: &mut Vec<Run>, records: &Records) -> Result<(), AllocError>
    ensures { (es : List terms.RecordExtent) → AreRunsFor es runs.old.items
        → OnOk result (AreRunsFor (es ++ extents_of_records (records_of records.now)) runs.new.items) }
{
    match records {
        Records::Base(extent) => add_run(runs, *extent),
        Records::Derived(extent, entries) => {
            add_run(runs, *extent)?;
            add_entries(runs, entries)
        }
    }
}

/// The runs of a catalog and of the records that it lists.
pub fn runs_of(
    alloc: Global,
    catalog: RecordExtent,
    listing: &[Listed],
) -> Result<Vec<Run>, AllocError>
    ensures { IfOk result (λ runs. AreRunsFor (catalog ∷ extents_listed (entries_of listing.now)) runs.items) }
{
    let mut runs = Vec::new(alloc);
    add_run(&mut runs, catalog)?;
    for layer in listing {
        add_records(&mut runs, &layer.records)?;
    }
    Ok(runs)
}
